// How far the next mark is, on which all reading rests.
ghost use Rattle.std.specs.Prelude.{◌≡◌, ◌≤◌, length};
ghost use Rattle.casefile.specs.Marks.{before};

// How many bytes stand before the first `mark`, or all of them where it does not occur.
pub(crate) fn count_before(bytes: &[u8], mark: u8) -> usize
    ensures result { result ≡ length (before mark bytes.now) }
    ensures within { result ≤ length bytes.now }
{
    bytes
        .iter()
        .position(|byte| *byte == mark)
        .unwrap_or(bytes.len())
}
