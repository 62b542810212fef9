// Numbers in a line: decimal digits, with no needless zero in front.
ghost use Rattle.std.specs.Prelude.{◌≡◌};
ghost use Rattle.casefile.specs.Decimal.{number_in, ReadsBack};

// The number that a text writes, or none if the text is no number or the number is above the limit. Not by `parse`, which
// takes a sign and zeros in front.
pub fn read_number(text: &[u8], limit: u32) -> Option<u32>
    ensures result { result ≡ number_in text.now limit }
    ensures written { ReadsBack text.now limit result }
{
    // A number has a digit, and a zero in front only where it stands alone.
    if let [] | [b'0', _, ..] = text {
        return None;
    }
    let mut value: u64 = 0;
    for byte in text {
        if !byte.is_ascii_digit() {
            return None;
        }
        value = value * 10 + u64::from(*byte - b'0');
        // A number only grows with its digits, so that nothing is lost by stopping here.
        if value > u64::from(limit) {
            return None;
        }
    }
    Some(value as u32)
}
