// The reader walks over the bytes of a case file, line by line. A line that it hands out is a part of the file itself,
// and lives as long as the file, not as the reader.
ghost use Rattle.std.specs.Prelude.{◌≡◌, MatchOption};
ghost use Rattle.casefile.specs.Lines.{NextLine, NoLine};

use crate::bytes::count_before;

// The byte that ends a line.
const LINE_END: u8 = b'\n';

#[derive(Drop)]
pub struct Reader<'a> {
    file: &'a [u8],
    place: usize,
}

impl<'a> Reader<'a> {
    // A reader at the first byte of a file.
    pub fn new(file: &'a [u8]) -> Reader<'a>
        ensures file { result.file.now ≡ file.now }
        ensures place { result.place ≡ 0 }
    {
        Reader { file, place: 0 }
    }

    // The next line, without the byte that ends it, or none at the end of the file.
    pub fn next_line(&mut self) -> Option<&'a [u8]>
        ensures file { self.new.file.now ≡ self.old.file.now }
        ensures line { MatchOption result (NoLine self.old.file.now self.old.place self.new.place) (λ line. NextLine self.old.file.now self.old.place line.now self.new.place) }
    {
        let length = self.file.len();
        if self.place >= length {
            return None;
        }
        let end = self.place + count_before(&self.file[self.place..], LINE_END);
        let line = &self.file[self.place..end];
        // Only the last line may lack its line end.
        self.place = length.min(end + 1);
        Some(line)
    }
}
