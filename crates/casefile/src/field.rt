// Fields of a line, one by one. A field is a part of the line, not a copy.
ghost use Rattle.std.specs.Prelude.{◌≡◌};
ghost use Rattle.std.specs.Iterator.{YieldsFirstRef, item_count};
ghost use Rattle.casefile.specs.Fields.{fields, fields_left};

use crate::bytes::count_before;

// The byte that parts two fields.
const COMMA: u8 = b',';

// The fields of a line that are still to come: those of the text behind the last comma that was passed, if there is one.
#[derive(Drop)]
pub(crate) struct Fields<'a> {
    rest: Option<&'a [u8]>,
}

impl<'a> Fields<'a> {
    // All fields of a line.
    pub(crate) fn new(line: &'a [u8]) -> Fields<'a>
        ensures result { fields_left result.rest ≡ fields line.now }
    {
        Fields { rest: Some(line) }
    }
}

impl<'a> Iterator for Fields<'a> {
    type Item = &'a [u8];

    ghost next_gives = { YieldsFirstRef (λ f. fields_left f.rest) };

    ghost remaining = { item_count (λ f. fields_left f.rest) };

    fn next(&mut self) -> Option<&'a [u8]> {
        let text = self.rest?;
        let count = count_before(text, COMMA);
        // Where no comma stands behind the field, nothing does.
        self.rest = text.get(count + 1..);
        Some(&text[..count])
    }
}
