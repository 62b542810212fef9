// The kinds of a line. A line is known by its first field and the number of its fields.
ghost use Rattle.std.specs.Prelude.{◌≡◌};
ghost use Rattle.casefile.specs.Fields.{fields};
ghost use Rattle.casefile.specs.LineKinds.{kind, kind_of_one, kind_of_two, kind_of_three, kind_of_four, kind_by_fields, line_kind};
ghost use Rattle.casefile.specs.LineRefusals.{seen_as};

use crate::field::Fields;
use crate::refusal::LineRefusal;

// The most bytes that a line may have, its line end not counted.
pub const MOST_LINE: usize = 80;

// The byte with which a remark begins.
const REMARK: u8 = b'#';

// A line of a known kind; the parts are bytes of the line itself, not yet read.
#[derive(Clone, Copy, Debug, PartialEq, Eq)]
pub enum Line<'a> {
    Claim {
        number: &'a [u8],
        amount: &'a [u8],
        class: &'a [u8],
    },
    Amend {
        number: &'a [u8],
        amount: &'a [u8],
    },
    Fund(&'a [u8]),
    Press(&'a [u8]),
    Divide(&'a [u8]),
    Draw,
    Sign,
    Return,
    Compare(&'a [u8], &'a [u8]),
    Remark,
}

// The kind of a line, or why it has none.
pub fn kind_of(line: &[u8]) -> Result<Line<'_>, LineRefusal>
    ensures result { seen_as kind result ≡ line_kind line.now }
{
    if line.len() > MOST_LINE {
        return Err(LineRefusal::TooLong);
    }
    match line {
        [REMARK, ..] => Ok(Line::Remark),
        _ => by_fields(line),
    }
}

// The kind of a line, by its fields; no line has more than four. The words are told apart by a function for each number
// of fields: one match over the words too was tried, and the proof of its refusing rest didn't close.
fn by_fields(line: &[u8]) -> Result<Line<'_>, LineRefusal>
    ensures result { seen_as kind result ≡ kind_by_fields (fields line.now) }
{
    let mut fields = Fields::new(line);
    match (
        fields.next(),
        fields.next(),
        fields.next(),
        fields.next(),
        fields.next(),
    ) {
        (Some(word), None, _, _, _) => of_one(word),
        (Some(word), Some(first), None, _, _) => of_two(word, first),
        (Some(word), Some(first), Some(second), None, _) => of_three(word, first, second),
        (Some(word), Some(first), Some(second), Some(third), None) => {
            of_four(word, first, second, third)
        }
        _ => Err(LineRefusal::UnknownForm),
    }
}

// The lines of one field.
fn of_one<'a>(word: &[u8]) -> Result<Line<'a>, LineRefusal>
    ensures result { seen_as kind result ≡ kind_of_one word.now }
{
    match word {
        b"draw" => Ok(Line::Draw),
        b"sign" => Ok(Line::Sign),
        b"return" => Ok(Line::Return),
        _ => Err(LineRefusal::UnknownForm),
    }
}

// The lines of two fields.
fn of_two<'a>(word: &[u8], first: &'a [u8]) -> Result<Line<'a>, LineRefusal>
    ensures result { seen_as kind result ≡ kind_of_two word.now first.now }
{
    match word {
        b"fund" => Ok(Line::Fund(first)),
        b"press" => Ok(Line::Press(first)),
        b"divide" => Ok(Line::Divide(first)),
        _ => Err(LineRefusal::UnknownForm),
    }
}

// The lines of three fields.
fn of_three<'a>(word: &[u8], first: &'a [u8], second: &'a [u8]) -> Result<Line<'a>, LineRefusal>
    ensures result { seen_as kind result ≡ kind_of_three word.now first.now second.now }
{
    match word {
        b"amend" => Ok(Line::Amend {
            number: first,
            amount: second,
        }),
        b"compare" => Ok(Line::Compare(first, second)),
        _ => Err(LineRefusal::UnknownForm),
    }
}

// The lines of four fields.
fn of_four<'a>(
    word: &[u8],
    first: &'a [u8],
    second: &'a [u8],
    third: &'a [u8],
) -> Result<Line<'a>, LineRefusal>
    ensures result { seen_as kind result ≡ kind_of_four word.now first.now second.now third.now }
{
    match word {
        b"claim" => Ok(Line::Claim {
            number: first,
            amount: second,
            class: third,
        }),
        _ => Err(LineRefusal::UnknownForm),
    }
}
