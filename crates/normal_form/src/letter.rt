// The letters d, t, m, s and r, each of which names an operator.
ghost use Rattle.std.specs.Prelude.{◌≡◌, Some, decimal};
ghost use Rattle.normal_form.specs.Letters.{letter_of, letter_number, known};

use std::error::Error;
use std::fmt;

#[derive(Clone, Copy, Debug, PartialEq, Eq)]
pub enum Operator {
    Dual,
    Truncation,
    MinimalRights,
    Seniority,
    ReverseSeniority,
}

// Why a string of letters is refused, with the number under which the refusal is known and printed.
#[derive(Clone, Copy, Debug, PartialEq, Eq)]
pub enum LetterRefusal {
    UnknownLetter = 7,
}

impl LetterRefusal {
    // The number under which the refusal is known and printed.
    pub fn number(&self) -> u8
        ensures result { result ≡ letter_number self.now }
    {
        *self as u8
    }
}

impl fmt::Display for LetterRefusal {
    ghost output = { λ refusal. Some (decimal (letter_number refusal)) };

    fn fmt<W: fmt::Write>(&self, f: &mut fmt::Formatter<W>) -> fmt::Result {
        self.number().fmt(f)
    }
}

impl Error for LetterRefusal {}

impl TryFrom<u8> for Operator {
    type Error = LetterRefusal;

    ghost try_from_gives = { λ byte result. result ≡ known (letter_of byte) };

    fn try_from(byte: u8) -> Result<Operator, LetterRefusal> {
        match byte as char {
            'd' => Ok(Operator::Dual),
            't' => Ok(Operator::Truncation),
            'm' => Ok(Operator::MinimalRights),
            's' => Ok(Operator::Seniority),
            'r' => Ok(Operator::ReverseSeniority),
            _ => Err(LetterRefusal::UnknownLetter),
        }
    }
}

// The operator that a letter names.
pub fn read_letter(byte: u8) -> Result<Operator, LetterRefusal>
    ensures result { result ≡ known (letter_of byte) }
{
    Operator::try_from(byte)
}
