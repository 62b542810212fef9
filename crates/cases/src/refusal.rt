// Why a case refuses a call.
ghost use Rattle.std.specs.Prelude.{◌≡◌, Some};
ghost use Rattle.std.specs.Fmt.{decimal};
ghost use Rattle.cases.specs.Cases.{case_refusal_number, sheet_refusal_number};
ghost use Rattle.cases.specs.declared.refusal.CaseRefusal.TheVariants.{Letter as LetterRefused};

use normal_form::letter::LetterRefusal;
use std::error::Error;
use std::fmt;

// What whoever keeps the case may meet.
#[derive(Clone, Copy, Debug, PartialEq, Eq)]
pub enum CaseRefusal {
    TotalAboveLimit,
    EstateAboveTotal,
    ClassOutsideRange,
    Letter(LetterRefusal),
    SheetOut,
    ReservedNumber,
    NumberTaken,
    NumberNotOnTable,
    TableFull,
    NotWorked,
}

impl CaseRefusal {
    // The number under which the refusal is known and printed.
    pub fn number(&self) -> u8
        ensures result { result ≡ case_refusal_number self.now }
    {
        // A match and not the variants' own numbers, since a refused letter brings a number with it.
        match self {
            CaseRefusal::TotalAboveLimit => 3,
            CaseRefusal::EstateAboveTotal => 4,
            CaseRefusal::ClassOutsideRange => 5,
            CaseRefusal::Letter(refusal) => refusal.number(),
            CaseRefusal::SheetOut => 8,
            CaseRefusal::ReservedNumber => 9,
            CaseRefusal::NumberTaken => 10,
            CaseRefusal::NumberNotOnTable => 11,
            CaseRefusal::TableFull => 12,
            CaseRefusal::NotWorked => 13,
        }
    }
}

// A press answers the refusal of a bad letter.
impl From<LetterRefusal> for CaseRefusal {
    ghost from_gives = { λ letter refusal. refusal ≡ LetterRefused letter };

    fn from(letter: LetterRefusal) -> CaseRefusal {
        CaseRefusal::Letter(letter)
    }
}

impl fmt::Display for CaseRefusal {
    ghost output = { λ refusal. Some (decimal (case_refusal_number refusal)) };

    fn fmt<W: fmt::Write>(&self, f: &mut fmt::Formatter<W>) -> fmt::Result {
        write!(f, "{}", self.number())
    }
}

impl Error for CaseRefusal {}

// What whoever holds a sheet may meet, each with the number under which it is known and printed.
#[derive(Clone, Copy, Debug, PartialEq, Eq)]
pub enum SheetRefusal {
    OtherCase = 14,
    ListTooShort = 15,
}

impl SheetRefusal {
    pub fn number(&self) -> u8
        ensures result { result ≡ sheet_refusal_number self.now }
    {
        *self as u8
    }
}

impl fmt::Display for SheetRefusal {
    ghost output = { λ refusal. Some (decimal (sheet_refusal_number refusal)) };

    fn fmt<W: fmt::Write>(&self, f: &mut fmt::Formatter<W>) -> fmt::Result {
        write!(f, "{}", *self as u8)
    }
}

impl Error for SheetRefusal {}
