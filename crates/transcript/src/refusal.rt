// Why a line is refused, and what else whoever runs a file may meet.
ghost use Rattle.std.specs.Prelude.{◌≡◌, Some, decimal};
ghost use Rattle.transcript.specs.Outcomes.{refusal_number, run_number};
ghost use Rattle.transcript.specs.declared.refusal.Refusal.TheVariants.{Line, Letter, Case, Sheet};

use casefile::refusal::LineRefusal;
use cases::refusal::{CaseRefusal, SheetRefusal};
use normal_form::letter::LetterRefusal;
use std::error::Error;
use std::fmt;

// Who refuses a line: whoever reads it, whoever reads its letters, the case, or the case for want of its sheet.
#[derive(Clone, Copy, Debug)]
pub enum Refusal {
    Line(LineRefusal),
    Letter(LetterRefusal),
    Case(CaseRefusal),
    Sheet(SheetRefusal),
}

impl Refusal {
    // The number under which the refusal is known and printed.
    pub fn number(&self) -> u8
        ensures result { result ≡ refusal_number self.now }
    {
        // A match, since each of them brings a number with it.
        match self {
            Refusal::Line(refusal) => refusal.number(),
            Refusal::Letter(refusal) => refusal.number(),
            Refusal::Case(refusal) => refusal.number(),
            Refusal::Sheet(refusal) => refusal.number(),
        }
    }
}

impl From<LineRefusal> for Refusal {
    ghost from_gives = { λ e r. r ≡ Line e };

    fn from(refusal: LineRefusal) -> Refusal {
        Refusal::Line(refusal)
    }
}

impl From<LetterRefusal> for Refusal {
    ghost from_gives = { λ e r. r ≡ Letter e };

    fn from(refusal: LetterRefusal) -> Refusal {
        Refusal::Letter(refusal)
    }
}

impl From<CaseRefusal> for Refusal {
    ghost from_gives = { λ e r. r ≡ Case e };

    fn from(refusal: CaseRefusal) -> Refusal {
        Refusal::Case(refusal)
    }
}

impl From<SheetRefusal> for Refusal {
    ghost from_gives = { λ e r. r ≡ Sheet e };

    fn from(refusal: SheetRefusal) -> Refusal {
        Refusal::Sheet(refusal)
    }
}

// A refusal is printed as its number.
impl fmt::Display for Refusal {
    ghost output = { λ e. Some (decimal (refusal_number e)) };

    fn fmt<W: fmt::Write>(&self, f: &mut fmt::Formatter<W>) -> fmt::Result {
        write!(f, "{}", self.number())
    }
}

impl Error for Refusal {}

// What whoever runs a file may meet beside the refusals of its lines, with the number under which it is known and printed.
#[derive(Clone, Copy, Debug, PartialEq, Eq)]
pub enum RunRefusal {
    BufferTooShort = 20,
    FileTooLong = 21,
}

impl RunRefusal {
    // The number under which the refusal is known and printed.
    pub fn number(&self) -> u8
        ensures result { result ≡ run_number self.now }
    {
        *self as u8
    }
}

// A refusal is printed as its number.
impl fmt::Display for RunRefusal {
    ghost output = { λ e. Some (decimal (run_number e)) };

    fn fmt<W: fmt::Write>(&self, f: &mut fmt::Formatter<W>) -> fmt::Result {
        write!(f, "{}", *self as u8)
    }
}

impl Error for RunRefusal {}
