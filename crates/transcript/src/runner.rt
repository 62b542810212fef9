// A runner takes the lines of a file one after the other against a new case. It holds the sheet while it is out, so it can
// not be let go: finishing it returns the sheet.
ghost use Rattle.std.specs.Prelude.{◌≤◌, length};

use crate::in_hand::CaseInHand;
use crate::outcome::Outcome;
use crate::refusal::RunRefusal;
use casefile::reader::Reader;
use std::alloc::AllocError;

pub mod running;

pub struct Runner<'a> {
    reader: Reader<'a>,
    // How many lines were read.
    count: usize,
    hand: CaseInHand,
    ghost counted: { count ≤ reader.place },
    ghost short: { length reader.file.now ≤ 32768 },
}

// What running a line comes to, and how many bytes of text it wrote.
#[derive(Drop)]
pub struct Printed {
    pub outcome: Outcome,
    pub bytes: usize,
}

// Why a file is not opened. Want of memory has no number.
#[derive(Debug, Drop)]
pub enum OpenRefusal {
    Refused(RunRefusal),
    NoMemory(AllocError),
}

impl From<RunRefusal> for OpenRefusal {
    ghost use Rattle.std.specs.Prelude.{◌≡◌};
    ghost use Rattle.transcript.specs.declared.runner.OpenRefusal.TheVariants.{Refused};

    ghost from_gives = { λ e r. r ≡ Refused e };

    fn from(refusal: RunRefusal) -> OpenRefusal {
        OpenRefusal::Refused(refusal)
    }
}

impl From<AllocError> for OpenRefusal {
    ghost use Rattle.std.specs.Prelude.{◌≡◌};
    ghost use Rattle.transcript.specs.declared.runner.OpenRefusal.TheVariants.{NoMemory};

    ghost from_gives = { λ e r. r ≡ NoMemory e };

    fn from(error: AllocError) -> OpenRefusal {
        OpenRefusal::NoMemory(error)
    }
}
