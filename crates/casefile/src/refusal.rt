// Why a line is refused before anyone is called.
ghost use Rattle.std.specs.Prelude.{◌≡◌, Some, decimal};
ghost use Rattle.casefile.specs.LineRefusals.{line_number};

use std::error::Error;
use std::fmt;

// Each refusal has the number under which it is known and printed.
#[derive(Clone, Copy, Debug, PartialEq, Eq)]
pub enum LineRefusal {
    TooLong = 16,
    UnknownForm = 17,
    BadNumber = 18,
    UnknownRule = 19,
}

impl LineRefusal {
    // The number under which the refusal is known and printed.
    pub fn number(&self) -> u8
        ensures result { result ≡ line_number self.now }
    {
        *self as u8
    }
}

// A refusal is printed as its number.
impl fmt::Display for LineRefusal {
    ghost output = { λ e. Some (decimal (line_number e)) };

    fn fmt<W: fmt::Write>(&self, f: &mut fmt::Formatter<W>) -> fmt::Result {
        write!(f, "{}", self.number())
    }
}

impl Error for LineRefusal {}
