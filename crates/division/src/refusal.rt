// Why a rule refuses a problem. Each refusal stands beside the number under which it is known and printed.
ghost use Rattle.std.specs.Prelude.{◌≡◌, Some, decimal};
ghost use Rattle.division.specs.Refusals.{rule_number};

use std::error::Error;
use std::fmt;

#[derive(Clone, Copy, Debug, PartialEq, Eq)]
pub enum RuleRefusal {
    TooManyClaims = 1,
    AwardListLength = 2,
    TotalAboveLimit = 3,
    EstateAboveTotal = 4,
}

impl RuleRefusal {
    // The number under which the refusal is known and printed.
    pub fn number(&self) -> u8
        ensures result { result ≡ rule_number self.now }
    {
        *self as u8
    }
}

impl fmt::Display for RuleRefusal {
    ghost output = { λ refusal. Some (decimal (rule_number refusal)) };

    fn fmt<W: fmt::Write>(&self, f: &mut fmt::Formatter<W>) -> fmt::Result {
        self.number().fmt(f)
    }
}

impl Error for RuleRefusal {}
