// Equal awards: the same for all, but no more than the claim.
ghost use Rattle.std.specs.Prelude.{◌≡◌, length};
ghost use Rattle.division.specs.EqualAwards.{equal_awards};
ghost use Rattle.division.specs.EqualAwardsLawful.{equal_awards_lawful};

use crate::level::{Capped, find_level};
use crate::problem::Problem;
use crate::refusal::RuleRefusal;
use crate::rule::Rule;
use crate::share::hand_out;

#[derive(Clone, Copy, Debug)]
pub struct EqualAwards;

impl Rule for EqualAwards {
    ghost awards = { λ _. equal_awards };

    ghost lawful = { λ _. equal_awards_lawful };

    fn divide(&self, claims: &[u32], estate: u32, out: &mut [u32]) -> Result<(), RuleRefusal> {
        let problem = Problem::new(claims, estate, out.len())?;
        pay_equally(&problem, out);
        Ok(())
    }
}

// Pays each claim up to the level, and a unit of the rest to each of the first claims above it.
pub(crate) fn pay_equally(problem: &Problem<'_>, out: &mut [u32])
    requires room { length out.old ≡ length problem.now.claims.now }
    ensures awards { out.new ≡ equal_awards problem.now.claims.now problem.now.estate }
{
    let (level, rest) = find_level(problem);
    hand_out(problem, &Capped { level }, rest, out);
}
