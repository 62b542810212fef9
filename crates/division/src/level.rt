// The level up to which equal awards pay every claim, and the rest that single units make up.
ghost use Rattle.std.specs.Prelude.{◌≡◌, ◌-◌, min, nat_lt};
ghost use Rattle.division.specs.Amounts.{total, cut};
ghost use Rattle.division.specs.EqualAwards.{largest, Level, Holds};
ghost use Rattle.division.specs.EqualAwardsLawful.{capped_room};

use crate::problem::Problem;
use crate::share::Share;

// Pays a claim up to the level; a claim above it may get a unit more.
#[derive(Clone, Copy)]
pub(crate) struct Capped {
    pub(crate) level: u32,
}

impl Share for Capped {
    ghost base = { λ s c. min c s.level };

    ghost marked = { λ s c. nat_lt s.level c };

    ghost room = { λ s. capped_room s.level };

    fn part(&self, claim: u32) -> u32 {
        claim.min(self.level)
    }

    fn marks(&self, claim: u32) -> bool {
        self.level < claim
    }
}

// The largest claim, 0 where there is none.
#[tactic(auto, using(crate::proofs::Turns::largest_folded))]
fn largest_claim(claims: &[u32]) -> u32
    ensures result { result ≡ largest claims.now }
{
    claims.iter().fold(0, |most, claim| most.max(*claim))
}

// The level and the rest, where the level is known to lie from `low` to `high` and the claims capped at `low` take
// `taken`. Each turn hands on the half of the range that still holds the level.
fn level_between(problem: &Problem<'_>, low: u32, high: u32, taken: u32) -> (u32, u32)
    requires holds { Holds problem.now.claims.now problem.now.estate low high taken }
    ensures level { Level problem.now.claims.now problem.now.estate result.0 }
    ensures rest { result.1 ≡ problem.now.estate - total (cut result.0 problem.now.claims.now) }
{
    if low >= high {
        return (low, problem.estate - taken);
    }
    let middle = high - (high - low) / 2;
    let capped = problem.base_total(&Capped { level: middle });
    if capped <= problem.estate {
        level_between(problem, middle, high, capped)
    } else {
        level_between(problem, low, middle - 1, taken)
    }
}

// The level of equal awards and what the claims capped there leave of the estate.
pub(crate) fn find_level(problem: &Problem<'_>) -> (u32, u32)
    ensures level { Level problem.now.claims.now problem.now.estate result.0 }
    ensures rest { result.1 ≡ problem.now.estate - total (cut result.0 problem.now.claims.now) }
{
    level_between(problem, 0, largest_claim(problem.claims), 0)
}
