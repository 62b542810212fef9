// Proportion: the same part of each claim, rounded down, and the missing units to the first claims that were rounded.
ghost use Rattle.std.specs.Prelude.{◌≡◌, ◌*◌, ◌<◌, ◌≤◌, length};
ghost use Rattle.division.specs.Proportion.{part, rounded, proportion};
ghost use Rattle.division.specs.ProportionLawful.{proportion_lawful, prorated_room};

use crate::problem::Problem;
use crate::refusal::RuleRefusal;
use crate::rule::Rule;
use crate::share::{Share, hand_out};

// A claim's part of the estate, rounded down; a claim whose division left a remainder may get a unit more.
#[derive(Clone, Copy)]
struct Prorated {
    estate: u32,
    sum: u32,
    ghost covered: { estate ≤ sum },
    ghost some: { 0 < sum },
}

impl Prorated {
    // The claim times the estate: 32 bits times 32 bits fit 64 bits.
    fn whole(&self, claim: u32) -> u64
        ensures result { result ≡ claim * self.now.estate }
    {
        u64::from(claim) * u64::from(self.estate)
    }
}

impl Share for Prorated {
    ghost base = { λ s. part s.estate s.sum };

    ghost marked = { λ s. rounded s.estate s.sum };

    ghost room = { λ s. prorated_room s.estate s.sum s.covered s.some };

    fn part(&self, claim: u32) -> u32 {
        let sum = u64::from(self.sum);
        (self.whole(claim) / sum) as u32
    }

    fn marks(&self, claim: u32) -> bool {
        let whole = self.whole(claim);
        let sum = u64::from(self.sum);
        whole % sum > 0
    }
}

#[derive(Clone, Copy, Debug)]
pub struct Proportion;

impl Rule for Proportion {
    ghost awards = { λ _. proportion };

    ghost lawful = { λ _. proportion_lawful };

    fn divide(&self, claims: &[u32], estate: u32, out: &mut [u32]) -> Result<(), RuleRefusal> {
        let problem = Problem::new(claims, estate, out.len())?;
        if problem.sum == 0 {
            // Where the claims add up to nothing, every claim is 0, and so is its award.
            out.copy_from_slice(claims);
        } else {
            pay_parts(&problem, out);
        }
        Ok(())
    }
}

// Pays each claim its part, and the missing units to the first claims that were rounded.
fn pay_parts(problem: &Problem<'_>, out: &mut [u32])
    requires some { 0 < problem.now.sum }
    requires room { length out.old ≡ length problem.now.claims.now }
    ensures awards { out.new ≡ proportion problem.now.claims.now problem.now.estate }
{
    let Problem { estate, sum, .. } = *problem;
    let share = Prorated { estate, sum };
    let paid = problem.base_total(&share);
    hand_out(problem, &share, estate - paid, out);
}
