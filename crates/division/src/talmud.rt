// The Talmud rule, after Aumann and Maschler (1985): equal awards on half the claims while the estate is small, equal
// losses on the other half while it is large.
ghost use Rattle.std.specs.Prelude.{◌≡◌, ◌+◌, ◌≤◌, length};
ghost use Rattle.division.specs.Amounts.{total, less};
ghost use Rattle.division.specs.EqualAwards.{equal_awards};
ghost use Rattle.division.specs.Units.{how_many};
ghost use Rattle.division.specs.Talmud.{half, odd, halves, talmud};
ghost use Rattle.division.specs.TalmudLawful.{talmud_lawful, halved_room};

use crate::amounts::less_awards;
use crate::equal_awards::pay_equally;
use crate::problem::{MOST_CLAIMS, Problem};
use crate::refusal::RuleRefusal;
use crate::rule::Rule;
use crate::share::{Share, hand_out};

// Half of a claim, rounded down; an odd claim may get a unit more.
#[derive(Clone, Copy)]
struct Halved;

impl Share for Halved {
    ghost base = { λ _. half };

    ghost marked = { λ _. odd };

    ghost room = { λ _. halved_room };

    fn part(&self, claim: u32) -> u32 {
        claim / 2
    }

    fn marks(&self, claim: u32) -> bool {
        claim % 2 == 1
    }
}

#[derive(Clone, Copy, Debug)]
pub struct Talmud;

impl Rule for Talmud {
    ghost awards = { λ _. talmud };

    ghost lawful = { λ _. talmud_lawful };

    fn divide(&self, claims: &[u32], estate: u32, out: &mut [u32]) -> Result<(), RuleRefusal> {
        let problem = Problem::new(claims, estate, out.len())?;
        pay_by_range(&problem, out);
        Ok(())
    }
}

// The halves decide in which range the estate lies.
fn pay_by_range(problem: &Problem<'_>, out: &mut [u32])
    requires room { length out.old ≡ length problem.now.claims.now }
    ensures awards { out.new ≡ talmud problem.now.claims.now problem.now.estate }
{
    let estate = problem.estate;
    let middle = problem.base_total(&Halved);
    if estate <= middle {
        pay_on_halves(problem, estate, out);
    } else if estate >= middle + problem.marked_count(&Halved) {
        pay_losses(problem, problem.loss(), out);
    } else {
        hand_out(problem, &Halved, estate - middle, out);
    }
}

// Each claim less an equal award of the loss on its half.
fn pay_losses(problem: &Problem<'_>, loss: u32, out: &mut [u32])
    requires covered { loss ≤ total (halves problem.now.claims.now) }
    requires room { length out.old ≡ length problem.now.claims.now }
    ensures awards { out.new ≡ less problem.now.claims.now (equal_awards (halves problem.now.claims.now) loss) }
{
    pay_on_halves(problem, loss, out);
    less_awards(problem.claims, out);
}

// Equal awards on half of each claim.
fn pay_on_halves(problem: &Problem<'_>, shared: u32, out: &mut [u32])
    requires covered { shared ≤ total (halves problem.now.claims.now) }
    requires room { length out.old ≡ length problem.now.claims.now }
    ensures awards { out.new ≡ equal_awards (halves problem.now.claims.now) shared }
{
    let mut scratch = [0; MOST_CLAIMS];
    let halves = &mut scratch[..problem.claims.len()];
    problem.write_parts(&Halved, halves);
    let halved = Problem {
        claims: halves,
        estate: shared,
        sum: problem.base_total(&Halved),
    };
    pay_equally(&halved, out);
}
