// Priority: the claims in listed order, each paid as far as what is left goes.
ghost use Rattle.std.specs.Prelude.{◌≡◌, length};
ghost use Rattle.division.specs.Priority.{priority};
ghost use Rattle.division.specs.PriorityLawful.{priority_lawful};

use crate::problem::check;
use crate::refusal::RuleRefusal;
use crate::rule::Rule;

#[derive(Clone, Copy, Debug)]
pub struct Priority;

impl Rule for Priority {
    ghost awards = { λ _. priority };

    ghost lawful = { λ _. priority_lawful };

    fn divide(&self, claims: &[u32], estate: u32, out: &mut [u32]) -> Result<(), RuleRefusal> {
        check(claims, estate, out.len())?;
        pay_in_turn(claims, estate, out);
        Ok(())
    }
}

// Gives each claim in turn, with its place, the smaller of itself and what is left: a rule of the project.
fn pay_in_turn(claims: &[u32], estate: u32, out: &mut [u32])
    requires { length out.old ≡ length claims.now }
    ensures awards { out.new ≡ priority claims.now estate }
{
    let mut left = estate;
    for (i, claim) in claims.iter().enumerate() {
        let award = left.min(*claim);
        out[i] = award;
        left -= award;
    }
}
