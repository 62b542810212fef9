// Minimal rights first: each claimant gets what no other could dispute, and the rule below shares the rest.
ghost use Rattle.std.specs.Prelude.{◌≡◌};
ghost use Rattle.operators.specs.Operators.{minimal_rights};
ghost use Rattle.operators.specs.RightsLawful.{minimal_rights_lawful};

use crate::amounts::{add_to, cut_claims, rights_of, total_of};
use division::problem::{MOST_CLAIMS, Problem};
use division::refusal::RuleRefusal;
use division::rule::Rule;

#[derive(Drop)]
pub struct MinimalRights<R> {
    rule: R,
}

// Each layer has a `new` and an `into_rule` of its own: that each operator is a generic struct is a rule of the project.
impl<R> MinimalRights<R> {
    pub fn new(rule: R) -> Self
        ensures result { result.rule ≡ rule }
    {
        MinimalRights { rule }
    }

    pub fn into_rule(self) -> R
        ensures result { result ≡ self.rule }
    {
        let MinimalRights { rule } = self;
        rule
    }
}

impl<R: Rule> Rule for MinimalRights<R> {
    ghost awards = { λ s. minimal_rights (R.Rule.awards s.rule) };

    ghost lawful = { λ s. minimal_rights_lawful (R.Rule.awards s.rule) (R.Rule.lawful s.rule) };

    fn divide(&self, claims: &[u32], estate: u32, out: &mut [u32]) -> Result<(), RuleRefusal> {
        let problem = Problem::new(claims, estate, out.len())?;
        let loss = problem.loss();
        let mut own_scratch = [0; MOST_CLAIMS];
        let own = &mut own_scratch[..problem.claims.len()];
        rights_of(&problem, loss, own);
        let own_total = total_of(own);
        // A claim less its right is what the loss can reach of it.
        let mut rest_scratch = [0; MOST_CLAIMS];
        let rest = &mut rest_scratch[..problem.claims.len()];
        cut_claims(&problem, loss, rest);
        self.rule.divide(rest, estate - own_total, out)?;
        add_to(own, out);
        Ok(())
    }
}
