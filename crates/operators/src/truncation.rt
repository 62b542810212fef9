// Truncation: no claim counts for more than the whole estate.
ghost use Rattle.std.specs.Prelude.{◌≡◌};
ghost use Rattle.operators.specs.Operators.{truncation};
ghost use Rattle.operators.specs.TruncationLawful.{truncation_lawful};

use crate::amounts::cut_claims;
use division::problem::{MOST_CLAIMS, Problem};
use division::refusal::RuleRefusal;
use division::rule::Rule;

#[derive(Drop)]
pub struct Truncation<R> {
    rule: R,
}

// Each layer has a `new` and an `into_rule` of its own: that each operator is a generic struct is a rule of the project.
impl<R> Truncation<R> {
    pub fn new(rule: R) -> Self
        ensures result { result.rule ≡ rule }
    {
        Truncation { rule }
    }

    pub fn into_rule(self) -> R
        ensures result { result ≡ self.rule }
    {
        let Truncation { rule } = self;
        rule
    }
}

impl<R: Rule> Rule for Truncation<R> {
    ghost awards = { λ s. truncation (R.Rule.awards s.rule) };

    ghost lawful = { λ s. truncation_lawful (R.Rule.awards s.rule) (R.Rule.lawful s.rule) };

    fn divide(&self, claims: &[u32], estate: u32, out: &mut [u32]) -> Result<(), RuleRefusal> {
        let problem = Problem::new(claims, estate, out.len())?;
        let mut scratch = [0; MOST_CLAIMS];
        let all_cut = &mut scratch[..problem.claims.len()];
        cut_claims(&problem, estate, all_cut);
        self.rule.divide(all_cut, estate, out)
    }
}
