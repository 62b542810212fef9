// Duality: a rule that shares the loss where the rule below shares the estate.
ghost use Rattle.std.specs.Prelude.{◌≡◌};
ghost use Rattle.operators.specs.Operators.{dual};
ghost use Rattle.operators.specs.DualLawful.{dual_lawful};

use division::amounts::less_awards;
use division::problem::Problem;
use division::refusal::RuleRefusal;
use division::rule::Rule;

#[derive(Drop)]
pub struct Dual<R> {
    rule: R,
}

// Each layer has a `new` and an `into_rule` of its own: that each operator is a generic struct is a rule of the project.
impl<R> Dual<R> {
    pub fn new(rule: R) -> Self
        ensures result { result.rule ≡ rule }
    {
        Dual { rule }
    }

    pub fn into_rule(self) -> R
        ensures result { result ≡ self.rule }
    {
        let Dual { rule } = self;
        rule
    }
}

impl<R: Rule> Rule for Dual<R> {
    ghost awards = { λ s. dual (R.Rule.awards s.rule) };

    ghost lawful = { λ s. dual_lawful (R.Rule.awards s.rule) (R.Rule.lawful s.rule) };

    fn divide(&self, claims: &[u32], estate: u32, out: &mut [u32]) -> Result<(), RuleRefusal> {
        let problem = Problem::new(claims, estate, out.len())?;
        let loss = problem.loss();
        self.rule.divide(claims, loss, out)?;
        less_awards(claims, out);
        Ok(())
    }
}
