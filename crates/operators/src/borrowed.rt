// A layer over a rule that someone else keeps: what it awards is what that rule awards.
ghost use Rattle.std.specs.Prelude.{◌≡◌};

use division::refusal::RuleRefusal;
use division::rule::Rule;

// A lent rule. Other layers hold the rule below them by value; this one lets them lie over a rule that cannot be
// handed over.
#[derive(Drop)]
pub struct Borrowed<'a, R> {
    rule: &'a R,
}

impl<'a, R> Borrowed<'a, R> {
    pub fn new(rule: &'a R) -> Self
        ensures result { result.rule.now ≡ rule.now }
    {
        Borrowed { rule }
    }
}

impl<'a, R: Rule> Rule for Borrowed<'a, R> {
    ghost awards = { λ s. R.Rule.awards s.rule.now };

    ghost lawful = { λ s. R.Rule.lawful s.rule.now };

    fn divide(&self, claims: &[u32], estate: u32, out: &mut [u32]) -> Result<(), RuleRefusal> {
        self.rule.divide(claims, estate, out)
    }
}
