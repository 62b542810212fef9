// Seniority and its reverse: the classes are served one after the other, each out of what the others left.
ghost use Rattle.std.specs.Prelude.{◌≡◌, ◌+◌, ◌-◌, ◌≤◌, length, take, if◌then◌else◌, nat_eq, Ok, IfOk, MatchResult};
ghost use Rattle.division.specs.Amounts.{total, plus};
ghost use Rattle.division.specs.Problem.{most_claims, most_total};
ghost use Rattle.operators.specs.Operators.{Classed, of_class, served};
ghost use Rattle.operators.specs.Classes.{order_of, kept, ServeAlike};
ghost use Rattle.operators.specs.ClassLaws.{class_share};
ghost use Rattle.operators.specs.ClassListLaws.{order_once};
ghost use Rattle.operators.specs.SeniorityLawful.{served_lawful};
ghost use Rattle.operators.specs.declared.classes.ClassRefusal.TheVariants.{ClassOutsideRange};

use crate::amounts::{add_to, total_of};
use crate::classes::{ClassOrder, ClassRefusal, check_classes, keep};
use division::problem::{MOST_CLAIMS, Problem};
use division::refusal::RuleRefusal;
use division::rule::Rule;

// The layer keeps a class for each place that a problem can have.
#[derive(Drop)]
pub struct Seniority<R> {
    rule: R,
    order: ClassOrder,
    classes: [u8; MOST_CLAIMS],
    ghost classed: { Classed classes },
}

impl<R> Seniority<R> {
    // A class outside 1 to 8 anywhere in the list hands the rule back.
    pub fn new(rule: R, order: ClassOrder, classes: &[u8]) -> Result<Self, (R, ClassRefusal)>
        ensures result { MatchResult result (λ layer. (layer.rule ≡ rule) × (layer.order ≡ order) × (layer.classes ≡ kept classes.now)) (λ back. (back.0 ≡ rule) × (back.1 ≡ ClassOutsideRange)) }
        ensures accepted { MatchResult result (λ _. Classed classes.now) (λ _. Classed classes.now → ⊥) }
        ensures meaning { IfOk result (λ layer. ServeAlike (order_of order) layer.classes (take most_claims classes.now) × ServeAlike (order_of order) layer.classes classes.now) }
    {
        match check_classes(classes) {
            Ok(()) => Ok(Seniority {
                rule,
                order,
                classes: keep(classes),
            }),
            Err(refusal) => Err((rule, refusal)),
        }
    }

    pub fn into_rule(self) -> R
        ensures result { result ≡ self.rule }
    {
        let Seniority {
            rule,
            order: _,
            classes: _,
        } = self;
        rule
    }

    // Writes the claims of one class, with nothing at the other places.
    fn claims_of(&self, class: u8, problem: &Problem<'_>, out: &mut [u32])
        requires room { length out.old ≡ length problem.now.claims.now }
        ensures claims { out.new ≡ of_class class self.now.classes problem.now.claims.now }
    {
        // By place: a proof knows nothing of what a loop over iter_mut().zip(..) wrote.
        for (place, claim) in problem.claims.iter().enumerate() {
            out[place] = claim_in(*claim, self.classes[place], class);
        }
    }
}

// What a claim of the class `own` counts for while `class` is served.
fn claim_in(claim: u32, own: u8, class: u8) -> u32
    ensures result { result ≡ (if nat_eq own class then claim else 0) }
{
    if own == class { claim } else { 0 }
}

impl<R: Rule> Seniority<R> {
    // Serves one class: adds to the awards what the rule makes of the class's share of what is left, and answers what is
    // left for the classes after it.
    fn serve(
        &self,
        class: u8,
        problem: &Problem<'_>,
        left: u32,
        awards: &mut [u32],
    ) -> Result<u32, RuleRefusal>
        requires long { length awards.old ≡ length problem.now.claims.now }
        requires room { total awards.old + left ≤ most_total }
        ensures result { result ≡ Ok (left - class_share class self.now.classes problem.now.claims.now left) }
        ensures awards { awards.new ≡ plus (R.Rule.awards self.now.rule (of_class class self.now.classes problem.now.claims.now) (class_share class self.now.classes problem.now.claims.now left)) awards.old }
    {
        let mut mine_scratch = [0; MOST_CLAIMS];
        let mine = &mut mine_scratch[..problem.claims.len()];
        self.claims_of(class, problem, mine);
        let share = total_of(mine).min(left);
        let mut part_scratch = [0; MOST_CLAIMS];
        let part = &mut part_scratch[..problem.claims.len()];
        self.rule.divide(mine, share, part)?;
        add_to(part, awards);
        Ok(left - share)
    }
}

impl<R: Rule> Rule for Seniority<R> {
    ghost awards = { λ s. served (order_of s.order) s.classes (R.Rule.awards s.rule) };

    ghost lawful = { λ s. served_lawful (order_of s.order) s.classes (order_once s.order) s.classed (R.Rule.awards s.rule) (R.Rule.lawful s.rule) };

    fn divide(&self, claims: &[u32], estate: u32, out: &mut [u32]) -> Result<(), RuleRefusal> {
        let problem = Problem::new(claims, estate, out.len())?;
        out.fill(0);
        let mut left = problem.estate;
        for class in self.order.classes() {
            left = self.serve(class, &problem, left, out)?;
        }
        Ok(())
    }
}
