// The interface that stands for every division rule.
ghost use Rattle.std.specs.Prelude.{◌≡◌, ℕ, List, length};
ghost use Rattle.division.specs.Problem.{Meaning, Lawful};
ghost use Rattle.division.specs.Refusals.{due, answer, unless_due};

use crate::refusal::RuleRefusal;

// A rule means one fixed list of awards for each sound problem, worked out from the claims, the estate and what the
// rule itself holds. Asking a rule changes nothing.
pub trait Rule {
    // The awards that the rule stands for.
    ghost awards: { Self → Meaning };

    // Each award lies between 0 and its claim, and the awards add up to the estate.
    ghost lawful: { (s : Self) → Lawful (awards s) };

    // Writes the awards into `out`, which has a place for each claim, or refuses and leaves it as it was. The claims and the
    // estate come one by one and not as a `Problem`, since nobody has tested them yet.
    fn divide(&self, claims: &[u32], estate: u32, out: &mut [u32]) -> Result<(), RuleRefusal>
        ensures result { result ≡ answer (due claims.now estate (length out.old)) tt }
        ensures awards { out.new ≡ unless_due (due claims.now estate (length out.old)) (awards self.now claims.now estate) out.old };
}
