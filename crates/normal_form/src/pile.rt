// Applying a string of letters to a rule. A pile is such a string: the first letter lies next to the rule, the last is
// outermost.
ghost use Rattle.std.specs.Prelude.{◌≡◌, true, length, Some, MatchResult, decimal};
ghost use Rattle.division.specs.Refusals.{SmallestOf, answer, unless_due};
ghost use Rattle.normal_form.specs.declared.pile.PileRefusal.TheVariants.{Rule as OfRule, Class as OfClass, Letter as OfLetter};
ghost use Rattle.normal_form.specs.Letters.{applied};
ghost use Rattle.normal_form.specs.Forms.{letters_of};
ghost use Rattle.normal_form.specs.FormParts.{parts};
ghost use Rattle.normal_form.specs.Laws.{LawfulUnderLetters};
ghost use Rattle.normal_form.specs.Piles.{pile_number, PileApplies, AskedIs, pile_due, all_letters, operators_in};

use crate::form::Form;
use crate::form::layers::{ClassedProblem, under_form};
use crate::letter::LetterRefusal;
use division::problem::{MOST_CLAIMS, Problem};
use division::refusal::RuleRefusal;
use division::rule::Rule;
use operators::classes::{ClassRefusal, check_classes};
use std::error::Error;
use std::fmt;

// Why a pile is not applied. A class list that is not as long as the claims bears the number of an award list that is
// not.
#[derive(Clone, Copy, Debug, PartialEq, Eq)]
pub enum PileRefusal {
    Rule(RuleRefusal),
    ClassListLength,
    Class(ClassRefusal),
    Letter(LetterRefusal),
}

impl PileRefusal {
    // The number under which the refusal is known and printed.
    pub fn number(&self) -> u8
        ensures result { result ≡ pile_number self.now }
    {
        // A match and not the variants' own numbers, since three of them bring a number with them.
        match self {
            PileRefusal::Rule(refusal) => refusal.number(),
            PileRefusal::ClassListLength => 2,
            PileRefusal::Class(refusal) => refusal.number(),
            PileRefusal::Letter(refusal) => refusal.number(),
        }
    }
}

impl fmt::Display for PileRefusal {
    ghost output = { λ refusal. Some (decimal (pile_number refusal)) };

    fn fmt<W: fmt::Write>(&self, f: &mut fmt::Formatter<W>) -> fmt::Result {
        self.number().fmt(f)
    }
}

impl Error for PileRefusal {}

impl From<RuleRefusal> for PileRefusal {
    ghost from_gives = { λ e r. r ≡ OfRule e };

    fn from(refusal: RuleRefusal) -> PileRefusal {
        PileRefusal::Rule(refusal)
    }
}

impl From<ClassRefusal> for PileRefusal {
    ghost from_gives = { λ e r. r ≡ OfClass e };

    fn from(refusal: ClassRefusal) -> PileRefusal {
        PileRefusal::Class(refusal)
    }
}

impl From<LetterRefusal> for PileRefusal {
    ghost from_gives = { λ e r. r ≡ OfLetter e };

    fn from(refusal: LetterRefusal) -> PileRefusal {
        PileRefusal::Letter(refusal)
    }
}

// The problem with its classes, or the refusal due where every letter is known. The length of the class list is tested
// where that of the award list is, before what the claims add up to.
fn check_pile<'a>(
    classes: &'a [u8],
    claims: &'a [u32],
    estate: u32,
    room: usize,
) -> Result<ClassedProblem<'a>, PileRefusal>
    ensures result { MatchResult result (λ asked. AskedIs classes.now claims.now estate room asked.classes.now asked.problem.claims.now asked.problem.estate) (λ e. pile_due true classes.now claims.now estate room ≡ Some e) }
{
    if claims.len() <= MOST_CLAIMS && room == claims.len() && classes.len() != claims.len() {
        return Err(PileRefusal::ClassListLength);
    }
    let problem = Problem::new(claims, estate, room)?;
    check_classes(classes)?;
    Ok(ClassedProblem { problem, classes })
}

// Divides by the rule under the letters of a form. What is asked comes part by part, since nobody has tested it yet.
pub fn apply_form<R: Rule>(
    form: &Form,
    rule: &R,
    classes: &[u8],
    claims: &[u32],
    estate: u32,
    out: &mut [u32],
) -> Result<(), PileRefusal>
    ensures result { result ≡ answer (pile_due true classes.now claims.now estate (length out.old)) tt }
    ensures awards { out.new ≡ unless_due (pile_due true classes.now claims.now estate (length out.old)) (applied (letters_of (parts form.now)) classes.now (R.Rule.awards rule.now) claims.now estate) out.old }
    ensures smallest { SmallestOf pile_number (PileApplies true classes.now claims.now estate (length out.old)) (pile_due true classes.now claims.now estate (length out.old)) }
{
    let asked = check_pile(classes, claims, estate, out.len())?; // of the form's own call
    under_form(form, rule, &asked, out);
    Ok(())
}

// Divides by the rule under a string of letters: each letter in turn makes an operator of what the letters before it
// made of the rule. The work goes by the normal form, which is shown to award the same. What is asked comes part by part,
// since nobody has tested it yet.
pub fn apply<R: Rule>(
    letters: &[u8],
    rule: &R,
    classes: &[u8],
    claims: &[u32],
    estate: u32,
    out: &mut [u32],
) -> Result<(), PileRefusal>
    ensures result { result ≡ answer (pile_due (all_letters letters.now) classes.now claims.now estate (length out.old)) tt }
    ensures awards { out.new ≡ unless_due (pile_due (all_letters letters.now) classes.now claims.now estate (length out.old)) (applied (operators_in letters.now) classes.now (R.Rule.awards rule.now) claims.now estate) out.old }
    ensures smallest { SmallestOf pile_number (PileApplies (all_letters letters.now) classes.now claims.now estate (length out.old)) (pile_due (all_letters letters.now) classes.now claims.now estate (length out.old)) }
    ensures lawful { LawfulUnderLetters }
{
    let asked = check_pile(classes, claims, estate, out.len())?;
    // The letters are tested last.
    let form = Form::of(letters)?;
    under_form(&form, rule, &asked, out);
    Ok(())
}
