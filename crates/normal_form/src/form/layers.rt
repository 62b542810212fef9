// A rule under the letters of a form: one layer for each letter, laid over the rule from the inside out. Each stage lays
// its layer, if the form has it, and hands the rule so covered to the next, so that all forms share these six functions.
// Each asks that the caller's list has a place for each claim: a struct that lends the list out again at each stage would be
// no plainer. Stages for one letter inside and outside the seniority letter are alike but for what they hand on to, which
// is generic in the rule, as no closure can be.
ghost use Rattle.std.specs.Prelude.{◌≡◌, ℕ, List, length};
ghost use Rattle.operators.specs.Operators.{Classed, served};
ghost use Rattle.operators.specs.Classes.{order_of};
ghost use Rattle.normal_form.specs.Letters.{applied};
ghost use Rattle.normal_form.specs.Forms.{letters_of};
ghost use Rattle.normal_form.specs.FormParts.{parts};
ghost use Rattle.normal_form.specs.Layers.{from_outer_rights, from_outer_truncation, from_seniority, from_inner_rights, from_inner_truncation};

use crate::form::{Form, Place};
use division::problem::Problem;
use division::rule::Rule;
use operators::borrowed::Borrowed;
use operators::classes::ClassOrder;
use operators::dual::Dual;
use operators::minimal_rights::MinimalRights;
use operators::seniority::Seniority;
use operators::truncation::Truncation;

// A sound problem, with a class from 1 to 8 for each claim.
#[derive(Clone, Copy)]
pub(crate) struct ClassedProblem<'a> {
    pub(crate) problem: Problem<'a>,
    pub(crate) classes: &'a [u8],
    ghost classed: { Classed classes.now },
}

// Divides a problem by the rule under all letters of the form.
pub(crate) fn under_form<R: Rule>(
    form: &Form,
    rule: &R,
    asked: &ClassedProblem<'_>,
    out: &mut [u32],
)
    requires room { length out.old ≡ length asked.now.problem.claims.now }
    ensures awards { out.new ≡ applied (letters_of (parts form.now)) asked.now.classes.now (R.Rule.awards rule.now) asked.now.problem.claims.now asked.now.problem.estate }
{
    if form.dual {
        inner_truncation(form, &Dual::new(Borrowed::new(rule)), asked, out)
    } else {
        inner_truncation(form, rule, asked, out)
    }
}

fn inner_truncation<R: Rule>(form: &Form, rule: &R, asked: &ClassedProblem<'_>, out: &mut [u32])
    requires room { length out.old ≡ length asked.now.problem.claims.now }
    ensures awards { out.new ≡ applied (from_inner_truncation (parts form.now)) asked.now.classes.now (R.Rule.awards rule.now) asked.now.problem.claims.now asked.now.problem.estate }
{
    match form.truncation {
        Place::Inner => inner_rights(form, &Truncation::new(Borrowed::new(rule)), asked, out),
        Place::Absent | Place::Outer => inner_rights(form, rule, asked, out),
    }
}

fn inner_rights<R: Rule>(form: &Form, rule: &R, asked: &ClassedProblem<'_>, out: &mut [u32])
    requires room { length out.old ≡ length asked.now.problem.claims.now }
    ensures awards { out.new ≡ applied (from_inner_rights (parts form.now)) asked.now.classes.now (R.Rule.awards rule.now) asked.now.problem.claims.now asked.now.problem.estate }
{
    match form.rights {
        Place::Inner => seniority(form, &MinimalRights::new(Borrowed::new(rule)), asked, out),
        Place::Absent | Place::Outer => seniority(form, rule, asked, out),
    }
}

fn seniority<R: Rule>(form: &Form, rule: &R, asked: &ClassedProblem<'_>, out: &mut [u32])
    requires room { length out.old ≡ length asked.now.problem.claims.now }
    ensures awards { out.new ≡ applied (from_seniority (parts form.now)) asked.now.classes.now (R.Rule.awards rule.now) asked.now.problem.claims.now asked.now.problem.estate }
{
    match form.order {
        None => outer_truncation(form, rule, &asked.problem, out),
        Some(order) => in_order(form, rule, order, asked, out),
    }
}

fn in_order<R: Rule>(
    form: &Form,
    rule: &R,
    order: ClassOrder,
    asked: &ClassedProblem<'_>,
    out: &mut [u32],
)
    requires room { length out.old ≡ length asked.now.problem.claims.now }
    ensures awards { out.new ≡ applied (from_outer_truncation (parts form.now)) asked.now.classes.now (served (order_of order) asked.now.classes.now (R.Rule.awards rule.now)) asked.now.problem.claims.now asked.now.problem.estate }
{
    match Seniority::new(Borrowed::new(rule), order, asked.classes) {
        Ok(layer) => outer_truncation(form, &layer, &asked.problem, out),
        // Classes from 1 to 8 are never refused.
        Err(_) => unreachable(),
    }
}

fn outer_truncation<R: Rule>(form: &Form, rule: &R, problem: &Problem<'_>, out: &mut [u32])
    requires room { length out.old ≡ length problem.now.claims.now }
    ensures awards { (classes : List ℕ) → out.new ≡ applied (from_outer_truncation (parts form.now)) classes (R.Rule.awards rule.now) problem.now.claims.now problem.now.estate }
{
    match form.truncation {
        Place::Outer => outer_rights(form, &Truncation::new(Borrowed::new(rule)), problem, out),
        Place::Absent | Place::Inner => outer_rights(form, rule, problem, out),
    }
}

fn outer_rights<R: Rule>(form: &Form, rule: &R, problem: &Problem<'_>, out: &mut [u32])
    requires room { length out.old ≡ length problem.now.claims.now }
    ensures awards { (classes : List ℕ) → out.new ≡ applied (from_outer_rights (parts form.now)) classes (R.Rule.awards rule.now) problem.now.claims.now problem.now.estate }
{
    match form.rights {
        Place::Outer => ask(&MinimalRights::new(Borrowed::new(rule)), problem, out),
        Place::Absent | Place::Inner => ask(rule, problem, out),
    }
}

// Asks a rule for its awards; none refuses a sound problem.
#[tactic(auto, using(crate::proofs::Laying::passes_if_sound))]
fn ask<R: Rule>(rule: &R, problem: &Problem<'_>, out: &mut [u32])
    requires room { length out.old ≡ length problem.now.claims.now }
    ensures awards { out.new ≡ R.Rule.awards rule.now problem.now.claims.now problem.now.estate }
{
    match rule.divide(problem.claims, problem.estate, out) {
        Ok(()) => {}
        Err(_) => unreachable(),
    }
}
