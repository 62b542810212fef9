// The four rules as one: a rule that is chosen while a program runs.
ghost use Rattle.std.specs.Prelude.{Some};
ghost use Rattle.division.specs.BaseRules.{meaning_of, name_of};
ghost use Rattle.division.specs.BaseRulesLawful.{meaning_lawful};

use crate::equal_awards::EqualAwards;
use crate::priority::Priority;
use crate::proportion::Proportion;
use crate::refusal::RuleRefusal;
use crate::rule::Rule;
use crate::talmud::Talmud;
use std::fmt;

#[derive(Clone, Copy, Debug, PartialEq, Eq)]
pub enum BaseRule {
    Priority,
    Equal,
    Proportion,
    Talmud,
}

// All of them.
pub const BASE_RULES: [BaseRule; 4] = [
    BaseRule::Priority,
    BaseRule::Equal,
    BaseRule::Proportion,
    BaseRule::Talmud,
];

impl Rule for BaseRule {
    ghost awards = { meaning_of };

    ghost lawful = { meaning_lawful };

    fn divide(&self, claims: &[u32], estate: u32, out: &mut [u32]) -> Result<(), RuleRefusal> {
        match self {
            BaseRule::Priority => Priority.divide(claims, estate, out),
            BaseRule::Equal => EqualAwards.divide(claims, estate, out),
            BaseRule::Proportion => Proportion.divide(claims, estate, out),
            BaseRule::Talmud => Talmud.divide(claims, estate, out),
        }
    }
}

impl fmt::Display for BaseRule {
    ghost output = { λ rule. Some (name_of rule) };

    fn fmt<W: fmt::Write>(&self, f: &mut fmt::Formatter<W>) -> fmt::Result {
        f.write_str(match self {
            BaseRule::Priority => "priority",
            BaseRule::Equal => "equal",
            BaseRule::Proportion => "proportion",
            BaseRule::Talmud => "talmud",
        })
    }
}
