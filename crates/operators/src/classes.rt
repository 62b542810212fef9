// Class lists: a class from 1 to 8 for each place, 8 past the end of the list.
ghost use Rattle.std.specs.Prelude.{◌≡◌, Some, None, decimal};
ghost use Rattle.std.specs.List.{list_all};
ghost use Rattle.division.specs.Refusals.{answer};
ghost use Rattle.operators.specs.Operators.{Classed};
ghost use Rattle.operators.specs.Classes.{class_number, is_class_number, class_due, order_of, kept};

use division::problem::MOST_CLAIMS;
use std::error::Error;
use std::fmt;

// How many classes there are.
pub const CLASSES: usize = 8;

// The class that is most senior.
pub const FIRST_CLASS: u8 = 1;

// The class that is least senior, and of each place that a class list does not reach.
pub const LAST_CLASS: u8 = 8;

// Why a class list is refused, with the number under which it is known and printed.
#[derive(Clone, Copy, Debug, PartialEq, Eq)]
pub enum ClassRefusal {
    ClassOutsideRange = 5,
}

impl ClassRefusal {
    // The number under which the refusal is known and printed.
    pub fn number(&self) -> u8
        ensures result { result ≡ class_number self.now }
    {
        *self as u8
    }
}

impl fmt::Display for ClassRefusal {
    ghost output = { λ refusal. Some (decimal (class_number refusal)) };

    fn fmt<W: fmt::Write>(&self, f: &mut fmt::Formatter<W>) -> fmt::Result {
        self.number().fmt(f)
    }
}

impl Error for ClassRefusal {}

// The order in which the classes are served.
#[derive(Clone, Copy, Debug, PartialEq, Eq)]
pub enum ClassOrder {
    SeniorFirst,
    JuniorFirst,
}

impl ClassOrder {
    // The classes, each once, the one that is served first in front.
    pub fn classes(&self) -> [u8; CLASSES]
        ensures result { result ≡ order_of self.now }
    {
        match self {
            ClassOrder::SeniorFirst => [1, 2, 3, 4, 5, 6, 7, 8],
            ClassOrder::JuniorFirst => [8, 7, 6, 5, 4, 3, 2, 1],
        }
    }
}

// Whether a number is one of the classes.
pub fn is_class(class: u8) -> bool
    ensures result { result ≡ is_class_number class }
{
    (FIRST_CLASS..=LAST_CLASS).contains(&class)
}

fn all_classes(classes: &[u8]) -> bool
    ensures result { result ≡ list_all is_class_number classes.now }
{
    classes.iter().all(|class| is_class(*class))
}

// Refuses a list with a class outside 1 to 8; every class is tested, also those that no layer keeps.
pub fn check_classes(classes: &[u8]) -> Result<(), ClassRefusal>
    ensures result { result ≡ answer (class_due classes.now) tt }
    ensures accepted { class_due classes.now ≡ None → Classed classes.now }
    ensures refused { Classed classes.now → class_due classes.now ≡ None }
{
    if all_classes(classes) {
        Ok(())
    } else {
        Err(ClassRefusal::ClassOutsideRange)
    }
}

// The classes of the places that a problem can have: exactly 64, so that an array says it.
pub(crate) fn keep(classes: &[u8]) -> [u8; MOST_CLAIMS]
    ensures result { result ≡ kept classes.now }
{
    let mut all_kept = [LAST_CLASS; MOST_CLAIMS];
    let count = classes.len().min(MOST_CLAIMS);
    all_kept[..count].copy_from_slice(&classes[..count]);
    all_kept
}
