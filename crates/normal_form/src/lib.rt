// Strings of operator letters: what they make of a rule, their normal form, and when two strings are alike.
#![tactic(auto)]

pub mod compare;
pub mod form;
pub mod laws;
pub mod letter;
pub mod pile;
