// The five operators as layers over any rule.
#![tactic(auto)]

mod amounts;
pub mod borrowed;
pub mod classes;
pub mod dual;
pub mod minimal_rights;
pub mod seniority;
pub mod truncation;
