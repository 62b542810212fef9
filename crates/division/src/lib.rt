// Division rules: a problem, the interface that every rule meets, and the bureau's four rules.
#![tactic(auto)]

pub mod amounts;
pub mod base_rule;
pub mod equal_awards;
mod level;
pub mod priority;
pub mod problem;
pub mod proportion;
pub mod refusal;
pub mod rule;
mod share;
pub mod talmud;
