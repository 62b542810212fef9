// Cases: the table of claims, the calls that keep a case, the sheet, and the law over every history of a case.
#![tactic(auto)]

pub mod case;
pub mod laws;
pub mod numbered;
mod posting;
pub mod refusal;
pub mod row;
pub mod sheet;
mod table;
