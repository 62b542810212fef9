// The case file: its lines, the numbers in them, and what each line asks for. What a case does with a line is not
// known here.
#![tactic(auto)]

mod bytes;
pub mod call;
mod field;
pub mod laws;
pub mod line;
pub mod number;
pub mod reader;
pub mod refusal;
