// Runs the lines of a case file against a case and writes what each comes to, line by line or as one text. What reads
// the file and prints the text is not known here.
#![tactic(auto)]

pub mod file;
mod in_hand;
pub mod outcome;
pub mod refusal;
pub mod runner;
mod text;
