// A case: an estate with its claims, from the first admission to the last payment. Only its calls change it.
use crate::table::Table;
use normal_form::form::Form;

mod dues;
pub mod keeping;
pub mod signing;

// How far a case is. No sheet is out of a case whose awards are not worked.
#[derive(Clone, Copy, Debug, PartialEq, Eq)]
enum Stage {
    Unworked,
    // The mark: the awards in the rows are those of what the case holds now.
    Worked,
    // The same, and a sheet says so.
    SheetOut,
}

#[derive(Drop)]
pub struct Case {
    number: u32,
    fund: u32,
    // What is kept of the letters pressed.
    form: Form,
    table: Table,
    stage: Stage,
}
