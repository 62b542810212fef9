// The table of a case's rows. Room for all of them is reserved when it is made, so that no later call can want memory.
ghost use Rattle.std.specs.Prelude.{◌≤◌, vec_len, vec_capacity};
ghost use Rattle.division.specs.Amounts.{total};
ghost use Rattle.division.specs.Problem.{most_claims, most_total};
ghost use Rattle.operators.specs.Operators.{Classed};
ghost use Rattle.cases.specs.Rows.{amounts, classes_of};

use crate::row::Row;

pub(crate) mod calls;

#[derive(Drop)]
pub(crate) struct Table {
    rows: Vec<Row>,
    ghost few: { vec_len rows ≤ most_claims },
    ghost room: { most_claims ≤ vec_capacity rows },
    ghost small: { total (amounts rows.items) ≤ most_total },
    ghost classed: { Classed (classes_of rows.items) },
}
