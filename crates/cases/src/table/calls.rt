// The table's own calls: one row is lent inside a call, changed, and given back.
ghost use Rattle.std.specs.Prelude.{◌≡◌, ◌+◌, ◌<◌, ◌≤◌, true, [], ◌∷◌, ◌++◌, map, length, drop, IfOk, vec_len, slice_index_or, slice_set};
ghost use Rattle.std.specs.List.{AllByRecursion, AllZip};
ghost use Rattle.std.specs.Fn.{FnReturnsAt};
ghost use Rattle.division.specs.Amounts.{total};
ghost use Rattle.division.specs.Problem.{most_claims, most_total};
ghost use Rattle.operators.specs.Classes.{is_class_number};
ghost use Rattle.cases.specs.Rows.{amounts, classes_of, awards_of, no_row, set_amount, with_amount, with_awards, settled, lines, Postable};
ghost use Rattle.cases.specs.Search.{FirstBearing};

use crate::numbered::find;
use crate::posting::{write_awards, write_lines};
use crate::row::{Posting, Row};
use crate::table::Table;
use division::problem::MOST_CLAIMS;
use std::alloc::{AllocError, Global};

impl Table {
    // An empty table, with room for as many rows as a problem may have claims.
    pub(crate) fn new(heap: Global) -> Result<Table, AllocError>
        ensures result { IfOk result (λ t. t.rows.items ≡ []) }
    {
        let rows = Vec::with_capacity(heap, MOST_CLAIMS)?;
        Ok(Table { rows })
    }

    pub(crate) fn rows(&self) -> &[Row]
        ensures result { result.now ≡ self.now.rows.items }
    {
        self.rows.as_slice()
    }

    // The place of the row that bears the number.
    pub(crate) fn place_of(&self, number: u16) -> Option<usize>
        ensures result { FirstBearing (λ row. row.number) number self.now.rows.items result }
    {
        find(self.rows.as_slice(), u32::from(number))
    }

    // One row more, at the end.
    pub(crate) fn admit(&mut self, row: Row)
        requires room { vec_len self.old.rows < most_claims }
        requires small { total (amounts self.old.rows.items) + row.amount ≤ most_total }
        requires classed { is_class_number row.class ≡ true }
        ensures rows { self.new.rows.items ≡ self.old.rows.items ++ row ∷ [] }
    {
        self.rows.push_reserved(row);
    }

    // Another amount under a number, and under no other.
    pub(crate) fn amend(&mut self, number: u16, amount: u32)
        requires small { total (amounts (with_amount number amount self.old.rows.items)) ≤ most_total }
        ensures rows { self.new.rows.items ≡ with_amount number amount self.old.rows.items }
    {
        if let Some(place) = self.place_of(number) {
            self.amend_at(place, amount);
        }
    }

    // Another amount in one row, and in no other.
    fn amend_at(&mut self, place: usize, amount: u32)
        requires place { place < vec_len self.old.rows }
        requires small { total (amounts (slice_set self.old.rows.items place (set_amount amount (slice_index_or self.old.rows.items place no_row)))) ≤ most_total }
        ensures rows { self.new.rows.items ≡ slice_set self.old.rows.items place (set_amount amount (slice_index_or self.old.rows.items place no_row)) }
    {
        let row = &mut self.rows[place];
        row.amount = amount;
    }

    // The awards of a division, place by place.
    pub(crate) fn award(&mut self, awards: &[u32])
        requires { length awards.now ≡ vec_len self.old.rows }
        ensures rows { self.new.rows.items ≡ with_awards awards.now self.old.rows.items }
    {
        write_awards(self.rows.as_mut_slice(), awards);
    }

    // Pays every row its award and writes the lines of the table to the front of the list; answers how many they are.
    pub(crate) fn sign(&mut self, out: &mut [Posting]) -> usize
        requires { length (lines self.old.rows.items) ≤ length out.old }
        ensures result { result ≡ length (lines self.old.rows.items) }
        ensures rows { self.new.rows.items ≡ map settled self.old.rows.items }
        ensures list { out.new ≡ lines self.old.rows.items ++ drop (length (lines self.old.rows.items)) out.old }
        ensures postings { AllByRecursion Postable (lines self.old.rows.items) }
    {
        write_lines(self.rows.as_mut_slice(), out)
    }

    // What the amounts add up to.
    pub(crate) fn total_amount(&self) -> u64
        ensures result { result ≡ total (amounts self.now.rows.items) }
        ensures bound { result ≤ most_total }
    {
        self.rows.iter().map(|row| u64::from(row.amount)).sum()
    }

    // What the amounts would add up to with another amount under a number.
    pub(crate) fn amended_total(&self, number: u16, amount: u32) -> u64
        ensures result { result ≡ total (amounts (with_amount number amount self.now.rows.items)) }
    {
        let sum = self.total_amount();
        match self.place_of(number) {
            Some(place) => sum - u64::from(self.rows[place].amount) + u64::from(amount),
            None => sum,
        }
    }

    // What the awards add up to.
    pub(crate) fn total_award(&self) -> u64
        ensures result { result ≡ total (awards_of self.now.rows.items) }
    {
        self.rows.iter().map(|row| u64::from(row.award)).sum()
    }

    // Writes the amounts, as the claims of a problem.
    pub(crate) fn write_claims(&self, out: &mut [u32])
        requires { length out.old ≡ vec_len self.now.rows }
        ensures claims { out.new ≡ amounts self.now.rows.items }
    {
        self.write_column(|row| row.amount, out);
    }

    // Writes the classes, as a class list.
    pub(crate) fn write_classes(&self, out: &mut [u8])
        requires { length out.old ≡ vec_len self.now.rows }
        ensures classes { out.new ≡ classes_of self.now.rows.items }
    {
        self.write_column(|row| row.class, out);
    }

    // Writes one value of each row, in order. It is this crate's own: a function that calls a closure asks that it may be
    // called, and no public function has a requires.
    fn write_column<T: Copy, F: Fn(&Row) -> T>(&self, of: F, out: &mut [T])
        requires callable { F.IsAlwaysCallable of }
        requires room { length out.old ≡ vec_len self.now.rows }
        ensures each { AllZip (λ row value. FnReturnsAt F.Fn of row value) self.now.rows.items out.new }
    {
        // By place: a proof knows nothing of what a loop over iter_mut().zip(..) wrote.
        for (place, row) in self.rows.iter().enumerate() {
            out[place] = of(row);
        }
    }
}
