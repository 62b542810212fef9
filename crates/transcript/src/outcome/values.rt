// What an outcome holds.
ghost use Rattle.std.specs.Prelude.{◌≡◌, ◌≤◌, length};
ghost use Rattle.division.specs.Problem.{most_claims};
ghost use Rattle.cases.specs.Rows.{PostableFront};

use crate::outcome::{Division, Postings};
use cases::row::{Posting, Row};

impl Division {
    // The rows with their awards, in order of admission.
    pub fn rows(&self) -> &[Row]
        ensures result { result.now ≡ self.now.rows.items }
        ensures few { length result.now ≤ most_claims }
    {
        self.rows.as_slice()
    }

    // The estate that was divided.
    pub fn estate(&self) -> u32
        ensures result { result ≡ self.now.estate }
    {
        self.estate
    }
}

impl Postings {
    // The postings in the order in which they were written, the estate's first.
    pub fn list(&self) -> &[Posting]
        ensures result { result.now ≡ self.now.list.items }
        ensures few { length result.now ≤ 65 }
        ensures small { PostableFront (length result.now) result.now }
    {
        self.list.as_slice()
    }
}
