// What comes of a line, with all its values: what is printed is a function of this and of the line's number.
ghost use Rattle.std.specs.Prelude.{length};
ghost use Rattle.cases.specs.Rows.{PostableFront};

use crate::refusal::Refusal;
use arrayvec::ArrayVec;
use cases::row::{Posting, Row};
use division::problem::MOST_CLAIMS;
use normal_form::compare::Comparison;

mod values;
pub mod writing;

// The most postings that a signing can write: the estate's, and one for each row.
pub const MOST_POSTINGS: usize = 65;

// A division: the rows with their awards, in order of admission, and the estate that was divided.
#[derive(Drop)]
pub struct Division {
    pub(crate) rows: ArrayVec<Row, MOST_CLAIMS>,
    pub(crate) estate: u32,
}

// What a signing wrote.
#[derive(Drop)]
pub struct Postings {
    pub(crate) list: ArrayVec<Posting, MOST_POSTINGS>,
    ghost small: { PostableFront (length list.items) list.items },
}

#[derive(Drop)]
pub enum Outcome {
    // A remark, of which nothing comes.
    Remark,
    // A claim, an amendment, a fund or letters that the case took.
    Accepted,
    Divided(Division),
    Drawn { rows: usize, total: u64 },
    Signed(Postings),
    Returned,
    Compared(Comparison),
    Refused(Refusal),
}
