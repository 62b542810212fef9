// What is written into rows: the awards of a division, and the payment of a signed one with its postings.
ghost use Rattle.std.specs.Prelude.{◌≡◌, ◌+◌, ◌<◌, ◌≤◌, ◌++◌, map, length, drop, pos, neg_ℤ, ◌≤ℤ◌};
ghost use Rattle.division.specs.Problem.{most_claims};
ghost use Rattle.std.specs.List.{AllByRecursion};
ghost use Rattle.cases.specs.Rows.{with_awards, settled, row_posting, balance, lines, Postable};

use crate::row::{Posting, Row};

// The number under which the estate's own posting stands.
pub const ESTATE_NUMBER: u16 = 0;

// Writes new awards into rows, place by place.
pub(crate) fn write_awards(rows: &mut [Row], awards: &[u32])
    requires { length awards.now ≡ length rows.old }
    ensures rows { rows.new ≡ with_awards awards.now rows.old }
{
    // By index: tried by iter_mut().zip(awards), after which nothing is known of the rows, so that the proof does not close.
    for (i, row) in rows.iter_mut().enumerate() {
        row.award = awards[i];
    }
}

// Pays a row its award, and answers what is to be posted for it.
fn settle(row: &mut Row) -> Posting
    ensures result { result ≡ row_posting row.old }
    ensures bound { (neg_ℤ (pos 4294967296) ≤ℤ result.amount) × (result.amount ≤ℤ pos 4294967296) }
    ensures row { row.new ≡ settled row.old }
{
    let amount = i64::from(row.award) - i64::from(row.paid);
    row.paid = row.award;
    Posting {
        number: row.number,
        amount,
    }
}

// Pays every row its award, writes a posting for each to the front of the list, and answers what they add up to.
fn settle_all(rows: &mut [Row], out: &mut [Posting]) -> i64
    requires few { length rows.old ≤ most_claims }
    requires room { length rows.old ≤ length out.old }
    ensures result { result ≡ balance (map row_posting rows.old) }
    ensures bound { (neg_ℤ (pos 274877906944) ≤ℤ result) × (result ≤ℤ pos 274877906944) }
    ensures rows { rows.new ≡ map settled rows.old }
    ensures list { out.new ≡ map row_posting rows.old ++ drop (length rows.old) out.old }
    ensures postings { AllByRecursion Postable (map row_posting rows.old) }
{
    let mut sum: i64 = 0;
    // By index, as in write_awards.
    for (i, row) in rows.iter_mut().enumerate() {
        let posting = settle(row);
        sum += posting.amount;
        out[i] = posting;
    }
    sum
}

// Signs the rows off: the estate's posting first, then one for each row, at the front of the list. Answers how many
// were written.
pub(crate) fn write_lines(rows: &mut [Row], out: &mut [Posting]) -> usize
    requires few { length rows.old ≤ most_claims }
    requires room { length rows.old + 1 ≤ length out.old }
    ensures result { result ≡ length (lines rows.old) }
    ensures rows { rows.new ≡ map settled rows.old }
    ensures list { out.new ≡ lines rows.old ++ drop (length (lines rows.old)) out.old }
    ensures postings { AllByRecursion Postable (lines rows.old) }
{
    let count = rows.len();
    let sum = settle_all(rows, &mut out[1..]);
    out[0] = Posting {
        number: ESTATE_NUMBER,
        amount: -sum,
    };
    count + 1
}
