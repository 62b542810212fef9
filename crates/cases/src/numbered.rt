// What bears a claimant number, and the search for the first that bears a given one.
ghost use Rattle.std.specs.Prelude.{◌≡◌, ℕ};
ghost use Rattle.cases.specs.Search.{FirstBearing, FirstPosting};

use crate::row::{Posting, Row};

pub trait Numbered {
    // The claimant number that an element bears.
    ghost bears: { Self → ℕ };

    fn claimant(&self) -> u32
        ensures result { result ≡ bears self.now };
}

impl Numbered for Row {
    ghost bears = { λ row. row.number };

    fn claimant(&self) -> u32 {
        u32::from(self.number)
    }
}

impl Numbered for Posting {
    ghost bears = { λ posting. posting.number };

    fn claimant(&self) -> u32 {
        u32::from(self.number)
    }
}

// The place of the first element that bears the number.
pub fn find<T: Numbered>(items: &[T], number: u32) -> Option<usize>
    ensures result { FirstBearing T.Numbered.bears number items.now result }
{
    items.iter().position(|item| item.claimant() == number)
}

// A claimant's posting in a signed list.
pub fn find_posting(postings: &[Posting], number: u32) -> Option<Posting>
    ensures result { FirstPosting number postings.now result }
{
    let place = find(postings, number)?;
    Some(postings[place])
}
