// A claim in a case's table, and a line of a signed list.

// A row: who claims, how much, in which class, what he was paid, and what was awarded last.
#[derive(Clone, Copy, Debug, Default, PartialEq, Eq)]
pub struct Row {
    pub number: u16,
    pub amount: u32,
    pub class: u8,
    pub paid: u32,
    pub award: u32,
}

// A posting: money that goes to the bearer of a number, or comes back from him where it is negative.
#[derive(Clone, Copy, Debug, Default, PartialEq, Eq)]
pub struct Posting {
    pub number: u16,
    pub amount: i64,
}
