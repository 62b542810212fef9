// The sheet that a case hands out: it is signed or returned exactly once.
ghost use Rattle.std.specs.Prelude.{◌≡◌};

// Made by drawing alone. It can be neither copied nor let go: only signing or returning it spends it.
pub struct Sheet {
    pub(crate) number: u32,
    pub(crate) rows: usize,
    pub(crate) total: u64,
}

impl Sheet {
    // The number of the case that it was drawn from.
    pub fn case_number(&self) -> u32
        ensures result { result ≡ self.now.number }
    {
        self.number
    }

    // How many rows the case has.
    pub fn row_count(&self) -> usize
        ensures result { result ≡ self.now.rows }
    {
        self.rows
    }

    // What the awards add up to.
    pub fn total_awarded(&self) -> u64
        ensures result { result ≡ self.now.total }
    {
        self.total
    }

    // The only way for a sheet to end.
    pub(crate) fn spend(self) {
        let Sheet {
            number: _,
            rows: _,
            total: _,
        } = self;
    }
}
