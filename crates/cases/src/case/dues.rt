// Whether a call of whoever keeps the case is refused, and why; each test in the order of the refusals' numbers.
ghost use Rattle.std.specs.Prelude.{◌≡◌};
ghost use Rattle.division.specs.Refusals.{answer};
ghost use Rattle.cases.specs.Rows.{is_reserved_number, on_table};
ghost use Rattle.cases.specs.Cases.{admit_due, amend_due, fund_due, divide_due, draw_due};
ghost use Rattle.cases.specs.CaseViews.{view};

use crate::case::{Case, Stage};
use crate::posting::ESTATE_NUMBER;
use crate::refusal::CaseRefusal;
use division::problem::{MOST_CLAIMS, MOST_TOTAL};
use operators::classes::is_class;

// The number that is the owner's.
pub(crate) const OWNER_NUMBER: u16 = 65_535;

// No claimant bears the estate's number or the owner's.
pub(crate) fn is_reserved(number: u16) -> bool
    ensures result { result ≡ is_reserved_number number }
{
    number == ESTATE_NUMBER || number == OWNER_NUMBER
}

impl Case {
    // Whether a sheet is out.
    pub(crate) fn is_out(&self) -> bool
        ensures result { result ≡ (view self.now).out }
    {
        self.stage == Stage::SheetOut
    }

    // Whether a claimant number is on the table.
    fn holds(&self, number: u16) -> bool
        ensures result { result ≡ on_table number (view self.now).rows }
    {
        self.table.place_of(number).is_some()
    }

    pub(crate) fn check_admit(&self, number: u16, amount: u32, class: u8) -> Result<(), CaseRefusal>
        ensures result { result ≡ answer (admit_due (view self.now) number amount class) tt }
    {
        if self.table.total_amount() + u64::from(amount) > MOST_TOTAL {
            return Err(CaseRefusal::TotalAboveLimit);
        }
        if !is_class(class) {
            return Err(CaseRefusal::ClassOutsideRange);
        }
        if self.is_out() {
            return Err(CaseRefusal::SheetOut);
        }
        if is_reserved(number) {
            return Err(CaseRefusal::ReservedNumber);
        }
        if self.holds(number) {
            return Err(CaseRefusal::NumberTaken);
        }
        if self.table.rows().len() >= MOST_CLAIMS {
            return Err(CaseRefusal::TableFull);
        }
        Ok(())
    }

    pub(crate) fn check_amend(&self, number: u16, amount: u32) -> Result<(), CaseRefusal>
        ensures result { result ≡ answer (amend_due (view self.now) number amount) tt }
    {
        if self.holds(number) && self.table.amended_total(number, amount) > MOST_TOTAL {
            return Err(CaseRefusal::TotalAboveLimit);
        }
        if self.is_out() {
            return Err(CaseRefusal::SheetOut);
        }
        if is_reserved(number) {
            return Err(CaseRefusal::ReservedNumber);
        }
        if !self.holds(number) {
            return Err(CaseRefusal::NumberNotOnTable);
        }
        Ok(())
    }

    pub(crate) fn check_fund(&self, amount: u32) -> Result<(), CaseRefusal>
        ensures result { result ≡ answer (fund_due (view self.now) amount) tt }
    {
        if u64::from(amount) > MOST_TOTAL {
            return Err(CaseRefusal::TotalAboveLimit);
        }
        if self.is_out() {
            return Err(CaseRefusal::SheetOut);
        }
        Ok(())
    }

    pub(crate) fn check_divide(&self) -> Result<(), CaseRefusal>
        ensures result { result ≡ answer (divide_due (view self.now)) tt }
    {
        if u64::from(self.fund) > self.table.total_amount() {
            return Err(CaseRefusal::EstateAboveTotal);
        }
        if self.is_out() {
            return Err(CaseRefusal::SheetOut);
        }
        Ok(())
    }

    pub(crate) fn check_draw(&self) -> Result<(), CaseRefusal>
        ensures result { result ≡ answer (draw_due (view self.now)) tt }
    {
        if self.is_out() {
            return Err(CaseRefusal::SheetOut);
        }
        if self.stage == Stage::Unworked {
            return Err(CaseRefusal::NotWorked);
        }
        Ok(())
    }
}
