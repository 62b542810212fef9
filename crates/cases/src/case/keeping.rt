// The calls of whoever keeps the case. Each says what it answers and what the case holds afterwards, by equality to the
// definition of the call; and that every past of the case, with this very call, is a past of the case afterwards in
// which the sums of postings are settled.
ghost use Rattle.std.specs.Prelude.{◌≡◌, true, [], length, IfOk, None};
ghost use Rattle.division.specs.Refusals.{answer, unless_due};
ghost use Rattle.cases.specs.Cases.{new_case, estate_of, admit_due, admitted, amend_due, amended, fund_due, funded, press_due, letters_pressed, divide_due, divided, awards_by, draw_due, sheet_of, drawn, is_its_sheet};
ghost use Rattle.cases.specs.Ledger.{Admit, Amend, Fund, Press, Divide, Draw};
ghost use Rattle.cases.specs.History.{Past, Continues};
ghost use Rattle.cases.specs.CaseViews.{view};

use crate::case::{Case, Stage};
use crate::refusal::CaseRefusal;
use crate::row::Row;
use crate::sheet::Sheet;
use crate::table::Table;
use division::problem::MOST_CLAIMS;
use division::rule::Rule;
use normal_form::form::Form;
use normal_form::pile::apply_form;
use std::alloc::{AllocError, Global};

impl Case {
    // A new case. Only this call can want memory: room for every row is reserved here.
    pub fn new(number: u32, heap: Global) -> Result<Case, AllocError>
        ensures case { IfOk result (λ case. view case ≡ new_case number) }
        ensures history { IfOk result (λ case. Past [] (view case)) }
    {
        let table = Table::new(heap)?;
        Ok(Case {
            number,
            fund: 0,
            form: Form::empty(),
            table,
            stage: Stage::Unworked,
        })
    }

    // The rows, in order of admission.
    pub fn rows(&self) -> &[Row]
        ensures result { result.now ≡ (view self.now).rows }
    {
        self.table.rows()
    }

    // The estate that a division shares.
    pub fn estate(&self) -> u32
        ensures result { result ≡ estate_of (view self.now) }
    {
        self.fund // the whole of it
    }

    // Adds a row with nothing paid and nothing awarded.
    pub fn admit(&mut self, number: u16, amount: u32, class: u8) -> Result<(), CaseRefusal>
        ensures result { result ≡ answer (admit_due (view self.old) number amount class) tt }
        ensures case { view self.new ≡ unless_due (admit_due (view self.old) number amount class) (admitted (view self.old) number amount class) (view self.old) }
        ensures history { Continues (Admit number amount class result) (view self.old) (view self.new) }
    {
        self.check_admit(number, amount, class)?;
        self.table.admit(Row {
            number,
            amount,
            class,
            paid: 0,
            award: 0,
        });
        self.stage = Stage::Unworked;
        Ok(())
    }

    // Sets the fund.
    pub fn fund(&mut self, amount: u32) -> Result<(), CaseRefusal>
        ensures result { result ≡ answer (fund_due (view self.old) amount) tt }
        ensures case { view self.new ≡ unless_due (fund_due (view self.old) amount) (funded (view self.old) amount) (view self.old) }
        ensures history { Continues (Fund amount result) (view self.old) (view self.new) }
    {
        self.check_fund(amount)?;
        self.fund = amount;
        self.stage = Stage::Unworked;
        Ok(())
    }

    // Changes the amount of one row, and of no other.
    pub fn amend(&mut self, number: u16, amount: u32) -> Result<(), CaseRefusal>
        ensures result { result ≡ answer (amend_due (view self.old) number amount) tt }
        ensures case { view self.new ≡ unless_due (amend_due (view self.old) number amount) (amended (view self.old) number amount) (view self.old) }
        ensures history { Continues (Amend number amount result) (view self.old) (view self.new) }
    {
        self.check_amend(number, amount)?;
        self.table.amend(number, amount);
        self.stage = Stage::Unworked;
        Ok(())
    }

    // Presses a string of letters, all or none, and keeps the form alone.
    pub fn press(&mut self, letters: &[u8]) -> Result<(), CaseRefusal>
        ensures result { result ≡ answer (press_due (view self.old) letters.now) tt }
        ensures case { view self.new ≡ unless_due (press_due (view self.old) letters.now) (letters_pressed (view self.old) letters.now) (view self.old) }
        ensures history { Continues (Press letters.now result) (view self.old) (view self.new) }
    {
        let mut form = self.form;
        form.press_all(letters)?;
        if self.is_out() {
            return Err(CaseRefusal::SheetOut);
        }
        self.form = form;
        self.stage = Stage::Unworked;
        Ok(())
    }

    // Works the awards of the case's form over the amounts and classes, with the fund as estate, into the rows, and marks
    // the case.
    pub fn divide<R: Rule>(&mut self, rule: &R) -> Result<(), CaseRefusal>
        ensures result { result ≡ answer (divide_due (view self.old)) tt }
        ensures case { view self.new ≡ unless_due (divide_due (view self.old)) (divided (view self.old) (R.Rule.awards rule.now)) (view self.old) }
        ensures history { Continues (Divide (R.Rule.awards rule.now) result) (view self.old) (view self.new) }
    {
        self.check_divide()?;
        let mut scratch = [0; MOST_CLAIMS];
        let awards = &mut scratch[..self.table.rows().len()];
        self.work_awards(rule, awards);
        self.table.award(awards);
        self.stage = Stage::Worked;
        Ok(())
    }

    // Writes the awards of the case's form, where no refusal is due.
    fn work_awards<R: Rule>(&self, rule: &R, awards: &mut [u32])
        requires due { divide_due (view self.now) ≡ None }
        requires room { length awards.old ≡ length (view self.now).rows }
        ensures awards { awards.new ≡ awards_by (view self.now) (R.Rule.awards rule.now) }
    {
        let count = self.table.rows().len();
        let mut claim_scratch = [0; MOST_CLAIMS];
        let claims = &mut claim_scratch[..count];
        self.table.write_claims(claims);
        let mut class_scratch = [0; MOST_CLAIMS];
        let classes = &mut class_scratch[..count];
        self.table.write_classes(classes);
        match apply_form(&self.form, rule, classes, claims, self.fund, awards) {
            Ok(()) => {}
            // A case keeps at most 64 rows, classes from 1 to 8 and a total within its limit, so no rule refuses it.
            Err(_) => unreachable(),
        }
    }

    // Hands out the sheet of a worked case; while it is out, only tally, sign and return are taken.
    pub fn draw(&mut self) -> Result<Sheet, CaseRefusal>
        ensures result { result ≡ answer (draw_due (view self.old)) (sheet_of (view self.old)) }
        ensures case { view self.new ≡ unless_due (draw_due (view self.old)) (drawn (view self.old)) (view self.old) }
        ensures its { IfOk result (λ sheet. is_its_sheet (view self.new) sheet ≡ true) }
        ensures history { Continues (Draw result) (view self.old) (view self.new) }
    {
        self.check_draw()?;
        self.stage = Stage::SheetOut;
        Ok(Sheet {
            number: self.number,
            rows: self.table.rows().len(),
            total: self.table.total_award(),
        })
    }
}
