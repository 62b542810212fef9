// What comes of each kind of line for a case in hand. Each function here is one line's call: it answers the values that
// will be printed, or the refusal, and leaves in hand what the line's definition says.
ghost use Rattle.std.specs.Prelude.{◌≡◌, IfOk, Some, None};
ghost use Rattle.division.specs.BaseRules.{meaning_of as rule_meaning};
ghost use Rattle.casefile.specs.Calls.{asked, field_letters};
ghost use Rattle.transcript.specs.Outcomes.{told, accepted, awarded, sheet_drawn, signed_off, given_back, compared};
ghost use Rattle.transcript.specs.Turns.{new_in_hand, on_claim, on_amend, on_fund, on_letters, meaning_of, on_divide, on_draw, on_sign, on_return, operators_of, forms_told, asked_turn, turn, ending};
ghost use Rattle.transcript.specs.HandViews.{in_hand, ClaimantFits, Comes, told_of, Answers, all_told};

use crate::in_hand::CaseInHand;
use crate::outcome::{Division, MOST_POSTINGS, Outcome, Postings};
use crate::refusal::Refusal;
use arrayvec::ArrayVec;
use casefile::call::{Call, RuleName, letters_of, read_line};
use cases::case::Case;
use cases::refusal::SheetRefusal;
use cases::row::Posting;
use cases::sheet::Sheet;
use division::base_rule::BaseRule;
use normal_form::compare::{Comparison, compare};
use normal_form::letter::LetterRefusal;
use std::alloc::{AllocError, Global};

impl CaseInHand {
    // A new case, with no sheet out.
    pub(crate) fn new(number: u32, heap: Global) -> Result<CaseInHand, AllocError>
        ensures result { IfOk result (λ c. in_hand c ≡ new_in_hand number) }
    {
        let case = Case::new(number, heap)?;
        Ok(CaseInHand { case, sheet: None })
    }

    #[tactic(auto, using(crate::proofs::Handing::kept_in_order))]
    fn claim(&mut self, number: u16, amount: u32, class: u8) -> Result<(), Refusal>
        ensures turn { Answers (on_claim number amount class (in_hand self.old)) (told_of (λ _. accepted) result) (in_hand self.new) }
    {
        self.case.admit(number, amount, class)?;
        Ok(())
    }

    #[tactic(auto, using(crate::proofs::Handing::kept_in_order))]
    fn amend(&mut self, number: u16, amount: u32) -> Result<(), Refusal>
        ensures turn { Answers (on_amend number amount (in_hand self.old)) (told_of (λ _. accepted) result) (in_hand self.new) }
    {
        self.case.amend(number, amount)?;
        Ok(())
    }

    fn fund(&mut self, amount: u32) -> Result<(), Refusal>
        ensures turn { Answers (on_fund amount (in_hand self.old)) (told_of (λ _. accepted) result) (in_hand self.new) }
    {
        self.case.fund(amount)?;
        Ok(())
    }

    // A field that stands for no string of letters is refused here, and the case is not called.
    #[tactic(auto, using(crate::proofs::Handing::kept_in_order))]
    fn press(&mut self, field: &[u8]) -> Result<(), Refusal>
        ensures turn { Answers (on_letters (field_letters field.now) (in_hand self.old)) (told_of (λ _. accepted) result) (in_hand self.new) }
    {
        let letters = letters_of(field).ok_or(LetterRefusal::UnknownLetter)?;
        self.case.press(letters)?;
        Ok(())
    }

    #[tactic(auto, using(crate::proofs::Handing::kept_in_order))]
    fn divide(&mut self, name: RuleName) -> Result<Division, Refusal>
        ensures turn { Answers (on_divide name (in_hand self.old)) (told_of (λ division. awarded division.rows.items division.estate) result) (in_hand self.new) }
    {
        self.case.divide(&rule_of(name))?;
        let mut rows = ArrayVec::new();
        rows.try_extend_from_slice(self.case.rows()).unwrap();
        Ok(Division {
            rows,
            estate: self.case.estate(),
        })
    }

    // Answers how many rows the sheet has, and what was awarded in all.
    fn draw(&mut self) -> Result<(usize, u64), Refusal>
        ensures turn { Answers (on_draw (in_hand self.old)) (told_of (λ drawn. sheet_drawn drawn.0 drawn.1) result) (in_hand self.new) }
    {
        let sheet = self.case.draw()?;
        let rows = sheet.row_count();
        let total = sheet.total_awarded();
        put_sheet(&mut self.sheet, sheet);
        Ok((rows, total))
    }

    // With no sheet in hand the case is not called; a refused sheet stays in hand.
    fn sign(&mut self) -> Result<Postings, Refusal>
        ensures turn { Answers (on_sign self.old.sheet (in_hand self.old)) (told_of (λ postings. signed_off postings.list.items) result) (in_hand self.new) }
    {
        let sheet = self.sheet.take().ok_or(SheetRefusal::OtherCase)?;
        let mut room = [Posting::default(); MOST_POSTINGS];
        match self.case.sign(sheet, &mut room) {
            Ok(count) => {
                let mut list = ArrayVec::from(room);
                list.truncate(count);
                Ok(Postings { list })
            }
            Err((sheet, refusal)) => {
                put_sheet(&mut self.sheet, sheet);
                Err(Refusal::Sheet(refusal))
            }
        }
    }

    // With no sheet in hand the case is not called; a refused sheet stays in hand.
    fn return_sheet(&mut self) -> Result<(), Refusal>
        ensures turn { Answers (on_return self.old.sheet (in_hand self.old)) (told_of (λ _. given_back) result) (in_hand self.new) }
    {
        let sheet = self.sheet.take().ok_or(SheetRefusal::OtherCase)?;
        match self.case.return_sheet(sheet) {
            Ok(()) => Ok(()),
            Err((sheet, refusal)) => {
                put_sheet(&mut self.sheet, sheet);
                Err(Refusal::Sheet(refusal))
            }
        }
    }

    // Does what a line asks for. `Call` names a claimant by 32 bits, as it always did; that they fit a row's 16 is asked here.
    // An outcome has room for 64 rows or 65 postings, so that it is made here, where all calls come together, and is not
    // handed up from each of them.
    fn perform(&mut self, call: Call<'_>) -> Outcome
        requires fits { ClaimantFits (asked call) }
        ensures turn { Comes (asked_turn (asked call.entry) (in_hand self.old)) result (in_hand self.new) }
    {
        match call {
            Call::Claim {
                number,
                amount,
                class,
            } => accepted_or_refused(self.claim(number as u16, amount, class)),
            Call::Amend { number, amount } => accepted_or_refused(self.amend(
                number as u16,
                amount,
            )),
            Call::Fund(amount) => accepted_or_refused(self.fund(amount)),
            Call::Press(field) => accepted_or_refused(self.press(field)),
            Call::Divide(name) => self
                .divide(name)
                .map_or_else(Outcome::Refused, Outcome::Divided),
            Call::Draw => self.draw().map_or_else(
                Outcome::Refused,
                |(rows, total)| Outcome::Drawn { rows, total },
            ),
            Call::Sign => self.sign().map_or_else(Outcome::Refused, Outcome::Signed),
            Call::Return => self
                .return_sheet()
                .map_or_else(Outcome::Refused, |()| Outcome::Returned),
            Call::Compare(left, right) => {
                compare_fields(left, right).map_or_else(Outcome::Refused, Outcome::Compared)
            }
            Call::Remark => Outcome::Remark,
        }
    }

    // Does what a line asks for, or tells why the line is refused.
    pub(crate) fn run(&mut self, line: &[u8]) -> Outcome
        ensures turn { Comes (turn line.now (in_hand self.old)) result (in_hand self.new) }
    {
        match read_line(line) {
            Ok(call) => self.perform(call),
            Err(refusal) => Outcome::Refused(refusal.into()),
        }
    }

    // Puts the case away. A sheet that is still out is returned first, and that is told.
    pub(crate) fn put_away(self) -> Option<Outcome>
        ensures ending { all_told result ≡ ending self.sheet }
    {
        let CaseInHand { mut case, sheet } = self;
        match case.return_sheet(sheet?) {
            Ok(()) => Some(Outcome::Returned),
            // The sheet in hand is the case's own, so the case takes it.
            Err((_, _)) => unreachable(),
        }
    }
}

// The outcome of a call that has no more to say than that the case took it.
fn accepted_or_refused(answer: Result<(), Refusal>) -> Outcome
    ensures result { told result ≡ told_of (λ _. accepted) answer }
{
    answer.map_or_else(Outcome::Refused, |()| Outcome::Accepted)
}

// Compares two letters fields; the case is not called.
fn compare_fields(left: &[u8], right: &[u8]) -> Result<Comparison, Refusal>
    ensures result { told_of compared result ≡ forms_told (operators_of (field_letters left.now)) (operators_of (field_letters right.now)) }
{
    let left = letters_of(left).ok_or(LetterRefusal::UnknownLetter)?;
    let right = letters_of(right).ok_or(LetterRefusal::UnknownLetter)?;
    Ok(compare(left, right)?)
}

// Puts a sheet where none is. A sheet cannot be let go, so that an assignment, which would let the old one go, is refused.
fn put_sheet(slot: &mut Option<Sheet>, sheet: Sheet)
    requires { slot.old ≡ None }
    ensures slot { slot.new ≡ Some sheet }
{
    match slot.replace(sheet) {
        None => {}
        Some(_) => unreachable(),
    }
}

// The rule of a name. The case file knows of names alone, so that a name has a type of its own.
fn rule_of(name: RuleName) -> BaseRule
    ensures { rule_meaning result ≡ meaning_of name }
{
    match name {
        RuleName::Priority => BaseRule::Priority,
        RuleName::Equal => BaseRule::Equal,
        RuleName::Proportion => BaseRule::Proportion,
        RuleName::Talmud => BaseRule::Talmud,
    }
}
