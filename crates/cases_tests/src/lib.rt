// Tests of the calls of a case: refusals in their order, the sheet, and the postings of an interim series. A sheet can
// not be let go, so the helpers below give each one back, and the proofs show that its own case takes it.
#![tactic(auto)]

ghost use Rattle.std.specs.Prelude.{◌≡◌, true, Ok, IfOk, IfErr, OnOk};
ghost use Rattle.cases.specs.Cases.{is_its_sheet};
ghost use Rattle.cases.specs.CaseViews.{view};

#[cfg(test)]
mod tests {
    use cases::case::Case;
    use cases::numbered::find_posting;
    use cases::refusal::{CaseRefusal, SheetRefusal};
    use cases::row::Posting;
    use cases::sheet::Sheet;
    use division::equal_awards::EqualAwards;
    use division::rule::Rule;
    use normal_form::letter::LetterRefusal;
    use std::process::Abort;
    use std::test::Fail;

    const MOST: u32 = 2_000_000_000;

    const BLANK: Posting = Posting {
        number: 9,
        amount: 9,
    };

    // What a call answers, a refusal by its number.
    fn numbered(answer: Result<(), CaseRefusal>) -> Result<(), u8> {
        answer.map_err(|refusal| refusal.number())
    }

    // Return refuses a sheet that is not the case's, so only a requires can say that none is refused here: that is why
    // this is no public call of the case, which may ask nothing of its callers.
    fn give_back(case: &mut Case, sheet: Sheet)
        requires its { is_its_sheet (view case.old) sheet ≡ true }
    {
        match case.return_sheet(sheet) {
            Ok(()) => {}
            Err((_, _)) => unreachable(),
        }
    }

    // What was answered of the case's sheet; a refused sheet goes back.
    fn with_sheet_back<T>(
        case: &mut Case,
        answer: Result<T, (Sheet, SheetRefusal)>,
    ) -> Result<T, u8>
        requires its { IfErr answer (λ refused. is_its_sheet (view case.old) refused.0 ≡ true) }
        ensures value { IfOk result (λ value. answer ≡ Ok value) }
        ensures case { OnOk result (view case.new ≡ view case.old) }
    {
        match answer {
            Ok(value) => Ok(value),
            Err((sheet, refusal)) => {
                give_back(case, sheet);
                Err(refusal.number())
            }
        }
    }

    // Draws and gives back, or why nothing was drawn.
    fn drawing(case: &mut Case) -> Result<(), u8> {
        let sheet = case.draw().map_err(|refusal| refusal.number())?;
        give_back(case, sheet);
        Ok(())
    }

    // Signs with that list.
    fn signing(case: &mut Case, out: &mut [Posting]) -> Result<usize, u8> {
        let sheet = case.draw().map_err(|refusal| refusal.number())?;
        let answer = case.sign(sheet, out);
        with_sheet_back(case, answer)
    }

    // Whether the sheet's total is the control total; the sheet goes back.
    fn tallying(case: &mut Case, control: u64) -> Result<bool, u8> {
        let sheet = case.draw().map_err(|refusal| refusal.number())?;
        let answer = case.tally(sheet, control);
        let (sheet, equal) = with_sheet_back(case, answer)?;
        give_back(case, sheet);
        Ok(equal)
    }

    // What a case answers that is asked to take another's sheet.
    fn returning_elsewhere(case: &mut Case, other: &mut Case) -> Result<(), u8> {
        let sheet = case.draw().map_err(|refusal| refusal.number())?;
        let answer = other.return_sheet(sheet);
        with_sheet_back(case, answer)
    }

    fn signing_elsewhere(
        case: &mut Case,
        other: &mut Case,
        out: &mut [Posting],
    ) -> Result<usize, u8> {
        let sheet = case.draw().map_err(|refusal| refusal.number())?;
        let answer = other.sign(sheet, out);
        with_sheet_back(case, answer)
    }

    fn tallying_elsewhere(case: &mut Case, other: &Case, control: u64) -> Result<bool, u8> {
        let sheet = case.draw().map_err(|refusal| refusal.number())?;
        let answer = other.tally(sheet, control);
        let (sheet, equal) = with_sheet_back(case, answer)?;
        give_back(case, sheet);
        Ok(equal)
    }

    // What the keeper's calls answer while that sheet is out: it stays the case's. A struct of the case and its sheet would have
    // to own the case, and every test would hand it on and take it back: no plainer.
    fn admit_out(
        case: &mut Case,
        sheet: &Sheet,
        number: u16,
        amount: u32,
        class: u8,
    ) -> Result<(), u8>
        requires its { is_its_sheet (view case.old) sheet.now ≡ true }
        ensures its { is_its_sheet (view case.new) sheet.now ≡ true }
    {
        numbered(case.admit(number, amount, class))
    }

    fn amend_out(case: &mut Case, sheet: &Sheet, number: u16, amount: u32) -> Result<(), u8>
        requires its { is_its_sheet (view case.old) sheet.now ≡ true }
        ensures its { is_its_sheet (view case.new) sheet.now ≡ true }
    {
        numbered(case.amend(number, amount))
    }

    fn fund_out(case: &mut Case, sheet: &Sheet, amount: u32) -> Result<(), u8>
        requires its { is_its_sheet (view case.old) sheet.now ≡ true }
        ensures its { is_its_sheet (view case.new) sheet.now ≡ true }
    {
        numbered(case.fund(amount))
    }

    fn press_out(case: &mut Case, sheet: &Sheet, letters: &[u8]) -> Result<(), u8>
        requires its { is_its_sheet (view case.old) sheet.now ≡ true }
        ensures its { is_its_sheet (view case.new) sheet.now ≡ true }
    {
        numbered(case.press(letters))
    }

    fn divide_out(case: &mut Case, sheet: &Sheet) -> Result<(), u8>
        requires its { is_its_sheet (view case.old) sheet.now ≡ true }
        ensures its { is_its_sheet (view case.new) sheet.now ≡ true }
    {
        numbered(case.divide(&EqualAwards))
    }

    fn draw_out(case: &mut Case, sheet: &Sheet) -> Result<(), u8>
        requires its { is_its_sheet (view case.old) sheet.now ≡ true }
        ensures its { is_its_sheet (view case.new) sheet.now ≡ true }
    {
        match case.draw() {
            Ok(_) => unreachable(),
            Err(refusal) => Err(refusal.number()),
        }
    }

    fn admitting_while_out(case: &mut Case) -> Result<[Result<(), u8>; 5], u8> {
        let sheet = case.draw().map_err(|refusal| refusal.number())?;
        let plain = admit_out(case, &sheet, 13, 1, 1);
        let above = admit_out(case, &sheet, 0, MOST, 0);
        let class = admit_out(case, &sheet, 0, 1, 9);
        let reserved = admit_out(case, &sheet, 65_535, 1, 8);
        let taken = admit_out(case, &sheet, 11, 1, 8);
        give_back(case, sheet);
        Ok([plain, above, class, reserved, taken])
    }

    fn changing_while_out(case: &mut Case) -> Result<[Result<(), u8>; 6], u8> {
        let sheet = case.draw().map_err(|refusal| refusal.number())?;
        let amend = amend_out(case, &sheet, 11, 5);
        let above = amend_out(case, &sheet, 11, MOST);
        let unknown = amend_out(case, &sheet, 13, MOST);
        let reserved = amend_out(case, &sheet, 0, MOST);
        let fund = fund_out(case, &sheet, 1);
        let rich = fund_out(case, &sheet, MOST + 1);
        give_back(case, sheet);
        Ok([amend, above, unknown, reserved, fund, rich])
    }

    fn working_while_out(case: &mut Case) -> Result<[Result<(), u8>; 4], u8> {
        let sheet = case.draw().map_err(|refusal| refusal.number())?;
        let press = press_out(case, &sheet, b"ts");
        let letter = press_out(case, &sheet, b"tq");
        let divide = divide_out(case, &sheet);
        let draw = draw_out(case, &sheet);
        give_back(case, sheet);
        Ok([press, letter, divide, draw])
    }

    // Two claims, divided by equal awards under "ts".
    fn worked(rt: &(impl Abort + AllocGlobal), number: u32) -> Result<Case, Fail> {
        let mut case = Case::new(number, rt.alloc())?;
        assert_eq!(rt; numbered(case.admit(11, 100, 1)), Ok(()));
        assert_eq!(rt; numbered(case.admit(12, 300, 2)), Ok(()));
        assert_eq!(rt; numbered(case.fund(200)), Ok(()));
        assert_eq!(rt; numbered(case.press(b"ts")), Ok(()));
        assert_eq!(rt; numbered(case.divide(&EqualAwards)), Ok(()));
        Ok(case)
    }

    // The first two rows: what was paid, and what was awarded last.
    fn paid_and_awarded(rt: &impl Abort, case: &Case, first: (u32, u32), second: (u32, u32)) {
        let rows = case.rows();
        assert!(rt; rows.len() == 2);
        assert!(rt; rows[0].paid == first.0 && rows[0].award == first.1);
        assert!(rt; rows[1].paid == second.0 && rows[1].award == second.1);
    }

    // What is posted to a claimant.
    fn posted(postings: &[Posting], number: u32) -> Option<i64> {
        find_posting(postings, number).map(|posting| posting.amount)
    }

    #[test]
    fn admissions(rt: HostRuntime) -> Result<(), Fail> {
        let mut case = Case::new(7, rt.alloc())?;
        assert_eq!(rt; numbered(case.admit(11, 100, 1)), Ok(()));
        assert_eq!(rt; numbered(case.admit(0, 5, 1)), Err(9));
        assert_eq!(rt; numbered(case.admit(65_535, 5, 1)), Err(9));
        assert_eq!(rt; numbered(case.admit(11, 5, 8)), Err(10));
        assert_eq!(rt; numbered(case.admit(12, 5, 0)), Err(5));
        assert_eq!(rt; numbered(case.admit(11, 5, 9)), Err(5));
        assert_eq!(rt; numbered(case.admit(0, 5, 9)), Err(5));
        assert_eq!(rt; numbered(case.admit(12, MOST, 1)), Err(3));
        assert_eq!(rt; numbered(case.admit(12, MOST - 99, 0)), Err(3));
        assert_eq!(rt; numbered(case.admit(12, 4_294_967_295, 9)), Err(3));
        assert_eq!(rt; numbered(case.admit(12, MOST - 100, 8)), Ok(()));
        assert_eq!(rt; numbered(case.admit(13, 1, 1)), Err(3));
        assert_eq!(rt; numbered(case.admit(13, 0, 1)), Ok(()));
        assert_eq!(rt; case.rows().len(), 3);
        Ok(())
    }

    #[test]
    fn a_full_table(rt: HostRuntime) -> Result<(), Fail> {
        let mut case = Case::new(7, rt.alloc())?;
        for number in 1u16..65 {
            assert_eq!(rt; numbered(case.admit(number, 5, 1)), Ok(()));
        }
        assert_eq!(rt; case.rows().len(), 64);
        assert_eq!(rt; numbered(case.admit(65, 5, 1)), Err(12));
        assert_eq!(rt; numbered(case.admit(64, 5, 1)), Err(10));
        assert_eq!(rt; numbered(case.admit(0, 5, 1)), Err(9));
        assert_eq!(rt; numbered(case.admit(65, 5, 9)), Err(5));
        assert_eq!(rt; numbered(case.admit(65, MOST, 9)), Err(3));
        assert_eq!(rt; numbered(case.divide(&EqualAwards)), Ok(()));
        // A sheet that is out is answered before a full table.
        assert!(rt; admitting_while_out(&mut case)? == [Err(8), Err(3), Err(5), Err(8), Err(8)]);
        assert_eq!(rt; numbered(case.amend(64, MOST - 315)), Ok(()));
        assert_eq!(rt; case.rows().len(), 64);
        Ok(())
    }

    #[test]
    fn amendments(rt: HostRuntime) -> Result<(), Fail> {
        let mut case = worked(&rt, 7)?;
        assert_eq!(rt; numbered(case.amend(13, 4_294_967_295)), Err(11));
        assert_eq!(rt; numbered(case.amend(0, 4_294_967_295)), Err(9));
        assert_eq!(rt; numbered(case.amend(65_535, 1)), Err(9));
        assert_eq!(rt; numbered(case.amend(11, MOST - 299)), Err(3));
        assert_eq!(rt;
            drawing(&mut case),
            Ok(()),
            "a refused call leaves the mark"
        );
        assert_eq!(rt; numbered(case.amend(11, MOST - 300)), Ok(()));
        assert_eq!(rt; drawing(&mut case), Err(13));
        assert_eq!(rt; numbered(case.admit(13, 1, 1)), Err(3));
        assert_eq!(rt; numbered(case.amend(11, 0)), Ok(()));
        let rows = case.rows();
        assert!(rt; rows.len() == 2);
        assert!(rt; rows[0].amount == 0 && rows[1].amount == 300);
        Ok(())
    }

    #[test]
    fn funds_and_letters(rt: HostRuntime) -> Result<(), Fail> {
        let mut case = worked(&rt, 7)?;
        assert_eq!(rt; numbered(case.fund(MOST + 1)), Err(3));
        assert_eq!(rt; case.estate(), 200);
        assert_eq!(rt; numbered(case.press(b"dq")), Err(7));
        assert_eq!(rt; drawing(&mut case), Ok(()));
        assert_eq!(rt; numbered(case.fund(150)), Ok(()));
        assert_eq!(rt; numbered(case.divide(&EqualAwards)), Ok(()));
        paid_and_awarded(&rt, &case, (0, 100), (0, 50));
        assert_eq!(rt; numbered(case.press(b"")), Ok(()));
        assert_eq!(rt; drawing(&mut case), Err(13));
        assert_eq!(rt; numbered(case.divide(&EqualAwards)), Ok(()));
        paid_and_awarded(&rt, &case, (0, 100), (0, 50));
        assert_eq!(rt; numbered(case.fund(MOST)), Ok(()));
        assert_eq!(rt; case.estate(), MOST);
        assert_eq!(rt; numbered(case.divide(&EqualAwards)), Err(4));
        assert_eq!(rt; drawing(&mut case), Err(13));
        assert_eq!(rt; numbered(case.fund(401)), Ok(()));
        assert_eq!(rt; numbered(case.divide(&EqualAwards)), Err(4));
        assert_eq!(rt; numbered(case.fund(400)), Ok(()));
        assert_eq!(rt; numbered(case.divide(&EqualAwards)), Ok(()));
        assert_eq!(rt; drawing(&mut case), Ok(()));
        assert_eq!(rt; drawing(&mut case), Ok(()), "a return leaves the mark");
        Ok(())
    }

    #[test]
    fn while_a_sheet_is_out(rt: HostRuntime) -> Result<(), Fail> {
        let mut case = worked(&rt, 7)?;
        assert!(rt; admitting_while_out(&mut case)? == [Err(8), Err(3), Err(5), Err(8), Err(8)]);
        assert!(rt;
            changing_while_out(&mut case)? == [Err(8), Err(3), Err(8), Err(8), Err(8), Err(3)]
        );
        assert!(rt; working_while_out(&mut case)? == [Err(8), Err(7), Err(8), Err(8)]);
        assert_eq!(rt; case.estate(), 200);
        paid_and_awarded(&rt, &case, (0, 100), (0, 100));
        assert_eq!(rt; drawing(&mut case), Ok(()));
        Ok(())
    }

    #[test]
    fn another_cases_sheet(rt: HostRuntime) -> Result<(), Fail> {
        let mut list = [BLANK; 3];
        let mut case = worked(&rt, 7)?;
        let mut other = worked(&rt, 8)?;
        assert_eq!(rt; returning_elsewhere(&mut case, &mut other), Err(14));
        assert_eq!(rt;
            signing_elsewhere(&mut case, &mut other, &mut list),
            Err(14)
        );
        assert_eq!(rt; signing_elsewhere(&mut case, &mut other, &mut []), Err(14));
        assert!(rt; list[0].number == 9 && list[2].amount == 9);
        assert_eq!(rt; tallying_elsewhere(&mut case, &other, 200), Err(14));
        assert_eq!(rt; tallying(&mut case, 200), Ok(true));
        assert_eq!(rt; tallying(&mut case, 199), Ok(false));
        assert_eq!(rt; drawing(&mut other), Ok(()));
        // A case of the same number that has no sheet out takes none.
        let mut same = worked(&rt, 7)?;
        assert_eq!(rt; returning_elsewhere(&mut case, &mut same), Err(14));
        Ok(())
    }

    #[test]
    fn a_first_signing(rt: HostRuntime) -> Result<(), Fail> {
        let mut short = [BLANK; 2];
        let mut list = [BLANK; 4];
        let mut case = worked(&rt, 7)?;
        assert_eq!(rt; signing(&mut case, &mut short), Err(15));
        assert!(rt; short[0].number == 9 && short[1].amount == 9);
        paid_and_awarded(&rt, &case, (0, 100), (0, 100));
        assert_eq!(rt; signing(&mut case, &mut list), Ok(3));
        assert!(rt; list[0].number == 0 && list[0].amount == -200);
        assert!(rt; list[1].number == 11 && list[1].amount == 100);
        assert!(rt; list[2].number == 12 && list[2].amount == 100);
        assert!(rt; list[3].number == 9 && list[3].amount == 9);
        assert_eq!(rt; posted(&list, 12), Some(100));
        assert!(rt; find_posting(&list, 13).is_none());
        paid_and_awarded(&rt, &case, (100, 100), (100, 100));
        assert_eq!(rt; drawing(&mut case), Err(13));
        Ok(())
    }

    #[test]
    fn an_interim_series(rt: HostRuntime) -> Result<(), Fail> {
        let mut first = [BLANK; 3];
        let mut second = [BLANK; 3];
        let mut case = worked(&rt, 7)?;
        assert_eq!(rt; signing(&mut case, &mut first), Ok(3));
        assert_eq!(rt; numbered(case.fund(300)), Ok(()));
        assert_eq!(rt; numbered(case.divide(&EqualAwards)), Ok(()));
        assert_eq!(rt; signing(&mut case, &mut second), Ok(3));
        assert!(rt; second[0].number == 0 && second[0].amount == -100);
        assert!(rt; second[1].number == 11 && second[1].amount == 0);
        assert!(rt; second[2].number == 12 && second[2].amount == 100);
        paid_and_awarded(&rt, &case, (100, 100), (200, 200));
        Ok(())
    }

    #[test]
    fn refusals_as_they_are_printed(rt: HostRuntime) -> Result<(), Fail> {
        let letter = CaseRefusal::from(LetterRefusal::UnknownLetter);
        let text = format!(in rt.alloc();
            "{} {letter} {}",
            CaseRefusal::TableFull,
            SheetRefusal::ListTooShort
        )?;
        assert_eq!(rt; text.as_str(), "12 7 15");
        Ok(())
    }
}
