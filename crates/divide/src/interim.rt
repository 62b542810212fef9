// Works one estate through a case: two interim payments and a final one, with a claim amended and more letters pressed
// between, and prints the postings and each claimant's sum of postings beside his award.
ghost use Rattle.std.specs.Prelude.{◌≡◌, true};
ghost use Rattle.cases.specs.Cases.{is_its_sheet};
ghost use Rattle.cases.specs.CaseViews.{view};

use cases::case::Case;
use cases::numbered::{find, find_posting};
use cases::refusal::{CaseRefusal, SheetRefusal};
use cases::row::Posting;
use cases::sheet::Sheet;
use division::equal_awards::EqualAwards;
use division::rule::Rule;
use std::{fmt, io};

// What one payment is made of: what changes before it, and the money then in hand.
#[derive(Clone, Copy)]
struct Payment {
    letters: &'static [u8],
    amended: u32,
    fund: u32,
}

const PAYMENTS: [Payment; 3] = [
    Payment {
        letters: b"",
        amended: 300,
        fund: 120,
    },
    Payment {
        letters: b"ts",
        amended: 300,
        fund: 240,
    },
    Payment {
        letters: b"d",
        amended: 250,
        fund: 400,
    },
];

// What was posted to a claimant so far.
#[derive(Clone, Copy)]
struct Posted {
    claimant: u16,
    sum: i64,
}

// Why a payment is not made.
#[derive(Clone, Copy)]
enum NotPaid {
    Case(CaseRefusal),
    Sheet(SheetRefusal),
}

impl From<CaseRefusal> for NotPaid {
    fn from(refusal: CaseRefusal) -> NotPaid {
        NotPaid::Case(refusal)
    }
}

impl fmt::Display for NotPaid {
    fn fmt<W: fmt::Write>(&self, f: &mut fmt::Formatter<W>) -> fmt::Result {
        match self {
            NotPaid::Case(refusal) => write!(f, "{refusal}"),
            NotPaid::Sheet(refusal) => write!(f, "{refusal}"),
        }
    }
}

// A sheet goes back to its own case, which never refuses it. This is no public call of the case, since only a requires
// can say whose sheet it is.
fn give_back(case: &mut Case, sheet: Sheet)
    requires its { is_its_sheet (view case.old) sheet ≡ true }
{
    match case.return_sheet(sheet) {
        Ok(()) => {}
        Err((_, _)) => unreachable(),
    }
}

// Signs the case off into the list and answers how many postings were written.
fn sign_off(case: &mut Case, postings: &mut [Posting]) -> Result<usize, NotPaid> {
    let sheet = case.draw()?;
    match case.sign(sheet, postings) {
        Ok(count) => Ok(count),
        Err((sheet, refusal)) => {
            give_back(case, sheet);
            Err(NotPaid::Sheet(refusal))
        }
    }
}

fn pay(case: &mut Case, payment: Payment, postings: &mut [Posting]) -> Result<usize, NotPaid> {
    case.press(payment.letters)?;
    case.amend(12, payment.amended)?;
    case.fund(payment.fund)?;
    case.divide(&EqualAwards)?;
    sign_off(case, postings)
}

fn open(case: &mut Case) -> Result<(), CaseRefusal> {
    case.admit(11, 100, 1)?;
    case.admit(12, 300, 2)?;
    case.admit(13, 80, 2)
}

fn posted_to(postings: &[Posting], number: u16) -> i64 {
    find_posting(postings, u32::from(number)).map_or(0, |posting| posting.amount)
}

fn show_payment(
    rt: &HostRuntime,
    case: &mut Case,
    payment: Payment,
    posted: &mut [Posted],
) -> io::Result<()> {
    let mut postings = [Posting::default(); 4];
    let fund = payment.fund;
    match pay(case, payment, &mut postings) {
        Ok(count) => println!(rt; "paid out of {fund}, {count} postings:")?,
        Err(refusal) => println!(rt; "not paid, {refusal}:")?,
    }
    for posting in postings.iter() {
        println!(rt; "  {} {}", posting.number, posting.amount)?;
    }
    for to in posted.iter_mut() {
        to.sum = to.sum.saturating_add(posted_to(&postings, to.claimant));
    }
    Ok(())
}

fn show_sums(rt: &HostRuntime, case: &Case, posted: &[Posted]) -> io::Result<()> {
    let rows = case.rows();
    for to in posted.iter() {
        if let Some(place) = find(rows, u32::from(to.claimant)) {
            let award = rows[place].award;
            println!(rt;
                "claimant {}: postings {}, award {award}",
                to.claimant, to.sum
            )?;
        }
    }
    Ok(())
}

pub(crate) fn show_interim_series(rt: &HostRuntime) -> io::Result<()> {
    let mut case = Case::new(1, rt.alloc())?;
    if open(&mut case).is_err() {
        return println!(rt; "the claims were refused");
    }
    let mut posted = [11, 12, 13].map(|claimant| Posted { claimant, sum: 0 });
    for payment in PAYMENTS {
        show_payment(rt, &mut case, payment, &mut posted)?;
    }
    show_sums(rt, &case, &posted)
}
