// How an outcome is written. A text of one line is always shorter than the least buffer: each line that is printed for
// a row or a posting has at most 30 bytes.
ghost use Rattle.std.specs.Prelude.{◌≡◌, ℕ, ◌+◌, ◌*◌, ◌≤◌, List, [], ◌∷◌, ◌++◌, All, map, length, codes};
ghost use Rattle.normal_form.specs.FormParts.{parts};
ghost use Rattle.normal_form.specs.Forms.{written};
ghost use Rattle.casefile.specs.Decimal.{digits};
ghost use Rattle.transcript.specs.Texts.{award_fields, post_fields, refused_fields, as_line, as_text, text_of, least_buffer, most_printed, Begins, TextAnswered};
ghost use Rattle.transcript.specs.Outcomes.{compared, told};

use crate::outcome::{Division, Outcome, Postings};
use crate::refusal::RunRefusal;
use crate::text::{Text, put};
use cases::row::{Posting, Row};
use itoa::Buffer;
use normal_form::compare::Comparison;

// The least room that a text buffer must have.
pub const LEAST_BUFFER: usize = 2_048;

// What is printed as one line of a list.
trait Entry {
    // The fields of its line.
    ghost fields: { Self → List (List ℕ) };

    // What keeps its line short.
    ghost IsShort: { Self → Type 0 };

    fn push_to(&self, text: &mut Text)
        requires short { IsShort self.now }
        requires room { length text.old + 30 ≤ most_printed }
        ensures few { length text.new ≤ length text.old + 30 }
        ensures text { text.new ≡ text.old ++ as_line (fields self.now) };
}

// The line of a row's award.
impl Entry for Row {
    ghost fields = { award_fields };

    ghost IsShort = { λ _. Unit {0} };

    fn push_to(&self, text: &mut Text) {
        let Row { number, award, .. } = *self;
        text.push_numbers(b"award", number, award);
    }
}

// The line of a posting.
impl Entry for Posting {
    ghost use Rattle.cases.specs.Rows.{Postable};

    ghost fields = { post_fields };

    ghost IsShort = { Postable };

    fn push_to(&self, text: &mut Text) {
        let Posting { number, amount } = *self;
        text.push_numbers(b"post", number, amount);
    }
}

// The lines of a list, at the front of the buffer.
fn put_entries<E: Entry>(out: &mut [u8], entries: &[E]) -> usize
    requires short { All E.IsShort entries.now }
    requires room { 30 * length entries.now ≤ length out.old }
    ensures few { result ≤ 30 * length entries.now }
    ensures text { Begins (as_text (map E.fields entries.now)) result out.new out.old }
{
    let mut at = 0;
    for entry in entries {
        let mut line = Text::new();
        entry.push_to(&mut line);
        at = put(out, at, &line);
    }
    at
}

// The lines of a division: its awards, and the estate that was divided.
fn put_division(out: &mut [u8], division: &Division) -> usize
    requires { least_buffer ≤ length out.old }
    ensures few { result ≤ least_buffer }
    ensures text { Begins (as_text (map award_fields division.now.rows.items ++ (codes "total" ∷ digits division.now.estate ∷ []) ∷ [])) result out.new out.old }
{
    let at = put_entries(out, division.rows());
    let mut line = Text::new();
    let mut estate = Buffer::new();
    line.push_line(b"total", &[estate.format(division.estate).as_bytes()]);
    put(out, at, &line)
}

// The lines of a signing: its postings, and that it was signed.
fn put_signing(out: &mut [u8], postings: &Postings) -> usize
    requires { least_buffer ≤ length out.old }
    ensures few { result ≤ least_buffer }
    ensures text { Begins (as_text (map post_fields postings.now.list.items ++ (codes "signed" ∷ []) ∷ [])) result out.new out.old }
{
    let at = put_entries(out, postings.list());
    put(out, at, &word_text(b"signed"))
}

// The text of a comparison.
fn comparison_text(comparison: &Comparison) -> Text
    ensures { (line : ℕ) → result ≡ text_of line (compared comparison.now) }
{
    let mut text = Text::new();
    match comparison {
        Comparison::Same(form) => {
            let form = form.text();
            text.push_line(b"same", &[form.as_bytes()]);
        }
        Comparison::Differ(first, second) => {
            let first = first.text();
            let second = second.text();
            text.push_line(b"differ", &[first.as_bytes(), second.as_bytes()]);
        }
    }
    text
}

// The text of a sheet that was drawn.
fn drawn_text(rows: usize, total: u64) -> Text
    ensures { result ≡ as_text ((codes "sheet" ∷ digits rows ∷ digits total ∷ []) ∷ []) }
{
    let mut text = Text::new();
    text.push_numbers(b"sheet", rows, total);
    text
}

// The text of a refusal: the number of the line that was refused, and that of the refusal.
pub(crate) fn refused_text(line: usize, number: u8) -> Text
    ensures { result ≡ as_text (refused_fields line number ∷ []) }
{
    let mut text = Text::new();
    text.push_numbers(b"refused", line, number);
    text
}

// The text of one word.
fn word_text(word: &[u8]) -> Text
    requires { length word.now + 1 ≤ most_printed }
    ensures { result ≡ as_text ((word.now ∷ []) ∷ []) }
{
    let mut text = Text::new();
    text.push_line(word, &[]);
    text
}

impl Outcome {
    // Writes the text of the outcome, where there is room for any, and answers how many bytes it has.
    fn put_text(&self, line: usize, out: &mut [u8]) -> usize
        requires { least_buffer ≤ length out.old }
        ensures few { result ≤ least_buffer }
        ensures text { Begins (text_of line (told self.now)) result out.new out.old }
    {
        match self {
            Outcome::Remark => 0,
            Outcome::Accepted => put(out, 0, &word_text(b"ok")),
            Outcome::Divided(division) => put_division(out, division),
            Outcome::Drawn { rows, total } => put(out, 0, &drawn_text(*rows, *total)),
            Outcome::Signed(postings) => put_signing(out, postings),
            Outcome::Returned => put(out, 0, &word_text(b"returned")),
            Outcome::Compared(comparison) => put(out, 0, &comparison_text(comparison)),
            Outcome::Refused(refusal) => put(out, 0, &refused_text(line, refusal.number())),
        }
    }

    // Writes the text of the outcome of a line into the front of a buffer, leaves what lies behind as it was, and answers
    // how many bytes it wrote. The number of the line is named by a refusal alone. The room is the caller's, so that no call
    // needs the heap.
    pub fn write(&self, line: usize, out: &mut [u8]) -> Result<usize, RunRefusal>
        ensures text { TextAnswered (text_of line (told self.now)) out.old result out.new }
    {
        if out.len() < LEAST_BUFFER {
            return Err(RunRefusal::BufferTooShort);
        }
        Ok(self.put_text(line, out))
    }
}
