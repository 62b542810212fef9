// How a form is written.
ghost use Rattle.std.specs.Prelude.{◌≡◌, ◌+◌, ◌≤◌, ◌++◌, [], length, map, drop, Some, if◌then◌else◌};
ghost use Rattle.normal_form.specs.Forms.{written, byte_of, seniority_letter};
ghost use Rattle.normal_form.specs.FormParts.{parts};

use crate::form::{Form, Place};
use arrayvec::ArrayString;
use operators::classes::ClassOrder;
use std::fmt;

// The room that `write` asks for. It writes into the caller's list, as it did before a form had a text of its own; a form has
// at most four letters.
pub const MOST_LETTERS: usize = 6;

// A letter more, where it is there; where it is not, nothing is copied.
fn push_if(text: &mut ArrayString<MOST_LETTERS>, present: bool, letter: &'static str)
    requires { length text.old.bytes + length letter.now ≤ 6 }
    ensures { text.new.bytes ≡ text.old.bytes ++ (if present then letter.now else []) }
{
    if present {
        text.push_str(letter);
    }
}

// The seniority letter, or nothing.
fn seniority(order: Option<ClassOrder>) -> &'static str
    ensures result { result.now ≡ map byte_of (seniority_letter order) }
{
    match order {
        None => "",
        Some(ClassOrder::SeniorFirst) => "s",
        Some(ClassOrder::JuniorFirst) => "r",
    }
}

impl Form {
    // The form as it is written: its letters, or a hyphen where it has none.
    pub fn text(&self) -> ArrayString<MOST_LETTERS>
        ensures text { result.bytes ≡ written (parts self.now) }
    {
        let mut text = ArrayString::new();
        push_if(&mut text, self.dual, "d");
        push_if(&mut text, self.truncation == Place::Inner, "t");
        push_if(&mut text, self.rights == Place::Inner, "m");
        text.push_str(seniority(self.order));
        push_if(&mut text, self.truncation == Place::Outer, "t");
        push_if(&mut text, self.rights == Place::Outer, "m");
        if text.is_empty() {
            text.push_str("-");
        }
        text
    }

    // Writes the form into the front of `out`, leaves what lies behind as it was, and answers how many bytes it wrote.
    pub fn write(&self, out: &mut [u8; MOST_LETTERS]) -> usize
        ensures result { result ≡ length (written (parts self.now)) }
        ensures few { result ≤ 6 }
        ensures text { out.new ≡ written (parts self.now) ++ drop (length (written (parts self.now))) out.old }
    {
        let text = self.text();
        out[..text.len()].copy_from_slice(text.as_bytes());
        text.len()
    }
}

impl fmt::Display for Form {
    ghost output = { λ form. Some (written (parts form)) };

    fn fmt<W: fmt::Write>(&self, f: &mut fmt::Formatter<W>) -> fmt::Result {
        f.write_str(&self.text())
    }
}
