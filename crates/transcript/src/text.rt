// The text of one line that is printed, and where it goes: each line is made by itself, and written behind the lines that
// the lent buffer begins with. A new text costs its whole room, since a list of the kit is filled when it is made; so the
// room is that of the longest line, and what is printed for many rows is never one text.
ghost use Rattle.std.specs.Prelude.{◌≡◌, ℕ, suc, ◌+◌, ◌≤◌, List, [], ◌∷◌, ◌++◌, length, map, sum_by};
ghost use Rattle.transcript.specs.Texts.{as_line, most_printed, Begins};

use arrayvec::ArrayVec;
use itoa::{Buffer, Integer};
use std::marker::Model;

// The most bytes that a printed line may have: those of a drawn sheet, with two numbers of 64 bits.
const MOST_PRINTED: usize = 48;

#[derive(Drop)]
pub(crate) struct Text {
    bytes: ArrayVec<u8, MOST_PRINTED>,
}

impl Model for Text {
    ghost use Rattle.std.specs.Prelude.{ℕ, List};

    ghost Value = { List ℕ };

    ghost view = { λ t. t.bytes.items };
}

impl Text {
    // No byte yet.
    pub(crate) fn new() -> Text
        ensures { result ≡ [] }
    {
        Text {
            bytes: ArrayVec::new(),
        }
    }

    // The bytes of the line.
    pub(crate) fn as_bytes(&self) -> &[u8]
        ensures bytes { result.now ≡ self.now }
        ensures few { length result.now ≤ most_printed }
    {
        self.bytes.as_slice()
    }

    // Some bytes more.
    fn push(&mut self, bytes: &[u8])
        requires { length self.old + length bytes.now ≤ most_printed }
        ensures { self.new ≡ self.old ++ bytes.now }
    {
        // A word or a number has few bytes: one by one they cost less than a copy of a list.
        for byte in bytes {
            self.push_byte(*byte);
        }
    }

    // One byte more.
    fn push_byte(&mut self, byte: u8)
        requires { length self.old + 1 ≤ most_printed }
        ensures { self.new ≡ self.old ++ byte ∷ [] }
    {
        self.bytes.push(byte);
    }

    // A line: a word, and a comma before each field behind it.
    pub(crate) fn push_line(&mut self, word: &[u8], fields: &[&[u8]])
        requires { length self.old + length word.now + sum_by (λ f. suc (length f.now)) fields.now + 1 ≤ most_printed }
        ensures text { self.new ≡ self.old ++ as_line (word.now ∷ map (λ f. f.now) fields.now) }
        ensures size { length self.new ≡ length self.old + length word.now + sum_by (λ f. suc (length f.now)) fields.now + 1 }
    {
        self.push(word);
        for field in fields {
            self.push_byte(b',');
            self.push(field);
        }
        self.push_byte(b'\n');
    }

    // A line of a word and two numbers.
    pub(crate) fn push_numbers<M: Integer, N: Integer>(&mut self, word: &[u8], first: M, second: N)
        requires { length self.old + length word.now + length (M.text first) + length (N.text second) + 3 ≤ most_printed }
        ensures text { self.new ≡ self.old ++ as_line (word.now ∷ M.text first ∷ N.text second ∷ []) }
        ensures size { length self.new ≡ length self.old + length word.now + length (M.text first) + length (N.text second) + 3 }
    {
        let mut digits = Buffer::new();
        self.push(word);
        self.push_byte(b',');
        self.push(digits.format(first).as_bytes());
        self.push_byte(b',');
        self.push(digits.format(second).as_bytes());
        self.push_byte(b'\n');
    }
}

// Writes a line behind the `at` bytes that a buffer begins with, leaves what lies behind as it was, and answers how many
// bytes it begins with then.
pub(crate) fn put(out: &mut [u8], at: usize, line: &Text) -> usize
    requires { at + length line.now ≤ length out.old }
    ensures size { result ≡ at + length line.now }
    ensures text { (text start : List ℕ) → Begins text at out.old start → Begins (text ++ line.now) result out.new start }
{
    let bytes = line.as_bytes();
    let end = at + bytes.len();
    out[at..end].copy_from_slice(bytes);
    end
}
