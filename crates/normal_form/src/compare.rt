// Comparing two strings of letters by their normal forms.
ghost use Rattle.normal_form.specs.Letters.{letters_in};
ghost use Rattle.normal_form.specs.Comparing.{Compared};

use crate::form::Form;
use crate::letter::LetterRefusal;

// The normal form that two strings have in common, or their two forms where they differ.
#[derive(Clone, Copy, Debug, PartialEq, Eq)]
pub enum Comparison {
    Same(Form),
    Differ(Form, Form),
}

// Compares two strings of letters: they have the same form exactly if they make the same of every lawful rule.
pub fn compare(left: &[u8], right: &[u8]) -> Result<Comparison, LetterRefusal>
    ensures result { Compared (letters_in left.now) (letters_in right.now) result }
{
    let first = Form::of(left)?;
    let second = Form::of(right)?;
    if first.same(&second) {
        Ok(Comparison::Same(first))
    } else {
        Ok(Comparison::Differ(first, second))
    }
}
