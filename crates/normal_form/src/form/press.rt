// Pressing letters on a form.
ghost use Rattle.std.specs.Prelude.{◌≡◌, Decides};
ghost use Rattle.normal_form.specs.Letters.{letters_in, accepted};
ghost use Rattle.normal_form.specs.Forms.{no_letters, pressed, pressed_if_known, reversed, enclosed};
ghost use Rattle.normal_form.specs.FormParts.{parts, parts_in, known_form};

use crate::form::{Form, Place};
use crate::letter::{LetterRefusal, Operator};
use operators::classes::ClassOrder;
use std::mem::swap;

// s for r and r for s.
fn reverse(order: &mut Option<ClassOrder>)
    ensures result { order.new ≡ reversed order.old }
{
    match order {
        None => {}
        Some(ClassOrder::SeniorFirst) => *order = Some(ClassOrder::JuniorFirst),
        Some(ClassOrder::JuniorFirst) => *order = Some(ClassOrder::SeniorFirst),
    }
}

// What a later seniority letter makes of a place: inside, if anywhere.
fn enclose(place: &mut Place)
    ensures result { place.new ≡ enclosed place.old }
{
    match place {
        Place::Absent => {}
        Place::Inner => {}
        Place::Outer => *place = Place::Inner,
    }
}

impl Form {
    // The form of no letters.
    pub fn empty() -> Form
        ensures result { parts result ≡ no_letters }
    {
        Form {
            dual: false,
            order: None,
            truncation: Place::Absent,
            rights: Place::Absent,
        }
    }

    // Presses one letter: what it does depends on the form that it meets. Its parts and the letter are matched together and
    // changed in place, a rule of the project; so t and m, and s and r, have arms of one shape each.
    pub fn press(&mut self, letter: Operator)
        ensures result { parts self.new ≡ pressed (parts self.old) letter }
    {
        match (
            &mut self.dual,
            &mut self.order,
            &mut self.truncation,
            &mut self.rights,
            letter,
        ) {
            (dual, order, truncation, rights, Operator::Dual) => {
                *dual = !*dual;
                reverse(order);
                swap(truncation, rights);
            }
            (_, None, place @ Place::Absent, _, Operator::Truncation) => {
                *place = Place::Inner;
            }
            (_, _, place @ Place::Absent, _, Operator::Truncation) => {
                *place = Place::Outer;
            }
            (_, _, _, _, Operator::Truncation) => {}
            (_, None, _, place @ Place::Absent, Operator::MinimalRights) => {
                *place = Place::Inner;
            }
            (_, _, _, place @ Place::Absent, Operator::MinimalRights) => {
                *place = Place::Outer;
            }
            (_, _, _, _, Operator::MinimalRights) => {}
            (_, order, truncation, rights, Operator::Seniority) => {
                *order = Some(ClassOrder::SeniorFirst);
                enclose(truncation);
                enclose(rights);
            }
            (_, order, truncation, rights, Operator::ReverseSeniority) => {
                *order = Some(ClassOrder::JuniorFirst);
                enclose(truncation);
                enclose(rights);
            }
        }
    }

    // Presses a string of letters in turn; one that is no letter refuses them all and leaves the form as it was.
    pub fn press_all(&mut self, letters: &[u8]) -> Result<(), LetterRefusal>
        ensures result { result ≡ accepted (letters_in letters.now) }
        ensures form { parts self.new ≡ pressed_if_known (letters_in letters.now) (parts self.old) }
    {
        let mut form = *self;
        for byte in letters {
            let letter = Operator::try_from(*byte)?;
            form.press(letter);
        }
        *self = form;
        Ok(())
    }

    // The normal form of a string of letters.
    pub fn of(letters: &[u8]) -> Result<Form, LetterRefusal>
        ensures result { parts_in result ≡ known_form (letters_in letters.now) }
    {
        let mut form = Form::empty();
        form.press_all(letters)?;
        Ok(form)
    }

    // Whether two forms are the same.
    pub fn same(&self, other: &Form) -> bool
        ensures result { Decides result (parts self.now ≡ parts other.now) }
    {
        self == other
    }
}
