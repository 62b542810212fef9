// The form of a string of letters: four parts that say all that the string does to a rule.
ghost use Rattle.std.specs.Prelude.{◌≡◌, true};
ghost use Rattle.normal_form.specs.Forms.{well_placed};

use operators::classes::ClassOrder;

pub(crate) mod layers;
pub mod press;
pub mod text;

// Where t or m lies in a form: not at all, inside the seniority letter, or outside it. Three plain cases, each a pattern of
// `press`: Some(Side::Inner) for Inner would be no plainer.
#[derive(Clone, Copy, Debug, PartialEq, Eq)]
pub enum Place {
    Absent,
    Inner,
    Outer,
}

// The order is that of the seniority letter, if there is one. Without a seniority letter, nothing lies outside.
#[derive(Clone, Copy, Debug, PartialEq, Eq)]
pub struct Form {
    dual: bool,
    order: Option<ClassOrder>,
    truncation: Place,
    rights: Place,
    ghost placed: { well_placed order truncation rights ≡ true },
}
