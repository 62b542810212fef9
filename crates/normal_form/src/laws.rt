// The laws of the letters, each owed by the check because a function here names it.
ghost use Rattle.std.specs.Prelude.{◌≡◌, length};
ghost use Rattle.normal_form.specs.Forms.{all_forms};
ghost use Rattle.normal_form.specs.Laws.{OperatorLaws, StringLaws, FormLaws};
ghost use Rattle.normal_form.specs.Worked.{ExamplesHold};

// What may be exchanged and what may be left out in a string of letters, over every lawful rule.
pub fn operator_laws()
    ensures laws { OperatorLaws }
{}

// Strings joined, rules that agree, strings that are alike and rules that are lawful, under any letters.
pub fn string_laws()
    ensures laws { StringLaws }
{}

// How many forms there are. The normal form of a string says all that the string does, and nothing more.
pub fn form_count() -> usize
    ensures result { result ≡ length all_forms }
    ensures laws { FormLaws }
{
    44
}

// The table of worked examples comes out as it says.
pub fn worked_examples()
    ensures examples { ExamplesHold }
{}
