// The laws of the case file, each owed by the check because a function here names it.
ghost use Rattle.casefile.specs.Decimal.{NumberLaws};
ghost use Rattle.casefile.specs.Fields.{FieldLaws};
ghost use Rattle.casefile.specs.Lines.{LineLaws};
ghost use Rattle.casefile.specs.Refused.{RefusalLaws};
ghost use Rattle.casefile.specs.Written.{ReadingLaws};

// The lines of a file are the whole file, a last line end apart.
pub fn line_laws()
    ensures laws { LineLaws }
{}

// The fields of a line are the whole line.
pub fn field_laws()
    ensures laws { FieldLaws }
{}

// A number that was written is read as itself, and nothing else is read.
pub fn number_laws()
    ensures laws { NumberLaws }
{}

// A line asks for something exactly if it is the line that is written for it.
pub fn reading_laws()
    ensures laws { ReadingLaws }
{}

// The refusal of a line that is answered applies, and none with a smaller number does.
pub fn refusal_laws()
    ensures laws { RefusalLaws }
{}
