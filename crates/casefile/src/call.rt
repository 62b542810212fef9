// What a line asks for: the numbers and the rule of a line are read, its letters are handed on as bytes.
ghost use Rattle.std.specs.Prelude.{◌≡◌, ◌≤◌, IfOk};
ghost use Rattle.casefile.specs.Calls.{asked, limited, rule_named, call_of, reading, field_letters, handed};
ghost use Rattle.casefile.specs.LineKinds.{kind, claim_line, amend_line};
ghost use Rattle.casefile.specs.LineRefusals.{seen_as};

use crate::line::{Line, kind_of};
use crate::number::read_number;
use crate::refusal::LineRefusal;

// The largest claimant number that a line may name.
pub const MOST_CLAIMANT: u32 = 65_535;

// The largest class that a line may name.
pub const MOST_CLASS: u32 = 255;

// The largest amount that a line may name.
pub const MOST_AMOUNT: u32 = 4_294_967_295;

// The rules that a line can name. Not the enum of `division`: a type of another crate could not be made of bytes here
// (`TryFrom`), and whoever reads case files needs no rule.
#[derive(Clone, Copy, Debug, PartialEq, Eq)]
pub enum RuleName {
    Priority,
    Equal,
    Proportion,
    Talmud,
}

// A line that was read. Letters are bytes of the line, which nobody has tested yet.
#[derive(Clone, Copy, Debug, PartialEq, Eq)]
pub enum Call<'a> {
    Claim { number: u32, amount: u32, class: u8 },
    Amend { number: u32, amount: u32 },
    Fund(u32),
    Press(&'a [u8]),
    Divide(RuleName),
    Draw,
    Sign,
    Return,
    Compare(&'a [u8], &'a [u8]),
    Remark,
}

// What a line asks for, or why it is refused before anyone is called.
pub fn read_line(line: &[u8]) -> Result<Call<'_>, LineRefusal>
    ensures result { seen_as asked result ≡ reading line.now }
{
    let known = kind_of(line)?;
    read_call(known)
}

// Reads the fields of a line of a known kind, from left to right.
pub fn read_call(line: Line<'_>) -> Result<Call<'_>, LineRefusal>
    ensures result { seen_as asked result ≡ call_of (kind line.entry) }
{
    match line {
        Line::Claim {
            number,
            amount,
            class,
        } => read_claim(number, amount, class),
        Line::Amend { number, amount } => read_amend(number, amount),
        Line::Fund(amount) => Ok(Call::Fund(read_limited(amount, MOST_AMOUNT)?)),
        Line::Press(letters) => Ok(Call::Press(letters)),
        Line::Divide(name) => Ok(Call::Divide(RuleName::try_from(name)?)),
        Line::Draw => Ok(Call::Draw),
        Line::Sign => Ok(Call::Sign),
        Line::Return => Ok(Call::Return),
        Line::Compare(left, right) => Ok(Call::Compare(left, right)),
        Line::Remark => Ok(Call::Remark),
    }
}

// The number in a field, at most the limit.
fn read_limited(text: &[u8], limit: u32) -> Result<u32, LineRefusal>
    ensures result { result ≡ limited text.now limit }
    ensures within { IfOk result (λ n. n ≤ limit) }
{
    read_number(text, limit).ok_or(LineRefusal::BadNumber)
}

// The three numbers of a claim.
fn read_claim<'a>(number: &[u8], amount: &[u8], class: &[u8]) -> Result<Call<'a>, LineRefusal>
    ensures result { seen_as asked result ≡ call_of (claim_line number.now amount.now class.now) }
{
    let number = read_limited(number, MOST_CLAIMANT)?;
    let amount = read_limited(amount, MOST_AMOUNT)?;
    let class = read_limited(class, MOST_CLASS)?;
    Ok(Call::Claim {
        number,
        amount,
        class: class as u8,
    })
}

// The two numbers of an amendment.
fn read_amend<'a>(number: &[u8], amount: &[u8]) -> Result<Call<'a>, LineRefusal>
    ensures result { seen_as asked result ≡ call_of (amend_line number.now amount.now) }
{
    let number = read_limited(number, MOST_CLAIMANT)?;
    let amount = read_limited(amount, MOST_AMOUNT)?;
    Ok(Call::Amend { number, amount })
}

// The rule of a name.
impl TryFrom<&[u8]> for RuleName {
    type Error = LineRefusal;

    ghost try_from_gives = { λ name r. r ≡ rule_named name.now };

    fn try_from(name: &[u8]) -> Result<RuleName, LineRefusal> {
        match name {
            b"priority" => Ok(RuleName::Priority),
            b"equal" => Ok(RuleName::Equal),
            b"proportion" => Ok(RuleName::Proportion),
            b"talmud" => Ok(RuleName::Talmud),
            _ => Err(LineRefusal::UnknownRule),
        }
    }
}

// The letters that a field stands for: a hyphen alone is an empty pile, and an empty field is none at all.
pub fn letters_of(field: &[u8]) -> Option<&[u8]>
    ensures result { handed result ≡ field_letters field.now }
{
    match field {
        [] => None,
        b"-" => Some(&[]),
        letters => Some(letters),
    }
}
