// Works a list of estates through the four rules, some of them under letters, and prints each with its awards; then
// compares some strings of letters by their normal forms; and works one estate through interim payments.
#![tactic(auto)]

use division::base_rule::{BASE_RULES, BaseRule};
use normal_form::compare::{Comparison, compare};
use normal_form::pile::apply;
use std::io;

mod interim;

// An estate to be shared, with the class of each claim.
#[derive(Clone, Copy)]
struct Estate {
    claims: &'static [u32],
    classes: &'static [u8],
    amount: u32,
}

fn show_awards(rt: &HostRuntime, claims: &[u32], awards: &[u32]) -> io::Result<()> {
    for (claim, award) in claims.iter().zip(awards.iter()) {
        print!(rt; " {award} of {claim}")?;
    }
    println!(rt; "")
}

// A string of letters as it is shown: a hyphen where there is none.
fn or_hyphen(letters: &str) -> &str {
    if letters.is_empty() { "-" } else { letters }
}

fn show(rt: &HostRuntime, rule: BaseRule, letters: &str, estate: Estate) -> io::Result<()> {
    let Estate {
        claims,
        classes,
        amount,
    } = estate;
    let shown = or_hyphen(letters);
    print!(rt; "{rule} {shown} at {amount}:")?;
    let mut awards = vec![in rt.alloc(); 0u32; claims.len()]?;
    match apply(
        letters.as_bytes(),
        &rule,
        classes,
        claims,
        amount,
        &mut awards,
    ) {
        Ok(()) => show_awards(rt, claims, &awards),
        Err(refusal) => println!(rt; " refused, {refusal}"),
    }
}

fn show_forms(rt: &HostRuntime, comparison: Comparison) -> io::Result<()> {
    match comparison {
        Comparison::Same(form) => print!(rt; "same, {form}"),
        Comparison::Differ(first, second) => print!(rt; "differ, {first} and {second}"),
    }
}

fn show_comparison(rt: &HostRuntime, left: &str, right: &str) -> io::Result<()> {
    let first = or_hyphen(left);
    let second = or_hyphen(right);
    print!(rt; "{first} and {second}: ")?;
    match compare(left.as_bytes(), right.as_bytes()) {
        Ok(comparison) => show_forms(rt, comparison)?,
        Err(refusal) => print!(rt; "refused, {refusal}")?,
    }
    println!(rt; "")
}

const THREE: Estate = Estate {
    claims: &[100, 200, 300],
    classes: &[1, 1, 1],
    amount: 100,
};

const LARGE: Estate = Estate {
    claims: &[100, 200, 300],
    classes: &[1, 1, 1],
    amount: 500,
};

const TWO: Estate = Estate {
    claims: &[100, 50],
    classes: &[1, 1],
    amount: 100,
};

const ODD: Estate = Estate {
    claims: &[3, 3, 3],
    classes: &[1, 1, 1],
    amount: 4,
};

const BEYOND: Estate = Estate {
    claims: &[3, 3, 3],
    classes: &[1, 1, 1],
    amount: 10,
};

const LOSSES: Estate = Estate {
    claims: &[10, 2, 7],
    classes: &[1, 1, 1],
    amount: 4,
};

const CLASSED: Estate = Estate {
    claims: &[100, 100, 200, 300],
    classes: &[1, 2, 2, 2],
    amount: 200,
};

fn show_rules(rt: &HostRuntime) -> io::Result<()> {
    for estate in [THREE, LARGE, TWO, ODD, BEYOND] {
        for rule in BASE_RULES {
            show(rt, rule, "", estate)?;
        }
    }
    Ok(())
}

fn show_letters(rt: &HostRuntime) -> io::Result<()> {
    show(rt, BaseRule::Equal, "d", LOSSES)?;
    show(rt, BaseRule::Proportion, "t", THREE)?;
    show(rt, BaseRule::Proportion, "m", LARGE)?;
    show(rt, BaseRule::Proportion, "s", CLASSED)?;
    show(rt, BaseRule::Proportion, "st", CLASSED)?;
    show(rt, BaseRule::Proportion, "ts", CLASSED)?;
    show(rt, BaseRule::Proportion, "tq", CLASSED)
}

fn show_comparisons(rt: &HostRuntime) -> io::Result<()> {
    show_comparison(rt, "td", "dm")?;
    show_comparison(rt, "td", "dt")?;
    show_comparison(rt, "tstd", "dmr")?;
    show_comparison(rt, "st", "ts")?;
    show_comparison(rt, "dd", "")?;
    show_comparison(rt, "t", "x")
}

fn main(rt: HostRuntime) -> io::Result<()> {
    show_rules(&rt)?;
    show_letters(&rt)?;
    show_comparisons(&rt)?;
    interim::show_interim_series(&rt)
}
