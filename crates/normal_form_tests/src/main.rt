// Prints the awards of every rule under many strings of letters, for comparison with a plain program that applies the
// letters one by one (tests/plain_letters.py); and tests refusals in their order.
#![tactic(auto)]

use division::base_rule::{BASE_RULES, BaseRule};
use normal_form::pile::apply;
use std::io;

const LETTERS: [&str; 18] = [
    "",
    "d",
    "t",
    "m",
    "s",
    "r",
    "td",
    "dm",
    "ts",
    "st",
    "sm",
    "mr",
    "rt",
    "tmst",
    "srd",
    "dtrm",
    "smdst",
    "rdtsmdrtm",
];

const CLAIMS: [u32; 5] = [7, 30, 0, 11, 25];

const CLASSES: [u8; 5] = [2, 1, 8, 2, 1];

const ESTATES: [u32; 5] = [0, 9, 36, 60, 73];

fn show(rt: &HostRuntime, rule: BaseRule, letters: &str, estate: u32) -> io::Result<()> {
    let mut awards = [0; 5];
    match apply(
        letters.as_bytes(),
        &rule,
        &CLASSES,
        &CLAIMS,
        estate,
        &mut awards,
    ) {
        Ok(()) => {
            print!(rt; "{rule},{letters},{estate}:")?;
            for award in awards {
                print!(rt; " {award}")?;
            }
            println!(rt; "")
        }
        Err(refusal) => println!(rt; "{rule},{letters},{estate}: refused {refusal}"),
    }
}

fn main(rt: HostRuntime) -> io::Result<()> {
    for letters in LETTERS {
        for estate in ESTATES {
            for rule in BASE_RULES {
                show(&rt, rule, letters, estate)?;
            }
        }
    }
    Ok(())
}

#[cfg(test)]
mod tests {
    use super::*;
    use division::priority::Priority;
    use division::rule::Rule;
    use division::talmud::Talmud;
    use division_tests::Ballot;
    use std::process::Abort;
    use std::test::Fail;

    // What the call answers, a refusal by its number, with the list checked to be as it was then.
    fn answered<R: Rule>(
        rt: &(impl Abort + AllocGlobal),
        rule: &R,
        letters: &str,
        classes: &[u8],
        claims: &[u32],
        estate: u32,
        room: usize,
    ) -> Result<Result<(), u8>, Fail> {
        let mut out = vec![in rt.alloc(); 7u32; room]?;
        let before = vec![in rt.alloc(); 7u32; room]?;
        match apply(letters.as_bytes(), rule, classes, claims, estate, &mut out) {
            Ok(()) => Ok(Ok(())),
            Err(refusal) => {
                assert!(rt; out.as_slice() == before.as_slice());
                Ok(Err(refusal.number()))
            }
        }
    }

    #[test]
    fn refusals_in_order(rt: HostRuntime) -> Result<(), Fail> {
        let big = 4_294_967_295;
        assert_eq!(rt;
            answered(&rt, &Talmud, "q", &[0; 3], &[big; 65], big, 2)?,
            Err(1)
        );
        assert_eq!(rt;
            answered(&rt, &Talmud, "q", &[0; 3], &[big; 64], big, 2)?,
            Err(2)
        );
        assert_eq!(rt;
            answered(&rt, &Talmud, "q", &[0; 3], &[big; 2], big, 2)?,
            Err(2)
        );
        assert_eq!(rt;
            answered(&rt, &Talmud, "q", &[0; 2], &[big; 2], big, 2)?,
            Err(3)
        );
        assert_eq!(rt;
            answered(&rt, &Talmud, "q", &[0; 2], &[5; 2], big, 2)?,
            Err(4)
        );
        assert_eq!(rt;
            answered(&rt, &Talmud, "q", &[0; 2], &[5; 2], 5, 2)?,
            Err(5)
        );
        assert_eq!(rt;
            answered(&rt, &Talmud, "q", &[1; 2], &[5; 2], 5, 2)?,
            Err(7)
        );
        assert_eq!(rt;
            answered(&rt, &Talmud, "sdt", &[1; 2], &[5; 2], 5, 2)?,
            Ok(())
        );
        Ok(())
    }

    #[test]
    fn class_lists(rt: HostRuntime) -> Result<(), Fail> {
        assert_eq!(rt; answered(&rt, &Priority, "s", &[1], &[5; 2], 5, 2)?, Err(2));
        assert_eq!(rt;
            answered(&rt, &Priority, "s", &[1; 3], &[5; 2], 5, 2)?,
            Err(2)
        );
        assert_eq!(rt;
            answered(&rt, &Priority, "", &[1, 0], &[5; 2], 5, 2)?,
            Err(5)
        );
        assert_eq!(rt;
            answered(&rt, &Priority, "", &[9, 1], &[5; 2], 5, 2)?,
            Err(5)
        );
        assert_eq!(rt;
            answered(&rt, &Priority, "", &[8, 1], &[5; 2], 5, 2)?,
            Ok(())
        );
        assert_eq!(rt; answered(&rt, &Priority, "ss", &[], &[], 0, 0)?, Ok(()));
        Ok(())
    }

    // A rule that owns memory lies at the bottom: the letters only borrow it.
    #[test]
    fn a_strangers_rule(rt: HostRuntime) -> Result<(), Fail> {
        let mut rule = Ballot::new(Vec::new(rt.alloc()));
        assert_eq!(rt;
            answered(&rt, &rule, "tdsm", &[1, 2], &[5, 5], 5, 2)?,
            Ok(())
        );
        rule.vote(11)?;
        let mut out = [0; 2];
        let done = apply(b"d", &rule, &[1, 2], &[10, 6], 8, &mut out).is_ok();
        assert!(rt; done && out[0] == 6 && out[1] == 2);
        Ok(())
    }
}
