// Tests of the rules on worked problems and at the edges, and a rule of a stranger behind the same interface.
#![tactic(auto)]

ghost use Rattle.std.specs.Prelude.{◌≡◌, ◌+◌, is_ok, if◌then◌else◌, vec_len};
ghost use Rattle.division_tests.specs.Ballot.{ballot, ballot_lawful};

use division::equal_awards::EqualAwards;
use division::priority::Priority;
use division::refusal::RuleRefusal;
use division::rule::Rule;
use std::alloc::AllocFailed;

// A rule from outside the four: it owns memory, can be neither copied nor cloned, and its awards depend on what it
// holds.
#[derive(Drop)]
pub struct Ballot {
    votes: Vec<u32>,
}

impl Ballot {
    pub fn new(votes: Vec<u32>) -> Self
        ensures result { result.votes ≡ votes }
    {
        Ballot { votes }
    }

    // One vote more for equal awards.
    pub fn vote(&mut self, voter: u32) -> Result<(), AllocFailed<u32>>
        ensures votes { vec_len self.new.votes ≡ (if is_ok result then vec_len self.old.votes + 1 else vec_len self.old.votes) }
    {
        self.votes.push(voter)
    }
}

impl Rule for Ballot {
    ghost awards = { λ s. ballot (vec_len s.votes) };

    ghost lawful = { λ s. ballot_lawful (vec_len s.votes) };

    fn divide(&self, claims: &[u32], estate: u32, out: &mut [u32]) -> Result<(), RuleRefusal> {
        if self.votes.is_empty() {
            Priority.divide(claims, estate, out)
        } else {
            EqualAwards.divide(claims, estate, out)
        }
    }
}

#[cfg(test)]
mod tests {
    use super::*;
    use division::proportion::Proportion;
    use division::talmud::Talmud;
    use std::process::Abort;
    use std::test::Fail;

    // Asks any rule, with an award list as long as the claims, and compares the awards.
    fn awards<R: Rule>(
        rt: &(impl Abort + AllocGlobal),
        rule: &R,
        claims: &[u32],
        estate: u32,
        expected: &[u32],
    ) -> Result<(), Fail> {
        let mut out = vec![in rt.alloc(); 7u32; claims.len()]?;
        match rule.divide(claims, estate, &mut out) {
            Ok(()) => {
                assert!(rt; out.as_slice() == expected);
                Ok(())
            }
            Err(_) => Err(Fail::new("refused")),
        }
    }

    // Asks any rule with an award list of `room` places that all hold 7, and expects the refusal with this number and
    // the list as it was.
    fn refused<R: Rule>(
        rt: &(impl Abort + AllocGlobal),
        rule: &R,
        claims: &[u32],
        estate: u32,
        room: usize,
        number: u8,
    ) -> Result<(), Fail> {
        let mut out = vec![in rt.alloc(); 7u32; room]?;
        let before = vec![in rt.alloc(); 7u32; room]?;
        match rule.divide(claims, estate, &mut out) {
            Ok(()) => Err(Fail::new("answered")),
            Err(refusal) => {
                assert!(rt; refusal.number() == number && out.as_slice() == before.as_slice());
                Ok(())
            }
        }
    }

    #[test]
    fn worked_problems(rt: HostRuntime) -> Result<(), Fail> {
        awards(&rt, &Talmud, &[100, 200, 300], 100, &[34, 33, 33])?;
        awards(&rt, &Talmud, &[100, 50], 100, &[75, 25])?;
        awards(&rt, &Talmud, &[3, 3, 3], 4, &[2, 1, 1])?;
        awards(&rt, &Priority, &[100, 200, 300], 150, &[100, 50, 0])?;
        awards(&rt, &EqualAwards, &[10, 2, 7], 15, &[7, 2, 6])?;
        awards(&rt, &Proportion, &[100, 200, 300], 500, &[84, 166, 250])?;
        awards(&rt, &Proportion, &[0, 0], 0, &[0, 0])
    }

    fn edges<R: Rule>(rt: &(impl Abort + AllocGlobal), rule: &R) -> Result<(), Fail> {
        awards(rt, rule, &[], 0, &[])?;
        awards(rt, rule, &[1; 64], 64, &[1; 64])?;
        refused(rt, rule, &[1; 65], 65, 65, 1)?;
        refused(rt, rule, &[5, 5], 5, 1, 2)?;
        refused(rt, rule, &[5, 5], 5, 3, 2)?;
        awards(
            rt,
            rule,
            &[1_000_000_000, 1_000_000_000],
            2_000_000_000,
            &[1_000_000_000, 1_000_000_000],
        )?;
        refused(rt, rule, &[1_000_000_000, 1_000_000_001], 5, 2, 3)?;
        // Two claims of 2^31 add up to 2^32, which 32 bits would show as 0.
        refused(rt, rule, &[2_147_483_648, 2_147_483_648], 0, 2, 3)?;
        awards(rt, rule, &[5, 5], 10, &[5, 5])?;
        refused(rt, rule, &[5, 5], 11, 2, 4)?;
        // Where several apply, the smallest number is answered.
        refused(rt, rule, &[4_294_967_295; 65], 4_294_967_295, 0, 1)?;
        refused(rt, rule, &[4_294_967_295; 64], 4_294_967_295, 0, 2)?;
        refused(rt, rule, &[], 1, 0, 4)
    }

    #[test]
    fn edges_of_every_rule(rt: HostRuntime) -> Result<(), Fail> {
        edges(&rt, &Priority)?;
        edges(&rt, &EqualAwards)?;
        edges(&rt, &Proportion)?;
        edges(&rt, &Talmud)
    }

    #[test]
    fn a_strangers_rule(rt: HostRuntime) -> Result<(), Fail> {
        let mut rule = Ballot {
            votes: Vec::new(rt.alloc()),
        };
        edges(&rt, &rule)?;
        awards(&rt, &rule, &[100, 200, 300], 100, &[100, 0, 0])?;
        rule.vote(11)?;
        edges(&rt, &rule)?;
        awards(&rt, &rule, &[100, 200, 300], 100, &[34, 33, 33])
    }
}
