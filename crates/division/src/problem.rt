// A problem is a list of claims and an estate; this module tells whether a rule has to answer it.
ghost use Rattle.std.specs.Prelude.{◌≡◌, ◌-◌, ◌≤◌, length, map, Some, MatchResult};
ghost use Rattle.division.specs.Amounts.{total};
ghost use Rattle.division.specs.Problem.{most_claims, Sound};
ghost use Rattle.division.specs.Refusals.{SmallestOf, Applies, Passed, rule_number, due};
ghost use Rattle.division.specs.Units.{how_many};

use crate::refusal::RuleRefusal;
use crate::share::Share;
use arrayvec::ArrayVec;

// The most claims that a problem may have.
pub const MOST_CLAIMS: usize = 64;

// The most that the claims of a problem may add up to.
pub const MOST_TOTAL: u64 = 2_000_000_000;

// One amount for each claim of a problem. It lies in the value itself, and nothing is on the heap.
pub type Amounts = ArrayVec<u32, MOST_CLAIMS>;

// What the claims add up to; 64 claims of 32 bits fit 64 bits with room to spare. A sum goes over the claims with their
// places: a rule of the project.
fn claims_total(claims: &[u32]) -> u64
    requires { length claims.now ≤ most_claims }
    ensures result { result ≡ total claims.now }
{
    let mut sum: u64 = 0;
    for (_place, claim) in claims.iter().enumerate() {
        sum += u64::from(*claim);
    }
    sum
}

// What the claims of a sound problem add up to, or the smallest refusal that applies to the problem and to an award
// list with `room` places.
pub fn check(claims: &[u32], estate: u32, room: usize) -> Result<u32, RuleRefusal>
    ensures result { MatchResult result (λ sum. Passed claims.now estate room sum) (λ e. due claims.now estate room ≡ Some e) }
    ensures smallest { SmallestOf rule_number (Applies claims.now estate room) (due claims.now estate room) }
{
    if claims.len() > MOST_CLAIMS {
        return Err(RuleRefusal::TooManyClaims);
    }
    if room != claims.len() {
        return Err(RuleRefusal::AwardListLength);
    }
    let sum = claims_total(claims);
    if sum > MOST_TOTAL {
        return Err(RuleRefusal::TotalAboveLimit);
    }
    if u64::from(estate) > sum {
        return Err(RuleRefusal::EstateAboveTotal);
    }
    Ok(sum as u32)
}

// A sound problem, with what its claims add up to.
#[derive(Clone, Copy)]
pub struct Problem<'a> {
    pub claims: &'a [u32],
    pub estate: u32,
    pub sum: u32,
    ghost sound: { Sound claims.now estate },
    ghost sum_is: { sum ≡ total claims.now },
}

impl<'a> Problem<'a> {
    // The problem, where none of a rule's refusals applies to it and to an award list with `room` places.
    pub fn new(claims: &'a [u32], estate: u32, room: usize) -> Result<Problem<'a>, RuleRefusal>
        ensures result { MatchResult result (λ problem. (problem.claims.now ≡ claims.now) × (problem.estate ≡ estate) × Passed claims.now estate room problem.sum) (λ e. due claims.now estate room ≡ Some e) }
    {
        let sum = check(claims, estate, room)?;
        Ok(Problem {
            claims,
            estate,
            sum,
        })
    }

    // What the claims lose together.
    pub fn loss(&self) -> u32
        ensures result { result ≡ total self.now.claims.now - self.now.estate }
        ensures covered { result ≤ total self.now.claims.now }
    {
        self.sum - self.estate
    }

    // Writes the base share of each claim.
    pub(crate) fn write_parts<S: Share>(&self, share: &S, out: &mut [u32])
        requires room { length out.old ≡ length self.now.claims.now }
        ensures parts { out.new ≡ map (S.base share.now) self.now.claims.now }
    {
        // By place: a proof knows nothing of what a loop over iter_mut().zip(..) wrote.
        for (place, claim) in self.claims.iter().enumerate() {
            out[place] = share.part(*claim);
        }
    }

    // What the base shares of the claims add up to, which is no more than the claims do. With the places, as every sum.
    pub(crate) fn base_total<S: Share>(&self, share: &S) -> u32
        ensures result { result ≡ total (map (S.base share.now) self.now.claims.now) }
    {
        let mut sum: u64 = 0;
        for (_place, claim) in self.claims.iter().enumerate() {
            sum += u64::from(share.part(*claim));
        }
        sum as u32
    }

    // How many claims are marked for a unit more.
    #[tactic(auto, using(crate::proofs::Turns::how_many_counted))]
    pub(crate) fn marked_count<S: Share>(&self, share: &S) -> u32
        ensures result { result ≡ how_many (S.marked share.now) self.now.claims.now }
    {
        self.claims
            .iter()
            .filter(|claim| share.marks(**claim))
            .count() as u32
    }
}
