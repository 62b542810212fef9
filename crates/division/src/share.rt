// Shares in whole units: every rule but priority gives each claim a base share, and then hands single units that are
// left to the first claims that are marked for one.
ghost use Rattle.std.specs.Prelude.{◌≡◌, ℕ, Bool, length};
ghost use Rattle.division.specs.Units.{Room, one_unit, topped_up};

use crate::problem::Problem;

pub(crate) trait Share {
    // A claim's base share.
    ghost base: { Self → ℕ → ℕ };

    // Whether a claim is marked for a unit more.
    ghost marked: { Self → ℕ → Bool };

    ghost room: { (s : Self) → Room (base s) (marked s) };

    // The base share of a claim.
    fn part(&self, claim: u32) -> u32
        ensures result { result ≡ base self.now claim };

    // Whether a claim is marked for a unit more.
    fn marks(&self, claim: u32) -> bool
        ensures result { result ≡ marked self.now claim };
}

// The unit that a claim gets of those left.
fn unit_for(marked: bool, left: u32) -> u32
    ensures result { result ≡ one_unit marked left }
{
    u32::from(marked && left > 0)
}

// Writes each claim's base share, and one unit more for each of the first `units` claims that are marked. They go into the
// list that is lent: made as a value, answered and copied, they took up to 1.75 times the time.
pub(crate) fn hand_out<S: Share>(problem: &Problem<'_>, share: &S, units: u32, out: &mut [u32])
    requires room { length out.old ≡ length problem.now.claims.now }
    ensures awards { out.new ≡ topped_up (S.base share.now) (S.marked share.now) units problem.now.claims.now }
{
    let mut left = units;
    // By place: a proof knows nothing of what a loop over iter_mut().zip(..) wrote.
    for (place, claim) in problem.claims.iter().enumerate() {
        let unit = unit_for(share.marks(*claim), left);
        out[place] = share.part(*claim) + unit;
        left -= unit;
    }
}
