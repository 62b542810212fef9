// Work on lists of amounts, place by place. No list has more places than a problem may have claims, so that scratch lists are
// arrays, of which whoever asks lends the front.
ghost use Rattle.std.specs.Prelude.{◌≡◌, ℕ, ◌+◌, ◌≤◌, map, length};
ghost use Rattle.division.specs.Amounts.{total, cut, plus};
ghost use Rattle.division.specs.Problem.{most_total};
ghost use Rattle.operators.specs.Operators.{rights};

use division::problem::Problem;

// Writes what a function makes of each claim. It is this crate's own: a function that calls a closure asks that it may be
// called, and no public function has a requires.
pub(crate) fn of_each<F: Fn(u32) -> u32>(problem: &Problem<'_>, amount: F, out: &mut [u32])
    requires callable { F.IsAlwaysCallable amount }
    requires room { length out.old ≡ length problem.now.claims.now }
    ensures amounts { (g : ℕ → ℕ) → ((c a : ℕ) → F.post amount c a → a ≡ g c) → out.new ≡ map g problem.now.claims.now }
{
    // By place: a proof knows nothing of what a loop over iter_mut().zip(..) wrote.
    for (place, claim) in problem.claims.iter().enumerate() {
        out[place] = amount(*claim);
    }
}

// Writes each claim cut to at most `most`.
#[tactic(auto, using(crate::proofs::Made::cut_made))]
pub(crate) fn cut_claims(problem: &Problem<'_>, most: u32, out: &mut [u32])
    requires room { length out.old ≡ length problem.now.claims.now }
    ensures claims { out.new ≡ cut most problem.now.claims.now }
{
    of_each(problem, |claim| claim.min(most), out);
}

// Writes the minimal right of each claim.
#[tactic(auto, using(crate::proofs::Made::rights_made))]
pub(crate) fn rights_of(problem: &Problem<'_>, loss: u32, out: &mut [u32])
    requires room { length out.old ≡ length problem.now.claims.now }
    ensures rights { out.new ≡ rights loss problem.now.claims.now }
{
    of_each(problem, |claim| claim.saturating_sub(loss), out);
}

// What amounts that came from a sound problem add up to. With the places, as every sum; this crate's own, since a public
// function may not ask that the amounts keep the limit.
pub(crate) fn total_of(amounts: &[u32]) -> u32
    requires small { total amounts.now ≤ most_total }
    ensures result { result ≡ total amounts.now }
{
    let mut sum = 0;
    for (_place, amount) in amounts.iter().enumerate() {
        sum += *amount;
    }
    sum
}

// Adds to each award the amount at its place.
pub(crate) fn add_to(amounts: &[u32], awards: &mut [u32])
    requires long { length awards.old ≡ length amounts.now }
    requires small { total amounts.now + total awards.old ≤ most_total }
    ensures awards { awards.new ≡ plus amounts.now awards.old }
{
    // By place: tried by iter_mut().zip(amounts), after which nothing is known of the awards; the proof does not close.
    for (place, amount) in amounts.iter().enumerate() {
        awards[place] += *amount;
    }
}
