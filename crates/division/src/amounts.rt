// Lists of amounts, place by place.
ghost use Rattle.std.specs.Prelude.{◌≡◌};
ghost use Rattle.division.specs.Amounts.{less_over};

// Each claim less what stands at its place, written over it, as far as both lists go: of an award it makes the loss, of
// a loss the award.
pub fn less_awards(claims: &[u32], awards: &mut [u32])
    ensures awards { awards.new ≡ less_over claims.now awards.old }
{
    let count = claims.len().min(awards.len());
    // By place: tried by iter_mut().zip(claims), after which nothing is known of the awards, so that the proof does not close.
    for (place, claim) in claims[..count].iter().enumerate() {
        awards[place] = claim.saturating_sub(awards[place]);
    }
}
