// Which pairs are kept of those that are offered in turn.
ghost use Rattle.std.specs.Prelude.{◌≡◌, List, ◌++◌, MatchResult};
ghost use Rattle.frontier.specs.Cover.{SmallestCover};
ghost use Rattle.frontier.specs.Number.{number};
ghost use Rattle.frontier.specs.Places.{kept};
ghost use Rattle.frontier_pairs.specs.Pairs.{NoLarger, Chosen};

use crate::pair::Pair;
use frontier::{Frontier, Refusal};

// Offers the pairs in turn, up to the first that is refused.
pub(crate) fn offer_all(frontier: &mut Frontier<'_, Pair>, pairs: &[Pair]) -> Result<(), Refusal>
    ensures smallest { (seen : List Pair) → SmallestCover NoLarger (kept frontier.old) seen → MatchResult result (λ _. SmallestCover NoLarger (kept frontier.new) (seen ++ pairs.now)) (λ why. number why ≡ 11) }
    ensures lender { frontier.new.places.ghost_name ≡ frontier.old.places.ghost_name }
{
    for pair in pairs {
        frontier.offer(*pair)?;
    }
    Ok(())
}

// Leaves a smallest cover of `pairs` at the front of `places`, and says how many they are.
pub(crate) fn choose(pairs: &[Pair], places: &mut [Pair]) -> Result<usize, Refusal>
    ensures { MatchResult result (λ n. Chosen n places.new pairs.now) (λ why. number why ≡ 11) }
{
    let mut frontier = Frontier::new(places);
    offer_all(&mut frontier, pairs)?;
    Ok(frontier.count())
}

// Leaves a smallest cover of the pairs that stand in the slice at its front, and says how many they are.
// Each is offered from where it stands to a frontier over the same slice, which keeps fewer than came before it.
pub(crate) fn choose_in_place(pairs: &mut [Pair]) -> usize
    ensures { Chosen result pairs.new pairs.old }
{
    let count = pairs.len();
    let mut frontier = Frontier::new(pairs);
    // By index, since the frontier writes the slice that is read.
    for i in 0..count {
        let pair = frontier.places()[i];
        let _ = frontier.offer(pair);
    }
    frontier.count()
}

// Makes the same choice `times` times, and at least once.
pub(crate) fn choose_often(
    pairs: &[Pair],
    places: &mut [Pair],
    times: u32,
) -> Result<usize, Refusal>
    ensures { MatchResult result (λ n. Chosen n places.new pairs.now) (λ why. number why ≡ 11) }
{
    let mut count = choose(pairs, places)?;
    for _ in 1..times {
        count = choose(pairs, places)?;
    }
    Ok(count)
}
