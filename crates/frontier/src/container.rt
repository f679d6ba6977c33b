// The frontier: it keeps, at the front of a lent slice, a smallest cover of what was offered to it.
ghost use Rattle.std.specs.Prelude.{◌≡◌, ◌≤◌, [], length, MatchResult, OnErr, OnOk};

use crate::order::Covers;
use crate::passes::{compact, is_covered};
use crate::refusal::Refusal;

// The places are memory that the caller lends, and the first `count` of them are kept. That they stay the caller's (`lender`) is said by each
// function that passes a frontier on, since the kit asks it of each.
#[derive(Drop)]
pub struct Frontier<'a, T> {
    places: &'a mut [T],
    count: usize,
    ghost fits: { count ≤ length places.now },
}

impl<'a, T: Covers> Frontier<'a, T> {
    ghost use Rattle.frontier.specs.Cover.{SmallestCover, StillSmallest};
    ghost use Rattle.frontier.specs.Offer.{Offered, LacksPlace};
    ghost use Rattle.frontier.specs.Places.{all, kept, Same, SameBeyond};

    // Opened empty: what stands in the places is left there, and none of it is kept.
    pub fn new(places: &'a mut [T]) -> Frontier<'a, T>
        ensures empty { kept result ≡ [] }
        ensures smallest { SmallestCover T.covers (kept result) [] }
        ensures same { all result ≡ places.old }
        ensures lender { result.places.ghost_name ≡ places.entry.ghost_name }
    {
        Frontier { places, count: 0 }
    }

    pub fn kept(&self) -> &[T]
        ensures { result.now ≡ kept self.now }
    {
        &self.places[..self.count]
    }

    pub fn count(&self) -> usize
        ensures { result ≡ length (kept self.now) }
    {
        self.count
    }

    // All the places: the kept elements first, and then what stands beyond them.
    pub fn places(&self) -> &[T]
        ensures { result.now ≡ all self.now }
    {
        &self.places[..]
    }

    // Where a kept element covers `x`, nothing changes; else those that `x` covers leave, and `x` is put last.
    // Where it lacks a place even then, it is refused, and nothing changes.
    pub fn offer(&mut self, x: T) -> Result<(), Refusal>
        ensures value { MatchResult result (λ _. Offered T.covers (kept self.old) x (kept self.new)) (λ why. LacksPlace T.covers (all self.old) (kept self.old) x why) }
        ensures smallest { OnOk result (StillSmallest T.covers (kept self.old) x (kept self.new)) }
        ensures refused { OnErr result (Same self.old self.new) }
        ensures beyond { SameBeyond self.old self.new }
        ensures room { length (all self.new) ≡ length (all self.old) }
        ensures lender { self.new.places.ghost_name ≡ self.old.places.ghost_name }
    {
        if is_covered(self.kept(), &x) {
            return Ok(());
        }
        let left = compact(&mut self.places[..self.count], &x);
        let full = left == self.places.len();
        if full {
            return Err(Refusal::Full);
        }
        self.places[left] = x;
        self.count = left + 1;
        Ok(())
    }
}
