// The two passes over the kept elements: the asking and the compaction.
ghost use Rattle.std.specs.Prelude.{◌≡◌, ◌≤◌, length, take, Decides};
ghost use Rattle.frontier.specs.Cover.{Covered};
ghost use Rattle.frontier.specs.Offer.{Without};

use crate::order::Covers;

// Whether one of the kept covers `x`.
pub(crate) fn is_covered<T: Covers>(kept: &[T], x: &T) -> bool
    ensures { Decides result (Covered T.covers kept.now x.now) }
{
    kept.iter().any(|y| y.covers(x))
}

// How many of the kept stand before the first that `x` covers: these stay where they are.
fn uncovered<T: Covers>(kept: &[T], x: &T) -> usize
    ensures fewer { result ≤ length kept.now }
    ensures stay { Without T.covers x.now (take result kept.now) (take result kept.now) }
{
    kept.iter().position(|y| x.covers(y)).unwrap_or(kept.len())
}

// Moves those of the kept that `x` does not cover to the front, and says how many they are.
pub(crate) fn compact<T: Covers>(kept: &mut [T], x: &T) -> usize
    ensures left { Without T.covers x.now kept.old (take result kept.new) }
    ensures fewer { result ≤ length kept.old }
    ensures room { length kept.new ≡ length kept.old }
    ensures same { result ≡ length kept.old → kept.new ≡ kept.old }
{
    let stay = uncovered(kept, x);
    let mut left = stay;
    // By index, since the slice is written while it is read.
    for i in stay..kept.len() {
        let next = kept[i];
        // Written in any case, so that the branch has no write in it.
        kept[left] = next;
        if !x.covers(&next) {
            left += 1;
        }
    }
    left
}
