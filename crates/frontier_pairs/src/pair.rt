// A pair of numbers, of which smaller ones are better.
ghost use Rattle.std.specs.Prelude.{Some};
ghost use Rattle.frontier_pairs.specs.Lines.{written};
ghost use Rattle.frontier_pairs.specs.Pairs.{NoLarger};
ghost use Rattle.std.proofs.Common.{rules};

use frontier::Covers;
use std::fmt;

#[derive(Clone, Copy, Default)]
pub struct Pair {
    pub first: u32,
    pub second: u32,
}

impl Covers for Pair {
    ghost covers = { NoLarger };

    ghost reflexive = { Prim.search rules };

    ghost transitive = { Prim.search rules };

    fn covers(&self, other: &Pair) -> bool {
        self.first <= other.first && self.second <= other.second
    }
}

impl fmt::Display for Pair {
    ghost output = { λ p. Some (written p) };

    fn fmt<W: fmt::Write>(&self, f: &mut fmt::Formatter<W>) -> fmt::Result {
        write!(f, "{} {}", self.first, self.second)
    }
}
