// The figures of a break as they stand, in range or not.
ghost use Rattle.std.specs.Prelude.{◌≡◌, ◌<◌};
ghost use Rattle.books.specs.DrivingBreak.{NoWorseBreak, next_break, fits_break};
ghost use Rattle.std.proofs.Common.{rules};

use crate::pause::Pause;
use duty::{Duty, next_run};
use rules::book::Figures;

// The largest limit and length that can be given.
pub(super) const MOST: u16 = 96;

// The limit, the length and the kind of the pause; the driving since the last pause, and the pause run.
#[derive(Clone, Copy, PartialEq, Eq, Debug)]
pub struct BreakRow {
    pub limit: u16,
    pub length: u16,
    pub kind: Pause,
    pub driven: u16,
    pub pause: u16,
}

impl Figures for BreakRow {
    ghost better = { NoWorseBreak };

    ghost reflexive = { Prim.search rules };

    ghost transitive = { Prim.search rules };

    fn dominates(&self, other: &Self) -> bool {
        self.limit == other.limit
            && self.length == other.length
            && self.kind == other.kind
            && self.driven <= other.driven
            && self.pause >= other.pause
    }
}

impl BreakRow {
    // One quarter on: a pause that gets full ends the count.
    pub(super) fn next(self, duty: Duty) -> BreakRow
        requires { self.driven < 65535 }
        ensures { result ≡ next_break self duty }
    {
        let pause = next_run(self.pause, self.length, self.kind.takes(duty));
        let driven = if pause == self.length {
            0
        } else {
            self.driven + u16::from(duty.is_driving())
        };
        BreakRow {
            limit: self.limit,
            length: self.length,
            kind: self.kind,
            driven,
            pause,
        }
    }

    // Whether the row is a state's.
    pub(super) fn fits(&self) -> bool
        ensures { result ≡ fits_break self.now }
    {
        1 <= self.limit
            && self.limit <= MOST
            && 1 <= self.length
            && self.length <= MOST
            && self.driven <= self.limit
            && self.pause <= self.length
            && (self.pause < self.length || self.driven == 0)
    }
}
