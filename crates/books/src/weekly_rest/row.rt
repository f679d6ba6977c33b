// The quarters since the last full rest and the rest run, as plain figures.
ghost use Rattle.std.specs.Prelude.{◌≡◌};
ghost use Rattle.books.specs.WeeklyRest.{RestNoWorse, next_weekly_rest};
ghost use Rattle.std.proofs.Common.{rules};

use duty::{Duty, next_run};
use rules::book::Figures;

// A full rest.
pub(crate) const REST: u16 = 180;

// The quarters after a full rest in which duty is allowed.
pub(crate) const ELAPSED: u16 = 576;

#[derive(Clone, Copy, PartialEq, Eq, Debug)]
pub struct WeeklyRestRow {
    pub elapsed: u16,
    pub rest: u16,
}

impl Figures for WeeklyRestRow {
    ghost better = { RestNoWorse };

    ghost reflexive = { Prim.search rules };

    ghost transitive = { Prim.search rules };

    fn dominates(&self, other: &Self) -> bool {
        self.elapsed <= other.elapsed && self.rest >= other.rest
    }
}

impl WeeklyRestRow {
    // One quarter on: a rest that gets full begins the count anew.
    pub(crate) fn next(self, duty: Duty) -> WeeklyRestRow
        ensures { result ≡ next_weekly_rest self duty }
    {
        let rest = next_run(self.rest, REST, duty.is_rest());
        if rest == REST {
            WeeklyRestRow { elapsed: 0, rest }
        } else {
            WeeklyRestRow {
                elapsed: self.elapsed.saturating_add(1).min(ELAPSED),
                rest,
            }
        }
    }
}
