// The figures of a cycle as they stand, in range or not.
ghost use Rattle.std.specs.Prelude.{◌≡◌, Decides};
ghost use Rattle.books.specs.DutyCycle.{NoWorseCycle, next_cycle, fits_cycle, same_cycle};
ghost use Rattle.std.proofs.Common.{rules};

use super::counts::{count_on, counts_fit, no_more};
use duty::{Duty, next_run};
use rules::book::Figures;

// The largest figures that can be given: eight days, all of them on duty, and a week of rest.
pub(super) const MOST_DAYS: u8 = 8;

pub(super) const MOST_LIMIT: u16 = 768;

pub(super) const MOST_RESTART: u16 = 672;

// The number of days, the limit and the length of the restart; the quarters on duty since the last
// restart of the day of the next quarter and of each day before it, and the rest run. A state is copied, so the counts are an array of the most days.
#[derive(Clone, Copy, PartialEq, Eq, Debug)]
pub struct CycleRow {
    pub days: u8,
    pub limit: u16,
    pub restart: u16,
    pub duty: [u8; 8],
    pub rest: u16,
}

impl Figures for CycleRow {
    ghost better = { NoWorseCycle };

    ghost reflexive = { Prim.search rules };

    ghost transitive = { Prim.search rules };

    fn dominates(&self, other: &Self) -> bool {
        self.days == other.days
            && self.limit == other.limit
            && self.restart == other.restart
            && no_more(&self.duty, &other.duty)
            && self.rest >= other.rest
    }
}

impl CycleRow {
    // The derived `==` says whether the rows are the same. The method stands for the promise, which a derive cannot state.
    pub fn same(&self, other: &CycleRow) -> bool
        ensures value { result ≡ same_cycle self.now other.now }
        ensures same { Decides result (self.now ≡ other.now) }
    {
        self == other
    }

    // One quarter on: a rest that gets full ends the counts.
    pub(super) fn next(self, quarter: usize, duty: Duty) -> CycleRow
        ensures { result ≡ next_cycle self quarter duty }
    {
        let rest = next_run(self.rest, self.restart, duty.is_rest());
        let full = rest == self.restart;
        CycleRow {
            days: self.days,
            limit: self.limit,
            restart: self.restart,
            duty: count_on(&self.duty, self.days, quarter, duty.is_on_duty(), full),
            rest,
        }
    }

    // Whether the row is a state's.
    #[tactic(auto, using(crate::specs::Eights::decides_within))]
    pub(super) fn fits(&self) -> bool
        ensures { result ≡ fits_cycle self.now }
    {
        1 <= self.days
            && self.days <= MOST_DAYS
            && 1 <= self.limit
            && self.limit <= MOST_LIMIT
            && 1 <= self.restart
            && self.restart <= MOST_RESTART
            && self.rest <= self.restart
            && counts_fit(&self.duty, self.days, self.rest < self.restart)
    }
}
