// A duty period: what has gone by since the last full rest, and how much of it is allowed.
ghost use Rattle.std.specs.Prelude.{◌≡◌, ◌<◌};
ghost use Rattle.books.specs.Period.{NoWorse, opened_period, next_period, fits_period};
ghost use Rattle.std.proofs.Common.{rules};

use duty::{Duty, next_run};
use rules::book::Figures;

// The quarters since the last full rest, those of them at the wheel, and the rest run.
#[derive(Clone, Copy, PartialEq, Eq, Debug)]
pub struct PeriodRow {
    pub elapsed: u16,
    pub driven: u16,
    pub rest: u16,
}

impl Figures for PeriodRow {
    ghost better = { NoWorse };

    ghost reflexive = { Prim.search rules };

    ghost transitive = { Prim.search rules };

    fn dominates(&self, other: &Self) -> bool {
        self.elapsed <= other.elapsed && self.driven <= other.driven && self.rest >= other.rest
    }
}

// The quarters that may go by after a full rest, those of them that may be driven, and the length of a full rest.
#[derive(Clone, Copy)]
pub(crate) struct Limits {
    pub elapsed: u16,
    pub driven: u16,
    pub rest: u16,
}

impl PeriodRow {
    // A full rest just taken.
    pub(crate) fn opened(full: u16) -> PeriodRow
        ensures { result ≡ opened_period full }
    {
        PeriodRow {
            elapsed: 0,
            driven: 0,
            rest: full,
        }
    }

    // One quarter on: a rest that gets full ends the period, and the quarters elapsed are held at their limit.
    pub(crate) fn next(self, limits: Limits, duty: Duty) -> PeriodRow
        requires { self.driven < 65535 }
        ensures { result ≡ next_period limits.rest limits.elapsed self duty }
    {
        let rest = next_run(self.rest, limits.rest, duty.is_rest());
        if rest == limits.rest {
            return PeriodRow::opened(rest);
        }
        PeriodRow {
            elapsed: self.elapsed.saturating_add(1).min(limits.elapsed),
            driven: self.driven + u16::from(duty.is_driving()),
            rest,
        }
    }

    // Whether the row is a state's: within the limits, and nothing counted beside a full rest.
    pub(crate) fn fits(&self, limits: Limits) -> bool
        ensures { result ≡ fits_period limits.elapsed limits.driven limits.rest self.now }
    {
        self.elapsed <= limits.elapsed
            && self.driven <= limits.driven
            && self.rest <= limits.rest
            && (self.rest < limits.rest || (self.elapsed == 0 && self.driven == 0))
    }
}
