// The driving of this week and of last week, as plain figures.
ghost use Rattle.std.specs.Prelude.{◌≡◌, ◌<◌};
ghost use Rattle.books.specs.EuWeeks.{WeeksNoWorse, next_weeks};
ghost use Rattle.std.proofs.Common.{rules};

use duty::{Duty, ends_week};
use rules::book::Figures;

#[derive(Clone, Copy, PartialEq, Eq, Debug)]
pub struct WeeksRow {
    pub this: u16,
    pub last: u16,
}

impl Figures for WeeksRow {
    ghost better = { WeeksNoWorse };

    ghost reflexive = { Prim.search rules };

    ghost transitive = { Prim.search rules };

    fn dominates(&self, other: &Self) -> bool {
        self.this <= other.this && self.last <= other.last
    }
}

impl WeeksRow {
    // One quarter on: with a week's last quarter this week becomes last week.
    pub(crate) fn next(self, quarter: usize, duty: Duty) -> WeeksRow
        requires { self.this < 65535 }
        ensures { result ≡ next_weeks self quarter duty }
    {
        let this = self.this + u16::from(duty.is_driving());
        if ends_week(quarter) {
            WeeksRow {
                this: 0,
                last: this,
            }
        } else {
            WeeksRow {
                this,
                last: self.last,
            }
        }
    }
}
