// What the EU day allows, and how it goes on.
ghost use Rattle.std.specs.Prelude.{◌≡◌, [], ◌∷◌};
ghost use Rattle.books.specs.Bounds.{DaySound};
ghost use Rattle.books.specs.Sets.{Lawful, day_rules};
ghost use Rattle.books.specs.EuDay.{day_row, opened_day, day_names, day_after, remade_day};
ghost use Rattle.books.specs.EuDays.{day_tied};
ghost use Rattle.books.specs.Tied.{tied_judged};
ghost use Rattle.std.proofs.Common.{rules};

use super::EuDay;
use crate::period::{Limits, PeriodRow};
use duty::Duty;
use rules::book::{Figures, RuleBook};
use rules::breach::Violation;

// Duty within 52 quarters after a rest of 44, at most 36 of them driving.
const LIMITS: Limits = Limits {
    elapsed: 52,
    driven: 36,
    rest: 44,
};

impl EuDay {
    pub fn new() -> EuDay
        ensures { day_row result ≡ opened_day }
    {
        EuDay {
            row: PeriodRow::opened(LIMITS.rest),
        }
    }
}

impl RuleBook for EuDay {
    type Row = PeriodRow;

    const LOWEST: u8 = 3;

    const HIGHEST: u8 = 4;

    ghost LOWEST = { 3 };

    ghost HIGHEST = { 4 };

    ghost figures = { day_row };

    ghost sound = { DaySound };

    ghost names = { day_names };

    ghost after = { day_after };

    ghost opened = { λ _. opened_day };

    ghost remade = { remade_day };

    ghost lawful = { λ _. Lawful (day_rules ∷ []) };

    ghost layers = { 1 };

    ghost rests = { Prim.search rules };

    ghost keeps = { Prim.search rules };

    ghost relieves = { Prim.search rules };

    ghost judged = { λ s l sound short. tied_judged _ _ _ _ day_tied l };

    ghost stays = { Prim.search rules };

    ghost bounded = { Prim.search rules };

    ghost endures = { Prim.search rules };

    ghost fresh = { Prim.search rules };

    ghost valid = { Prim.search rules };

    ghost restores = { Prim.search rules };

    ghost fixed = { Prim.search rules };

    ghost renewed = { Prim.search rules };

    ghost based = { Prim.search rules };

    ghost placed = { Prim.search rules };

    ghost owns = { Prim.search rules };

    fn depth() -> u8 {
        1
    }

    fn opening(&self) -> Self {
        EuDay::new()
    }

    fn verdict(&self, quarter: usize, duty: Duty) -> Option<Violation> {
        if duty.is_rest() {
            return None;
        }
        if self.row.elapsed >= LIMITS.elapsed {
            Some(Violation::own(Self::LOWEST))
        } else if duty.is_driving() && self.row.driven >= LIMITS.driven {
            Some(Violation::own(Self::HIGHEST))
        } else {
            None
        }
    }

    fn step(&mut self, quarter: usize, duty: Duty) {
        if self.verdict(quarter, duty).is_none() {
            *self = EuDay {
                row: self.row.next(LIMITS, duty),
            };
        }
    }

    fn row(&self) -> PeriodRow {
        self.row
    }

    fn remake(row: &PeriodRow) -> Self {
        if row.fits(LIMITS) {
            EuDay { row: *row }
        } else {
            EuDay::new()
        }
    }
}
