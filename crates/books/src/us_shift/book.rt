// What the US shift allows, and how it goes on.
ghost use Rattle.std.specs.Prelude.{◌≡◌, [], ◌∷◌};
ghost use Rattle.books.specs.Bounds.{ShiftSound};
ghost use Rattle.books.specs.Sets.{Lawful, shift_rules};
ghost use Rattle.books.specs.UsShift.{shift_row, opened_shift, shift_names, shift_after, remade_shift};
ghost use Rattle.books.specs.Shift.{shift_tied};
ghost use Rattle.books.specs.Tied.{tied_judged};
ghost use Rattle.std.proofs.Common.{rules};

use super::UsShift;
use crate::period::{Limits, PeriodRow};
use duty::Duty;
use rules::book::{Figures, RuleBook};
use rules::breach::Violation;

// Driving within 56 quarters after a rest of 40, at most 44 of them driving.
const LIMITS: Limits = Limits {
    elapsed: 56,
    driven: 44,
    rest: 40,
};

impl UsShift {
    // The state before quarter 0.
    pub fn new() -> UsShift
        ensures { shift_row result ≡ opened_shift }
    {
        UsShift {
            row: PeriodRow::opened(LIMITS.rest),
        }
    }
}

impl RuleBook for UsShift {
    type Row = PeriodRow;

    const LOWEST: u8 = 1;

    const HIGHEST: u8 = 2;

    ghost LOWEST = { 1 };

    ghost HIGHEST = { 2 };

    ghost figures = { shift_row };

    ghost sound = { ShiftSound };

    ghost names = { shift_names };

    ghost after = { shift_after };

    ghost opened = { λ _. opened_shift };

    ghost remade = { remade_shift };

    ghost lawful = { λ _. Lawful (shift_rules ∷ []) };

    ghost layers = { 1 };

    ghost rests = { Prim.search rules };

    ghost keeps = { Prim.search rules };

    ghost relieves = { Prim.search rules };

    ghost judged = { λ s l sound short. tied_judged _ _ _ _ shift_tied l };

    ghost stays = { Prim.search rules };

    ghost bounded = { Prim.search rules };

    ghost endures = { Prim.search rules };

    ghost fresh = { Prim.search rules };

    ghost valid = { Prim.search rules };

    ghost restores = { Prim.search rules };

    ghost fixed = { Prim.search rules };

    ghost renewed = { Prim.search rules };

    ghost based = { Prim.search rules };

    ghost placed = { Prim.search rules };

    ghost owns = { Prim.search rules };

    fn depth() -> u8 {
        1
    }

    fn opening(&self) -> Self {
        UsShift::new()
    }

    fn verdict(&self, quarter: usize, duty: Duty) -> Option<Violation> {
        if !duty.is_driving() {
            return None;
        }
        if self.row.elapsed >= LIMITS.elapsed {
            Some(Violation::own(Self::LOWEST))
        } else if self.row.driven >= LIMITS.driven {
            Some(Violation::own(Self::HIGHEST))
        } else {
            None
        }
    }

    fn step(&mut self, quarter: usize, duty: Duty) {
        if self.verdict(quarter, duty).is_none() {
            *self = UsShift {
                row: self.row.next(LIMITS, duty),
            };
        }
    }

    fn row(&self) -> PeriodRow {
        self.row
    }

    fn remake(row: &PeriodRow) -> Self {
        if row.fits(LIMITS) {
            UsShift { row: *row }
        } else {
            UsShift::new()
        }
    }
}
