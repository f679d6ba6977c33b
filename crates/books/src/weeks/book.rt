// What the EU weeks allow, and how they go on.
ghost use Rattle.std.specs.Prelude.{◌≡◌, [], ◌∷◌};
ghost use Rattle.books.specs.Bounds.{WeeksSound};
ghost use Rattle.books.specs.Sets.{Lawful, weeks_rules};
ghost use Rattle.books.specs.EuWeeks.{weeks_row, opened_weeks, weeks_names, weeks_after, remade_weeks};
ghost use Rattle.books.specs.TwoWeeks.{weeks_tied};
ghost use Rattle.books.specs.Tied.{tied_judged};
ghost use Rattle.std.proofs.Common.{rules};

use super::WeeksState;
use super::row::WeeksRow;
use duty::{Duty, HORIZON};
use rules::book::{Figures, RuleBook};
use rules::breach::Violation;

// The driving quarters of one week.
const WEEK_DRIVEN: u16 = 224;

// The driving quarters of two weeks in a row.
const FORTNIGHT_DRIVEN: u16 = 360;

impl WeeksState {
    pub fn new() -> WeeksState
        ensures { weeks_row result ≡ opened_weeks }
    {
        WeeksState {
            row: WeeksRow { this: 0, last: 0 },
        }
    }
}

impl RuleBook for WeeksState {
    type Row = WeeksRow;

    const LOWEST: u8 = 7;

    const HIGHEST: u8 = 8;

    ghost LOWEST = { 7 };

    ghost HIGHEST = { 8 };

    ghost figures = { weeks_row };

    ghost sound = { WeeksSound };

    ghost names = { weeks_names };

    ghost after = { weeks_after };

    ghost opened = { λ _. opened_weeks };

    ghost remade = { remade_weeks };

    ghost lawful = { λ _. Lawful (weeks_rules ∷ []) };

    ghost layers = { 1 };

    ghost rests = { Prim.search rules };

    ghost keeps = { Prim.search rules };

    ghost relieves = { Prim.search rules };

    ghost judged = { λ s l sound short. tied_judged _ _ _ _ weeks_tied l };

    ghost stays = { Prim.search rules };

    ghost bounded = { Prim.search rules };

    ghost endures = { Prim.search rules };

    ghost fresh = { Prim.search rules };

    ghost valid = { Prim.search rules };

    ghost restores = { Prim.search rules };

    ghost fixed = { Prim.search rules };

    ghost renewed = { Prim.search rules };

    ghost based = { Prim.search rules };

    ghost placed = { Prim.search rules };

    ghost owns = { Prim.search rules };

    fn depth() -> u8 {
        1
    }

    fn opening(&self) -> Self {
        WeeksState::new()
    }

    fn verdict(&self, quarter: usize, duty: Duty) -> Option<Violation> {
        if !duty.is_driving() {
            return None;
        }
        if self.row.this >= WEEK_DRIVEN {
            Some(Violation::own(Self::LOWEST))
        } else if self.row.this + self.row.last >= FORTNIGHT_DRIVEN {
            Some(Violation::own(Self::HIGHEST))
        } else {
            None
        }
    }

    fn step(&mut self, quarter: usize, duty: Duty) {
        if self.verdict(quarter, duty).is_none() {
            *self = WeeksState {
                row: self.row.next(quarter.min(HORIZON - 1), duty),
            };
        }
    }

    fn row(&self) -> WeeksRow {
        self.row
    }

    fn remake(row: &WeeksRow) -> Self {
        if row.this <= WEEK_DRIVEN && row.last <= WEEK_DRIVEN {
            WeeksState { row: *row }
        } else {
            WeeksState::new()
        }
    }
}
