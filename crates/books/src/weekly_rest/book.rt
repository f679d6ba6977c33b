// What the EU weekly rest allows, and how it goes on.
ghost use Rattle.std.specs.Prelude.{◌≡◌, [], ◌∷◌};
ghost use Rattle.books.specs.Bounds.{WeeklyRestSound};
ghost use Rattle.books.specs.Sets.{Lawful, weekly_rest_rules};
ghost use Rattle.books.specs.WeeklyRest.{weekly_rest_row, opened_weekly_rest, weekly_rest_names, weekly_rest_after, remade_weekly_rest};
ghost use Rattle.books.specs.LongRest.{weekly_rest_tied};
ghost use Rattle.books.specs.Tied.{tied_judged};
ghost use Rattle.std.proofs.Common.{rules};

use super::WeeklyRestState;
use super::row::{ELAPSED, REST, WeeklyRestRow};
use duty::Duty;
use rules::book::{Figures, RuleBook};
use rules::breach::Violation;

impl WeeklyRestState {
    pub fn new() -> WeeklyRestState
        ensures { weekly_rest_row result ≡ opened_weekly_rest }
    {
        WeeklyRestState {
            row: WeeklyRestRow {
                elapsed: 0,
                rest: REST,
            },
        }
    }
}

impl RuleBook for WeeklyRestState {
    type Row = WeeklyRestRow;

    const LOWEST: u8 = 9;

    const HIGHEST: u8 = 9;

    ghost LOWEST = { 9 };

    ghost HIGHEST = { 9 };

    ghost figures = { weekly_rest_row };

    ghost sound = { WeeklyRestSound };

    ghost names = { weekly_rest_names };

    ghost after = { weekly_rest_after };

    ghost opened = { λ _. opened_weekly_rest };

    ghost remade = { remade_weekly_rest };

    ghost lawful = { λ _. Lawful (weekly_rest_rules ∷ []) };

    ghost layers = { 1 };

    ghost rests = { Prim.search rules };

    ghost keeps = { Prim.search rules };

    ghost relieves = { Prim.search rules };

    ghost judged = { λ s l sound short. tied_judged _ _ _ _ weekly_rest_tied l };

    ghost stays = { Prim.search rules };

    ghost bounded = { Prim.search rules };

    ghost endures = { Prim.search rules };

    ghost fresh = { Prim.search rules };

    ghost valid = { Prim.search rules };

    ghost restores = { Prim.search rules };

    ghost fixed = { Prim.search rules };

    ghost renewed = { Prim.search rules };

    ghost based = { Prim.search rules };

    ghost placed = { Prim.search rules };

    ghost owns = { Prim.search rules };

    fn depth() -> u8 {
        1
    }

    fn opening(&self) -> Self {
        WeeklyRestState::new()
    }

    fn verdict(&self, quarter: usize, duty: Duty) -> Option<Violation> {
        if duty.is_on_duty() && self.row.elapsed >= ELAPSED {
            Some(Violation::own(Self::LOWEST))
        } else {
            None
        }
    }

    fn step(&mut self, quarter: usize, duty: Duty) {
        if self.verdict(quarter, duty).is_none() {
            *self = WeeklyRestState {
                row: self.row.next(duty),
            };
        }
    }

    fn row(&self) -> WeeklyRestRow {
        self.row
    }

    fn remake(row: &WeeklyRestRow) -> Self {
        if row.elapsed <= ELAPSED && row.rest <= REST && (row.rest < REST || row.elapsed == 0) {
            WeeklyRestState { row: *row }
        } else {
            WeeklyRestState::new()
        }
    }
}
