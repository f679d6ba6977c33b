// What the cycle allows, and how it goes on.
ghost use Rattle.std.specs.Prelude.{◌≡◌, [], ◌∷◌};
ghost use Rattle.books.specs.Bounds.{CycleSound};
ghost use Rattle.books.specs.DutyCycle.{cycle_row, given_cycle, opened_cycle, cycle_names, next_cycle, cycle_after, remade_cycle};
ghost use Rattle.books.specs.Sets.{Lawful, cycle_rules};
ghost use Rattle.std.proofs.Common.{rules};
ghost use Rattle.books.specs.CycleLaws.{cycle_keeps, cycle_relieves, cycle_endures, remade_sound, cycle_restores};
ghost use Rattle.books.specs.Cycles.{cycle_tied};
ghost use Rattle.books.specs.Tied.{tied_judged};
ghost use Rattle.rules.specs.LayersLemmas.{moved_same};

use super::CycleState;
use super::counts::total;
use super::row::{CycleRow, MOST_DAYS, MOST_LIMIT, MOST_RESTART};
use duty::{Duty, HORIZON};
use rules::book::{Figures, RuleBook};
use rules::breach::Violation;

impl CycleState {
    // The state before quarter 0; a figure outside its range is taken as the nearest end.
    pub fn new(days: u8, limit: u16, restart: u16) -> CycleState
        ensures { cycle_row result ≡ given_cycle days limit restart }
    {
        let restart = restart.clamp(1, MOST_RESTART);
        CycleState {
            row: CycleRow {
                days: days.clamp(1, MOST_DAYS),
                limit: limit.clamp(1, MOST_LIMIT),
                restart,
                duty: [0; 8],
                rest: restart,
            },
        }
    }
}

impl RuleBook for CycleState {
    type Row = CycleRow;

    const LOWEST: u8 = 6;

    const HIGHEST: u8 = 6;

    ghost LOWEST = { 6 };

    ghost HIGHEST = { 6 };

    ghost figures = { cycle_row };

    ghost sound = { CycleSound };

    ghost names = { cycle_names };

    ghost after = { cycle_after };

    ghost opened = { λ s. opened_cycle s.days s.limit s.restart };

    ghost remade = { remade_cycle };

    ghost lawful = { λ s. Lawful (cycle_rules s.days s.limit s.restart ∷ []) };

    ghost layers = { 1 };

    ghost rests = { Prim.search rules };

    ghost keeps = { λ a b q x sa sb short better none. cycle_keeps a b q x better none };

    ghost relieves = { λ s q sound short none. cycle_relieves s q sound none };

    ghost judged = { λ s l sound short.
        let tied = cycle_tied s.days s.limit s.restart sound.0.0 sound.0.1 in
        tied_judged _ _ _ _ tied l };

    ghost stays = { Prim.search rules };

    ghost bounded = { Prim.search rules };

    ghost endures = { cycle_endures };

    ghost fresh = { Prim.search rules };

    ghost valid = { remade_sound };

    ghost restores = { cycle_restores };

    ghost fixed = { λ s q x l.
        moved_same (λ t. Lawful (cycle_rules t.days t.limit t.restart ∷ []) l) (cycle_names s q x) (next_cycle s q x) s ((λ h. h), (λ h. h)) };

    ghost renewed = { Prim.search rules };

    ghost based = { Prim.search rules };

    ghost placed = { Prim.search rules };

    ghost owns = { Prim.search rules };

    fn depth() -> u8 {
        1
    }

    fn opening(&self) -> Self {
        CycleState::new(self.row.days, self.row.limit, self.row.restart)
    }

    fn verdict(&self, quarter: usize, duty: Duty) -> Option<Violation> {
        if duty.is_driving() && total(&self.row.duty) >= self.row.limit {
            Some(Violation::own(Self::LOWEST))
        } else {
            None
        }
    }

    fn step(&mut self, quarter: usize, duty: Duty) {
        if self.verdict(quarter, duty).is_none() {
            *self = CycleState {
                row: self.row.next(quarter.min(HORIZON - 1), duty),
            };
        }
    }

    fn row(&self) -> CycleRow {
        self.row
    }

    #[tactic(auto, using(crate::specs::CycleLaws::fits_sound))]
    fn remake(row: &CycleRow) -> Self {
        if row.fits() {
            CycleState { row: *row }
        } else {
            CycleState::new(row.days, row.limit, row.restart)
        }
    }
}
