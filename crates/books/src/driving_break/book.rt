// What the break allows, and how it goes on.
ghost use Rattle.std.specs.Prelude.{◌≡◌, [], ◌∷◌};
ghost use Rattle.books.specs.Bounds.{BreakSound};
ghost use Rattle.books.specs.DrivingBreak.{break_row, given_break, opened_break, break_names, next_break, break_after, remade_break};
ghost use Rattle.books.specs.Sets.{Lawful, break_rules};
ghost use Rattle.std.proofs.Common.{rules};
ghost use Rattle.books.specs.Breaks.{break_tied};
ghost use Rattle.books.specs.Tied.{tied_judged};
ghost use Rattle.rules.specs.LayersLemmas.{moved_same};

use super::BreakState;
use super::row::{BreakRow, MOST};
use crate::pause::Pause;
use duty::Duty;
use rules::book::{Figures, RuleBook};
use rules::breach::Violation;

impl BreakState {
    // The state before quarter 0; a figure outside 1 to 96 is taken as the nearest end.
    pub fn new(limit: u16, length: u16, kind: Pause) -> BreakState
        ensures { break_row result ≡ given_break limit length kind }
    {
        let length = length.clamp(1, MOST);
        BreakState {
            row: BreakRow {
                limit: limit.clamp(1, MOST),
                length,
                kind,
                driven: 0,
                pause: length,
            },
        }
    }
}

impl RuleBook for BreakState {
    type Row = BreakRow;

    const LOWEST: u8 = 5;

    const HIGHEST: u8 = 5;

    ghost LOWEST = { 5 };

    ghost HIGHEST = { 5 };

    ghost figures = { break_row };

    ghost sound = { BreakSound };

    ghost names = { break_names };

    ghost after = { break_after };

    ghost opened = { λ s. opened_break s.limit s.length s.kind };

    ghost remade = { remade_break };

    ghost lawful = { λ s. Lawful (break_rules s.limit s.length s.kind ∷ []) };

    ghost layers = { 1 };

    ghost rests = { Prim.search rules };

    ghost keeps = { Prim.search rules };

    ghost relieves = { Prim.search rules };

    ghost judged = { λ s l sound short.
        let tied = break_tied s.limit s.length s.kind in
        tied_judged _ _ _ _ tied l };

    ghost stays = { Prim.search rules };

    ghost bounded = { Prim.search rules };

    ghost endures = { Prim.search rules };

    ghost fresh = { Prim.search rules };

    ghost valid = { λ s. Prim.search rules };

    ghost restores = { Prim.search rules };

    ghost fixed = { λ s q x l.
        moved_same (λ t. Lawful (break_rules t.limit t.length t.kind ∷ []) l) (break_names s q x) (next_break s x) s ((λ h. h), (λ h. h)) };

    ghost renewed = { Prim.search rules };

    ghost based = { Prim.search rules };

    ghost placed = { Prim.search rules };

    ghost owns = { Prim.search rules };

    fn depth() -> u8 {
        1
    }

    fn opening(&self) -> Self {
        BreakState::new(self.row.limit, self.row.length, self.row.kind)
    }

    fn verdict(&self, quarter: usize, duty: Duty) -> Option<Violation> {
        if duty.is_driving() && self.row.driven >= self.row.limit {
            Some(Violation::own(Self::LOWEST))
        } else {
            None
        }
    }

    fn step(&mut self, quarter: usize, duty: Duty) {
        if self.verdict(quarter, duty).is_none() {
            *self = BreakState {
                row: self.row.next(duty),
            };
        }
    }

    fn row(&self) -> BreakRow {
        self.row
    }

    fn remake(row: &BreakRow) -> Self {
        if row.fits() {
            BreakState { row: *row }
        } else {
            BreakState::new(row.limit, row.length, row.kind)
        }
    }
}
