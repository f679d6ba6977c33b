// A carrier's own book, with no counters: driving only by day.
ghost use Rattle.planner_tests.specs.Daytime.{day_names, AllByDay};
ghost use Rattle.std.proofs.Common.{rules};
ghost use Rattle.planner_tests.specs.ByDay.{lawful-allowed, allowed-lawful};

use duty::{DAY, Duty, HORIZON};
use rules::book::{Figures, RuleBook};
use rules::breach::Violation;

// The first quarter of a day with driving, and the first one after.
const FROM: usize = 24;

const UNTIL: usize = 80;

// It has nothing to remember, and is its own row. Its impl of `RuleBook` has the shape of any single book's, which is all that they share.
#[derive(Clone, Copy)]
pub struct DayOnly;

impl Figures for DayOnly {
    ghost better = { λ _ _. Unit {0} };

    ghost reflexive = { Prim.search rules };

    ghost transitive = { Prim.search rules };

    fn dominates(&self, _other: &Self) -> bool {
        true
    }
}

impl RuleBook for DayOnly {
    type Row = DayOnly;

    const LOWEST: u8 = 20;

    const HIGHEST: u8 = 20;

    ghost LOWEST = { 20 };

    ghost HIGHEST = { 20 };

    ghost figures = { λ b. b };

    ghost sound = { λ _. Unit {0} };

    ghost names = { λ _ q x. day_names q x };

    ghost after = { λ s _ _. s };

    ghost opened = { λ s. s };

    ghost remade = { λ s. s };

    ghost lawful = { λ _ l. AllByDay l };

    ghost layers = { 1 };

    ghost rests = { Prim.search rules };

    ghost keeps = { Prim.search rules };

    ghost relieves = { Prim.search rules };

    ghost judged = { λ s l sound short. (lawful-allowed s l, allowed-lawful s l) };

    ghost stays = { Prim.search rules };

    ghost bounded = { Prim.search rules };

    ghost endures = { Prim.search rules };

    ghost fresh = { Prim.search rules };

    ghost valid = { Prim.search rules };

    ghost restores = { Prim.search rules };

    ghost fixed = { Prim.search rules };

    ghost renewed = { Prim.search rules };

    ghost based = { Prim.search rules };

    ghost placed = { Prim.search rules };

    ghost owns = { Prim.search rules };

    fn depth() -> u8 {
        1
    }

    fn opening(&self) -> Self {
        *self
    }

    fn verdict(&self, quarter: usize, duty: Duty) -> Option<Violation> {
        if !duty.is_driving() {
            return None;
        }
        let hour = quarter.min(HORIZON - 1) % DAY;
        if hour >= FROM && hour < UNTIL {
            None
        } else {
            Some(Violation::own(Self::LOWEST))
        }
    }

    fn step(&mut self, _quarter: usize, _duty: Duty) {}

    fn row(&self) -> DayOnly {
        *self
    }

    fn remake(row: &DayOnly) -> Self {
        *row
    }
}
