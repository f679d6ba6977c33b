// Piles that no named rule set has.
use books::driving_break::{Break, BreakState};
use books::duty_cycle::{Cycle, CycleState};
use books::eu_day::EuDay;
use books::pause::Pause;
use books::us_shift::UsShift;
use books::weekly_rest::{WeeklyRest, WeeklyRestState};
use books::weeks::{Weeks, WeeksState};
use rules::breach::Breach;
use rules::judge::judge;
use rules::layered::Layered;
use rules::refusal::Refusal;

fn break_over_us(limit: u16, length: u16, kind: Pause) -> Break<UsShift> {
    Layered {
        own: BreakState::new(limit, length, kind),
        below: UsShift::new(),
    }
}

// The US break over the EU weeks.
fn break_over_weeks() -> Break<Weeks<UsShift>> {
    Layered {
        own: BreakState::new(32, 2, Pause::OffWheel),
        below: Layered {
            own: WeeksState::new(),
            below: UsShift::new(),
        },
    }
}

// A break after `upper` quarters over one after `lower`.
fn break_twice(upper: u16, lower: u16) -> Break<Break<UsShift>> {
    Layered {
        own: BreakState::new(upper, 3, Pause::Rest),
        below: break_over_us(lower, 3, Pause::Rest),
    }
}

fn cycle_over_eu(days: u8, limit: u16, restart: u16) -> Cycle<EuDay> {
    Layered {
        own: CycleState::new(days, limit, restart),
        below: EuDay::new(),
    }
}

// The weeks are the bottom here, so that work is never barred.
fn cycle_over_weeks(days: u8, limit: u16, restart: u16) -> Cycle<WeeksState> {
    Layered {
        own: CycleState::new(days, limit, restart),
        below: WeeksState::new(),
    }
}

fn weekly_rest_over_us() -> WeeklyRest<UsShift> {
    Layered {
        own: WeeklyRestState::new(),
        below: UsShift::new(),
    }
}

// What the judge finds under the pile of that name.
pub(crate) fn judged(name: &[u8], log: &[u8]) -> Result<(usize, Option<Breach>), Refusal> {
    match name {
        b"rest_break" => judge(&break_over_us(4, 3, Pause::Rest), log),
        b"wheel_break" => judge(&break_over_us(4, 3, Pause::OffWheel), log),
        b"least_break" => judge(&break_over_us(0, 0, Pause::Rest), log),
        b"most_break" => judge(&break_over_us(65535, 97, Pause::Rest), log),
        b"break_over_weeks" => judge(&break_over_weeks(), log),
        b"same_break_twice" => judge(&break_twice(18, 18), log),
        b"short_over_long" => judge(&break_twice(10, 18), log),
        b"long_over_short" => judge(&break_twice(18, 10), log),
        b"cycle_over_eu" => judge(&cycle_over_eu(7, 240, 136), log),
        b"least_cycle" => judge(&cycle_over_eu(0, 0, 0), log),
        b"least_days" => judge(&cycle_over_eu(0, 10, 673), log),
        b"most_cycle" => judge(&cycle_over_weeks(255, 50, 65535), log),
        b"weekly_rest_over_us" => judge(&weekly_rest_over_us(), log),
        _ => Err(Refusal::Spelling),
    }
}
