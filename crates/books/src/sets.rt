// The named rule sets, and the judge at one of them.
ghost use Rattle.std.specs.Prelude.{◌≡◌};
ghost use Rattle.rules.specs.declared.refusal.Refusal.TheVariants.{Spelling};
ghost use Rattle.books.specs.Names.{set_name, SetNamed, sentences};
ghost use Rattle.books.specs.Verdicts.{JudgedBy};
ghost use Rattle.books.specs.Piles.{us_row, given_us, opened_us, eu_row, opened_eu};

use crate::driving_break::{Break, BreakState};
use crate::duty_cycle::{Cycle, CycleState};
use crate::eu_day::EuDay;
use crate::pause::Pause;
use crate::us_shift::UsShift;
use crate::weekly_rest::{WeeklyRest, WeeklyRestState};
use crate::weeks::{Weeks, WeeksState};
use rules::breach::Breach;
use rules::judge::judge;
use rules::layered::Layered;
use rules::refusal::Refusal;

#[derive(Clone, Copy, PartialEq, Eq, Debug)]
pub enum RuleSet {
    Us7,
    Us8,
    Eu,
}

impl RuleSet {
    // The word itself; `Display` would make a text of it.
    pub fn name(self) -> &'static str
        ensures { result.now ≡ set_name self }
    {
        match self {
            RuleSet::Us7 => "us7",
            RuleSet::Us8 => "us8",
            RuleSet::Eu => "eu",
        }
    }
}

// No rule set has that name.
#[derive(Clone, Copy, PartialEq, Eq, Debug)]
pub struct NoSuchSet;

impl From<NoSuchSet> for Refusal {
    ghost from_gives = { λ _ why. why ≡ Spelling };

    fn from(_wrong: NoSuchSet) -> Refusal {
        Refusal::Spelling
    }
}

// The set of that name.
impl TryFrom<&[u8]> for RuleSet {
    type Error = NoSuchSet;

    ghost try_from_gives = { λ name found. SetNamed name.now found };

    fn try_from(name: &[u8]) -> Result<RuleSet, NoSuchSet> {
        match name {
            b"us7" => Ok(RuleSet::Us7),
            b"us8" => Ok(RuleSet::Us8),
            b"eu" => Ok(RuleSet::Eu),
            _ => Err(NoSuchSet),
        }
    }
}

// The books of the US sets.
pub type UsBook = Cycle<Break<UsShift>>;

// US shift; a break after 32 quarters of driving, of 2 off the wheel; a cycle of that many days and quarters on duty.
fn us_book(days: u8, limit: u16) -> UsBook
    ensures { us_row result ≡ given_us days limit }
{
    Layered {
        own: CycleState::new(days, limit, 136),
        below: Layered {
            own: BreakState::new(32, 2, Pause::OffWheel),
            below: UsShift::new(),
        },
    }
}

// 60 hours in 7 days.
pub fn us7() -> UsBook
    ensures { us_row result ≡ opened_us 7 240 }
{
    us_book(7, 240)
}

// 70 hours in 8 days.
pub fn us8() -> UsBook
    ensures { us_row result ≡ opened_us 8 280 }
{
    us_book(8, 280)
}

// The book of the EU set.
pub type EuBook = WeeklyRest<Weeks<Break<EuDay>>>;

// EU day; a break after 18 quarters of driving, of 3 of rest; the weeks; the weekly rest.
pub fn eu() -> EuBook
    ensures { eu_row result ≡ opened_eu }
{
    Layered {
        own: WeeklyRestState::new(),
        below: Layered {
            own: WeeksState::new(),
            below: Layered {
                own: BreakState::new(18, 3, Pause::Rest),
                below: EuDay::new(),
            },
        },
    }
}

// The lawful length of a log under a rule set, and the first breach if there is one: a pair, by the rules of the project.
pub fn judge_by(set: RuleSet, log: &[u8]) -> Result<(usize, Option<Breach>), Refusal>
    ensures { JudgedBy (sentences set) log.now result }
{
    // A match: the books of the sets are of two types, and a function over any of them would want a trait with a generic method, no plainer.
    match set {
        RuleSet::Us7 => judge(&us7(), log),
        RuleSet::Us8 => judge(&us8(), log),
        RuleSet::Eu => judge(&eu(), log),
    }
}
