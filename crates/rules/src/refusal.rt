// Why a call is refused.
ghost use Rattle.std.specs.Prelude.{◌≡◌, Some};
ghost use Rattle.rules.specs.declared.refusal.Refusal.TheVariants.{Letter};
ghost use Rattle.rules.specs.Refusals.{number, spelled};

use crate::breach::Breach;
use duty::NoLetter;
use std::fmt;

#[derive(Clone, Copy, PartialEq, Eq, Debug)]
pub enum Refusal {
    // A byte that is no R, W or D.
    Letter,
    // More quarters than the horizon has, or none to record, or a text that is too long.
    Horizon,
    // A rule is broken.
    Breach(Breach),
    // The tour has no place for one more stop.
    TourFull,
    // A field of a stop is out of range.
    Field,
    // The tour has no stop.
    NoStop,
    // A sheet that is too small or too large.
    Sheet,
    // A trail that is too small.
    Trail,
    // An output that is too small.
    Output,
    // No lawful letters serve the tour in time.
    NoSchedule,
    // More labels are needed than there are places for.
    Labels,
    // A line that does not spell what it should.
    Spelling,
}

impl From<NoLetter> for Refusal {
    ghost from_gives = { λ _ why. why ≡ Letter };

    fn from(_wrong: NoLetter) -> Refusal {
        Refusal::Letter
    }
}

impl From<Refusal> for u8 {
    ghost from_gives = { λ why n. n ≡ number why };

    fn from(why: Refusal) -> u8 {
        match why {
            Refusal::Letter => 1,
            Refusal::Horizon => 2,
            Refusal::Breach(_) => 3,
            Refusal::TourFull => 4,
            Refusal::Field => 5,
            Refusal::NoStop => 6,
            Refusal::Sheet => 7,
            Refusal::Trail => 8,
            Refusal::Output => 9,
            Refusal::NoSchedule => 10,
            Refusal::Labels => 11,
            Refusal::Spelling => 12,
        }
    }
}

// The number, and for a breach the breach after it.
impl fmt::Display for Refusal {
    ghost output = { λ why. Some (spelled why) };

    fn fmt<W: fmt::Write>(&self, f: &mut fmt::Formatter<W>) -> fmt::Result {
        let number = u8::from(*self);
        match *self {
            Refusal::Breach(breach) => write!(f, "{number},{breach}"),
            _ => write!(f, "{number}"),
        }
    }
}
