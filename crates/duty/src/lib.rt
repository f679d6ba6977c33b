// Quarters of an hour, duty statuses, and how a run grows.
#![tactic(auto)]

ghost use Rattle.std.specs.Prelude.{◌≡◌, ◌/◌, ◌%◌, ◌<◌, min, Some, ◌==◌};
ghost use Rattle.std.specs.Result.{result_ok};
ghost use Rattle.duty.specs.Duties.{letter_of, duty_of, resting, driving, working};
ghost use Rattle.duty.specs.Runs.{next_run};

// The number of quarters that are planned and judged: four weeks.
pub const HORIZON: usize = 2688;

// The quarters of a day.
pub const DAY: usize = 96;

// The quarters of a week.
pub const WEEK: usize = 672;

// The duty status of one quarter.
#[derive(Clone, Copy, PartialEq, Eq, Debug)]
pub enum Duty {
    Rest,
    Work,
    Drive,
}

// The byte is no R, W or D.
#[derive(Clone, Copy, PartialEq, Eq, Debug)]
pub struct NoLetter;

// The duty status that a letter stands for: R, W or D.
impl TryFrom<u8> for Duty {
    type Error = NoLetter;

    ghost try_from_gives = { λ letter r. result_ok r ≡ duty_of letter };

    fn try_from(letter: u8) -> Result<Duty, NoLetter> {
        match letter {
            b'R' => Ok(Duty::Rest),
            b'W' => Ok(Duty::Work),
            b'D' => Ok(Duty::Drive),
            _ => Err(NoLetter),
        }
    }
}

impl From<Duty> for u8 {
    ghost from_gives = { λ duty letter. letter ≡ letter_of duty };

    fn from(duty: Duty) -> u8 {
        match duty {
            Duty::Rest => b'R',
            Duty::Work => b'W',
            Duty::Drive => b'D',
        }
    }
}

impl Duty {
    pub fn is_rest(self) -> bool
        ensures { result ≡ resting self }
    {
        matches!(self, Duty::Rest)
    }

    pub fn is_driving(self) -> bool
        ensures { result ≡ driving self }
    {
        matches!(self, Duty::Drive)
    }

    // Work or driving.
    pub fn is_on_duty(self) -> bool
        ensures { result ≡ working self }
    {
        !self.is_rest()
    }
}

// The run after one more quarter: one longer but never over its full length, or 0 where it is broken.
pub fn next_run(run: u16, full: u16, unbroken: bool) -> u16
    ensures { result ≡ next_run full run unbroken }
{
    if unbroken {
        run.saturating_add(1).min(full)
    } else {
        0
    }
}

// Whether the quarter is the last of its day.
pub fn ends_day(quarter: usize) -> bool
    ensures { result ≡ (quarter % 96 == 95) }
{
    quarter % DAY == DAY - 1
}

// Whether the quarter is the last of its week.
pub fn ends_week(quarter: usize) -> bool
    ensures { result ≡ (quarter % 672 == 671) }
{
    quarter % WEEK == WEEK - 1
}
