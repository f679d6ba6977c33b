// What a break from driving is made of.
ghost use Rattle.std.specs.Prelude.{◌≡◌};
ghost use Rattle.books.specs.Pauses.{pauses};

use duty::Duty;

// A pause of rest alone, or of all that is not driving.
#[derive(Clone, Copy, PartialEq, Eq, Debug)]
pub enum Pause {
    Rest,
    OffWheel,
}

impl Pause {
    // Whether a quarter of this status goes on with the pause.
    pub fn takes(self, duty: Duty) -> bool
        ensures { result ≡ pauses self duty }
    {
        match self {
            Pause::Rest => duty.is_rest(),
            Pause::OffWheel => !duty.is_driving(),
        }
    }
}
