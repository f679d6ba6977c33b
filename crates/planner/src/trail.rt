// The notes of a trail: which label a label came from, and by which status. A note is one number, since a trail is lent as numbers of 16 bits.
ghost use Rattle.std.specs.Prelude.{◌≡◌, ℕ, ◌<◌};
ghost use Rattle.duty.specs.declared.Duty.{Duty};
ghost use Rattle.planner.specs.Trail.{entry as entry_of};

use duty::Duty;

// What is noted of a label that came from the `j`-th by the status.
pub(crate) fn note(j: usize, duty: Duty) -> u16
    requires { j < 4096 }
    ensures { result ≡ entry_of j duty }
{
    4 * j as u16 + duty as u16
}

// The label and the status of a note.
pub(crate) fn decode(entry: u16) -> (usize, Duty)
    ensures { (i : ℕ) (x : Duty) → entry ≡ entry_of i x → (result.0 ≡ i) × (result.1 ≡ x) }
{
    let duty = match entry % 4 {
        0 => Duty::Rest,
        1 => Duty::Work,
        _ => Duty::Drive,
    };
    (usize::from(entry / 4), duty)
}
