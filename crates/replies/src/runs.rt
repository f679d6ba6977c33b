// A schedule's letters as runs.
ghost use Rattle.std.specs.Prelude.{◌-◌, length, IfOk};
ghost use Rattle.replies.specs.Schedules.{RunsFrom};

use std::alloc::{AllocError, Global};

// Equal letters in a row: the quarter that they begin with, the letter, and how many they are.
#[derive(Clone, Copy)]
pub struct Run {
    pub first: usize,
    pub letter: u8,
    pub count: usize,
}

// The runs of the letters of a schedule with that end.
pub fn runs_of(heap: Global, end: usize, letters: &[u8]) -> Result<Vec<Run>, AllocError>
    ensures { IfOk result (λ runs. RunsFrom (end - length letters.now) letters.now runs.items) }
{
    let mut runs = Vec::new(heap);
    let mut first = end.saturating_sub(letters.len());
    for equal in letters.chunk_by(|letter, next| letter == next) {
        runs.push(Run {
            first,
            letter: equal[0],
            count: equal.len(),
        })?;
        first += equal.len();
    }
    Ok(runs)
}
