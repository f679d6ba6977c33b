// A log spelled as runs: `W240 R40 D1` is 240 W, 40 R and 1 D.
ghost use Rattle.std.specs.Prelude.{◌≡◌, ℕ, ◌-◌, min, ◌++◌, replicate, is_ok, if◌then◌else◌, vec_len, IfOk, MatchOption, MatchResult};
ghost use Rattle.case_lines.specs.declared.run.Run.{Run};
ghost use Rattle.case_lines.specs.Spelled.{Held, SpellsRun, NoRun, SpellsLog};

use duty::HORIZON;
use std::alloc::{AllocError, Global};

// One letter more than a log may have: what comes after it changes no answer.
const MOST: usize = HORIZON + 1;

// A letter, any byte, and how often it stands.
#[derive(Clone, Copy, PartialEq, Eq, Debug)]
pub struct Run {
    pub letter: u8,
    pub count: usize,
}

// A word that spells no run.
#[derive(Clone, Copy, PartialEq, Eq, Debug)]
pub struct Misspelled;

// The number that the digits spell, held at 2689; an error where another byte stands among them.
// No number of a field: a count may have any number of digits, with zeros in front, and is held.
fn held_number(digits: &[u8]) -> Result<usize, Misspelled>
    ensures { MatchResult result (λ n. Held digits.now n) (λ why. (n : ℕ) → Held digits.now n → ⊥) }
{
    let mut number = 0usize;
    for digit in digits {
        if !digit.is_ascii_digit() {
            return Err(Misspelled);
        }
        number = number
            .saturating_mul(10)
            .saturating_add(usize::from(*digit - b'0'))
            .min(MOST);
    }
    Ok(number)
}

// The run that a word spells: its letter, and then its count.
impl TryFrom<&[u8]> for Run {
    type Error = Misspelled;

    ghost try_from_gives = { λ word r. MatchResult r (λ run. SpellsRun word.now run) (λ why. (run : Run) → SpellsRun word.now run → ⊥) };

    fn try_from(word: &[u8]) -> Result<Run, Misspelled> {
        let [letter, digits @ ..] = word else {
            return Err(Misspelled);
        };
        let count = held_number(digits)?;
        Ok(Run {
            letter: *letter,
            count,
        })
    }
}

impl Run {
    // Writes the run after the log, as far as 2689 letters.
    pub fn append(self, log: &mut Vec<u8>) -> Result<(), AllocError>
        ensures { log.new.items ≡ (if is_ok result then log.old.items ++ replicate (min self.count (2689 - vec_len log.old)) self.letter else log.old.items) }
    {
        let room = MOST.saturating_sub(log.len());
        log.resize(log.len() + self.count.min(room), self.letter)
    }
}

// The log that the words after the line's first one spell, as far as 2689 letters; nothing where one of them is no run.
// An Option, since with its error the log would be a Result in a Result, and who asks wants to know no more than that there is no log.
pub fn log_of(heap: Global, line: &str) -> Result<Option<Vec<u8>>, AllocError>
    ensures { IfOk result (λ found. MatchOption found (NoRun line.now) (λ log. SpellsLog line.now log.items)) }
{
    let mut log = Vec::new(heap);
    for word in line.split_whitespace().skip(1) {
        let Ok(run) = Run::try_from(word.as_bytes()) else {
            return Ok(None);
        };
        run.append(&mut log)?;
    }
    Ok(Some(log))
}
