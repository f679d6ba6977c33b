// The judge: how far a log is lawful, and its first breach, under any book.
ghost use Rattle.rules.specs.Judged.{Judged};

use crate::book::RuleBook;
use crate::breach::Breach;
use crate::refusal::Refusal;
use duty::{Duty, HORIZON};

// The lawful length of a log of R, W and D, from a fresh opening of the book, and the first breach if there is one: a pair, by the rules of
// the project.
pub fn judge<B: RuleBook>(book: &B, log: &[u8]) -> Result<(usize, Option<Breach>), Refusal>
    ensures { Judged B.RuleBook.names B.RuleBook.after (B.RuleBook.opened (B.RuleBook.figures book.now)) (B.RuleBook.lawful (B.RuleBook.figures book.now)) log.now result }
{
    if log.len() > HORIZON {
        return Err(Refusal::Horizon);
    }
    let mut state = book.opening();
    let mut found: Option<Breach> = None;
    for (quarter, letter) in log.iter().enumerate() {
        let duty = Duty::try_from(*letter)?;
        found = found.or(state.verdict(quarter, duty).map(|named| named.at(quarter)));
        state.step(quarter, duty);
    }
    Ok((found.map_or(log.len(), |breach| breach.quarter), found))
}
