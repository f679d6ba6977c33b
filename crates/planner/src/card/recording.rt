// Recording: one status for some quarters, all of them or none.
ghost use Rattle.std.specs.Prelude.{◌≡◌, ◌+◌, ◌≤◌};
ghost use Rattle.planner.specs.OfBooks.{CarriedBy, RecordedOn};

use super::DriverCard;
use duty::{Duty, HORIZON};
use rules::book::RuleBook;
use rules::breach::Breach;
use rules::refusal::Refusal;

// Steps the book through the quarters of one status, up to the first breach.
fn carry<B: RuleBook>(book: &mut B, from: usize, count: usize, duty: Duty) -> Option<Breach>
    requires { from + count ≤ 2688 }
    ensures { CarriedBy B.RuleBook book.old from count duty book.new result }
{
    for quarter in from..from + count {
        if let Some(named) = book.verdict(quarter, duty) {
            return Some(named.at(quarter));
        }
        book.step(quarter, duty);
    }
    None
}

impl<B: RuleBook> DriverCard<B> {
    // A card with nothing recorded, from a fresh opening of the book.
    pub fn new(book: &B) -> Self
        ensures row { B.RuleBook.figures result.book ≡ B.RuleBook.opened (B.RuleBook.figures book.entry.now) }
        ensures start { result.now ≡ 0 }
    {
        DriverCard {
            book: book.opening(),
            now: 0,
        }
    }

    // The quarter that it stands before.
    pub fn now(&self) -> usize
        ensures { result ≡ self.entry.now.now }
    {
        self.now
    }

    // The row of its book's state.
    pub fn row(&self) -> B::Row
        ensures { result ≡ B.RuleBook.figures self.entry.now.book }
    {
        self.book.row()
    }

    // Adds so many quarters of the letter's status, or none where it is refused.
    pub fn record(&mut self, letter: u8, count: usize) -> Result<(), Refusal>
        ensures { RecordedOn B.RuleBook self.entry.now letter count self.exit.now result }
    {
        let duty = Duty::try_from(letter)?;
        if count == 0 || count > HORIZON - self.now {
            return Err(Refusal::Horizon);
        }
        let mut state = self.book;
        if let Some(breach) = carry(&mut state, self.now, count, duty) {
            return Err(Refusal::Breach(breach));
        }
        self.book = state;
        self.now += count;
        Ok(())
    }
}
