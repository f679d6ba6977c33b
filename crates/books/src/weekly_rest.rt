// The EU weekly rest: on duty only within 576 quarters after a rest of 180.
ghost use Rattle.books.specs.Bounds.{WeeklyRestSound};

use row::WeeklyRestRow;
use rules::layered::Layered;

#[derive(Clone, Copy)]
pub struct WeeklyRestState {
    row: WeeklyRestRow,
    ghost bounded: { WeeklyRestSound row },
}

// The weekly rest over another book.
pub type WeeklyRest<B> = Layered<WeeklyRestState, B>;

// The book's functions, beside the struct that they see the fields of.
pub mod book;
pub mod row;
