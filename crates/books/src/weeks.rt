// The EU weeks: at most 224 quarters of driving in a week, and 360 in two weeks in a row.
ghost use Rattle.books.specs.Bounds.{WeeksSound};

use row::WeeksRow;
use rules::layered::Layered;

#[derive(Clone, Copy)]
pub struct WeeksState {
    row: WeeksRow,
    ghost bounded: { WeeksSound row },
}

// The weeks over another book.
pub type Weeks<B> = Layered<WeeksState, B>;

// The book's functions, beside the struct that they see the fields of.
pub mod book;
pub mod row;
