// The break from driving: how much may be driven without a pause.
ghost use Rattle.books.specs.Bounds.{BreakSound};

use row::BreakRow;
use rules::layered::Layered;

#[derive(Clone, Copy)]
pub struct BreakState {
    row: BreakRow,
    ghost bounded: { BreakSound row },
}

// A break over any book.
pub type Break<B> = Layered<BreakState, B>;

// The book's functions, beside the struct that they see the fields of.
pub mod book;
pub mod row;
