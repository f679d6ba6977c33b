// The duty cycle: how much of the last days may be on duty before more is driven.
ghost use Rattle.books.specs.Bounds.{CycleSound};

use row::CycleRow;
use rules::layered::Layered;

#[derive(Clone, Copy)]
pub struct CycleState {
    row: CycleRow,
    ghost bounded: { CycleSound row },
}

// A cycle over any book.
pub type Cycle<B> = Layered<CycleState, B>;

// The book's functions, beside the struct that they see the fields of.
pub mod book;
mod counts;
pub mod row;
