// The US shift: at most 44 quarters of driving, all within 56 quarters after a rest of 40.
ghost use Rattle.books.specs.Bounds.{ShiftSound};

use crate::period::PeriodRow;

// Each book has a plain state of its own; the row and its limits are what shift and day share.
#[derive(Clone, Copy)]
pub struct UsShift {
    row: PeriodRow,
    ghost bounded: { ShiftSound row },
}

// The book's functions, beside the struct that they see the fields of.
pub mod book;
