// The EU day: on duty only within 52 quarters after a rest of 44, with at most 36 quarters of driving.
ghost use Rattle.books.specs.Bounds.{DaySound};

use crate::period::PeriodRow;

// Each book has a plain state of its own; the row and its limits are what shift and day share.
#[derive(Clone, Copy)]
pub struct EuDay {
    row: PeriodRow,
    ghost bounded: { DaySound row },
}

// The book's functions, beside the struct that they see the fields of.
pub mod book;
