// Stops of a tour, and the labels that a search for a schedule keeps.
#![tactic(auto)]

mod cover;

// A stop: the driving before it, the quarters of its service, and from when to when the service may begin.
#[derive(Clone, Copy, PartialEq, Eq, Debug, Default)]
pub struct Stop {
    pub drive: u16,
    pub service: u16,
    pub opens: u16,
    pub closes: u16,
}

// How far a tour has come: the current stop, which is the first not fully served, the driving and the service that it
// lacks, and the book's state as its row. `from` says which label and status it came from; it is no part of covering.
#[derive(Clone, Copy)]
pub struct Label<R> {
    pub stop: usize,
    pub drive: u16,
    pub service: u16,
    pub from: u16,
    pub row: R,
}
