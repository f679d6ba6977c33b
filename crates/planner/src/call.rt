// The calls on a card and a tour, and their answers.
use planning::Stop;
use rules::refusal::Refusal;

// The lengths of the buffers of a plan.
#[derive(Clone, Copy, PartialEq, Eq, Debug)]
pub struct Buffers {
    pub labels: usize,
    pub predecessors: usize,
    pub output: usize,
}

// One call, with what it is passed. A letter is any byte, since one that stands for no status is refused by the call.
#[derive(Clone, Copy)]
pub enum Call {
    Record { letter: u8, count: usize },
    Add(Stop),
    Drop,
    Plan(Buffers),
}

// What a plan gives: its end, and the letters of its quarters.
#[derive(Drop)]
pub struct Schedule {
    pub end: usize,
    pub letters: Vec<u8>,
}

// What a call answers: its refusal; or it is done, and a plan gives its schedule.
pub type Answer = Result<Option<Schedule>, Refusal>;
