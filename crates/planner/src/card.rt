// The driver card: a book's state, and the quarter that it stands before.
ghost use Rattle.std.specs.Prelude.{◌≤◌};

#[derive(Drop)]
pub struct DriverCard<B> {
    book: B,
    now: usize,
    ghost within: { now ≤ 2688 },
}

// What is recorded on it, beside the struct that it sees the fields of.
mod recording;
