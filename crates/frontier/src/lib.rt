// The smallest cover of what was offered, kept in a lent slice, for any elements of which some cover others.
#![tactic(auto)]

mod container;
mod order;
mod passes;
mod refusal;

pub use container::Frontier;
pub use order::Covers;
pub use refusal::Refusal;
