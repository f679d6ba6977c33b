// The reply to a text: the answers to its lines, spelled.
#![tactic(auto)]

pub mod answer;
pub mod printing;
mod reply;
pub mod runs;
mod spelling;
