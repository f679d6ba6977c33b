// The driver card, the tour, and the search for the earliest end.
#![tactic(auto)]

pub mod call;
pub mod calls;
pub mod card;
mod expand;
mod letters;
mod moves;
pub mod plan;
mod search;
mod size;
pub mod tour;
mod trail;
