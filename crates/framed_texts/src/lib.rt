// Texts in a framed stream.
#![tactic(auto)]

pub mod frames;
