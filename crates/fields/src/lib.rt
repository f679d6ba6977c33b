// Fields of a line: where bytes are cut, and the numbers that they spell.
#![tactic(auto)]

pub mod cuts;
pub mod numbers;
