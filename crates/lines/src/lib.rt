// What a text asks: the lines that it is cut into, and what each says.
#![tactic(auto)]

pub mod line;
pub mod reading;
pub mod whole;
