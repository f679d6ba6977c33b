// What a rule book is, one book piled on another, and the judge of a log.
#![tactic(auto)]

pub mod book;
pub mod breach;
pub mod judge;
pub mod layered;
pub mod refusal;
