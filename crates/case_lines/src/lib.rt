// Cases of the judge: a log spelled as runs after a name, `us7 W240 R40 D1`, and its answer as a line.
#![tactic(auto)]

pub mod answer;
pub mod case;
pub mod run;
