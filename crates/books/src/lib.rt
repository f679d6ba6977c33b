// The rule books, and the named rule sets made of them. Each book has a state struct of its own with its bounds as the invariant, so the
// impls of `RuleBook` have one shape, and the shapes alone are what they share. `depth` is no default of the trait: its body would have to hold of a pile too.
#![tactic(auto)]

pub mod driving_break;
pub mod duty_cycle;
pub mod eu_day;
pub mod pause;
pub mod period;
pub mod sets;
pub mod us_shift;
pub mod weekly_rest;
pub mod weeks;
pub mod worked;
