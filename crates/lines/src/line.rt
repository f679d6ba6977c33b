// What a line asks.
use books::sets::RuleSet;
use planner::call::Call;

// A rule set to plan under, or a call.
#[derive(Clone, Copy)]
pub enum Line {
    Rules(RuleSet),
    Call(Call),
}
