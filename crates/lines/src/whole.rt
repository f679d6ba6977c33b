// A whole text: what each of its lines says, and the rule set and the calls that it asks for.
ghost use Rattle.std.specs.Prelude.{◌≡◌, IfOk};
ghost use Rattle.lines.specs.Texts.{ReadFrom, set_read, call_read, calls_read};

use crate::line::Line;
use crate::reading::read_line;
use books::sets::RuleSet;
use fields::cuts::first_line;
use planner::call::Call;
use rules::refusal::Refusal;
use std::alloc::{AllocError, Global};

// The rule set of a text that names none.
const DEFAULT: RuleSet = RuleSet::Us7;

// What each line of the text says, in their order.
pub fn read_text(heap: Global, text: &[u8]) -> Result<Vec<Result<Line, Refusal>>, AllocError>
    ensures { IfOk result (λ readings. ReadFrom 1 text.now readings.items) }
{
    let mut readings = Vec::new(heap);
    let mut rest = text;
    while !rest.is_empty() {
        let (line, after) = first_line(rest);
        let place = readings.len() + 1;
        readings.push(read_line(place, line))?;
        rest = after;
    }
    Ok(readings)
}

// The rule set that the first line names, or else the default.
pub fn set_of(readings: &[Result<Line, Refusal>]) -> RuleSet
    ensures { result ≡ set_read readings.now }
{
    match readings.first() {
        Some(Ok(Line::Rules(set))) => *set,
        _ => DEFAULT,
    }
}

// The call that a line asks for, if any.
fn call_of(reading: Result<Line, Refusal>) -> Option<Call>
    ensures { result ≡ call_read reading }
{
    match reading {
        Ok(Line::Call(call)) => Some(call),
        _ => None,
    }
}

// The calls that the lines ask for, in their order.
pub fn calls_of(heap: Global, readings: &[Result<Line, Refusal>]) -> Result<Vec<Call>, AllocError>
    ensures { IfOk result (λ calls. calls.items ≡ calls_read readings.now) }
{
    readings
        .iter()
        .filter_map(|reading| call_of(*reading))
        .collect(heap)
}
