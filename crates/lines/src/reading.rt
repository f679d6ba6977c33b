// What a line says, or the refusal where it fits no kind of line.
ghost use Rattle.std.specs.Prelude.{◌≡◌, ℕ, ◌∷◌, ◌++◌, codes};
ghost use Rattle.fields.specs.Cuts.{Lacks};
ghost use Rattle.lines.specs.Says.{Reads, plan_call};

use crate::line::Line;
use books::sets::RuleSet;
use fields::cuts::{cut_at, single};
use fields::numbers::{leading_number, read_number};
use planner::call::{Buffers, Call};
use planning::Stop;
use rules::refusal::Refusal;

// The call that plans, with the lengths of its buffers: the sheet of labels, the trail and the output.
pub fn plan_call() -> Call
    ensures { result ≡ plan_call }
{
    Call::Plan(Buffers {
        labels: 144,
        predecessors: 18432,
        output: 384,
    })
}

// Each field of a line is taken by let-else and leaves with the refusal, as the project's rules lay down for a reader of lines.

// What the line `done` with these fields says.
fn read_done(fields: &[u8]) -> Result<Line, Refusal>
    ensures { (place : ℕ) → Reads place (codes "done," ++ fields.now) result }
{
    let Some((letter, count)) = cut_at(fields, b',') else {
        return Err(Refusal::Spelling);
    };
    let Some(letter) = single(letter) else {
        return Err(Refusal::Spelling);
    };
    let Some(count) = read_number(count) else {
        return Err(Refusal::Spelling);
    };
    Ok(Line::Call(Call::Record {
        letter,
        count: usize::from(count),
    }))
}

// What the line `stop` with these fields says.
fn read_stop(fields: &[u8]) -> Result<Line, Refusal>
    ensures { (place : ℕ) → Reads place (codes "stop," ++ fields.now) result }
{
    let Some((drive, fields)) = leading_number(fields) else {
        return Err(Refusal::Spelling);
    };
    let Some((service, fields)) = leading_number(fields) else {
        return Err(Refusal::Spelling);
    };
    let Some((opens, closes)) = leading_number(fields) else {
        return Err(Refusal::Spelling);
    };
    let Some(closes) = read_number(closes) else {
        return Err(Refusal::Spelling);
    };
    Ok(Line::Call(Call::Add(Stop {
        drive,
        service,
        opens,
        closes,
    })))
}

// What the line `rules` with this name says at that place of the text.
fn read_rules(place: usize, name: &[u8]) -> Result<Line, Refusal>
    ensures { Reads place (codes "rules," ++ name.now) result }
{
    if place != 1 {
        return Err(Refusal::Spelling);
    }
    let Ok(set) = RuleSet::try_from(name) else {
        return Err(Refusal::Spelling);
    };
    Ok(Line::Rules(set))
}

// What a line of that kind with these fields says at that place of the text.
#[tactic(auto, using(crate::proofs::Spellings::no_kind))]
fn read_kind(place: usize, kind: &[u8], fields: &[u8]) -> Result<Line, Refusal>
    requires { Lacks 44 kind.now }
    ensures { Reads place (kind.now ++ 44 ∷ fields.now) result }
{
    match kind {
        b"done" => read_done(fields),
        b"stop" => read_stop(fields),
        b"rules" => read_rules(place, fields),
        _ => Err(Refusal::Spelling),
    }
}

// What the line at that place of the text says, counted from 1.
#[tactic(auto, using(crate::proofs::Spellings::no_fields))]
pub fn read_line(place: usize, line: &[u8]) -> Result<Line, Refusal>
    ensures { Reads place line.now result }
{
    match line {
        b"drop" => Ok(Line::Call(Call::Drop)),
        b"plan" => Ok(Line::Call(plan_call())),
        _ => {
            let Some((kind, fields)) = cut_at(line, b',') else {
                return Err(Refusal::Spelling);
            };
            read_kind(place, kind, fields)
        }
    }
}
