// Plans the tour of each line of standard input as often as the line says, and prints the last answer: `end,END` or
// `refused,NUMBER`.
#![tactic(auto)]

mod input;

use books::sets::{RuleSet, eu, us7, us8};
use input::calls_of;
use planner::call::{Answer, Call, Schedule};
use planner::calls::run_calls;
use rules::refusal::Refusal;
use std::alloc::{AllocError, Global};
use std::io;
use std::io::{BufRead, BufReader};

// The answers to the calls under a rule set.
fn run_by(heap: Global, set: RuleSet, calls: &[Call]) -> Result<Vec<Answer>, AllocError> {
    // A match: the books of the sets are of two types, and a function over any of them would want a trait with a generic method, no plainer.
    match set {
        RuleSet::Us7 => run_calls(heap, &us7(), calls),
        RuleSet::Us8 => run_calls(heap, &us8(), calls),
        RuleSet::Eu => run_calls(heap, &eu(), calls),
    }
}

// The rule set that is the line's first word.
fn set_of(line: &str) -> Option<RuleSet> {
    RuleSet::try_from(line.split_whitespace().next()?.as_bytes()).ok()
}

fn print_refusal(rt: &HostRuntime, why: Refusal) -> io::Result<()> {
    println!(rt; "refused,{why}")
}

// Prints the last of the answers; it is `done` where no plan was asked for.
fn print_last(rt: &HostRuntime, answers: &[Answer]) -> io::Result<()> {
    match answers.last() {
        Some(Ok(Some(Schedule { end, letters: _ }))) => println!(rt; "end,{end}"),
        Some(Err(why)) => print_refusal(rt, *why),
        _ => rt.println("done"),
    }
}

// Runs the calls of a line; one that spells no set or no calls is refused as spelled wrong.
fn run_line(rt: &HostRuntime, line: &str) -> io::Result<()> {
    let heap = rt.alloc();
    let Some(set) = set_of(line) else {
        return print_refusal(rt, Refusal::Spelling);
    };
    let Some(calls) = calls_of(heap, line)? else {
        return print_refusal(rt, Refusal::Spelling);
    };
    let answers = run_by(heap, set, calls.as_slice())?;
    print_last(rt, answers.as_slice())
}

fn main(rt: HostRuntime) -> io::Result<()> {
    for line in BufReader::new(rt.alloc(), rt.stdin())?.lines(rt.alloc()) {
        let line = line?;
        run_line(&rt, line.as_str())?;
    }
    Ok(())
}
