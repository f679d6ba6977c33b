// Judges each line of standard input, a rule set's name and a log spelled as runs, and prints the answers.
#![tactic(auto)]

use books::sets::{RuleSet, judge_by};
use case_lines::answer::Answer;
use case_lines::case::Case;
use rules::breach::Breach;
use rules::refusal::Refusal;
use std::alloc::{AllocError, Global};
use std::io;
use std::io::{BufRead, BufReader};

// The set that the line's first word names.
fn set_of(line: &str) -> Result<RuleSet, Refusal> {
    let name = line.split_whitespace().next().ok_or(Refusal::Spelling)?;
    Ok(RuleSet::try_from(name.as_bytes())?)
}

// What the judge finds in the line's log. The set is looked for first: of a line that names none, no log is read.
fn found_in(
    heap: Global,
    line: &str,
) -> Result<Result<(usize, Option<Breach>), Refusal>, AllocError> {
    // Cut off once, so that blanks in front are not passed over by each reader again.
    let line = line.trim_start();
    let set = match set_of(line) {
        Ok(set) => set,
        Err(why) => return Ok(Err(why)),
    };
    let read = Case::of(heap, line)?;
    Ok(read.and_then(|case| judge_by(set, case.log.as_slice())))
}

fn main(rt: HostRuntime) -> io::Result<()> {
    let heap = rt.alloc();
    // The loop stands in both programs of cases: a function for it would take the judging, and would have to ask that it may be called.
    for line in BufReader::new(heap, rt.stdin())?.lines(heap) {
        let line = line?;
        let found = found_in(heap, line.as_str())?;
        println!(rt; "{}", Answer(found))?;
    }
    Ok(())
}
