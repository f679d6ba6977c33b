// Reads the name of a rule set and a log from standard input, and says whether the log keeps the rules.
#![tactic(auto)]

mod input;
mod report;

use books::sets::{RuleSet, judge_by};
use input::Input;
use rules::refusal::Refusal;
use std::io;
use std::io::Read;

// The longest input that is read.
const MOST: u64 = 65536;

fn main(rt: HostRuntime) -> io::Result<()> {
    let heap = rt.alloc();
    let mut text = Vec::new(heap);
    rt.stdin().take(MOST + 1).read_to_end(&mut text)?;
    let input = Input::of(text.as_slice());
    let Ok(set) = RuleSet::try_from(input.name.trim_ascii()) else {
        return report::refused(&rt, Refusal::Spelling);
    };
    if text.len() as u64 > MOST {
        return report::refused(&rt, Refusal::Horizon);
    }
    let log = input.letters(heap)?;
    match judge_by(set, log.as_slice()) {
        Err(why) => report::refused(&rt, why),
        Ok((_, None)) => report::lawful(&rt, set, log.len()),
        Ok((_, Some(breach))) => report::breached(&rt, set, log.len(), breach),
    }
}
