// Judges each line of standard input, a pile's name and a log spelled as runs, and prints the answers.
// A line that begins with `#` says how the answer of the lines below it was worked out.
#![tactic(auto)]

mod piles;

use case_lines::answer::Answer;
use case_lines::case::Case;
use std::io;
use std::io::{BufRead, BufReader};

fn main(rt: HostRuntime) -> io::Result<()> {
    let heap = rt.alloc();
    // The loop stands in both programs of cases: a function for it would take the judging, and would have to ask that it may be called.
    for line in BufReader::new(heap, rt.stdin())?.lines(heap) {
        let line = line?;
        if !line.as_str().starts_with("#") {
            // Blanks in front are cut off once, and not passed over by each reader again.
            let read = Case::of(heap, line.as_str().trim_start())?;
            let found = read.and_then(|case| piles::judged(case.name, case.log.as_slice()));
            println!(rt; "{}", Answer(found))?;
        }
    }
    Ok(())
}
