// The answers to a list of calls, as lines: `done`, `end,END,LETTERS`, `refused,NUMBER` or `refused,3,QUARTER,RULE,LAYER`.
use planner::call::{Answer, Buffers, Call, Schedule};
use planner::calls::run_calls;
use planning::Stop;
use rules::book::RuleBook;
use std::io;

// Of a plan its end and the count of its letters: which of the schedules is written is free.
fn print_answer(rt: &HostRuntime, answer: &Answer) -> io::Result<()> {
    match answer {
        Ok(None) => println!(rt; "done"),
        Ok(Some(Schedule { end, letters })) => {
            let count = letters.len();
            println!(rt; "end,{end},{count}")
        }
        Err(why) => println!(rt; "refused,{why}"),
    }
}

// Makes the calls on a new card and a new tour, and prints the title and the answers.
pub(crate) fn try_calls<B: RuleBook>(
    rt: &HostRuntime,
    title: &str,
    book: &B,
    calls: &[Call],
) -> io::Result<()> {
    println!(rt; "{title}")?;
    let answers = run_calls(rt.alloc(), book, calls)?;
    for answer in answers.as_slice() {
        print_answer(rt, answer)?;
    }
    Ok(())
}

pub(crate) fn record(letter: u8, count: usize) -> Call {
    Call::Record { letter, count }
}

pub(crate) fn add(drive: u16, service: u16, opens: u16, closes: u16) -> Call {
    Call::Add(Stop {
        drive,
        service,
        opens,
        closes,
    })
}

pub(crate) fn plan(labels: usize, predecessors: usize, output: usize) -> Call {
    Call::Plan(Buffers {
        labels,
        predecessors,
        output,
    })
}
