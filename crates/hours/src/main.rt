// Plans the example tour under the EU rules through the run of calls, and prints its schedule.
#![tactic(auto)]

use books::sets::eu;
use lines::reading::plan_call;
use planner::call::{Answer, Call, Schedule};
use planner::calls::run_calls;
use planning::Stop;
use replies::runs::{Run, runs_of};
use std::io;

// Prints each run of the letters, its first quarter, its letter and its length, and then the end. Replies write such lines as bytes of
// a whole text, and to print one of them by itself would be no shorter.
fn print_schedule(rt: &HostRuntime, schedule: &Schedule) -> io::Result<()> {
    let Schedule { end, letters } = schedule;
    for run in runs_of(rt.alloc(), *end, letters.as_slice())?.iter() {
        let Run {
            first,
            letter,
            count,
        } = *run;
        let letter = char::from(letter);
        println!(rt; "{first},{letter},{count}")?;
    }
    println!(rt; "end,{end}")
}

fn print_answer(rt: &HostRuntime, answer: &Answer) -> io::Result<()> {
    match answer {
        Ok(None) => Ok(()),
        Ok(Some(schedule)) => print_schedule(rt, schedule),
        Err(why) => println!(rt; "refused,{why}"),
    }
}

fn main(rt: HostRuntime) -> io::Result<()> {
    let calls = [
        Call::Add(Stop {
            drive: 36,
            service: 2,
            opens: 0,
            closes: 39,
        }),
        plan_call(),
    ];
    for answer in run_calls(rt.alloc(), &eu(), &calls)?.iter() {
        print_answer(&rt, answer)?;
    }
    Ok(())
}
