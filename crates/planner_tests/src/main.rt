// Runs lists of calls on new cards and tours, and prints a title for each list and a line for each answer.
#![tactic(auto)]

mod answers;
mod carrier;
mod cases;
mod nights;
mod refusals;
mod tours;

use std::io;

fn main(rt: HostRuntime) -> io::Result<()> {
    tours::close_windows(&rt)?;
    tours::small_sheets(&rt)?;
    refusals::recording(&rt)?;
    refusals::adding(&rt)?;
    refusals::planning(&rt)?;
    cases::recorded(&rt)?;
    cases::dropped(&rt)?;
    cases::no_weekly_rest(&rt)?;
    cases::sixteen(&rt)?;
    nights::alone(&rt)?;
    nights::over_us7(&rt)
}
