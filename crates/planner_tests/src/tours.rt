// One stop whose window closes a quarter too early, and in time.
use crate::answers::{add, plan, try_calls};
use books::sets::{eu, us7};
use std::io;

// 18 quarters of driving, 3 of rest and 18 of driving reach the stop before quarter 39.
pub(crate) fn close_windows(rt: &HostRuntime) -> io::Result<()> {
    let search = plan(144, 18432, 384);
    try_calls(rt, "eu: closes at 38", &eu(), &[add(36, 2, 0, 38), search])?;
    try_calls(rt, "eu: closes at 39", &eu(), &[add(36, 2, 0, 39), search])
}

// One place a quarter: after quarter 0 the driver has driven or waited, unless the window leaves no time to wait.
pub(crate) fn small_sheets(rt: &HostRuntime) -> io::Result<()> {
    let search = plan(3, 3, 3);
    try_calls(rt, "us7: time to wait", &us7(), &[add(1, 1, 0, 2), search])?;
    try_calls(
        rt,
        "us7: no time to wait",
        &us7(),
        &[add(1, 1, 0, 1), search],
    )
}
