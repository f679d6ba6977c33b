// Plans after recorded quarters, after a dropped stop, and of a full tour.
use crate::answers::{add, plan, record, try_calls};
use books::sets::{eu, us7};
use planner::call::Call;
use std::alloc::{AllocError, Global};
use std::io;

// Quarters 0 to 29 are recorded, with 20 of driving: 12 more, a break of 2, and 3 more reach the stop before quarter 47.
// With the 12 recorded too, the stop's 15 do not fit in the 44 of a shift.
pub(crate) fn recorded(rt: &HostRuntime) -> io::Result<()> {
    let calls = [
        record(b'R', 10),
        record(b'D', 20),
        add(15, 1, 0, 60),
        plan(3000, 31000, 31),
        record(b'D', 12),
        plan(3000, 19000, 19),
    ];
    try_calls(rt, "us7: after what is recorded", &us7(), &calls)
}

// With the second stop the end is its opening and its service; without it, the first stop's end.
pub(crate) fn dropped(rt: &HostRuntime) -> io::Result<()> {
    let calls = [
        add(3, 1, 0, 10),
        add(2, 1, 8, 10),
        plan(3000, 11000, 11),
        Call::Drop,
        plan(3000, 11000, 11),
    ];
    try_calls(rt, "us7: a stop dropped", &us7(), &calls)
}

// A stop for each opening, with 4 quarters to drive, and 6 from its opening to its close; then the plan of them all.
fn stops_at(heap: Global, openings: &[u16]) -> Result<Vec<Call>, AllocError> {
    let mut calls = Vec::new(heap);
    for opens in openings {
        calls.push(add(4, 2, *opens, opens.saturating_add(6)))?;
    }
    calls.push(plan(1536, 1376256, 2688))?;
    Ok(calls)
}

// One stop every 168 quarters leaves no rest of 180, and without one nobody is on duty from about quarter 576 on.
pub(crate) fn no_weekly_rest(rt: &HostRuntime) -> io::Result<()> {
    let openings = [
        0, 168, 336, 504, 672, 840, 1008, 1176, 1344, 1512, 1680, 1848, 2016, 2184, 2352, 2520,
    ];
    let calls = stops_at(rt.alloc(), &openings)?;
    try_calls(rt, "eu: no weekly rest", &eu(), calls.as_slice())
}

// Four stops a week, one a day from Monday on; the last opens at quarter 2304.
pub(crate) fn sixteen(rt: &HostRuntime) -> io::Result<()> {
    let openings = [
        0, 96, 192, 288, 672, 768, 864, 960, 1344, 1440, 1536, 1632, 2016, 2112, 2208, 2304,
    ];
    let calls = stops_at(rt.alloc(), &openings)?;
    try_calls(rt, "eu: sixteen stops", &eu(), calls.as_slice())
}
