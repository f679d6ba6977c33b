// The carrier's book, alone and over a named rule set.
use crate::answers::{add, plan, record, try_calls};
use crate::carrier::DayOnly;
use books::sets::us7;
use planner::call::Call;
use rules::layered::Layered;
use std::io;

// Quarters 24 to 79 of a day are for driving: 10 from 24 on and a service end before 36, and of 60 more 44 are left that day
// and 16 are driven from quarter 120 on.
pub(crate) fn alone(rt: &HostRuntime) -> io::Result<()> {
    let records = [
        record(b'D', 1),
        record(b'R', 24),
        record(b'D', 57),
        record(b'D', 56),
        record(b'D', 1),
        record(b'W', 16),
    ];
    try_calls(rt, "by day: recorded", &DayOnly, &records)?;
    let stops = [
        add(10, 2, 0, 100),
        add(60, 1, 0, 200),
        plan(384, 25728, 201),
        Call::Drop,
        plan(384, 13056, 102),
    ];
    try_calls(rt, "by day: two stops", &DayOnly, &stops)
}

// Over the three books of us7 it is layer 4.
pub(crate) fn over_us7(rt: &HostRuntime) -> io::Result<()> {
    let book = Layered {
        own: DayOnly,
        below: us7(),
    };
    let calls = [record(b'D', 1), add(20, 1, 0, 50), plan(3000, 51000, 51)];
    try_calls(rt, "by day over us7", &book, &calls)
}
