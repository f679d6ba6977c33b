// Each refusal at its boundary.
use crate::answers::{add, plan, record, try_calls};
use books::sets::us7;
use planner::call::Call;
use std::io;

// Letters, counts and a breach; what is refused leaves nothing on the card.
pub(crate) fn recording(rt: &HostRuntime) -> io::Result<()> {
    let letters = [
        record(b'X', 1),
        record(b'X', 0),
        record(b'd', 1),
        record(b'W', 1),
    ];
    try_calls(rt, "letters", &us7(), &letters)?;
    let counts = [
        record(b'R', 0),
        record(b'R', 2689),
        record(b'R', 2688),
        record(b'R', 1),
    ];
    try_calls(rt, "counts", &us7(), &counts)?;
    let breach = [
        record(b'D', 33),
        record(b'D', 32),
        record(b'D', 1),
        record(b'W', 2),
        record(b'D', 1),
    ];
    try_calls(rt, "a breach", &us7(), &breach)
}

// Fields out of range beside the largest that are in range, and a tour that is full.
pub(crate) fn adding(rt: &HostRuntime) -> io::Result<()> {
    let fields = [
        add(673, 1, 0, 1),
        add(672, 1, 0, 1),
        add(1, 0, 0, 1),
        add(1, 33, 0, 1),
        add(1, 32, 0, 1),
        add(1, 1, 2, 1),
        add(1, 1, 1, 1),
        add(1, 1, 0, 2688),
        add(1, 1, 0, 2687),
        add(1, 32, 0, 2657),
        add(1, 32, 0, 2656),
    ];
    try_calls(rt, "fields", &us7(), &fields)?;
    let mut stops = [add(1, 1, 0, 1); 18];
    stops[17] = add(673, 0, 2, 1);
    try_calls(rt, "a tour that is full", &us7(), &stops)
}

// No stop, and buffers one too small; the first of several that are too small is named.
pub(crate) fn planning(rt: &HostRuntime) -> io::Result<()> {
    let none = [
        Call::Drop,
        plan(3, 2, 2),
        add(1, 1, 0, 1),
        Call::Drop,
        Call::Drop,
        plan(2, 0, 0),
    ];
    try_calls(rt, "no stop", &us7(), &none)?;
    let buffers = [
        add(1, 1, 0, 1),
        plan(2, 0, 0),
        plan(12289, 8194, 2),
        plan(12288, 8191, 2),
        plan(12288, 8192, 2),
        plan(3, 1, 0),
        plan(3, 2, 1),
        plan(5, 2, 2),
        plan(6, 3, 2),
    ];
    try_calls(rt, "buffers", &us7(), &buffers)
}
