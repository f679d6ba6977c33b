// The calls that a line spells: `SET LABELS REPEAT`, and then a stop a word, `DRIVE,SERVICE,OPENS,CLOSES`. Readers give an Option, since every
// failure is one: the line spells no calls.
use duty::HORIZON;
use planner::call::{Buffers, Call};
use planning::Stop;
use std::alloc::{AllocError, Global};

// The number that is the line's word at `place`.
fn number_at(line: &str, place: usize) -> Option<u16> {
    line.split_whitespace().nth(place)?.parse::<u16>().ok()
}

// The stop that a word spells.
fn stop_of(word: &str) -> Option<Stop> {
    let (drive, rest) = word.split_once(',')?;
    let (service, rest) = rest.split_once(',')?;
    let (opens, closes) = rest.split_once(',')?;
    Some(Stop {
        drive: drive.parse::<u16>().ok()?,
        service: service.parse::<u16>().ok()?,
        opens: opens.parse::<u16>().ok()?,
        closes: closes.parse::<u16>().ok()?,
    })
}

// The call that plans with so many labels, and with buffers that are large enough for any tour.
fn plan_call(labels: u16) -> Call {
    let labels = usize::from(labels);
    Call::Plan(Buffers {
        labels,
        predecessors: labels / 3 * HORIZON,
        output: HORIZON,
    })
}

// The calls that add the line's stops; nothing where a word is no stop.
fn stop_calls(heap: Global, line: &str) -> Result<Option<Vec<Call>>, AllocError> {
    let mut calls = Vec::new(heap);
    for word in line.split_whitespace().skip(3) {
        let Some(stop) = stop_of(word) else {
            return Ok(None);
        };
        calls.push(Call::Add(stop))?;
    }
    Ok(Some(calls))
}

// The calls of the whole line, the plans last; nothing where it spells none.
pub(crate) fn calls_of(heap: Global, line: &str) -> Result<Option<Vec<Call>>, AllocError> {
    let (Some(labels), Some(repeat)) = (number_at(line, 1), number_at(line, 2)) else {
        return Ok(None);
    };
    let Some(mut calls) = stop_calls(heap, line)? else {
        return Ok(None);
    };
    for _ in 0..repeat {
        calls.push(plan_call(labels))?;
    }
    Ok(Some(calls))
}
