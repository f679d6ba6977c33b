// What the program prints: a first line for programs, and then what a person wants to know. The line is spelled here too, beside case_lines:
// that crate is for tests, and knows no rule set.
use books::sets::RuleSet;
use duty::{DAY, WEEK};
use rules::breach::Breach;
use rules::refusal::Refusal;
use std::io;

// The short names of the days, from that of quarter 0.
const DAYS: [&str; 7] = ["Mon", "Tue", "Wed", "Thu", "Fri", "Sat", "Sun"];

// What each rule asks, in the figures of the named sets.
fn rule_text(set: RuleSet, rule: u8) -> &'static str {
    match (set, rule) {
        (_, 1) =>
            "driving ends within 14 hours (56 quarters) after a rest of at least 10 hours (40 quarters)",
        (_, 2) =>
            "at most 11 hours (44 quarters) of driving between rests of at least 10 hours (40 quarters)",
        (_, 3) =>
            "the work of a day ends within 13 hours (52 quarters) after a rest of at least 11 hours (44 quarters)",
        (_, 4) =>
            "at most 9 hours (36 quarters) of driving between rests of at least 11 hours (44 quarters)",
        (RuleSet::Eu, 5) =>
            "at most 4 hours 30 (18 quarters) of driving without a break of 45 minutes (3 quarters) of rest",
        (_, 5) =>
            "at most 8 hours (32 quarters) of driving without a pause of half an hour (2 quarters) off the wheel",
        (RuleSet::Us7, 6) => {
            "driving only up to 60 hours (240 quarters) on duty in 7 days; a rest of 34 hours (136 quarters) starts anew"
        }
        (RuleSet::Us8, 6) => {
            "driving only up to 70 hours (280 quarters) on duty in 8 days; a rest of 34 hours (136 quarters) starts anew"
        }
        (_, 7) => "at most 56 hours (224 quarters) of driving in a week",
        (_, 8) => "at most 90 hours (360 quarters) of driving in a week and the week before it",
        (_, 9) =>
            "a rest of 45 hours (180 quarters) begins within six days (576 quarters) after the latest one",
        _ => "the rule has no text",
    }
}

pub(crate) fn refused(rt: &HostRuntime, why: Refusal) -> io::Result<()> {
    println!(rt; "refused,{why}")?;
    match why {
        Refusal::Letter => rt.println(
            "The log has a byte that is no R (rest), W (work) or D (driving).",
        ),
        Refusal::Horizon => rt.println(
            "The log is longer than four weeks (2688 quarters), or the input than 65536 bytes.",
        ),
        Refusal::Spelling => rt.println("The first line names no rule set: write us7, us8 or eu."),
        // The audit gives no other refusal.
        _ => rt.println("The log cannot be read."),
    }
}

pub(crate) fn lawful(rt: &HostRuntime, set: RuleSet, length: usize) -> io::Result<()> {
    let name = set.name();
    println!(rt; "lawful,{length}")?;
    println!(rt; "Read {length} quarters under {name}: all of them are lawful.")
}

pub(crate) fn breached(
    rt: &HostRuntime,
    set: RuleSet,
    length: usize,
    breach: Breach,
) -> io::Result<()> {
    let Breach {
        quarter,
        rule,
        layer,
    } = breach;
    let name = set.name();
    let day = DAYS[quarter / DAY % DAYS.len()];
    let hour = quarter % DAY / 4;
    let minute = quarter % 4 * 15;
    let week = quarter / WEEK + 1;
    let text = rule_text(set, rule);
    println!(rt; "breach,{breach}")?;
    println!(rt; "Read {length} quarters under {name}: the first {quarter} are lawful.")?;
    println!(rt;
        "The quarter from {day} {hour:02}:{minute:02} of week {week} breaks rule {rule} (layer {layer}):"
    )?;
    println!(rt; "{text}.")
}
