//! Reports whose schedules are replayed.

use crate::answer::{Told, answered};
use crate::outside::Outside;
use case_sheet::{Case, say};
use std::alloc::{AllocError, Global};

/// Of a report what stands before the counts of its operators, and its schedule.
#[derive(Drop)]
struct Halves {
    run: Vec<u8>,
    schedule: Vec<u8>,
}

/// Appends a line.
fn push_line(text: &mut Vec<u8>, line: &str) {
    say(text, line.as_bytes());
    say(text, b"\n");
}

/// The halves of a report in which no line that is written begins as its parts do.
fn halves_of(alloc: Global, report: &[u8]) -> Halves {
    let mut run = Vec::new(alloc);
    let mut schedule = Vec::new(alloc);
    let mut is_told = false;
    for line in str::from_utf8(report).unwrap_or("").lines() {
        if line.starts_with("OPERATORS ") {
            is_told = true;
        }
        if !is_told {
            push_line(&mut run, line);
        }
        if !schedule.is_empty() || line.starts_with("SCHEDULE ") {
            push_line(&mut schedule, line);
        }
    }
    Halves { run, schedule }
}

/// The words of a replay within the budget of a run.
fn replay_words(alloc: Global, words: &[String]) -> Result<Vec<String>, AllocError> {
    let mut replay = Vec::new(alloc);
    replay.push(String::from_str(alloc, "replay")?)?;
    if let Some(budget) = words.get(2) {
        replay.push(String::from_str(alloc, budget.as_str())?)?;
    }
    Ok(replay)
}

/// What a replay of a schedule is answered by, within the budget of a run.
fn replayed(alloc: Global, case: &Case, schedule: &[u8]) -> Result<Told, AllocError> {
    let words = replay_words(alloc, case.words.as_slice())?;
    let mut input = Vec::from_slice(alloc, case.input.as_slice())?;
    say(&mut input, b"%%SCHEDULE\n");
    say(&mut input, schedule);
    answered(alloc, words.as_slice(), input, Outside::whole(alloc))
}

/// Tests that a replay of the schedule that a run printed prints the same listing, output, end and schedule, under the same status.
pub(crate) fn is_replayed(alloc: Global, case: &Case, told: &Told) -> Result<bool, AllocError> {
    let first = halves_of(alloc, told.bytes.as_slice());
    let again = replayed(alloc, case, first.schedule.as_slice())?;
    let second = halves_of(alloc, again.bytes.as_slice());
    let is_same = first.run.as_slice() == second.run.as_slice()
        && first.schedule.as_slice() == second.schedule.as_slice();
    Ok(again.status == told.status && is_same)
}
