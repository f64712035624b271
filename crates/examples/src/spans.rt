//! One flat memory: that what is opened in it succeeds, and where it comes to stand.
//!
//! In `spans.sheet` the input of a case has a line for each call on a flat memory in which nothing is open: `row N` opens a row of N words,
//! `close N` closes row N, `stack N` opens stack N, and `end N` closes it. The answer has a line for each, with the number of the
//! row that was opened, or with what was refused. Then come the spans in ascending order, each with the number of its row, its place and its length, and
//! the number of all words of rows.

use b67_flat::{FlatCore, Span};
use b67_store::{Core, MOST_COUNTED_WORDS};
use case_sheet::{number, say};
use std::alloc::Global;

/// Opens a row of so many words, where a row may have as many.
fn open_row(core: &mut FlatCore, length: u32, text: &mut Vec<u8>) {
    if length < 1 || length > MOST_COUNTED_WORDS {
        say(text, b"NO LENGTH\n");
        return;
    }
    match core.open_row(length, true) {
        Ok(row) => number(text, b"ROW ", u64::from(row)),
        Err(_) => say(text, b"NO ROW"),
    }
    say(text, b"\n");
}

/// Appends whether a call succeeded.
fn push_done(text: &mut Vec<u8>, is_done: bool) {
    if is_done {
        say(text, b"DONE\n");
    } else {
        say(text, b"REFUSED\n");
    }
}

/// Makes the call of a line.
fn call(core: &mut FlatCore, line: &str, text: &mut Vec<u8>) {
    let Some((name, number)) = line.split_once(' ') else {
        say(text, b"NO CALL\n");
        return;
    };
    let number = number.parse::<u32>().unwrap_or(0);
    let stack = u16::try_from(number).unwrap_or(0);
    match name {
        "row" => open_row(core, number, text),
        "close" => push_done(text, core.close_row(number).is_ok()),
        "stack" => push_done(text, core.open_stack(stack).is_ok()),
        "end" => push_done(text, core.close_stack(stack).is_ok()),
        _ => say(text, b"NO CALL\n"),
    }
}

/// Appends a span.
fn push_span(text: &mut Vec<u8>, span: &Span) {
    number(text, b"SPAN OF ROW ", u64::from(span.row));
    number(text, b": ", span.place);
    number(text, b" ", u64::from(span.length));
    say(text, b"\n");
}

/// The answer to a case.
pub(crate) fn spans_text(alloc: Global, input: &str) -> Vec<u8> {
    let mut core = FlatCore::new(alloc);
    let mut text = Vec::new(alloc);
    for line in input.lines() {
        call(&mut core, line, &mut text);
    }
    for span in core.spans() {
        push_span(&mut text, span);
    }
    number(&mut text, b"WORDS ", core.words().len() as u64);
    say(&mut text, b"\n");
    text
}
