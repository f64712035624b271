//! What a case is answered by at each number: that of the read or of the write that fails, of the bytes for which there is room, or of
//! those that there are of the input.
//!
//! In `tables.sheet` the setting of a case says which of these the number is, `read`, `write`, `room` or `cut`, and how many bytes a read gives
//! at most. The answer has a line for each number from 0 on, up to the last before that at which the whole answer is given: the status, and
//! `FRONT n` where what was written are the first n bytes of the whole answer, or else what was written. Then come the status of the
//! whole answer with `WHOLE`, and its bytes.

use crate::answer::{Told, answered};
use crate::outside::Outside;
use case_sheet::{Case, number, say};
use std::alloc::{AllocError, Global};

/// The most numbers of a table.
const MOST_NUMBERS: u32 = 100_000;

/// What a setting says that the number is, and how many bytes a read gives at most.
fn said(setting: &str) -> (&str, usize) {
    let (what, piece) = setting.split_once(' ').unwrap_or((setting, ""));
    (what, piece.parse().unwrap_or(1))
}

/// The answer to a case at a number.
fn answer_at(alloc: Global, case: &Case, at: u32) -> Result<Told, AllocError> {
    let (what, piece) = said(case.setting.as_str());
    let mut outside = Outside::at(alloc, what, at)?;
    outside.piece = piece;
    let input = Vec::from_slice(alloc, case.input.as_slice())?;
    answered(alloc, case.words.as_slice(), input, outside)
}

/// Appends the line of an answer that is not the whole one.
fn push_answer(text: &mut Vec<u8>, told: &Told, whole: &Told) {
    number(text, b"", u64::from(told.status));
    if whole.bytes.starts_with(told.bytes.as_slice()) {
        number(text, b" FRONT ", told.bytes.len() as u64);
        say(text, b"\n");
    } else {
        say(text, b" ");
        say(text, told.bytes.as_slice());
    }
}

/// Appends the whole answer.
fn push_whole(text: &mut Vec<u8>, whole: &Told) {
    number(text, b"", u64::from(whole.status));
    say(text, b" WHOLE\n");
    say(text, whole.bytes.as_slice());
}

/// The table of a case.
pub(crate) fn table_text(alloc: Global, case: &Case) -> Result<Vec<u8>, AllocError> {
    let input = Vec::from_slice(alloc, case.input.as_slice())?;
    let whole = answered(alloc, case.words.as_slice(), input, Outside::whole(alloc))?;
    let mut text = Vec::new(alloc);
    for at in 0..MOST_NUMBERS {
        let told = answer_at(alloc, case, at)?;
        if told.status == whole.status && told.bytes.as_slice() == whole.bytes.as_slice() {
            break;
        }
        push_answer(&mut text, &told, &whole);
    }
    push_whole(&mut text, &whole);
    Ok(text)
}
