//! The answers of the front end and of the meaning to cases of sheets.
//!
//! In `tokens.sheet` the input is a text; the answer has a line for each token: its line and column, its first byte and the
//! first after it, and what it is.
//!
//! In `cells.sheet` the input is a source; the answer has a line for each token at whose place a name stands, with the place and
//! the level of the declaration that it means and the couple of its cell, or an actual or a result that has a cell, with that
//! couple. The last line has the levels of the blocks.
//!
//! In `runs.sheet` and `waits.sheet` the input is a source, and the words of a case are its entries: `p*n` are n of process p, one after the other.
//! The answer has these lines: the letters of the entries, with `-` for one that is not able and `.` for one after the end;
//! `OUTPUT n` and the n lines that are written; `END` and how the run ends, or `GOES ON`; and `LEGAL n`, how many entries are
//! followed by the whole schedule.
#![tactic(auto)]

mod cells;
mod runs;
mod tokens;
mod turns;

use crate::cells::push_names;
use crate::runs::run_text;
use crate::tokens::{tokens_of, tokens_text};
use crate::turns::entries_of;
use algol_front::{Checked, front};
use algol_scope::Scopes;
use algol_tree::{MOST_SOURCE_BYTES, Refusal};
use b67_list::discard;
use case_sheet::Case;
use std::alloc::{AllocError, Global};

/// A source that is accepted, or what is answered of another.
#[derive(Drop)]
pub enum Front {
    Accepted(Box<Checked>),
    Told(&'static [u8]),
}

/// What the front end says of a source.
pub fn front_of(alloc: Global, source: &[u8]) -> Result<Front, AllocError> {
    if source.len() > MOST_SOURCE_BYTES {
        return Ok(Front::Told(b"TOO LONG\n"));
    }
    match front(alloc, source) {
        Ok(checked) => Ok(Front::Accepted(Box::new(alloc, checked)?)),
        Err(Refusal::At { .. }) => Ok(Front::Told(b"REFUSED\n")),
        Err(Refusal::NoMemory) => Err(AllocError),
    }
}

/// What the names of a source mean.
fn names_text(alloc: Global, scopes: &Scopes, source: &[u8]) -> Result<Vec<u8>, AllocError> {
    let mut text = Vec::new(alloc);
    if let Some(tokens) = tokens_of(alloc, source)? {
        push_names(&mut text, scopes, tokens.as_slice());
    }
    Ok(text)
}

/// The answer of an accepted source to a case.
fn accepted_text(
    alloc: Global,
    sheet: &str,
    case: &Case,
    checked: &Checked,
) -> Result<Vec<u8>, AllocError> {
    if sheet == "cells" {
        names_text(alloc, &checked.scopes, case.input.as_slice())
    } else {
        let entries = entries_of(alloc, case.words.as_slice())?;
        run_text(alloc, checked, entries.as_slice())
    }
}

/// The answer to a case of a sheet of these.
pub fn language_text(alloc: Global, sheet: &str, case: &Case) -> Result<Vec<u8>, AllocError> {
    let source = case.input.as_slice();
    if sheet == "tokens" {
        return tokens_text(alloc, source);
    }
    match front_of(alloc, source)? {
        Front::Accepted(checked) => {
            let text = accepted_text(alloc, sheet, case, &checked);
            discard(checked);
            text
        }
        Front::Told(told) => Ok(Vec::from_slice(alloc, told)?),
    }
}
