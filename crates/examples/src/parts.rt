//! The answers that no one command shows. Those of the front end and of the meaning are told of in `language_cases`, those of
//! `rules.sheet` and `spans.sheet` in `rules` and `spans`.
//!
//! In `segments.sheet` the input of a case is a text of the assembler. The answer has, for each segment, the line `SEGMENT n` with its
//! number of words, the words, and `MARK place level` for each mark; then, for each format, the line `FORMAT n` with its number of
//! phrases, and a line for each of these. Where a case has the word `source`, it is the text that is written for the code instead.
//!
//! In `read-listings.sheet` the input is a listing; the answer has a line with the words of each segment and then the listing of
//! the code once more, or says the first line that is bad. In `read-reports.sheet` the input is a report; the answer is the text of
//! what is read, or says the first byte that is bad.
//!
//! In `tables.sheet` a case is answered by the top call once for each number, as `tables` says.

use crate::answer::Told;
use crate::codes::code_text;
use crate::rules::rules_text;
use crate::spans::spans_text;
use crate::tables::table_text;
use crate::texts::{listing_text, report_text};
use algol_tree::MOST_SOURCE_BYTES;
use b67_asm::assemble;
use b67_list::discard;
use case_sheet::Case;
use language_cases::language_text;
use std::alloc::{AllocError, Global};

/// The code of a text, or the text that is written for it; nothing where the text is not assembled.
fn assembled(alloc: Global, case: &Case) -> Result<Vec<u8>, AllocError> {
    let input = case.input.as_slice();
    if input.len() > MOST_SOURCE_BYTES {
        return Ok(Vec::new(alloc));
    }
    let Ok(code) = assemble(alloc, input) else {
        return Ok(Vec::new(alloc));
    };
    let text = code_text(alloc, &code, case.words.as_slice());
    discard(code);
    text
}

/// The answer to a case of a sheet.
fn part_text(alloc: Global, sheet: &str, case: &Case) -> Result<Vec<u8>, AllocError> {
    match sheet {
        "segments" => assembled(alloc, case),
        "read-listings" => listing_text(alloc, case.input.as_slice()),
        "read-reports" => report_text(alloc, case.input.as_slice()),
        "tables" => table_text(alloc, case),
        "rules" => rules_text(alloc, case),
        "spans" => Ok(spans_text(alloc, str::from_utf8(case.input.as_slice()).unwrap_or(""))),
        _ => language_text(alloc, sheet, case),
    }
}

/// What comes of a case of a sheet.
pub(crate) fn part_told(alloc: Global, sheet: &str, case: &Case) -> Result<Told, AllocError> {
    Ok(Told {
        status: 0,
        bytes: part_text(alloc, sheet, case)?,
    })
}
