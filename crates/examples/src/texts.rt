//! Listings and reports that are read back.

ghost use Rattle.b67_listing.specs.Listings.{IsListable};

use crate::told::bits;
use b67_list::{Line, discard};
use b67_listing::listing;
use b67_listing_reader::{ReadListing, read_listing};
use b67_report::{ReadReport, read_report, text};
use b67_segment::Code;
use case_sheet::{number, say};
use std::alloc::{AllocError, Global};

/// The lines of a text.
fn lines_in(alloc: Global, input: &[u8]) -> Result<Vec<Line>, AllocError> {
    let input = str::from_utf8(input).unwrap_or("");
    let mut lines = Vec::new(alloc);
    for line in input.lines() {
        lines.push(Line::of(Vec::from_slice(alloc, line.as_bytes())?))?;
    }
    Ok(lines)
}

/// Appends a line with the words of a segment, for each segment.
fn push_words(told: &mut Vec<u8>, code: &Code) {
    for segment in code.segments.items() {
        say(told, b"WORDS");
        for word in segment.words.items() {
            bits(told, *word);
        }
        say(told, b"\n");
    }
}

/// Appends the lines of the listing of a code.
fn push_listing(told: &mut Vec<u8>, alloc: Global, code: &Code) -> Result<(), AllocError>
    requires { IsListable code.now }
{
    let lines = listing(alloc, code)?;
    for line in lines.items() {
        say(told, line.bytes());
        say(told, b"\n");
    }
    Ok(())
}

/// A line with the words of each segment, and then the listing of a copy of the code.
fn words_and_listing(alloc: Global, code: &Code) -> Result<Vec<u8>, AllocError>
    requires { IsListable code.now }
{
    let mut told = Vec::new(alloc);
    push_words(&mut told, code);
    let copy = code.copy()?;
    let pushed = push_listing(&mut told, alloc, &copy);
    discard(copy);
    pushed.and(Ok(told))
}

/// Words, a number and LF.
fn refused(alloc: Global, words: &[u8], value: u64) -> Vec<u8> {
    let mut told = Vec::new(alloc);
    number(&mut told, words, value);
    say(&mut told, b"\n");
    told
}

/// What the lines of a listing are read as.
pub(crate) fn listing_text(alloc: Global, input: &[u8]) -> Result<Vec<u8>, AllocError> {
    let lines = lines_in(alloc, input)?;
    if lines.len() > 100_000 {
        return Ok(Vec::new(alloc));
    }
    match read_listing(alloc, lines.as_slice()) {
        Ok(code) => words_and_listing(alloc, &code),
        Err(ReadListing::BadListing { line }) => Ok(refused(
            alloc,
            b"BAD LISTING ",
            u64::from(line),
        )),
        Err(ReadListing::NoMemory) => Err(AllocError),
    }
}

/// What the text of a report is read as: its text, once more.
pub(crate) fn report_text(alloc: Global, input: &[u8]) -> Result<Vec<u8>, AllocError> {
    match read_report(alloc, input) {
        Ok(report) => text(alloc, &report),
        Err(ReadReport::BadReport { byte }) => Ok(refused(alloc, b"BAD REPORT ", byte as u64)),
        Err(ReadReport::NoMemory) => Err(AllocError),
    }
}
