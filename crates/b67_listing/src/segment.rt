//! The lines of segments.

ghost use Rattle.std.specs.Prelude.{◌≡◌, ℕ, ◌+◌, ◌<◌, ◌≤◌, ◌++◌, length, drop, IfOk, OnOk};
ghost use Rattle.b67_ops.specs.declared.TheConstants.{MOST_LEVEL};
ghost use Rattle.b67_segment.specs.Syllables.{syllables};
ghost use Rattle.b67_listing.specs.Listings.{segment_line, HasOperator, HasOperators, passed_mark, AddsOperator, AddsSegment};

use crate::operator::operator_line;
use b67_list::{Line, push_number};
use b67_ops::decode;
use b67_segment::{Mark, Segment};
use std::alloc::{AllocError, Global};

/// Appends the lines of a segment with its number.
pub fn push_segment(
    alloc: Global,
    number: usize,
    segment: &Segment,
    lines: &mut Vec<Line>,
) -> Result<(), AllocError>
    requires { HasOperators segment.now }
    ensures { OnOk result (AddsSegment number segment.now lines.old.items lines.new.items) }
{
    lines.push(segment_line(alloc, number, segment.words.items().len())?)?;
    let bytes = syllables(alloc, segment.words.items().as_slice())?;
    let marks = segment.marks.items().as_slice();
    let mut at = 0;
    let mut level = 0;
    let mut passed = 0;
    'operators: while at < bytes.len() {
        (level, passed) = pass_mark(marks, passed, at, level);
        at = push_operator(alloc, bytes.as_slice(), at, level, lines)?;
    }
    Ok(())
}

/// Appends the line of the operator that stands at a place, and answers the place after it.
fn push_operator(
    alloc: Global,
    bytes: &[u8],
    at: usize,
    level: u8,
    lines: &mut Vec<Line>,
) -> Result<usize, AllocError>
    requires level { level ≤ MOST_LEVEL }
    requires stands { HasOperator bytes.now at level }
    ensures { IfOk result (AddsOperator bytes.now at level lines.old.items lines.new.items) }
{
    let (operator, next) = decode(bytes, at, level).unwrap();
    lines.push(operator_line(alloc, at, level, &operator, &bytes[at..next])?)?;
    Ok(next)
}

/// The level at a place and how many marks have been passed there, where so many were passed before it and `level` is
/// the level before it.
pub fn pass_mark(marks: &[Mark], passed: usize, at: usize, level: u8) -> (u8, usize)
    requires { passed ≤ length marks.now }
    ensures { result ≡ passed_mark (drop passed marks.now) passed at level }
{
    match marks.get(passed) {
        Some(mark) if usize::from(mark.place) == at => (mark.level, passed + 1),
        _ => (level, passed),
    }
}

/// The head line of a segment.
fn segment_line(alloc: Global, number: usize, words: usize) -> Result<Line, AllocError>
    ensures { IfOk result (λ line. line ≡ segment_line number words) }
{
    let mut text = Vec::new(alloc);
    push_number(&mut text, b"SEGMENT ", number)?;
    push_number(&mut text, b" ", words)?;
    Ok(Line::of(text))
}

/// The syllables of words, six a word, the first one highest.
pub fn syllables(alloc: Global, words: &[u64]) -> Result<Vec<u8>, AllocError>
    ensures { IfOk result (λ bytes. bytes.items ≡ syllables words.now) }
{
    let mut bytes = Vec::new(alloc);
    'words: for word in words {
        bytes.extend_from_slice(&word.to_be_bytes()[2..])?;
    }
    Ok(bytes)
}
