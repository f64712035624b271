//! The lines of a segment.

ghost use Rattle.std.specs.Prelude.{◌≡◌, ◌≤◌, ◌++◌, IfOk, OnOk};
ghost use Rattle.b67_ops.specs.declared.TheConstants.{MOST_LEVEL};
ghost use Rattle.b67_listing.specs.Listings.{HasOperator, HasOperators};
ghost use Rattle.b67_asm_writer.specs.Sources.{AddsOperator, AddsSegment, level_change, lines_text};

use b67_list::push_number;
use b67_listing::{pass_mark, push_operator, syllables};
use b67_ops::decode;
use b67_segment::Segment;
use std::alloc::{AllocError, Global};

/// Appends the lines of a segment.
pub(crate) fn push_segment(
    alloc: Global,
    segment: &Segment,
    text: &mut Vec<u8>,
) -> Result<(), AllocError>
    requires { HasOperators segment.now }
    ensures { OnOk result (AddsSegment segment.now text.old.items text.new.items) }
{
    text.extend_from_slice(b"SEGMENT\n")?;
    let bytes = syllables(alloc, segment.words.items().as_slice())?;
    let marks = segment.marks.items().as_slice();
    let mut at = 0;
    let mut level = 0;
    let mut passed = 0;
    'operators: while at < bytes.len() {
        let (here, left) = pass_mark(marks, passed, at, level);
        push_level(text, level, here)?;
        at = push_line(text, bytes.as_slice(), at, here)?;
        level = here;
        passed = left;
    }
    Ok(())
}

/// Appends the line of a level, where it is another than the one before.
fn push_level(text: &mut Vec<u8>, before: u8, level: u8) -> Result<(), AllocError>
    ensures { OnOk result (text.new.items ≡ text.old.items ++ lines_text (level_change before level)) }
{
    if level == before {
        return Ok(());
    }
    push_number(text, b"LEVEL ", level)?;
    text.extend_from_slice(b"\n")
}

/// Appends the line of the operator that stands at a place, and answers the place after it.
fn push_line(text: &mut Vec<u8>, bytes: &[u8], at: usize, level: u8) -> Result<usize, AllocError>
    requires level { level ≤ MOST_LEVEL }
    requires stands { HasOperator bytes.now at level }
    ensures { IfOk result (AddsOperator bytes.now at level text.old.items text.new.items) }
{
    let (operator, next) = decode(bytes, at, level).unwrap();
    push_operator(text, &operator)?;
    text.extend_from_slice(b"\n")?;
    Ok(next)
}
