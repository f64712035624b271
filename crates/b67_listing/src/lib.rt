//! Listings of code: the lines that show each segment operator by operator, and each format.
//!
//! For each segment, by number from 0, comes the line `SEGMENT s w` with its number of words, and then a line for each
//! operator: its place in 5 digits, its level in 2, its syllables in hexadecimal, its name, and its operand if it has
//! one. Then comes a line `FORMAT f <phrases>` for each format, by number from 0. Between the parts of a line stands one
//! blank. These forms are this project's profile.
#![tactic(auto)]

mod format;
mod operator;
mod segment;
mod text;

ghost use Rattle.std.specs.Prelude.{◌≡◌, ◌++◌, IfOk, OnOk};
ghost use Rattle.b67_listing.specs.Formats.{format_lines};
ghost use Rattle.b67_listing.specs.Listings.{IsListable, AreListable, AddsSegments, ListingText};

use crate::format::format_line;
use crate::segment::push_segment;
use b67_list::{Line, List};
use b67_segment::{Code, Format, Segment};
pub use format::push_phrases;
pub use operator::push_operator;
pub use segment::{pass_mark, syllables};
use std::alloc::{AllocError, Global};

/// The listing of the code. The code's operators fill its segments, each stands at its mark's level, from `OUTER_LEVEL` to `MOST_LEVEL`, and
/// the texts of its formats have bytes 32 to 126 other than `"`.
pub fn listing(alloc: Global, code: &Code) -> Result<List<Line>, AllocError>
    requires { IsListable code.now }
    ensures { IfOk result (λ lines. ListingText code.now lines) }
{
    let mut lines = Vec::new(alloc);
    push_segments(alloc, &code.segments, &mut lines)?;
    push_formats(alloc, &code.formats, &mut lines)?;
    Ok(List::of(lines))
}

/// Appends the lines of segments.
fn push_segments(
    alloc: Global,
    segments: &List<Segment>,
    lines: &mut Vec<Line>,
) -> Result<(), AllocError>
    requires { AreListable segments.now }
    ensures { OnOk result (AddsSegments 0 segments.now lines.old.items lines.new.items) }
{
    'segments: for (number, segment) in segments.items().iter().enumerate() {
        push_segment(alloc, number, segment, lines)?;
    }
    Ok(())
}

/// Appends the lines of formats.
fn push_formats(
    alloc: Global,
    formats: &List<Format>,
    lines: &mut Vec<Line>,
) -> Result<(), AllocError>
    ensures { OnOk result (lines.new.items ≡ lines.old.items ++ format_lines formats.now) }
{
    'formats: for (number, format) in formats.items().iter().enumerate() {
        lines.push(format_line(alloc, number, format)?)?;
    }
    Ok(())
}
