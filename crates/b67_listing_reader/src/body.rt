//! A segment from the lines of its operators.

ghost use Rattle.std.specs.Prelude.{◌≡◌, ◌-◌, ◌<◌, ◌≤◌, ◌^◌, length, IfOk, IfErr};
ghost use Rattle.b67_listing_reader.specs.Reading.{IsWordCount, IsFirstOther, AreOperators, IsRelisted, ReadsBody, RefusesBody};

use crate::ReadListing;
use crate::operators::read_operators;
use b67_list::{Line, List};
use b67_listing::listing;
use b67_segment::{Builder, Code, Segment};
use std::alloc::{AllocError, Global};

/// The segment of so many words whose operators' lines stand at a place, and the place after them.
pub fn read_body(
    alloc: Global,
    lines: &[Line],
    at: usize,
    words: usize,
) -> Result<(Segment, usize), ReadListing>
    requires few { length lines.now < 2 ^ 32 - 1 }
    requires place { at ≤ length lines.now }
    requires count { IsWordCount words }
    ensures read { IfOk result (λ found. ReadsBody words lines.now at found.0 found.1) }
    ensures refused { IfErr result (λ e. RefusesBody e words lines.now at) }
{
    let mut builder = Builder::new(alloc);
    let next = read_operators(alloc, lines, at, 6 * words, &mut builder)?;
    if next == at {
        return Err(ReadListing::BadListing {
            line: at as u32 + 1,
        });
    }
    let whole = usize::from(builder.place()) == 6 * words;
    let (segment, same) = relisted(alloc, builder, &lines[at..next])?;
    if !whole || at + same < next {
        return Err(ReadListing::BadListing {
            line: (at + same) as u32 + 1,
        });
    }
    Ok((segment, next))
}

/// The segment of a builder's operators, and how many lines from the first on are those of its operators in its listing.
fn relisted(alloc: Global, builder: Builder, lines: &[Line]) -> Result<(Segment, usize), AllocError>
    requires { AreOperators builder.operators }
    ensures { IfOk result (λ found. IsRelisted builder.operators lines.now found.0 found.1) }
{
    let mut segments = Vec::new(alloc);
    segments.push(builder.finish()?)?;
    let mut code = Code {
        segments: List::of(segments),
        formats: List::of(Vec::new(alloc)),
    };
    let listed = listing(alloc, &code)?;
    let same = first_other(lines, &listed.items()[1..]);
    Ok((code.segments.items_mut().pop().unwrap(), same))
}

/// How many lines from the first on are the same in both.
fn first_other(lines: &[Line], others: &[Line]) -> usize
    ensures { IsFirstOther lines.now others.now result }
{
    let mut same = 0;
    'lines: while same < lines.len() && same < others.len() {
        if lines[same].bytes() != others[same].bytes() {
            return same;
        }
        same += 1;
    }
    same
}
