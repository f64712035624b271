//! Codes read back from the lines of their listings.
//!
//! A line of an operator is read by its level and its syllables, which tell the operator at its place; that the rest of
//! the line is its own is seen by listing the segment that was read again, with the code that lists any other. What
//! the lines of a listing are stands with `b67_listing`; that they are read back, and where others are refused, is this
//! project's profile.
#![tactic(auto)]

mod body;
mod head;
mod operators;
mod phrases;
mod refusal;

ghost use Rattle.std.specs.Prelude.{◌≡◌, ℕ, ◌-◌, ◌<◌, ◌≤◌, ◌^◌, List, length, IfOk, IfErr, MatchResult};
ghost use Rattle.b67_segment.specs.declared.code.Code.{Code};
ghost use Rattle.b67_listing.specs.Listings.{IsListable, ListingText};
ghost use Rattle.b67_listing_reader.specs.Codes.{ListingRefuses};
ghost use Rattle.b67_listing_reader.specs.Reading.{ReadsSegments, ReadsFormats, RefusesFormats};

use crate::body::read_body;
use crate::head::read_head;
use crate::phrases::read_format;
use b67_list::{Line, List};
use b67_segment::{Code, Format, Segment};
pub use refusal::ReadListing;
use std::alloc::Global;

/// The code whose listing the lines are. Where they are the listing of none, the refusal has the first line through
/// which no listing has them.
pub fn read_listing(alloc: Global, lines: &[Line]) -> Result<Code, ReadListing>
    requires { length lines.now < 2 ^ 32 - 1 }
    ensures read { IfOk result (λ code. IsListable code × ListingText code lines.now) }
    ensures again { (code : Code) → IsListable code → ListingText code lines.now →
        MatchResult result (λ found. found ≡ code) (λ e. e ≡ ReadListing.NoMemory) }
    ensures refused { IfErr result (λ e. ListingRefuses e lines.now) }
{
    let (segments, at) = read_segments(alloc, lines)?;
    let formats = read_formats(alloc, lines, at)?;
    Ok(Code {
        segments: List::of(segments),
        formats: List::of(formats),
    })
}

/// The segments whose lines stand first, and the place after them, where no further segment begins.
fn read_segments(alloc: Global, lines: &[Line]) -> Result<(Vec<Segment>, usize), ReadListing>
    requires { length lines.now < 2 ^ 32 - 1 }
    ensures read { IfOk result (λ found. ReadsSegments lines.now found.0.items found.1) }
    ensures refused { IfErr result (λ e. ListingRefuses e lines.now) }
{
    let mut segments = Vec::new(alloc);
    let mut at = 0;
    'segments: while at < lines.len() {
        let Some(words) = read_head(alloc, segments.len(), lines[at].bytes())? else {
            return Ok((segments, at));
        };
        let (segment, next) = read_body(alloc, lines, at + 1, words)?;
        segments.push(segment)?;
        at = next;
    }
    Ok((segments, at))
}

/// The formats whose lines stand from a place on to the last line.
fn read_formats(alloc: Global, lines: &[Line], at: usize) -> Result<Vec<Format>, ReadListing>
    requires few { length lines.now < 2 ^ 32 - 1 }
    requires place { at ≤ length lines.now }
    ensures read { IfOk result (λ formats. ReadsFormats lines.now at formats.items) }
    ensures refused { IfErr result (λ e. RefusesFormats e lines.now at) }
{
    let mut formats = Vec::new(alloc);
    let mut next = at;
    'formats: while next < lines.len() {
        match read_format(alloc, formats.len(), lines[next].bytes())? {
            Some(format) => formats.push(format)?,
            None => {
                return Err(ReadListing::BadListing {
                    line: next as u32 + 1,
                });
            }
        }
        next += 1;
    }
    Ok(formats)
}

/// A listing is that of one code.
pub fn listings_have_own_codes()
    ensures { (code other : Code) (lines : List (List ℕ)) → IsListable code → IsListable other →
        ListingText code lines → ListingText other lines → code ≡ other }
{}
