//! A text of the assembler for a code.
//!
//! For each segment it has `SEGMENT`, and a line for each operator, as a listing has it after the syllables; before an operator whose level is
//! another than that of the one before it, and before the first, a line with the level. Then come the formats, without their numbers.
#![tactic(auto)]

mod segment;

ghost use Rattle.std.specs.Prelude.{◌≡◌, ◌↔◌, ◌++◌, ℕ, List, IfOk, OnOk, map};
ghost use Rattle.b67_segment.specs.declared.code.Code.{Code};
ghost use Rattle.b67_listing.specs.Listings.{AreListable};
ghost use Rattle.b67_asm.specs.Assembling.{Assembles};
ghost use Rattle.b67_asm.specs.Writable.{IsWritable};
ghost use Rattle.b67_asm_writer.specs.Sources.{AddsSegments, IsSource, format_source, line_text, lines_text};

use crate::segment::push_segment;
use b67_list::List;
use b67_listing::push_phrases;
use b67_segment::{Code, Format, Segment};
use std::alloc::{AllocError, Global};

/// A text that is assembled to the code. The code can be listed and has a segment, and its formats have phrases, with widths above 0,
/// which fit a line: these are the codes that have a text.
pub fn source(alloc: Global, code: &Code) -> Result<Vec<u8>, AllocError>
    requires { IsWritable code.now }
    ensures written { IfOk result (λ text. IsSource code.now text.items) }
    ensures assembled { IfOk result (λ text. Assembles text.items code.now) }
{
    let mut text = Vec::new(alloc);
    push_segments(alloc, &code.segments, &mut text)?;
    push_formats(&code.formats, &mut text)?;
    Ok(text)
}

/// Appends the lines of segments.
fn push_segments(
    alloc: Global,
    segments: &List<Segment>,
    text: &mut Vec<u8>,
) -> Result<(), AllocError>
    requires { AreListable segments.now }
    ensures { OnOk result (AddsSegments segments.now text.old.items text.new.items) }
{
    'segments: for segment in segments.items() {
        push_segment(alloc, segment, text)?;
    }
    Ok(())
}

/// Appends the lines of formats.
fn push_formats(formats: &List<Format>, text: &mut Vec<u8>) -> Result<(), AllocError>
    ensures { OnOk result (text.new.items ≡ text.old.items ++ lines_text (map format_source formats.now)) }
{
    'formats: for format in formats.items() {
        push_format(format, text)?;
    }
    Ok(())
}

/// Appends the line of a format.
fn push_format(format: &Format, text: &mut Vec<u8>) -> Result<(), AllocError>
    ensures { OnOk result (text.new.items ≡ text.old.items ++ line_text (format_source format.now)) }
{
    text.extend_from_slice(b"FORMAT <")?;
    push_phrases(text, &format.phrases)?;
    text.extend_from_slice(b">\n")
}

/// A text that is written for a code is assembled to the code, also where the code is that of another text. The codes that can be written
/// are those that texts have.
pub fn sources_are_assembled()
    ensures sources { (code : Code) (text : List ℕ) → IsWritable code → IsSource code text → Assembles text code }
    ensures again { (bytes text : List ℕ) (code : Code) → Assembles bytes code → IsSource code text → Assembles text code }
    ensures exactly { (code : Code) → IsWritable code ↔ ((text : List ℕ) × Assembles text code) }
{}
