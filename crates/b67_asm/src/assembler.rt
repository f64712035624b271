//! A code from the lines of a text.

ghost use Rattle.std.specs.Prelude.{◌≡◌, ◌+◌, ◌-◌, ◌^◌, ◌<◌, ◌≤◌, length, drop, IfOk, IfErr};
ghost use Rattle.std.specs.List.{All};
ghost use Rattle.b67_segment.specs.declared.TheConstants.{MOST_SEGMENT_WORDS};
ghost use Rattle.b67_asm.specs.Assembling.{Assembles, IsFirst, AssemblerRefuses};
ghost use Rattle.b67_asm.specs.Rules.{first_before, first_broken, first_in, first_line, has_segment, nowhere};
ghost use Rattle.b67_asm.specs.Writable.{IsWritable};
ghost use Rattle.b67_asm.specs.Steps.{AtSegment, HasAll, HasPassed, HasRest, HaveBlockLevels};

use crate::label::is_segment;
use crate::refusal::{NotAssembled, Refusal, Rule, refused};
use crate::rule::broken_before;
use crate::segment::read_segment;
use b67_asm_text::{Reading, read_text};
use b67_list::List;
use b67_segment::{Code, Segment};
use std::alloc::Global;

/// Tests that a line is SEGMENT.
fn has_segment(lines: &[Reading]) -> bool
    ensures { result ≡ has_segment lines.now }
{
    'lines: for reading in lines {
        if is_segment(reading) {
            return true;
        }
    }
    false
}

/// The refusal of lines of which none is SEGMENT.
fn first_line(lines: &[Reading]) -> Refusal
    ensures { result ≡ first_line lines.now }
{
    let rule = match lines {
        [first, ..] => broken_before(first).unwrap_or(Rule::NoSegment),
        [] => Rule::NoSegment,
    };
    Refusal { line: 1, rule }
}

/// The place of the first SEGMENT, where no line before it breaks a rule.
fn pass_head(lines: &[Reading]) -> Result<usize, NotAssembled>
    requires { length lines.now < 2 ^ 32 }
    ensures passed { IfOk result (HasPassed lines.now) }
    ensures refused { IfErr result (λ e. IsFirst e (first_before 1 lines.now)) }
{
    let mut at = 0;
    'lines: while at < lines.len() {
        let reading = &lines[at];
        if is_segment(reading) {
            return Ok(at);
        }
        match broken_before(reading) {
            Some(rule) => return Err(refused(at as u32 + 1, rule)),
            None => at += 1,
        }
    }
    Ok(at)
}

/// The segments of the lines from here on, where one begins or no line is left.
fn read_segments(
    alloc: Global,
    lines: &[Reading],
    from: usize,
) -> Result<Vec<Segment>, NotAssembled>
    requires few { length lines.now < 2 ^ 32 }
    requires from { from ≤ length lines.now }
    requires levels { HaveBlockLevels lines.now }
    requires begins { AtSegment (drop from lines.now) }
    ensures read { IfOk result (λ segments. HasRest lines.now from segments.items) }
    ensures refused { IfErr result (λ e. IsFirst e (first_in nowhere (from + 1) (drop from lines.now))) }
{
    let mut segments = Vec::new(alloc);
    let mut at = from;
    'segments: while at < lines.len() {
        let (segment, next) = read_segment(alloc, lines, at + 1)?;
        segments.push(segment)?;
        at = next;
    }
    Ok(segments)
}

/// The segments of the lines of a text.
fn read_lines(alloc: Global, lines: &[Reading]) -> Result<Vec<Segment>, NotAssembled>
    requires few { length lines.now < 2 ^ 32 }
    requires levels { HaveBlockLevels lines.now }
    ensures read { IfOk result (λ segments. HasAll lines.now segments.items) }
    ensures refused { IfErr result (λ e. IsFirst e (first_broken lines.now)) }
{
    if !has_segment(lines) {
        return Err(NotAssembled::Refused(first_line(lines)));
    }
    let from = pass_head(lines)?;
    read_segments(alloc, lines, from)
}

/// The code of a text, which can be listed and run. Where a line breaks a rule, the refusal has the first such line, and the lowest rule
/// that it breaks.
pub fn assemble(alloc: Global, bytes: &[u8]) -> Result<Code, NotAssembled>
    requires { length bytes.now < 2 ^ 32 - 1 }
    ensures assembled { IfOk result (Assembles bytes.now) }
    ensures writable { IfOk result IsWritable }
    ensures short { IfOk result (λ code. All (λ segment. length segment.words ≤ MOST_SEGMENT_WORDS) code.segments) }
    ensures refused { IfErr result (λ e. AssemblerRefuses e bytes.now) }
{
    let text = read_text(alloc, bytes)?;
    let segments = read_lines(alloc, text.lines.as_slice())?;
    Ok(Code {
        segments: List::of(segments),
        formats: List::of(text.formats),
    })
}
