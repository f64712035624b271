//! A segment from its lines.

ghost use Rattle.std.specs.Prelude.{◌≡◌, ◌+◌, ◌^◌, ◌<◌, ◌≤◌, [], ◌∷◌, drop, length, Some, false, IfOk, IfErr};
ghost use Rattle.b67_ops.specs.declared.TheConstants.{OUTER_LEVEL};
ghost use Rattle.b67_segment.specs.declared.TheConstants.{MOST_SEGMENT_SYLLABLES};
ghost use Rattle.b67_segment.specs.Operators.{size};
ghost use Rattle.b67_asm_text.specs.declared.item.Reading.TheVariants as readings;
ghost use Rattle.b67_asm.specs.Labels.{found_in};
ghost use Rattle.b67_asm.specs.Rules.{first_in, is_empty, is_meant, is_segment, nowhere};
ghost use Rattle.b67_asm.specs.Assembling.{IsFirst};
ghost use Rattle.b67_asm.specs.Steps.{HasBlockLevel, HasRead, HasTaken, HasTakenLines, HaveBlockLevels, IsBlockLevel, RefusesLine, inside_of};

use crate::label::{Labels, found_in, is_segment, labels_of, place_after};
use crate::refusal::{NotAssembled, Rule, refused};
use crate::rule::{label_broken, resolved};
use b67_asm_text::{Reading, Written};
use b67_ops::OUTER_LEVEL;
use b67_segment::{Builder, MOST_SEGMENT_SYLLABLES, Segment};
use std::alloc::Global;

/// Takes an operator, and answers the level after it.
fn take_operator(
    labels: &Labels<'_>,
    builder: &mut Builder,
    level: u8,
    line: u32,
    written: &Written,
) -> Result<u8, NotAssembled>
    requires level { builder.old.level ≡ Some level }
    requires block { IsBlockLevel level }
    requires room { size builder.old.operators ≤ MOST_SEGMENT_SYLLABLES }
    ensures taken { IfOk result (HasTaken (found_in labels.now) level builder.old builder.new line (readings.Operator written.now)) }
    ensures refused { IfErr result (λ e. RefusesLine e (found_in labels.now) level builder.old.operators line (readings.Operator written.now)) }
{
    let operator = match resolved(labels, level, written) {
        Ok(operator) => operator,
        Err(rule) => return Err(refused(line, rule)),
    };
    let end = place_after(usize::from(builder.place()), written);
    if end > MOST_SEGMENT_SYLLABLES {
        return Err(refused(line, Rule::SegmentTooLong));
    }
    builder.append(&operator)?;
    Ok(level)
}

/// Takes a line, and answers the level after it.
fn take_line(
    labels: &Labels<'_>,
    builder: &mut Builder,
    level: u8,
    line: u32,
    reading: &Reading,
) -> Result<u8, NotAssembled>
    requires level { builder.old.level ≡ Some level }
    requires block { IsBlockLevel level }
    requires room { size builder.old.operators ≤ MOST_SEGMENT_SYLLABLES }
    requires inside { is_segment reading.now ≡ false }
    requires known { HasBlockLevel reading.now }
    ensures taken { IfOk result (HasTaken (found_in labels.now) level builder.old builder.new line reading.now) }
    ensures refused { IfErr result (λ e. RefusesLine e (found_in labels.now) level builder.old.operators line reading.now) }
{
    match reading {
        Reading::NoItem => Err(refused(line, Rule::BadLine)),
        Reading::Level(next) => {
            builder.level(*next)?;
            Ok(*next)
        }
        Reading::Label(name) => match label_broken(line, found_in(labels, name.bytes())) {
            Some(rule) => Err(refused(line, rule)),
            None => Ok(level),
        },
        Reading::Operator(written) => take_operator(labels, builder, level, line, written),
        Reading::Format { fits } => {
            if *fits {
                Ok(level)
            } else {
                Err(refused(line, Rule::Range))
            }
        }
        _ => Ok(level),
    }
}

/// Tests that a line is an operator, or no item.
fn is_meant(reading: &Reading) -> bool
    ensures { result ≡ is_meant reading.now }
{
    matches!(reading, Reading::Operator(_) | Reading::NoItem)
}

/// Tests that no operator stands from here to the next SEGMENT, and no line that is no item.
fn is_empty(lines: &[Reading]) -> bool
    ensures { result ≡ is_empty lines.now }
{
    'lines: for reading in lines {
        if is_segment(reading) {
            return true;
        }
        if is_meant(reading) {
            return false;
        }
    }
    true
}

/// Takes the lines from here to the next SEGMENT, and answers its place.
fn take_lines(
    labels: &Labels<'_>,
    builder: &mut Builder,
    lines: &[Reading],
    from: usize,
) -> Result<usize, NotAssembled>
    requires few { length lines.now < 2 ^ 32 }
    requires from { from ≤ length lines.now }
    requires levels { HaveBlockLevels lines.now }
    requires level { builder.old.level ≡ Some OUTER_LEVEL }
    requires none { builder.old.operators ≡ [] }
    ensures taken { IfOk result (HasTakenLines (found_in labels.now) lines.now from builder.new) }
    ensures refused { IfErr result (λ e. IsFirst e (first_in (inside_of (found_in labels.now) OUTER_LEVEL []) (from + 1) (drop from lines.now))) }
{
    let mut level = OUTER_LEVEL;
    let mut next = from;
    'lines: while next < lines.len() {
        let reading = &lines[next];
        if is_segment(reading) {
            return Ok(next);
        }
        level = take_line(labels, builder, level, next as u32 + 1, reading)?;
        next += 1;
    }
    Ok(next)
}

/// The segment whose lines stand from here on, after its SEGMENT, and the place of the next SEGMENT.
pub(crate) fn read_segment(
    alloc: Global,
    lines: &[Reading],
    from: usize,
) -> Result<(Segment, usize), NotAssembled>
    requires few { length lines.now < 2 ^ 32 }
    requires from { from ≤ length lines.now }
    requires levels { HaveBlockLevels lines.now }
    ensures read { IfOk result (λ found. HasRead lines.now from found.0 found.1) }
    ensures refused { IfErr result (λ e. IsFirst e (first_in nowhere from (readings.Segment ∷ drop from lines.now))) }
{
    if is_empty(&lines[from..]) {
        return Err(refused(from as u32, Rule::EmptySegment));
    }
    let labels = labels_of(alloc, lines, from)?;
    let mut builder = Builder::new(alloc);
    builder.level(OUTER_LEVEL)?;
    let next = take_lines(&labels, &mut builder, lines, from)?;
    let segment = builder.finish()?;
    Ok((segment, next))
}
