//! Which rule a line breaks.

ghost use Rattle.std.specs.Prelude.{◌≡◌, ◌≤◌};
ghost use Rattle.b67_ops.specs.Spelling.{index_bits};
ghost use Rattle.b67_asm.specs.Labels.{found_in};
ghost use Rattle.b67_asm.specs.Rules.{branch_to, broken_before, fits, if_fits, is_seen, label_broken, resolved};

use crate::label::{Labels, Standing, found_in};
use crate::refusal::Rule;
use b67_asm_text::{Reading, Written};
use b67_ops::{BranchKind, Couple, Operator};

/// How many of the 14 bits of a couple are left for its index at a level.
#[tactic(auto, unfolding(b67_ops::specs::Spelling::level_bits))]
fn index_bits(level: u8) -> u32
    ensures value { result ≡ index_bits level }
    ensures most { result ≤ 13 }
{
    match level {
        0..=1 => 13,
        2..=3 => 12,
        4..=7 => 11,
        8..=15 => 10,
        _ => 9,
    }
}

/// Tests that a couple can stand in a block of this level.
fn is_seen(level: u8, couple: Couple) -> bool
    ensures { result ≡ is_seen level couple }
{
    couple.level <= level && u32::from(couple.index) < 1 << index_bits(level)
}

/// Tests that an operator can stand in a block of this level.
fn fits(level: u8, operator: Operator) -> bool
    ensures { result ≡ fits level operator }
{
    match operator {
        Operator::Valc(couple) | Operator::Namc(couple) => is_seen(level, couple),
        Operator::Lt8(_) | Operator::Lt16(_) | Operator::Branch(_, _) | Operator::Plain(_) => true,
        Operator::Lt48(word) | Operator::Mpcw(word) => word < 1 << 48,
    }
}

/// The operator, where it can stand at this level.
fn if_fits(level: u8, operator: Operator) -> Result<Operator, Rule>
    ensures { result ≡ if_fits level operator }
{
    if fits(level, operator) {
        Ok(operator)
    } else {
        Err(Rule::Range)
    }
}

/// A branch to a label.
fn branch_to(level: u8, kind: BranchKind, label: Option<Standing>) -> Result<Operator, Rule>
    ensures { result ≡ branch_to level kind label }
{
    let Some(label) = label else {
        return Err(Rule::UnknownLabel);
    };
    if label.place > usize::from(u16::MAX) {
        return Err(Rule::Range);
    }
    if_fits(level, Operator::Branch(kind, label.place as u16))
}

/// The operator that is written, where it can stand at this level.
pub(crate) fn resolved(labels: &Labels<'_>, level: u8, written: &Written) -> Result<Operator, Rule>
    ensures { result ≡ resolved (found_in labels.now) level written.now }
{
    match written {
        Written::Whole(operator) => if_fits(level, *operator),
        Written::ToLabel(kind, name) => branch_to(level, *kind, found_in(labels, name.bytes())),
        Written::TooGreat(_) => Err(Rule::Range),
    }
}

/// The rule that a label breaks on this line.
pub(crate) fn label_broken(line: u32, label: Option<Standing>) -> Option<Rule>
    ensures { result ≡ label_broken line label }
{
    match label {
        Some(label) if label.line != line => Some(Rule::DoubleLabel),
        _ => None,
    }
}

/// The rule that a line breaks before the first SEGMENT.
pub(crate) fn broken_before(reading: &Reading) -> Option<Rule>
    ensures { result ≡ broken_before reading.now }
{
    match reading {
        Reading::Blank | Reading::Segment => None,
        Reading::NoItem => Some(Rule::BadLine),
        Reading::Level(_) | Reading::Label(_) => Some(Rule::NoSegment),
        Reading::Operator(Written::TooGreat(_)) => Some(Rule::Range),
        Reading::Operator(_) => Some(Rule::NoSegment),
        Reading::Format { fits } => { if *fits { None } else { Some(Rule::Range) } }
    }
}
