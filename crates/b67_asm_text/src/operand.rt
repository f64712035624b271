//! Operands as they are written.

ghost use Rattle.std.specs.Prelude.{◌≡◌, ◌≤◌, ◌^◌, ◌<◌, length, not, IfOk};
ghost use Rattle.std.specs.List.{prefix_len};
ghost use Rattle.b67_ops.specs.declared.table.OperatorKind.TheVariants as kinds;
ghost use Rattle.b67_asm_text.specs.Operands.{IsBelow, couple_in, couple_of_operand, number_below, operator_in, past_comma, comma_place, to_label, written_in};

use crate::item::Written;
use crate::name::is_name;
use crate::number::{number_in, word_in};
use b67_list::Line;
use b67_ops::{BranchKind, Couple, MOST_LEVEL, Operator, OperatorKind};
use std::alloc::{AllocError, Global};

/// The most bits of a couple's index.
pub const MOST_INDEX_BITS: u32 = 13;

/// An operator with its operand; where that is none, there is no answer.
#[tactic(auto, unfolding(crate::specs::Operands::written_in))]
pub(crate) fn written_in(
    alloc: Global,
    kind: OperatorKind,
    text: &[u8],
) -> Result<Option<Written>, AllocError>
    ensures { IfOk result (λ found. found ≡ written_in kind text.now) }
{
    match operator_in(kind, text) {
        Some(Some(operator)) => Ok(Some(Written::Whole(operator))),
        Some(None) => Ok(Some(Written::TooGreat(kind))),
        None => to_label(alloc, kind, text),
    }
}

/// A branch to a label.
fn to_label(alloc: Global, kind: OperatorKind, text: &[u8]) -> Result<Option<Written>, AllocError>
    ensures { IfOk result (λ found. found ≡ to_label kind text.now) }
{
    let OperatorKind::Branch(branch) = kind else {
        return Ok(None);
    };
    if !is_name(text) {
        return Ok(None);
    }
    let name = Line::of(Vec::from_slice(alloc, text)?);
    Ok(Some(Written::ToLabel(branch, name)))
}

/// An operator whose operand is a number, a couple or a word; no operator where it has too many bits.
fn operator_in(kind: OperatorKind, text: &[u8]) -> Option<Option<Operator>>
    ensures { result ≡ operator_in kind text.now }
{
    match kind {
        OperatorKind::Valc => valc_in(text),
        OperatorKind::Namc => namc_in(text),
        OperatorKind::Lt8 => lt8_in(text),
        OperatorKind::Lt16 => lt16_in(text),
        OperatorKind::Lt48 => lt48_in(text),
        OperatorKind::Mpcw => mpcw_in(text),
        OperatorKind::Branch(branch) => branch_in(branch, text),
        OperatorKind::Plain(_) => None,
    }
}

/// VALC with its couple.
fn valc_in(text: &[u8]) -> Option<Option<Operator>>
    ensures { result ≡ operator_in kinds.Valc text.now }
{
    match couple_in(text)? {
        Some(couple) => Some(Some(Operator::Valc(couple))),
        None => Some(None),
    }
}

/// NAMC with its couple.
fn namc_in(text: &[u8]) -> Option<Option<Operator>>
    ensures { result ≡ operator_in kinds.Namc text.now }
{
    match couple_in(text)? {
        Some(couple) => Some(Some(Operator::Namc(couple))),
        None => Some(None),
    }
}

/// LT8 with its number.
fn lt8_in(text: &[u8]) -> Option<Option<Operator>>
    ensures { result ≡ operator_in kinds.Lt8 text.now }
{
    match number_below(text, 1 << 8)? {
        Some(number) => Some(Some(Operator::Lt8(number as u8))),
        None => Some(None),
    }
}

/// LT16 with its number.
fn lt16_in(text: &[u8]) -> Option<Option<Operator>>
    ensures { result ≡ operator_in kinds.Lt16 text.now }
{
    match number_below(text, 1 << 16)? {
        Some(number) => Some(Some(Operator::Lt16(number as u16))),
        None => Some(None),
    }
}

/// LT48 with its word.
fn lt48_in(text: &[u8]) -> Option<Option<Operator>>
    ensures { result ≡ operator_in kinds.Lt48 text.now }
{
    Some(Some(Operator::Lt48(word_in(text)?)))
}

/// MPCW with its word.
fn mpcw_in(text: &[u8]) -> Option<Option<Operator>>
    ensures { result ≡ operator_in kinds.Mpcw text.now }
{
    Some(Some(Operator::Mpcw(word_in(text)?)))
}

/// A branch with its place.
fn branch_in(kind: BranchKind, text: &[u8]) -> Option<Option<Operator>>
    ensures { result ≡ operator_in (kinds.Branch kind) text.now }
{
    match number_below(text, 1 << 16)? {
        Some(place) => Some(Some(Operator::Branch(kind, place as u16))),
        None => Some(None),
    }
}

/// The number that is written, and none where it is not below a limit.
fn number_below(text: &[u8], limit: u32) -> Option<Option<u32>>
    ensures value { result ≡ number_below limit text.now }
    ensures below { IsBelow limit result }
{
    let number = number_in(text)?;
    if number < limit {
        Some(Some(number))
    } else {
        Some(None)
    }
}

/// The couple that is written, and none where no level has it.
fn couple_in(text: &[u8]) -> Option<Option<Couple>>
    ensures { result ≡ couple_in text.now }
{
    let (level, rest) = text.split_at(comma_place(text));
    let level = number_in(level)?;
    let index = number_in(past_comma(rest))?;
    Some(couple_of(level, index))
}

/// How many bytes stand before the first comma.
fn comma_place(text: &[u8]) -> usize
    ensures value { result ≡ comma_place text.now }
    ensures within { result ≤ length text.now }
{
    text.iter().take_while(|byte| **byte != b',').count()
}

/// What stands after the comma.
fn past_comma(text: &[u8]) -> &[u8]
    ensures { result.now ≡ past_comma text.now }
{
    match text {
        [_, rest @ ..] => rest,
        [] => text,
    }
}

/// The couple of a level and an index, none where these have too many bits.
fn couple_of(level: u32, index: u32) -> Option<Couple>
    ensures { result ≡ couple_of_operand level index }
{
    if level <= u32::from(MOST_LEVEL) && index < 1 << MOST_INDEX_BITS {
        Some(Couple {
            level: level as u8,
            index: index as u16,
        })
    } else {
        None
    }
}
