//! What a record is.

ghost use Rattle.std.specs.Prelude.{◌≡◌, ◌≤◌, ◌-◌, length, take, IfOk, MatchOption, option_copied};
ghost use Rattle.b67_asm_text.specs.Items.{alone, front, item_in, item_of, label_in, level_item, operator_item, plain_item, with_operand};
ghost use Rattle.b67_asm_text.specs.Mnemonics.{operators};

use crate::mnemonic::kind_named;
use crate::name::is_name;
use crate::number::number_in;
use crate::operand::written_in;
use crate::words::{first_word, unblanked};
use b67_list::Line;
use b67_ops::{BranchKind, MOST_LEVEL, OUTER_LEVEL, Operator, OperatorKind};
use std::alloc::{AllocError, Global};

/// An operator as it is written.
#[derive(Drop)]
pub enum Written {
    /// With its operand.
    Whole(Operator),
    /// A branch to a label.
    ToLabel(BranchKind, Line),
    /// With a number that has more bits than the operand.
    TooGreat(OperatorKind),
}

/// What a record is.
#[derive(Drop)]
pub enum Reading {
    /// Nothing, but blanks and a comment.
    Blank,
    /// Something that is no item.
    NoItem,
    /// The begin of the next segment.
    Segment,
    /// The level of the operators that follow.
    Level(u8),
    /// A label of the next syllable.
    Label(Line),
    /// An operator.
    Operator(Written),
    /// A format, of which its number is the count of those before it, and whether its phrases have widths above 0 and fit a line.
    Format { fits: bool },
}

/// The item of one word, or of a word and its operand, and none where a further word stands.
pub(crate) fn item_in(
    alloc: Global,
    kinds: &[OperatorKind],
    text: &[u8],
) -> Result<Reading, AllocError>
    requires { kinds.now ≡ operators }
    ensures { IfOk result (λ item. item ≡ item_in text.now) }
{
    let (word, rest) = first_word(text);
    let (operand, rest) = first_word(rest);
    item_of(alloc, kinds, word, operand, unblanked(rest))
}

/// The item of a word, its operand and what stands after it.
fn item_of(
    alloc: Global,
    kinds: &[OperatorKind],
    word: &[u8],
    operand: &[u8],
    more: &[u8],
) -> Result<Reading, AllocError>
    requires { kinds.now ≡ operators }
    ensures { IfOk result (λ item. item ≡ item_of word.now operand.now more.now) }
{
    if operand.is_empty() {
        return alone(alloc, kinds, word);
    }
    if more.is_empty() {
        return with_operand(alloc, kinds, word, operand);
    }
    Ok(Reading::NoItem)
}

/// The item of one word.
#[tactic(auto, unfolding(crate::specs::Items::alone))]
fn alone(alloc: Global, kinds: &[OperatorKind], word: &[u8]) -> Result<Reading, AllocError>
    requires { kinds.now ≡ operators }
    ensures { IfOk result (λ item. item ≡ alone word.now) }
{
    if word == b"SEGMENT".as_slice() {
        return Ok(Reading::Segment);
    }
    match label_in(word) {
        Some(name) => Ok(Reading::Label(Line::of(Vec::from_slice(alloc, name)?))),
        None => Ok(plain_item(kind_named(word, kinds))),
    }
}

/// The name before a colon at the end of a word.
fn label_in(word: &[u8]) -> Option<&[u8]>
    ensures { option_copied result ≡ label_in word.now }
{
    let (name, end) = word.split_at(word.len().saturating_sub(1));
    if end == b":".as_slice() && is_name(name) {
        Some(name)
    } else {
        None
    }
}

/// The item of an operator without an operand.
fn plain_item(kind: Option<OperatorKind>) -> Reading
    ensures { result ≡ plain_item kind }
{
    match kind {
        Some(OperatorKind::Plain(kind)) => {
            Reading::Operator(Written::Whole(Operator::Plain(kind)))
        }
        _ => Reading::NoItem,
    }
}

/// The item of a word and its operand.
#[tactic(auto, unfolding(crate::specs::Items::with_operand))]
fn with_operand(
    alloc: Global,
    kinds: &[OperatorKind],
    word: &[u8],
    operand: &[u8],
) -> Result<Reading, AllocError>
    requires { kinds.now ≡ operators }
    ensures { IfOk result (λ item. item ≡ with_operand word.now operand.now) }
{
    if word == b"LEVEL".as_slice() {
        return Ok(level_item(number_in(operand)));
    }
    operator_item(alloc, kind_named(word, kinds), operand)
}

/// The item of a level.
fn level_item(number: Option<u32>) -> Reading
    ensures { result ≡ level_item number }
{
    match number {
        Some(level) if level >= u32::from(OUTER_LEVEL) && level <= u32::from(MOST_LEVEL) => {
            Reading::Level(level as u8)
        }
        _ => Reading::NoItem,
    }
}

/// The item of an operator with an operand.
fn operator_item(
    alloc: Global,
    kind: Option<OperatorKind>,
    operand: &[u8],
) -> Result<Reading, AllocError>
    ensures { IfOk result (λ item. item ≡ operator_item kind operand.now) }
{
    let Some(kind) = kind else {
        return Ok(Reading::NoItem);
    };
    match written_in(alloc, kind, operand)? {
        Some(written) => Ok(Reading::Operator(written)),
        None => Ok(Reading::NoItem),
    }
}
