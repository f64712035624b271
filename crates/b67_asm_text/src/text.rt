//! A text, record by record.

ghost use Rattle.std.specs.Prelude.{◌≡◌, ◌≤◌, ◌++◌, ◌∷◌, [], length, Some, IfOk, OnOk};
ghost use Rattle.std.specs.List.{position_or_len};
ghost use Rattle.b67_asm_text.specs.declared.item.Reading.TheVariants as kinds;
ghost use Rattle.b67_asm_text.specs.Items.{format_from, format_of, formats, record_reading, readings};
ghost use Rattle.b67_asm_text.specs.Mnemonics.{operators};
ghost use Rattle.b67_asm_text.specs.Phrases.{are_in_range};
ghost use Rattle.b67_asm_text.specs.Records.{is_line_feed};

use crate::item::{Reading, item_in};
use crate::mnemonic::operators;
use crate::phrase::{are_in_range, phrases_in};
use crate::words::{code_part, unblanked};
use b67_list::List;
use b67_ops::OperatorKind;
use b67_segment::{Format, Phrase};
use std::alloc::{AllocError, Global};

/// What the records of a text are, in their order, and its formats.
#[derive(Drop)]
pub struct Text {
    pub lines: Vec<Reading>,
    pub formats: Vec<Format>,
}

/// How many bytes stand before the first LF.
fn record_length(text: &[u8]) -> usize
    ensures value { result ≡ position_or_len is_line_feed text.now }
    ensures within { result ≤ length text.now }
{
    text.iter().take_while(|byte| **byte != b'\n').count()
}

/// Appends an item.
fn push<T: Drop>(items: &mut Vec<T>, item: T) -> Result<(), AllocError>
    ensures { OnOk result (items.new.items ≡ items.old.items ++ item ∷ []) }
{
    items.push(item)?;
    Ok(())
}

/// Appends a format, and what its record is.
fn push_format(text: &mut Text, phrases: Vec<Phrase>) -> Result<(), AllocError>
    ensures lines { OnOk result (text.new.lines.items ≡ text.old.lines.items ++ kinds.Format (are_in_range phrases.items) ∷ []) }
    ensures formats { OnOk result (text.new.formats.items ≡ text.old.formats.items ++ format_from (Some phrases.items)) }
{
    let fits = are_in_range(phrases.as_slice());
    let phrases = List::of(phrases);
    push(&mut text.formats, Format { phrases })?;
    push(&mut text.lines, Reading::Format { fits })
}

/// Appends what a record is, and the format where it is one.
#[tactic(auto, unfolding(crate::specs::Items::record_reading, crate::specs::Items::format_of))]
fn read_record(
    alloc: Global,
    kinds: &[OperatorKind],
    bytes: &[u8],
    text: &mut Text,
) -> Result<(), AllocError>
    requires { kinds.now ≡ operators }
    ensures lines { OnOk result (text.new.lines.items ≡ text.old.lines.items ++ record_reading bytes.now ∷ []) }
    ensures formats { OnOk result (text.new.formats.items ≡ text.old.formats.items ++ format_of bytes.now) }
{
    let code = unblanked(code_part(bytes));
    if code.is_empty() {
        return push(&mut text.lines, Reading::Blank);
    }
    match phrases_in(alloc, code)? {
        Some(phrases) => push_format(text, phrases),
        None => push(&mut text.lines, item_in(alloc, kinds, code)?),
    }
}

/// What the records of a text are, and its formats.
pub fn read_text(alloc: Global, bytes: &[u8]) -> Result<Text, AllocError>
    ensures lines { IfOk result (λ text. text.lines.items ≡ readings bytes.now) }
    ensures formats { IfOk result (λ text. text.formats.items ≡ formats bytes.now) }
{
    let kinds = operators(alloc)?;
    let mut text = Text {
        lines: Vec::new(alloc),
        formats: Vec::new(alloc),
    };
    let mut rest = bytes;
    let mut length = record_length(rest);
    'records: while length < rest.len() {
        let (line, after) = rest.split_at(length);
        read_record(alloc, kinds.as_slice(), line, &mut text)?;
        (_, rest) = after.split_at(1);
        length = record_length(rest);
    }
    read_record(alloc, kinds.as_slice(), rest, &mut text)?;
    Ok(text)
}
