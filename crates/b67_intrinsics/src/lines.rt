//! The line that a format makes of items.

ghost use Rattle.std.specs.Prelude.{◌≡◌, IfOk};
ghost use Rattle.b67_table.specs.Lines.{format_line, line_for, line_numbered};
ghost use Rattle.b67_intrinsics.specs.Lines.{AddsPhrase};

use b67_list::{Line, push_copies, push_justified};
use b67_segment::{Code, Format, Phrase};
use std::alloc::{AllocError, Global};

// Adds one phrase to a text; a number takes the first of the items. Answers how many items were taken, and None where there
// is none to take.
fn push_phrase(
    text: &mut Vec<u8>,
    phrase: &Phrase,
    items: &[i64],
) -> Result<Option<usize>, AllocError>
    ensures { IfOk result (AddsPhrase phrase.now items.now text.old.items text.new.items) }
{
    match phrase {
        Phrase::Text(words) => {
            text.extend_from_slice(words.bytes())?;
            Ok(Some(0))
        }
        Phrase::Blanks(count) => {
            push_copies(text, b' ', *count)?;
            Ok(Some(0))
        }
        Phrase::Number(width) => {
            let Some(item) = items.first() else {
                return Ok(None);
            };
            push_justified(text, *width, *item)?;
            Ok(Some(1))
        }
    }
}

/// The line that a format makes of items: its texts and blanks as they stand, and each number to the right in its columns,
/// or as many asterisks where it does not fit. None comes exactly where it has not as many numbers as there are items.
pub fn line_of(alloc: Global, format: &Format, items: &[i64]) -> Result<Option<Line>, AllocError>
    ensures { IfOk result (λ line. line ≡ format_line format.now.phrases items.now) }
{
    let mut text = Vec::new(alloc);
    let mut used = 0;
    'phrases: for phrase in format.phrases.items() {
        match push_phrase(&mut text, phrase, &items[used..])? {
            Some(taken) => used += taken,
            None => return Ok(None),
        }
    }
    if used < items.len() {
        Ok(None)
    } else {
        Ok(Some(Line::of(text)))
    }
}

// The line of the format of this number.
fn line_numbered(
    alloc: Global,
    code: &Code,
    number: i64,
    items: &[i64],
) -> Result<Option<Line>, AllocError>
    ensures { IfOk result (λ line. line ≡ line_numbered code.now number items.now) }
{
    let Ok(index) = usize::try_from(number) else {
        return Ok(None);
    };
    match code.formats.items().get(index) {
        Some(format) => line_of(alloc, format, items),
        None => Ok(None),
    }
}

/// The line that a code's format makes of items: the first number is the format's, from 0. None comes exactly where there is
/// no such format, or it has not as many numbers as there are items.
pub fn line_for(alloc: Global, code: &Code, numbers: &[i64]) -> Result<Option<Line>, AllocError>
    ensures { IfOk result (λ line. line ≡ line_for code.now numbers.now) }
{
    match numbers.first() {
        Some(number) => line_numbered(alloc, code, *number, &numbers[1..]),
        None => Ok(None),
    }
}
