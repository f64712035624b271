//! The lines of formats.

ghost use Rattle.std.specs.Prelude.{◌≡◌, ◌++◌, IfOk, OnOk};
ghost use Rattle.b67_listing.specs.Formats.{phrase_text, phrases_text, format_line};

use crate::text::push_words;
use b67_list::{Line, List, push_number};
use b67_segment::{Format, Phrase};
use std::alloc::{AllocError, Global};

/// The line of a format with its number.
pub fn format_line(alloc: Global, number: usize, format: &Format) -> Result<Line, AllocError>
    ensures { IfOk result (λ line. line ≡ format_line (number, format.now)) }
{
    let mut text = Vec::new(alloc);
    push_number(&mut text, b"FORMAT ", number)?;
    push_words(&mut text, b" <")?;
    push_phrases(&mut text, &format.phrases)?;
    push_words(&mut text, b">")?;
    Ok(Line::of(text))
}

/// Appends phrases, with commas between them.
pub fn push_phrases(text: &mut Vec<u8>, phrases: &List<Phrase>) -> Result<(), AllocError>
    ensures { OnOk result (text.new.items ≡ text.old.items ++ phrases_text phrases.now) }
{
    let Some((first, rest)) = phrases.items().split_first() else {
        return Ok(());
    };
    push_phrase(text, first)?;
    'phrases: for phrase in rest {
        push_words(text, b",")?;
        push_phrase(text, phrase)?;
    }
    Ok(())
}

/// Appends a phrase as it stands in a source.
fn push_phrase(text: &mut Vec<u8>, phrase: &Phrase) -> Result<(), AllocError>
    ensures { OnOk result (text.new.items ≡ text.old.items ++ phrase_text phrase.now) }
{
    match phrase {
        Phrase::Text(line) => {
            push_words(text, b"\"")?;
            push_words(text, line.bytes())?;
            push_words(text, b"\"")
        }
        Phrase::Number(width) => push_number(text, b"I", *width),
        Phrase::Blanks(width) => push_number(text, b"X", *width),
    }
}
