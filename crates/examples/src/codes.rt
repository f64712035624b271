//! The codes of texts, and texts that are written for codes.

ghost use Rattle.b67_asm.specs.Writable.{IsWritable};

use b67_asm_writer::source;
use b67_segment::{Code, Format, Phrase, Segment};
use case_sheet::{number, say};
use std::alloc::{AllocError, Global};

/// Appends the words and the marks of a segment.
fn push_segment(text: &mut Vec<u8>, segment: &Segment) {
    number(text, b"SEGMENT ", segment.words.items().len() as u64);
    say(text, b"\n");
    for word in segment.words.items() {
        number(text, b"", *word);
        say(text, b"\n");
    }
    for mark in segment.marks.items() {
        number(text, b"MARK ", u64::from(mark.place));
        number(text, b" ", u64::from(mark.level));
        say(text, b"\n");
    }
}

/// Appends the line of a phrase.
fn push_phrase(text: &mut Vec<u8>, phrase: &Phrase) {
    match phrase {
        Phrase::Text(part) => {
            say(text, b"TEXT ");
            say(text, part.bytes());
        }
        Phrase::Number(width) => number(text, b"NUMBER ", u64::from(*width)),
        Phrase::Blanks(width) => number(text, b"BLANKS ", u64::from(*width)),
    }
    say(text, b"\n");
}

/// Appends the phrases of a format.
fn push_format(text: &mut Vec<u8>, format: &Format) {
    number(text, b"FORMAT ", format.phrases.items().len() as u64);
    say(text, b"\n");
    for phrase in format.phrases.items() {
        push_phrase(text, phrase);
    }
}

/// The segments and the formats of a code, or the text that is written for it where there is a word.
pub(crate) fn code_text(alloc: Global, code: &Code, words: &[String]) -> Result<Vec<u8>, AllocError>
    requires { IsWritable code.now }
{
    if !words.is_empty() {
        return source(alloc, code);
    }
    let mut text = Vec::new(alloc);
    for segment in code.segments.items() {
        push_segment(&mut text, segment);
    }
    for format in code.formats.items() {
        push_format(&mut text, format);
    }
    Ok(text)
}
