//! The words of a record.

ghost use Rattle.std.specs.Prelude.{◌≡◌, ◌≤◌, length, not, false};
ghost use Rattle.std.specs.List.{prefix_len};
ghost use Rattle.algol_tree.specs.Spelling.{is_blank};
ghost use Rattle.b67_asm_text.specs.Records.{after_word, code_length, code_part, first_word, unblanked, word_length};

use crate::bytes::is_blank;

/// How many bytes of a record stand before its comment.
fn code_length(line: &[u8]) -> usize
    ensures value { result ≡ code_length false line.now }
    ensures within { result ≤ length line.now }
{
    let mut quoted = false;
    let mut length = 0;
    'bytes: for byte in line {
        if *byte == b'%' && !quoted {
            return length;
        }
        if *byte == b'"' {
            quoted = !quoted;
        }
        length += 1;
    }
    length
}

/// What of a record stands before its comment.
pub(crate) fn code_part(line: &[u8]) -> &[u8]
    ensures { result.now ≡ code_part line.now }
{
    line.split_at(code_length(line)).0
}

/// How many blanks a text begins with.
fn blanks(text: &[u8]) -> usize
    ensures value { result ≡ prefix_len is_blank text.now }
    ensures within { result ≤ length text.now }
{
    text.iter().take_while(|byte| is_blank(**byte)).count()
}

/// How many bytes that are no blanks a text begins with.
fn word_length(text: &[u8]) -> usize
    ensures value { result ≡ word_length text.now }
    ensures within { result ≤ length text.now }
{
    text.iter().take_while(|byte| !is_blank(**byte)).count()
}

/// A text without the blanks that it begins with.
pub(crate) fn unblanked(text: &[u8]) -> &[u8]
    ensures { result.now ≡ unblanked text.now }
{
    text.split_at(blanks(text)).1
}

/// The first word of a text, and what stands after it.
pub(crate) fn first_word(text: &[u8]) -> (&[u8], &[u8])
    ensures word { result.0.now ≡ first_word text.now }
    ensures rest { result.1.now ≡ after_word text.now }
{
    let text = unblanked(text);
    text.split_at(word_length(text))
}
