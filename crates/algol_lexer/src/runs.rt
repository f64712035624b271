//! Letters, digits and blanks, how many of them a text begins with, and the first of some bytes.

ghost use Rattle.std.specs.Prelude.{◌≡◌, ◌<◌, ◌≤◌, not, length, position, IfSome};
ghost use Rattle.std.specs.Char.{to_ascii_uppercase};
ghost use Rattle.std.specs.List.{prefix_len};
ghost use Rattle.algol_tree.specs.Spelling.{is_letter, is_digit, is_blank};
ghost use Rattle.algol_tree.specs.Lexes.{is_quote, is_printable};
ghost use Rattle.algol_tree.specs.Records.{is_line_feed};
ghost use Rattle.algol_lexer.specs.Runs.{in_word};

pub(crate) fn is_letter(byte: u8) -> bool
    ensures { result ≡ is_letter (to_ascii_uppercase byte) }
{
    matches!(byte, b'A'..=b'Z' | b'a'..=b'z')
}

pub(crate) fn is_digit(byte: u8) -> bool
    ensures { result ≡ is_digit byte }
{
    matches!(byte, b'0'..=b'9')
}

pub(crate) fn is_blank(byte: u8) -> bool
    ensures { result ≡ is_blank byte }
{
    matches!(byte, b' ' | b'\t')
}

/// How many letters and digits a text begins with.
pub(crate) fn letters_and_digits(text: &[u8]) -> usize
    ensures value { result ≡ prefix_len in_word text.now }
    ensures within { result ≤ length text.now }
{
    text.iter()
        .take_while(|byte| is_letter(**byte) || is_digit(**byte))
        .count()
}

/// How many digits a text begins with.
pub(crate) fn digits(text: &[u8]) -> usize
    ensures value { result ≡ prefix_len is_digit text.now }
    ensures within { result ≤ length text.now }
{
    text.iter().take_while(|byte| is_digit(**byte)).count()
}

/// The place of the first quote.
pub(crate) fn first_quote(text: &[u8]) -> Option<usize>
    ensures value { result ≡ position is_quote text.now }
    ensures within { IfSome result (λ place. place < length text.now) }
{
    text.iter().position(|byte| *byte == b'"')
}

/// The place of the first byte that is not printable, which are those from 32 to 126.
pub(crate) fn first_unprintable(text: &[u8]) -> Option<usize>
    ensures value { result ≡ position (λ b. not (is_printable b)) text.now }
    ensures within { IfSome result (λ place. place < length text.now) }
{
    text.iter().position(|byte| *byte < 32 || *byte > 126)
}

/// The place of the first LF.
pub(crate) fn first_line_feed(text: &[u8]) -> Option<usize>
    ensures value { result ≡ position is_line_feed text.now }
    ensures within { IfSome result (λ place. place < length text.now) }
{
    text.iter().position(|byte| *byte == b'\n')
}
