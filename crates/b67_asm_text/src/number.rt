//! Numbers as they are written in operands.

ghost use Rattle.std.specs.Prelude.{◌≡◌, ◌+◌, ◌^◌, ◌<◌, ◌≤◌, codes, length, IfSome};
ghost use Rattle.b67_asm_text.specs.Numbers.{digit_value, number_after, number_in, has_leading_zero, word_after, word_in};
ghost use Rattle.b67_asm_text.specs.declared.number.TheConstants.{TOO_GREAT, GREATEST_WORD, WORD_DIGITS};
ghost use Rattle.b67_asm_text.specs.declared.operand.TheConstants.{MOST_INDEX_BITS};
ghost use Rattle.b67_asm_text.specs.declared.phrase.TheConstants.{FORMAT_BYTES};

use crate::bytes::is_digit;

/// The number that no operand is as great as: more than 16 bits.
pub const TOO_GREAT: u32 = 65_536;

/// The greatest word, of 48 bits.
pub const GREATEST_WORD: u64 = (1 << 48) - 1;

/// How many hexadecimal digits a word has.
pub const WORD_DIGITS: usize = 12;

/// The number of decimal digits, where they are without a leading zero. One that is greater counts as [`TOO_GREAT`].
pub(crate) fn number_in(word: &[u8]) -> Option<u32>
    ensures value { result ≡ number_in word.now }
    ensures most { IfSome result (λ number. number ≤ TOO_GREAT) }
{
    if word.is_empty() || has_leading_zero(word) {
        return None;
    }
    number_of(word)
}

/// Tests that a zero stands before other digits.
fn has_leading_zero(word: &[u8]) -> bool
    ensures { result ≡ has_leading_zero word.now }
{
    match word {
        [first, _, ..] => *first == b'0',
        _ => false,
    }
}

/// The number of decimal digits. One that is greater counts as [`TOO_GREAT`].
fn number_of(digits: &[u8]) -> Option<u32>
    ensures value { result ≡ number_after 0 digits.now }
    ensures most { IfSome result (λ number. number ≤ TOO_GREAT) }
{
    let mut number = 0;
    'digits: for digit in digits {
        if !is_digit(*digit) {
            return None;
        }
        number = TOO_GREAT.min(10 * number + u32::from(*digit - b'0'));
    }
    Some(number)
}

/// The word of 12 hexadecimal digits, letters as capitals.
pub(crate) fn word_in(digits: &[u8]) -> Option<u64>
    ensures value { result ≡ word_in digits.now }
    ensures most { IfSome result (λ word. word ≤ GREATEST_WORD) }
{
    if digits.len() != WORD_DIGITS {
        return None;
    }
    word_of(digits)
}

/// The word of hexadecimal digits.
fn word_of(digits: &[u8]) -> Option<u64>
    ensures value { result ≡ word_after 0 digits.now }
    ensures most { IfSome result (λ word. word ≤ GREATEST_WORD) }
{
    let mut word = 0;
    'digits: for digit in digits {
        let value = digit_value(*digit)?;
        word = GREATEST_WORD.min(16 * word + u64::from(value));
    }
    Some(word)
}

/// The value of a hexadecimal digit.
fn digit_value(byte: u8) -> Option<u8>
    ensures value { result ≡ digit_value byte }
    ensures small { IfSome result (λ value. value < 16) }
{
    match byte {
        b'0'..=b'9' => Some(byte - b'0'),
        b'A'..=b'F' => Some(byte - b'A' + 10),
        _ => None,
    }
}

/// Law: the numbers of this crate, which the items of a text are defined with. `LT16` and a branch take 16 bits, a word has 48 bits, which
/// are 12 hexadecimal digits, and a couple's index has at most 13 bits, as docs/MACHINE.md has them; the word FORMAT has 6 bytes.
pub fn numbers_are_told()
    ensures operand { TOO_GREAT ≡ 2 ^ 16 }
    ensures word { GREATEST_WORD + 1 ≡ 2 ^ 48 }
    ensures digits { WORD_DIGITS ≡ 12 }
    ensures index { MOST_INDEX_BITS ≡ 13 }
    ensures format { FORMAT_BYTES ≡ length (codes "FORMAT") }
{}
