//! Parts of lines.

ghost use Rattle.std.specs.Prelude.{◌≡◌, ◌<◌, ◌≤◌, ◌++◌, OnOk, true};
ghost use Rattle.std.specs.Fmt.{digit_glyph};
ghost use Rattle.b67_listing.specs.Digits.{last_digits, hexadecimal};

use std::alloc::AllocError;

/// Appends words.
pub fn push_words(text: &mut Vec<u8>, words: &[u8]) -> Result<(), AllocError>
    ensures { OnOk result (text.new.items ≡ text.old.items ++ words.now) }
{
    text.extend_from_slice(words)
}

/// Appends the last digits of a number, so many, in a base up to 16.
pub fn push_digits(text: &mut Vec<u8>, base: u64, count: u32, number: u64) -> Result<(), AllocError>
    requires least { 2 ≤ base }
    requires most { base ≤ 16 }
    ensures { OnOk result (text.new.items ≡ text.old.items ++ last_digits base count number) }
{
    if count == 0 {
        return Ok(());
    }
    push_digits(text, base, count - 1, number / base)?;
    text.push(digit((number % base) as u8))?;
    Ok(())
}

/// Appends syllables in hexadecimal.
pub fn push_syllables(text: &mut Vec<u8>, syllables: &[u8]) -> Result<(), AllocError>
    ensures { OnOk result (text.new.items ≡ text.old.items ++ hexadecimal syllables.now) }
{
    'syllables: for syllable in syllables {
        push_digits(text, 16, 2, u64::from(*syllable))?;
    }
    Ok(())
}

/// The digit of this value, a capital letter from 10 on.
fn digit(value: u8) -> u8
    requires { value < 16 }
    ensures { result ≡ digit_glyph true value }
{
    if value < 10 {
        b'0' + value
    } else {
        b'A' + (value - 10)
    }
}
