//! How a number stands in a text.

ghost use Rattle.std.specs.Prelude.{◌≡◌, ◌++◌, replicate, OnOk};
ghost use Rattle.b67_list.specs.Lines.{justified};

use itoa::{Buffer, Integer};
use std::alloc::AllocError;

/// Appends words and the decimal digits of a number, with a minus directly before those of a negative one.
/// On `Err` the text has no more than a part of them.
pub fn push_number<I: Integer>(
    text: &mut Vec<u8>,
    words: &[u8],
    number: I,
) -> Result<(), AllocError>
    ensures { OnOk result (text.new.items ≡ text.old.items ++ (words.now ++ I.text number)) }
{
    text.extend_from_slice(words)?;
    text.extend_from_slice(Buffer::new().format(number).as_bytes())
}

/// Appends a number to the right in so many columns, or as many asterisks where it does not fit.
/// On `Err` the text has no more than a part of them.
pub fn push_justified(text: &mut Vec<u8>, width: u32, value: i64) -> Result<(), AllocError>
    ensures { OnOk result (text.new.items ≡ text.old.items ++ justified width value) }
{
    let mut buffer = Buffer::new();
    let digits = buffer.format(value).as_bytes();
    let length = digits.len() as u32;
    if length <= width {
        push_copies(text, b' ', width - length)?;
        text.extend_from_slice(digits)
    } else {
        push_copies(text, b'*', width)
    }
}

/// Appends so many copies of a byte.
pub fn push_copies(text: &mut Vec<u8>, byte: u8, count: u32) -> Result<(), AllocError>
    ensures { OnOk result (text.new.items ≡ text.old.items ++ replicate count byte) }
{
    let length = text.len() + count as usize;
    text.resize(length, byte)
}
