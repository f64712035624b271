//! Lines with signs that stand for others.

use b67_list::push_number;
use std::alloc::AllocError;

/// Appends what a byte after `\` stands for.
fn push_sign(bytes: &mut Vec<u8>, byte: u8, number: u32) -> Result<(), AllocError> {
    let sign = match byte {
        b'#' => return push_number(bytes, b"", number),
        b'-' => return push_number(bytes, b"", number.saturating_sub(1)),
        b'r' => b'\r',
        b't' => b'\t',
        b'1' => 1,
        _ => byte,
    };
    bytes.push(sign)?;
    Ok(())
}

/// Appends a line, and LF if it does not end in `\`.
pub(crate) fn push_line(bytes: &mut Vec<u8>, line: &str, number: u32) -> Result<(), AllocError> {
    let mut is_after_mark = false;
    for byte in line.bytes() {
        if is_after_mark {
            push_sign(bytes, byte, number)?;
            is_after_mark = false;
        } else if byte == b'\\' {
            is_after_mark = true;
        } else {
            bytes.push(byte)?;
        }
    }
    if !is_after_mark {
        bytes.push(b'\n')?;
    }
    Ok(())
}
