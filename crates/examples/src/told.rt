//! Parts of an answer. Where memory lacks for one it is missing, so that its case is not met.

use crate::answer::Told;
use case_sheet::{Case, number, say};

/// Appends a blank and the bits of a word, as 12 hexadecimal digits.
pub(crate) fn bits(text: &mut Vec<u8>, bits: u64) {
    say(text, b" ");
    for digit in 0..12u32 {
        let nibble = (bits >> (44 - 4 * digit)) & 15;
        let sign = match nibble as u8 {
            small @ 0..=9 => b'0' + small,
            great => b'A' + (great & 15) - 10,
        };
        let _ = text.push(sign);
    }
}

/// Appends whether an answer is the expected one, and the answer where it is another.
pub(crate) fn push_told(text: &mut Vec<u8>, name: &str, is_met: bool, told: &Told) {
    say(text, name.as_bytes());
    if is_met {
        say(text, b" has its answer\n");
        return;
    }
    number(
        text,
        b" HAS ANOTHER ANSWER, with status ",
        u64::from(told.status),
    );
    say(text, b":\n");
    say(text, told.bytes.as_slice());
    say(text, b"\n");
}

/// Appends whether the answer to a case of a sheet is the expected one.
pub(crate) fn push_case(text: &mut Vec<u8>, sheet: &str, case: &Case, is_met: bool, told: &Told) {
    say(text, sheet.as_bytes());
    say(text, b": ");
    push_told(text, case.name.as_str(), is_met, told);
}
