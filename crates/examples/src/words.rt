//! Worked words.

use b67_word::{make_word, operand, truth};

/// Numbers, and the word that is none.
fn are_numbers() -> bool {
    operand(-1).bits() == 0x4000_0000_0001
        && operand(549_755_813_887).bits() == 0x007F_FFFF_FFFF
        && operand(3).tag() == 0
        && number(0x8000_0000_0000) == None
        && number(0x4000_0000_0000) == Some(0)
}

/// The number of an operand of these bits.
fn number(bits: u64) -> Option<i64> {
    match make_word(0, bits) {
        Some(word) => word.as_whole(),
        None => None,
    }
}

/// Truth values, and a field.
fn are_fields() -> bool {
    truth(true).as_truth() == Some(true)
        && truth(false).with_field(18, 5, 9).field(18, 5) == 9
        && make_word(8, 0).is_none()
}

/// Tests numbers, truth values and a field.
pub(crate) fn are_right() -> bool {
    are_numbers() && are_fields()
}
