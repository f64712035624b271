//! Worked control words, and the display.

use b67_control::{Display, EventWord, Pcw, Sirw};
use b67_word::{Place, Word};

/// Tests that a word has this tag and these bits.
fn is_word(word: Word, tag: u8, bits: u64) -> bool {
    word.tag() == tag && word.bits() == bits
}

/// A reference to a cell, and back.
fn is_cell() -> bool {
    let cell = Sirw {
        stack: 1,
        displacement: 0,
        index: 5,
    };
    is_word(cell.pack(), 1, 0x8020_0000_0005) && Sirw::unpack(cell.pack()) == Some(cell)
}

/// A procedure word, and an event's.
fn are_words() -> bool {
    let code = Pcw {
        intrinsic: false,
        names: false,
        segment: 3,
        psr: 0,
        pir: 0,
        level: 3,
        number: 0,
    };
    is_word(code.pack(), 7, 0x0030_0001_8000) && is_word(EventWord.pack(), 3, 0xC000_0000_0000)
}

/// A level that is set, and one that is not.
fn is_display() -> bool {
    let mut display = Display::new();
    let frame = Some(Place { stack: 1, at: 7 });
    display.set(2, frame);
    display.get(2) == frame && display.get(3).is_none()
}

/// Tests a reference, a procedure word, an event's word and the display.
pub(crate) fn are_right() -> bool {
    is_cell() && are_words() && is_display()
}
