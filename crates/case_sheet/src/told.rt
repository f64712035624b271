//! Parts of an answer. Where memory lacks for one it is missing, so that its case is not met.

use b67_list::{Line, push_number};

/// Appends words.
pub fn say(text: &mut Vec<u8>, words: &[u8]) {
    let _ = text.extend_from_slice(words);
}

/// Appends words and a number.
pub fn number(text: &mut Vec<u8>, words: &[u8], value: u64) {
    let _ = push_number(text, words, value);
}

/// Appends the number of lines, and the lines.
pub fn lines(text: &mut Vec<u8>, written: &[Line]) {
    number(text, b"OUTPUT ", written.len() as u64);
    say(text, b"\n");
    for line in written {
        say(text, line.bytes());
        say(text, b"\n");
    }
}
