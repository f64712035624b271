//! Machine code: segments of words with the levels at which their operators stand, and the formats of lines.
#![tactic(auto)]

mod builder;
mod code;
mod decoding;
mod fetching;
mod laws;

/// The most words of a segment, by this project's profile: a place in it has 16 bits.
pub const MOST_SEGMENT_WORDS: usize = 8_192;

/// The most syllables of a segment: 6 in each word.
pub const MOST_SEGMENT_SYLLABLES: usize = 6 * MOST_SEGMENT_WORDS;

pub use builder::Builder;
pub use code::{Code, Format, Mark, Phrase, Pointer, Segment};
pub use decoding::Decoded;
pub use fetching::fetch;
pub use laws::{numbers_are_told, operators_are_fetched, operators_stand};
