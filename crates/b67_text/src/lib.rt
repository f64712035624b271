//! Reading a text from the left: words and numbers at a place of it, and how far it can be read.
//!
//! A place is a number of bytes from the start. What is read stands at the place and ends at the one that is
//! answered. A refusal names the place where the longest beginning ends of anything that could be read there.
#![tactic(auto)]

mod choice;
mod number;
mod word;

pub use choice::either;
pub use number::{Numbers, read_number};
pub use word::read_word;

/// The bytes before this place, from 0 on, are the longest that begin a text of the kind that is read.
#[derive(Clone, Copy)]
pub struct BadText {
    pub byte: usize,
}
