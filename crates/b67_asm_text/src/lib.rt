//! The texts of the assembler: the records of a text, and what item each of them is.
//!
//! A record ends at LF. A percent sign outside a string begins a comment; blanks around an item and between its words do not
//! matter. A record with nothing else is passed over. Any other is one item: `SEGMENT`; `LEVEL n`; `name:`, a label; a mnemonic with
//! its operand, which is written as in a listing, and for a branch may also be a label; or `FORMAT <phrases>`.
#![tactic(auto)]

mod bytes;
mod item;
mod mnemonic;
mod name;
mod number;
mod operand;
mod phrase;
mod text;
mod words;

pub use item::{Reading, Written};
pub use name::reserved_words_are_those_of_the_language;
pub use number::numbers_are_told;
pub use text::{Text, read_text};
