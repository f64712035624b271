//! What a name is declared as: one sort for all that look names up, and what a heading says of its parameters.
#![tactic(auto)]

mod heading;
mod key;
mod sort;

pub use heading::Specified;
pub use key::{Key, found};
pub use sort::Sort;
