//! What is known around a place in a tree: the tables of names, and what the parameters of a heading are.
#![tactic(auto)]

mod around;
mod formal;
mod known;

pub use around::{Around, Procedure};
pub use formal::{Said, is_said, modes, named_in, no_names, say};
pub use known::{Class, Entry, Names, Seen};
