//! The rules of types, counts, lines and labels.
//!
//! A tree is walked once, in the order of the text.
#![tactic(auto)]

mod announced;
mod checker;
mod declaring;
mod walk;

pub use walk::check;
