//! Programs from tokens.
#![tactic(auto)]

mod begun;
mod make;
mod program;
mod statement;

pub use program::read_program;
