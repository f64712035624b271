//! The outcomes of what a search has found.
//!
//! Each state whose image has an end has an outcome, and so has each stack limit that is noted. An outcome is told once, in the order in which
//! they were found, with a schedule that a machine follows to it ([`Teller`], [`tell`]).
#![tactic(auto)]

mod book;
mod teller;
mod telling;

pub use book::Book;
pub use teller::Teller;
pub use telling::tell;
