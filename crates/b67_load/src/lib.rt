//! The first image of a code, with which every run begins.
//!
//! [`load`] builds it on an empty store, with a kernel and a machine's other parts; [`load_again`] builds it in those of a machine that
//! was run.
#![tactic(auto)]

mod again;
mod first;
mod opening;
mod words;

pub use again::load_again;
pub use first::load;
pub use words::first_registers;
