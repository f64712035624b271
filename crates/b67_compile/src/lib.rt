//! From a checked program to its code.
#![tactic(auto)]

mod compiler;

pub use compiler::compile;
