//! The code of expressions.
//!
//! A conditional expression is left by branches from its parts. They are collected as exits, and go at once to the place where the
//! value of the whole is used, so that no branch leads to a branch.
#![tactic(auto)]

mod by_name;
mod emitter;
mod naming;
mod operators;
mod passing;
mod placing;
mod values;

pub use emitter::Exprs;
