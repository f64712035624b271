//! A machine in the middle of a schedule that it goes through: it goes on by a part, and tells the words and the registers of a process.
#![tactic(auto)]

mod going;
mod telling;

pub use going::go_through;
pub use telling::{push_registers, push_words};
