//! The lines that a console prints of a process: the words of its stack, and its registers.
#![tactic(auto)]

mod lines;

pub use lines::{push_at, push_no_process, push_regs, push_stack};
