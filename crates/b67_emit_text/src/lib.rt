//! The code of a program: of each text, which is the program's or a procedure's, the code of its labels, its actuals and its block, in a
//! segment of its own.
//!
//! The code of a text with labels begins with a table of branches, one for each label that a block of the text declares. They are aimed
//! when all statements are there.
#![tactic(auto)]

mod entries;
mod heads;
mod program;
mod segments;
mod targets;
mod texts;

pub use program::emit_program;
pub use targets::targets_of;
