//! The operators that act: those that read or write more than the private part of their own process.
//!
//! Each function performs one operator of the table for any code. It first reads, and an error is what stops it: an
//! interrupt, a fault, or the stack limit, in the table's order; then nothing has changed. The operators are modelled
//! on the Burroughs B6700's (Organick 1973); their effects are this project's profile.
#![tactic(auto)]

mod at_once;
mod branching;
mod calling;
mod entering;
mod indexing;
mod leaving;
mod letters;
mod loading;
mod storing;

pub use at_once::{enter_at_once, exit_at_once, return_at_once};
pub use branching::turn;
pub use calling::{Called, enter_does_what_it_calls, entry, find_called};
pub use entering::{accidental, evaluate, evaluated, stop_by, value_call};
pub use indexing::{index, index_and_load, index_mother};
pub use leaving::{exit, return_value};
pub use letters::{element_or_not, entered_or, lettered};
pub use loading::{load_through, load_value, operand_pushed};
pub use storing::store;
