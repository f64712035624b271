//! What is still to be done of an expression, in code: its head, what is around the head, and the silent steps by which it
//! comes to its next head or to its value.
#![tactic(auto)]

mod around;
mod copying;
mod expression;
mod part;

pub use around::{add_given, no_givens, no_subscripts, surround};
pub use copying::{copy_frames, copy_givens, copy_head, copy_place};
pub use expression::{alone, cell_of, evaluate, filled, put, subscripts_of, supplied};
pub use part::{Answer, Control, Frame, Given, Head, Outcome, Place, Supplied, Supply};
