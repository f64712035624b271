//! The calls by which code is appended to a builder, and by which branches get their targets.
//!
//! What a call promises of the code that it appends holds under every later call, whatever is appended or aimed elsewhere.
#![tactic(auto)]

mod aiming;
mod appending;
mod calling;
mod entering;
mod events;
mod expressions;
mod meanings;
mod moving;
mod names;
mod numbers;

pub use aiming::{aim, aim_exits};
pub use appending::{
    append_all, append_branch, append_exit, append_number, append_operator, append_plain,
    append_reading, append_reference, append_turn,
};
pub use calling::{append_begun, append_dropped, append_intrinsic, append_passed};
pub use entering::{append_control, append_controls, append_entry, append_routine};
pub use events::{append_on_events, append_task};
pub use expressions::{ExprEmitter, array_of, couple_of, left_of, lows_of, result_of};
pub use meanings::{
    Given, event_of, given_of, has_cell, is_name, name_alone, takes_name, target_of,
};
pub use moving::append_moved;
pub use names::{Names, Target, TargetsByPlace};
pub use numbers::literal;
