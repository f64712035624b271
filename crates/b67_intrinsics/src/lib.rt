//! The intrinsics: what the procedures do that the machine itself has, where they are entered.
//!
//! A mark stands at F, the intrinsic's procedure word above it, and its arguments above that. An intrinsic first reads,
//! and an error is what stops it, in the table's order; then nothing has changed. It then gives up all from the mark on.
//! Where there is no memory for what it makes, all is as it was.
//! The events' intrinsics are those of the B6700's Extended ALGOL; their effects are this project's profile.
#![tactic(auto)]

mod allocating;
mod finding;
mod happening;
mod hindrance;
mod lines;
mod making;
mod marks;
mod selecting;
mod waiting;
mod writing;

pub use allocating::{MOST_ARRAYS, arrays};
pub use finding::{event_of, find_event, find_events, find_mark};
pub use happening::{
    available, cause, cause_and_reset, end, fix, happened, liberate, procure, registers, reset,
    wait,
};
pub use hindrance::Hindrance;
pub use lines::{line_for, line_of};
pub use making::make_event;
pub use marks::{
    arguments, chained, finish, finish_with, only_argument, three_arguments, whole_argument,
    whole_arguments,
};
pub use selecting::select;
pub use waiting::wait_any;
pub use writing::write;
