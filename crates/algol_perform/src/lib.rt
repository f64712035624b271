//! What the effect of an action makes of the world of a run, and the world in which a run begins.
#![tactic(auto)]

mod beginning;
mod cells;
mod going;
mod joining;
mod making;
mod parts;
mod performing;
mod starting;

pub use beginning::start;
pub use going::{perform_event, perform_go_to};
pub use joining::perform;
pub use making::{perform_block, perform_enter};
pub use parts::part_under;
pub use performing::{
    perform_act, perform_arrays, perform_evaluation, perform_fault, perform_fix, perform_goes,
    perform_leaving, perform_line, perform_store, perform_store_element, perform_wait,
    perform_waking,
};
pub use starting::perform_start;
