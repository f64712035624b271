//! Steps of a run, its end, and runs under a schedule.
#![tactic(auto)]

mod ending;
mod following;
mod stepping;

pub use ending::{End, end_of};
pub use following::follow;
pub use stepping::{Stepped, step, step_in_place};
