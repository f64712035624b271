//! The intrinsics that leave frames or make processes: GOTO and START, and the critical places of processes.
//!
//! A process's critical place is the frame that its procedure, its parameters or its task need; no one may leave that
//! frame while the process lives (this project's profile, after Burroughs Extended ALGOL).
#![tactic(auto)]

mod adds;
mod jumps;
mod laws;
mod leaves;
mod opens;
mod paths;
mod processes;
mod starts;
mod targets;

pub use adds::add_process;
pub use jumps::go_to;
pub use laws::valid_images_have_a_next;
pub use leaves::passes_critical;
pub use opens::{NoMemory, open_process};
pub use paths::{Needs, frame_below, on_path};
pub use processes::{Unstarted, start};
pub use starts::{Given, MOST_CELLS, MOST_PROCESSES, first_registers};
pub use targets::{Target, level_in, number_in, target_of};
