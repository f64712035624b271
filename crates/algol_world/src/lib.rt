//! The world of a run, and its changes: processes, events, waits for several of them, stores and the leaving of parts.
#![tactic(auto)]

mod acted;
mod event;
mod eventful;
mod exiting;
mod leaving;
mod process;
mod saving;
mod storing;
mod waiting;
mod world;

pub use acted::Acted;
pub use eventful::{has_happened, is_available};
pub use leaving::is_evaluation;
pub use saving::Saved;
pub use world::{Part, Process, Purpose, State, World, WorldFault};
