//! Everything that a parallel source can print, by the machine of its code.
//!
//! Two machines of one code perform entries and are compared ([`Explorer`]). By them the states are searched to which runs of the code lead, and
//! the outcomes of those that have an end are told ([`outcomes`]).
#![tactic(auto)]

mod cells;
mod explored;
mod explorer;
mod following;
mod local;

pub use explored::{Explored, outcomes};
pub use explorer::Explorer;
