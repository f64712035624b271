//! What the entries of a schedule store: a walk over the schedule notes which of them store under names for which commands look.
#![tactic(auto)]

mod walking;

pub use walking::note_all;
