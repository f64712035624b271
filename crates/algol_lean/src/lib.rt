//! Worlds whose left instances have given back their arrays, and steps of them: they go as the worlds of the meaning do, which keep all cells.
#![tactic(auto)]

mod leaving;
mod shedding;
mod stepping;

ghost use Rattle.algol_lean.specs.Laws.{AcceptedKeepInUse, LeanWorldsGoAlike, SourcesKeepInUse};

pub use shedding::shed;
pub use stepping::{step_lean, step_seen_lean};

/// Law: a world that is another one but for the cells of the instances that are left has the same end, and the same processes may go. An
/// action that uses no cell of an instance that is left is the same in both, does the same with cells and events, and leads to worlds that
/// are alike again.
pub fn lean_worlds_go_alike()
    ensures { LeanWorldsGoAlike }
{}

/// Law: no action of an accepted source uses a cell of an instance that is left, whatever the schedule.
pub fn sources_keep_in_use()
    ensures sources { SourcesKeepInUse }
    // The same of each accepted program whose places are in the order of its text.
    ensures accepted { AcceptedKeepInUse }
{}
