//! The named cells of a source after the first entries of a schedule, by the source's meaning.
#![tactic(auto)]

ghost use Rattle.b67_dump.specs.Laws.{DumpsHaveOneAnswer, SnapshotsAreThoseOfLeanWorlds};

mod blocks;
mod cells;
mod content;
mod dumping;
mod instances;
mod parts;
mod snapshots;

use b67_list::{Line, List};
pub use dumping::{dump, dump_text};
pub use snapshots::snapshot;

/// What is shown after the first entries of a schedule.
#[derive(Drop)]
pub enum Answer {
    /// These lines, all the entries being legal.
    Shown(List<Line>),
    /// The entry of this number, from 1, is the first that is not able or follows an end.
    Illegal { entry: u64 },
}

/// Law: the first entries of a schedule have one answer, so that each of the two is given exactly where it is due.
pub fn dumps_have_one_answer()
    ensures { DumpsHaveOneAnswer }
{}

/// Law: instances that are left are not shown: worlds that are alike but for the cells of those have the same lines.
pub fn snapshots_are_those_of_lean_worlds()
    ensures { SnapshotsAreThoseOfLeanWorlds }
{}
