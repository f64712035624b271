//! What the report of a run says, and the report of a machine after a run.
//!
//! In a run by one processor each entry is of the process at the place that the rule picks; after it those whom it released, the one that
//! it started, and the process itself where it may go on, go to the rear of the queue. Of a faithful code these are the turns of the source.
#![tactic(auto)]

mod ends;
mod report;

ghost use Rattle.b67_explain.specs.Lettering.{PrintedLettersAreTheSources};
ghost use Rattle.b67_explain.specs.Turning.{PickedRunsAreTurns};

pub use report::{acts_of, report_of};

/// Law: where a code is faithful to a source, and a run of it is one by one processor under a rule, its entries are the turns of the
/// source under that rule.
pub fn picked_runs_are_turns()
    ensures { PickedRunsAreTurns }
{}

/// Law: the letters that a report prints are those of the source's own actions, entry by entry.
pub fn printed_letters_are_the_sources()
    ensures { PrintedLettersAreTheSources }
{}
