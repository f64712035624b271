//! What the search for everything to which runs of a faithful code lead says of the source.
#![tactic(auto)]

ghost use Rattle.b67_outcomes_all.specs.Outcomes.{ToldAreAll};
ghost use Rattle.b67_outcomes_all.specs.Sources.{KeptAreLegal, KeptTellAll, StopsAreLimits};

/// Law: where all that runs of a faithful code come to is kept, each legal schedule of the source that comes to an end comes to the output and the end of
/// a state that is kept, or it is noted which of its entries comes to the stack limit.
#[tactic(auto, using(crate::proofs::Telling::tells_all))]
pub fn kept_tell_all()
    ensures { KeptTellAll }
{}

/// Law: the schedule of each state that is kept, and of each entry on the way to it, is legal for the source, and its image has the output and the end of the source under it.
#[tactic(auto, using(crate::proofs::Telling::are_legal))]
pub fn kept_are_legal()
    ensures { KeptAreLegal }
{}

/// Law: where it is noted that a process comes to the stack limit after a state, its schedule is legal, the process may go on in the
/// source after it, and more is open in it than a stack has room for.
#[tactic(auto, using(crate::proofs::Telling::are_limits))]
pub fn stops_are_limits()
    ensures { StopsAreLimits }
{}

/// Law: where the search found everything, and the outcome of each state that has an end is told and that of each stack limit that is noted, all
/// outcomes of the source are told.
#[tactic(auto, using(crate::proofs::Outcomes::told_are_all))]
pub fn told_are_all()
    ensures { ToldAreAll }
{}
