//! What holds of the front of a run: a run that goes through a schedule goes through each front of it, and on from there.
#![tactic(auto)]

ghost use Rattle.b67_fronts.specs.Fronts.{FrontsGoOn, FrontsAreRuns, RunsGoThroughAlike};

/// Law: after the first entries of a schedule that a run goes through, the process of the next one may act, its next operator does not come
/// to the stack limit, however many of its plain operators are performed, and the operators are fewer than the budget.
pub fn fronts_go_on()
    ensures { FrontsGoOn }
{}

/// Law: the first entries of a schedule that a run goes through have a run.
pub fn fronts_are_runs()
    ensures { FrontsAreRuns }
{}

/// Law: each run of all entries of a schedule that a run goes through has as many operators, and comes to an end or leaves some.
pub fn runs_go_through_alike()
    ensures { RunsGoThroughAlike }
{}
