//! What stands of a run by several processors whenever its lock is free, and that each call keeps it.
//!
//! A plant has the machine, the queue of those who wait for a processor, with which processor each other process is out, and the
//! schedule of what was done. Between two calls its machine is that of a run of the code under that schedule.
//!
//! A processor performs private operators of a process while others act. So the operators of a run do not come entry by entry. What
//! holds of sound code: the same image comes of the run in which each entry's operators come together, and what was performed of
//! later entries comes as the tails of their processes.
#![tactic(auto)]

ghost use Rattle.b67_stands.specs.Alone.{TurnsKeepByOne};
ghost use Rattle.b67_stands.specs.Commuting.{PlainOperatorsCommuteInRuns, LettersStayApart};
ghost use Rattle.b67_stands.specs.Going.{RunsTakeOperators, RunsTakeEntries};
ghost use Rattle.b67_stands.specs.Laws.{CallsKeepStands};
ghost use Rattle.b67_stands.specs.Turns.{TurnsKeepOn};

/// Law: in a run of sound code, a plain operator of one process may come before or after every operator of another: the image after both is
/// the same, and neither is stopped otherwise.
pub fn plain_operators_commute_in_runs()
    ensures { PlainOperatorsCommuteInRuns }
{}

/// Law: where a process of a run performs plain operators, the image is that of the run with so many more in the process's tail.
pub fn runs_take_operators()
    ensures { RunsTakeOperators }
{}

/// Law: where a process of a run performs plain operators and an operator that is not plain, the image is that of the run with an
/// entry more, to which the process's tail belongs.
pub fn runs_take_entries()
    ensures { RunsTakeEntries }
{}

/// Law: a plant before its first take stands, and each call on a plant that stands leaves one that stands.
pub fn calls_keep_stands()
    ensures { CallsKeepStands }
{}

/// Law: where one processor does all the work, each entry of the schedule is of the process that the rule picks.
pub fn turns_keep_by_one()
    ensures { TurnsKeepByOne }
{}

/// Law: so do turns of one process, one after another, where nobody else waits: the plant stands after them, and each entry is of the
/// process that the rule picks.
pub fn turns_keep_on()
    ensures { TurnsKeepOn }
{}

/// Law: an operator that touches no word of another process's private part has the same letter before a plain operator of that one and
/// after it.
pub fn letters_stay_apart()
    ensures { LettersStayApart }
{}
