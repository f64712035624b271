//! What holds of every run of the language's meaning.
#![tactic(auto)]

ghost use Rattle.algol_laws.specs.Again.{EachRestIsQuiet};
ghost use Rattle.algol_laws.specs.Heads.{EachPartActs};
ghost use Rattle.algol_laws.specs.Quiet.{SilentStepsAreTabled};
ghost use Rattle.algol_laws.specs.Kept.{EachActionKeeps, OnlyStoresStore, EachRunGrows};
ghost use Rattle.algol_laws.specs.Reading.{EachActionReads};

/// Law: an action leaves the world as it is but for what it names. Instances, processes, cells and lines only
/// come to be; other processes keep their parts, their critical instances and their tasks, and those that are
/// released are able, with the woken number that their event tells them; of the cells that are there only those
/// change that are stored.
pub fn each_action_keeps()
    ensures { EachActionKeeps }
{}

/// Law: the letter of an action says whether a cell is stored. An action with another letter than S, T, w, c,
/// r, p, l, a, d, f and X leaves every cell that is there as it is.
pub fn only_stores_store()
    ensures { OnlyStoresStore }
{}

/// Law: what an action comes to depends on no cell but those that it reads, and on how many elements the arrays
/// have that live. Where other cells hold something else, its letter, whom it releases and starts, and the world
/// after it but for what cells hold are the same.
pub fn each_action_reads()
    ensures { EachActionReads }
{}

/// Law: along a run nothing that was there is lost. An instance keeps its block, its parent and its stack, and
/// once it is left it stays left; a process keeps its critical instance and its task; lines stay written.
pub fn each_run_grows()
    ensures { EachRunGrows }
{}

/// Law: the silent steps are those of the table: each row says what becomes of what stands at the head.
pub fn silent_steps_are_tabled()
    ensures { SilentStepsAreTabled }
{}

/// Law: no rest is stuck. In the world after a legal schedule the innermost part of each process that has parts
/// has a head that asks for an action, and so for exactly one.
pub fn each_part_acts()
    ensures { EachPartActs }
{}

/// Law: what a part has still to do is quiet. Its silent steps, taken once more around a head that has not
/// acted, change nothing.
pub fn each_rest_is_quiet()
    ensures { EachRestIsQuiet }
{}
