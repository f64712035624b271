//! Settling: local entries may come before all others, so that a search need not try them later.
//!
//! An entry of a process is local where it asks and writes nothing but what is its process's own, and no other process comes to that. All that comes of
//! an image comes of the one after the local entry too: so only images that have settled by such entries need be kept.
#![tactic(auto)]

ghost use Rattle.b67_settling.specs.Laws.{LocalEntriesPass, OwnEntriesAreLocal, StackEntriesAreLocal, OthersLeaveStacks, ReadsAreLocal, StoresAreLocal, TurnsAreLocal, Settled, RunsComeTo};

/// Law: a local entry ends no run and writes no line; each other process has its entry before it and after it alike, and comes to the stack limit alike.
pub fn local_entries_pass()
    ensures { LocalEntriesPass }
{}

/// Law: an entry is local whose action asks and writes only what lies above its process's floor.
pub fn own_entries_are_local()
    ensures { OwnEntriesAreLocal }
{}

/// Law: of a code whose stacks stay own an entry is local whose action asks and writes only its process's stack, on which nobody depends.
pub fn stack_entries_are_local()
    ensures { StackEntriesAreLocal }
{}

/// Law: of a code whose stacks stay own every operator of another leaves a process on whose stack nobody depends its registers and all its words.
pub fn others_leave_stacks()
    ensures { OthersLeaveStacks }
{}

/// Law: so an entry is local whose action is to read a cell there.
pub fn reads_are_local()
    ensures { ReadsAreLocal }
{}

/// Law: and one whose action is to store in a cell there.
pub fn stores_are_local()
    ensures { StoresAreLocal }
{}

/// Law: an entry is local whose action is a branch that does not go forward.
pub fn turns_are_local()
    ensures { TurnsAreLocal }
{}

/// Law: what comes of an image, an end or a stack limit, comes of the one to which it settles, by no more entries.
pub fn settled()
    ensures { Settled }
{}

/// Law: what a run comes to comes of the first image.
pub fn runs_come_to()
    ensures { RunsComeTo }
{}
