//! What each action does with cells and events, told beside the action itself.
#![tactic(auto)]

mod access;
mod names;
mod seen;
mod signal;

ghost use Rattle.algol_seen.specs.Laws.{EachAccessIsTold, EachSignalIsTold};

pub use access::access_of;
pub use names::{Access, CellName, Signal};
pub use seen::{Seen, step_seen};
pub use signal::{acting_of, signal_after};

/// Law: an action that is told to access a cell has the letter of that access. One that stores may change that cell only, one that reads
/// changes none, and depends on that one; and no read or store of a variable goes untold.
pub fn each_access_is_told()
    ensures { EachAccessIsTold }
{}

/// Law: an action that is told to do something with an event is a statement or a test that does that, and finds the event so; and no CAUSE
/// goes untold.
pub fn each_signal_is_told()
    ensures { EachSignalIsTold }
{}
