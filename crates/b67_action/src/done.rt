// What an action comes to.
ghost use Rattle.std.specs.Prelude.{◌≡◌};
ghost use Rattle.b67_action.specs.Done.{went, hindered_by};
ghost use Rattle.b67_action.specs.Lettered.{letter_by_done};

use b67_deeds::Letter;
use b67_intrinsics::Hindrance;
use b67_num::FaultKind;
use b67_reach::{InterruptKind, ProcessState, Stop};

/// What an action came to.
#[derive(Clone, Copy, PartialEq, Eq)]
pub enum Done {
    /// The process can go on.
    Went,
    /// The process waits for an event.
    Waits,
    /// The process has ended.
    Ended,
    /// The operator is at fault, and has changed nothing.
    Fault(FaultKind),
    /// The operator can not be performed, and has changed nothing.
    Interrupt(InterruptKind),
    /// The process's stack would have more words than a stack can have; nothing has changed.
    StackLimit,
    /// There is no memory for what an intrinsic makes; nothing has changed.
    NoMemory,
}

/// What an operator that was performed came to, by the state of the process after it.
pub fn went(state: ProcessState) -> Done
    ensures { result ≡ went state }
{
    match state {
        ProcessState::Able => Done::Went,
        ProcessState::WaitsFor(_) => Done::Waits,
        ProcessState::WaitsAny => Done::Waits,
        ProcessState::Procures(_) => Done::Waits,
        ProcessState::Ended => Done::Ended,
    }
}

/// What an operator came to that was not performed.
pub fn hindered_by(hindrance: Hindrance) -> Done
    ensures { result ≡ hindered_by hindrance }
{
    match hindrance {
        Hindrance::Stopped(Stop::Interrupt(kind)) => Done::Interrupt(kind),
        Hindrance::Stopped(Stop::Fault(kind)) => Done::Fault(kind),
        Hindrance::Stopped(Stop::StackLimit) => Done::StackLimit,
        Hindrance::NoMemory => Done::NoMemory,
    }
}

/// The letter of what was not performed: a fault has its own.
pub fn letter_by(done: Done) -> Option<Letter>
    ensures { result ≡ letter_by_done done }
{
    match done {
        Done::Fault(_) => Some(Letter::Fault),
        _ => None,
    }
}
