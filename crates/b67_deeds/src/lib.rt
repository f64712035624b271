//! What a process does: the actions, each with its letter, and what is done with events.
//!
//! Language and machine read one table: the source's actions are those of the printed code. The statements and
//! tests of events are those of the B6700's Extended ALGOL; their letters, and that processes are released in the
//! order in which they came, are this project's profile.
#![tactic(auto)]

ghost use Rattle.std.specs.Prelude.{◌≡◌};
ghost use Rattle.b67_deeds.specs.Letters.{byte_of};
ghost use Rattle.b67_deeds.specs.Laws.{LettersDiffer};

/// The actions of a process: each entry of a schedule is one. Each has the byte of its letter as its number.
#[derive(Clone, Copy, PartialEq, Eq)]
pub enum Letter {
    /// `R`: reads a variable.
    Read = 82,
    /// `I`: leads to a row or an element of an array.
    Index = 73,
    /// `Q`: reads an element of an array.
    ElementRead = 81,
    /// `P`: leads to the variable that a parameter by name stands for.
    Resolve = 80,
    /// `S`: stores to a variable.
    Store = 83,
    /// `T`: stores to an element of an array.
    ElementStore = 84,
    /// `A`: gives on what a parameter stands for.
    Pass = 65,
    /// `E`: enters a block, a procedure, or what a parameter by name stands for.
    Enter = 69,
    /// `L`: leaves what was entered.
    Leave = 76,
    /// `M`: makes arrays.
    MakeArrays = 77,
    /// `V`: makes an event.
    MakeEvent = 86,
    /// `C`: goes to the statement of a case.
    Select = 67,
    /// `U`: goes back to the beginning of a loop.
    Turn = 85,
    /// `G`: goes to a label.
    GoTo = 71,
    /// `W`: writes a line.
    Line = 87,
    /// `B`: starts a process.
    Start = 66,
    /// `X`: the end of the process.
    End = 88,
    /// `F`: a fault.
    Fault = 70,
    /// `w`: waits for an event to happen.
    Wait = 119,
    /// `c`: makes an event happen.
    Cause = 99,
    /// `r`: makes an event one that has not happened.
    Reset = 114,
    /// `h`: tells whether an event has happened.
    Happened = 104,
    /// `p`: takes an event for this process only.
    Procure = 112,
    /// `l`: gives such an event to the next process.
    Liberate = 108,
    /// `a`: goes on by the first of several events that has happened, or waits for all of them.
    WaitAny = 97,
    /// `k`: goes on by the event that released it, after a wait for several.
    Woke = 107,
    /// `d`: releases who waits for an event, which has not happened then.
    CauseAndReset = 100,
    /// `v`: tells whether an event is available.
    Available = 118,
    /// `f`: takes an event for this process only, if it can, and tells whether it could not.
    Fix = 102,
}

impl Letter {
    /// The byte of the letter, by which a run is seen.
    pub fn byte(self) -> u8
        ensures { result ≡ byte_of self }
    {
        self as u8
    }
}

/// The statements on an event.
#[derive(Clone, Copy, PartialEq, Eq)]
pub enum EventAct {
    /// The event happens, and all who wait for it are released.
    Cause,
    /// All who wait for the event are released, and it has not happened.
    CauseAndReset,
    /// The event has not happened.
    Reset,
    /// Goes on where the event has happened, else waits for it.
    Wait,
    /// Takes the event where it is available, else waits to procure it.
    Procure,
    /// Gives the event to the first who waits to procure it; where nobody does, it is available.
    Liberate,
}

/// What an expression asks of events.
#[derive(Clone, Copy, PartialEq, Eq)]
pub enum EventTest {
    /// Whether an event has happened.
    Happened,
    /// Whether an event is available.
    Available,
    /// Whether an event is not available; where it is, it is taken.
    Fix,
    /// Which of several events has happened, counted from 1; where none has, the process waits for all of them.
    WaitAny,
}

/// Law: no two actions have one letter, and each statement or test of events is an action of its own.
pub fn letters_differ()
    ensures { LettersDiffer }
{}
