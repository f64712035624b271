//! The intrinsics: what `ENTR` does by itself, where it enters a procedure of the system.

ghost use Rattle.std.specs.Prelude.{◌≡◌};
ghost use Rattle.b67_ops.specs.Intrinsics.{intrinsic_number_of, couple_of_intrinsic};

use crate::Couple;

/// The intrinsics. An intrinsic's number is its index in the stack of the system, stack 0, where its
/// control word stands, and stands in that word too. Numbers and effects are this project's profile.
#[derive(Clone, Copy)]
pub enum Intrinsic {
    /// Goes to a place of a block that encloses this one.
    GoTo = 2,
    /// Goes to the place of a case.
    Select,
    /// Makes arrays.
    Arrays,
    /// Makes an event.
    Event,
    /// Starts a process.
    Start,
    /// Writes a line.
    Write,
    /// Waits for an event.
    Wait,
    /// Causes an event.
    Cause,
    /// Resets an event.
    Reset,
    /// Tells whether an event has happened.
    Happened,
    /// Takes an event for this process only.
    Procure,
    /// Gives such an event to the next process.
    Liberate,
    /// Goes on by the first of several events that has happened, or waits for all of them.
    WaitAny,
    /// Releases those who wait for an event, which has not happened then.
    CauseAndReset,
    /// Tells whether an event is available.
    Available,
    /// Takes an event for this process only, if it can, and tells whether it could not.
    Fix,
}

/// The number of the first intrinsic. Below it stand the mark and the control word of the system.
pub const FIRST_INTRINSIC: u16 = Intrinsic::GoTo as u16;

/// The number of the last intrinsic.
pub const LAST_INTRINSIC: u16 = Intrinsic::Fix as u16;

/// How many intrinsics there are.
pub const INTRINSICS: usize = (LAST_INTRINSIC - FIRST_INTRINSIC + 1) as usize;

impl Intrinsic {
    /// The number of the intrinsic.
    pub fn number(self) -> u16
        ensures { result ≡ intrinsic_number_of self }
    {
        self as u16
    }

    /// The couple that names the intrinsic's control word: level 0 names the stack of the system.
    pub fn couple(self) -> Couple
        ensures { result ≡ couple_of_intrinsic self }
    {
        Couple {
            level: 0,
            index: self.number(),
        }
    }
}
