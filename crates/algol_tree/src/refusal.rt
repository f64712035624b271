ghost use Rattle.std.specs.Prelude.{◌≡◌};
ghost use Rattle.algol_tree.specs.declared.refusal.Refusal.TheVariants.{NoMemory};

use crate::token::Spot;
use std::alloc::{AllocError, AllocFailed};

/// Why a source is refused. The letter and the number of each, as they are printed, stand in a table of their own.
#[derive(Clone, Copy, PartialEq, Eq)]
pub enum Code {
    BadCharacter,
    LineTooLong,
    OpenString,
    NumberTooWide,
    NameTooLong,
    Unexpected,
    TooDeep,
    TextAfterEnd,
    UnknownName,
    DeclaredTwice,
    TooManyLevels,
    TooManyCells,
    TooManyProcedures,
    SegmentTooLong,
    WrongType,
    WrongCount,
    NotAssignable,
    WriteList,
    LineTooWide,
    BadLabel,
}

/// A rule that is broken at a place.
#[derive(Clone, Copy)]
pub struct Fault {
    pub spot: Spot,
    pub code: Code,
}

/// A refusal of a source: the place and the reason, or want of memory.
#[derive(Clone, Copy, PartialEq, Eq)]
pub enum Refusal {
    At { spot: Spot, code: Code },
    NoMemory,
}

impl From<AllocError> for Refusal {
    ghost from_gives = { λ _ e. e ≡ NoMemory };

    fn from(_error: AllocError) -> Refusal {
        Refusal::NoMemory
    }
}

impl<T: Drop> From<AllocFailed<T>> for Refusal {
    ghost from_gives = { λ _ e. e ≡ NoMemory };

    fn from(_error: AllocFailed<T>) -> Refusal {
        Refusal::NoMemory
    }
}
