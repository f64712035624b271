//! Why a reader found nothing.

ghost use Rattle.std.specs.Prelude.{◌≡◌};
ghost use Rattle.algol_tree.specs.declared.refusal.Refusal.TheVariants.{NoMemory};

use algol_tree::Refusal;
use std::alloc::{AllocError, AllocFailed};

/// A refusal, and how many tokens were left from the one that showed it on; or want of memory.
#[derive(Clone, Copy)]
pub struct Stop {
    pub left: usize,
    pub refusal: Refusal,
}

impl From<AllocError> for Stop {
    ghost from_gives = { λ _ e. e ≡ record { left = 0; refusal = NoMemory } };

    fn from(_error: AllocError) -> Stop {
        Stop {
            left: 0,
            refusal: Refusal::NoMemory,
        }
    }
}

impl<T: Drop> From<AllocFailed<T>> for Stop {
    ghost from_gives = { λ _ e. e ≡ record { left = 0; refusal = NoMemory } };

    fn from(_error: AllocFailed<T>) -> Stop {
        Stop {
            left: 0,
            refusal: Refusal::NoMemory,
        }
    }
}

impl From<Stop> for Refusal {
    ghost from_gives = { λ stop e. e ≡ stop.refusal };

    fn from(stop: Stop) -> Refusal {
        stop.refusal
    }
}
