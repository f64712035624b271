//! What keeps an intrinsic that makes something from being performed.

use b67_reach::Stop;
use std::alloc::AllocError;

/// What keeps an intrinsic that makes something from being performed.
#[derive(Clone, Copy)]
pub enum Hindrance {
    /// The operator table stops it.
    Stopped(Stop),
    /// There is no memory for what it makes, or no number for a row.
    NoMemory,
}

impl From<Stop> for Hindrance {
    ghost use Rattle.std.specs.Prelude.{◌≡◌};
    ghost use Rattle.b67_intrinsics.specs.declared.hindrance.Hindrance.TheVariants.{Stopped};

    ghost from_gives = { λ stop hindrance. hindrance ≡ Stopped stop };

    fn from(stop: Stop) -> Hindrance {
        Hindrance::Stopped(stop)
    }
}

impl From<AllocError> for Hindrance {
    ghost use Rattle.std.specs.Prelude.{◌≡◌};
    ghost use Rattle.b67_intrinsics.specs.declared.hindrance.Hindrance.TheVariants.{NoMemory};

    ghost from_gives = { λ _ hindrance. hindrance ≡ NoMemory };

    fn from(_: AllocError) -> Hindrance {
        Hindrance::NoMemory
    }
}
