//! Why lines are not read as a listing.

ghost use Rattle.std.specs.Prelude.{◌≡◌};
ghost use Rattle.b67_listing_reader.specs.declared.refusal.ReadListing.TheVariants.{NoMemory};

use std::alloc::{AllocError, AllocFailed};

/// Why lines are not read as a listing: no listing has the lines through this one, counted from 1, and one has those
/// before it; or memory ran out. Where the lines begin a listing and are none, it is the line after the last one.
#[derive(Clone, Copy)]
pub enum ReadListing {
    BadListing { line: u32 },
    NoMemory,
}

impl From<AllocError> for ReadListing {
    ghost from_gives = { λ _ e. e ≡ NoMemory };

    fn from(_error: AllocError) -> ReadListing {
        ReadListing::NoMemory
    }
}

impl<T: Drop> From<AllocFailed<T>> for ReadListing {
    ghost from_gives = { λ _ e. e ≡ NoMemory };

    fn from(_error: AllocFailed<T>) -> ReadListing {
        ReadListing::NoMemory
    }
}
