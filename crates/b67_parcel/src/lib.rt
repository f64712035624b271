//! What a processor of a plant works on by itself, while others have the plant: a copy of a part of one process.
//!
//! A parcel that may have no entries has the private part of its process, and plain operators are performed on it. One that may have some has
//! the whole stack: plain operators, and actions that go on and read and write that stack only. What is performed is the process's own whatever
//! the others do meanwhile, so the image in which it lands need only have the start that was taken.
#![tactic(auto)]

mod copying;
mod fetching;
mod working;

ghost use Rattle.std.specs.Prelude.{ℕ, []};
ghost use Rattle.b67_segment.specs.declared.code.Code.{Code as MachineCode};

pub use fetching::Ahead;
use std::marker::Brand;
use std::sync::ledger::Ledger;
pub use working::Parcel;

/// Which run a plant is of: nothing of a plant is known across its lock but what its type says.
pub trait Named: Ledger {
    ghost code: { MachineCode };

    ghost budget: { ℕ };

    ghost processors: { ℕ };

    ghost pick: { ℕ → ℕ → ℕ };

    /// The name of the tally of the processors' acts.
    ghost tally: { ℕ };
}

impl Named for Brand {
    ghost code = { record { segments = []; formats = [] } };

    ghost budget = { 0 };

    ghost processors = { 0 };

    ghost pick = { λ length takes. 0 };

    ghost tally = { 0 };
}
