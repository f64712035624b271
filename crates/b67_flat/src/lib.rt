//! The store of the machine with all rows in one flat memory.
//!
//! `FlatCore` keeps all rows in one list of words. Each that is open has a span of it, of its length. Spans do not overlap, and
//! stand in ascending order. Opening takes the least place at which there is room; closing takes the span away, and moves no
//! word. A stack has words of its own, of which only so many are written as it came to use.
#![tactic(auto)]

ghost use Rattle.b67_flat.specs.Spans.{PlacesAreLeast};
ghost use Rattle.b67_flat.specs.declared.memory.TheConstants.{MOST_WORDS};
ghost use Rattle.b67_flat.specs.declared.spans.TheConstants.{CHUNK};
ghost use Rattle.b67_flat.specs.declared.widest.TheConstants.{GROUP};
ghost use Rattle.std.specs.Prelude.{◌≡◌, ◌^◌};

mod flat_core;
mod memory;
mod row_table;
mod spans;
mod widest;

pub use flat_core::FlatCore;

/// Words that follow one another and belong to one row.
#[derive(Clone, Copy)]
pub struct Span {
    /// The place of the first one.
    pub place: u64,
    /// How many there are.
    pub length: u32,
    /// The number of the row.
    pub row: u32,
}

/// Law: the place at which a span is opened is the least at which so many words belong to no span.
pub fn places_are_least()
    ensures { PlacesAreLeast }
{}

/// Law: the numbers of this crate, which a memory and its spans are defined with: a place has 32 bits, and for 64 spans, and for 64 times
/// as many, it is kept how wide the gaps before them are at most.
pub fn numbers_are_told()
    ensures words { MOST_WORDS ≡ 2 ^ 32 }
    ensures chunk { CHUNK ≡ 64 }
    ensures group { GROUP ≡ 64 }
{}
