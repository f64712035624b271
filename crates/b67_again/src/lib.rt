//! Stores that are begun again, and compared with one another.
//!
//! A machine that is run from its first image many times keeps its store ([`Again::clear_from`]), and is compared with
//! another one by what their stores hold ([`Again::same`]).
#![tactic(auto)]

ghost use Rattle.std.specs.Prelude.{◌≡◌, [], take, true};

use b67_store::Core;

/// A store that gives up what was opened in it, and compares itself with another one of its kind.
pub trait Again: Core {
    /// Closes all rows, and all stacks from this number on, and leaves no places for them in the lists. The memory of the rows is kept.
    fn clear_from(&mut self, stack: u16)
        ensures stacks { Self.stacks self.new ≡ take stack (Self.stacks self.old) }
        ensures rows { Self.rows self.new ≡ [] };

    /// Tests that two stores have the same stacks and the same rows, open at the same numbers. `false` says nothing.
    fn same(&self, other: &Self) -> bool
        ensures stacks { result ≡ true → Self.stacks self.now ≡ Self.stacks other.now }
        ensures rows { result ≡ true → Self.rows self.now ≡ Self.rows other.now };

    /// A number made of another one, of its stacks and of its rows: the same for stores that are the same. Nothing more is said of it.
    fn mixed(&self, hash: u64) -> u64;
}

// An odd number whose bits are in no order.
const FACTOR: u64 = 0x9E37_79B9_7F4A_7C15;

/// A number made of another one and of one more, whose bits are spread over it. Nothing more is said of it.
#[inline(always)]
pub fn mix(hash: u64, more: u64) -> u64 {
    let mixed = (hash ^ more).wrapping_mul(FACTOR);
    mixed ^ (mixed >> 32)
}
