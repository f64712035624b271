//! The names that are found in a tree.

ghost use Rattle.std.specs.Prelude.{◌≡◌, [], ◌∷◌, ◌++◌, length, OnOk};
ghost use Rattle.algol_names.specs.Found.{at, at_left};

use algol_tree::{Named, Spot};
use std::alloc::AllocError;

/// A name where it is used: its place, how many blocks are around that, and whether it stands on the left of an assignment.
#[derive(Clone, Copy)]
pub struct Found {
    pub spot: Spot,
    pub around: usize,
    pub is_left: bool,
}

/// A name, after others. `outer` are the places of the blocks around it.
pub fn add(names: &mut Vec<Found>, n: &Named, outer: &[Spot]) -> Result<(), AllocError>
    ensures { OnOk result (names.new.items ≡ names.old.items ++ at n.now (length outer.now) ∷ []) }
{
    names.push(Found {
        spot: n.spot,
        around: outer.len(),
        is_left: false,
    })?;
    Ok(())
}

/// A name on the left of an assignment, after others.
pub fn add_left(names: &mut Vec<Found>, n: &Named, outer: &[Spot]) -> Result<(), AllocError>
    ensures { OnOk result (names.new.items ≡ names.old.items ++ at_left n.now (length outer.now) ∷ []) }
{
    names.push(Found {
        spot: n.spot,
        around: outer.len(),
        is_left: true,
    })?;
    Ok(())
}
