//! How many elements arrays have. Numbers that are too great for a `usize` are its greatest value.

ghost use Rattle.std.specs.Prelude.{◌≡◌, map};
ghost use Rattle.algol_meaning.specs.Arrays as arrays;
ghost use Rattle.algol_cells.specs.SeenCell as seen;
ghost use Rattle.algol_instances.specs.SeenArray.{capped};
ghost use Rattle.algol_instances.specs.SeenInstance.{named_cells, instance};
ghost use Rattle.algol_instances.specs.Counting as counting;
ghost use Rattle.algol_instances.specs.Counting.{Adjusts};

use crate::instance::{Instance, NamedCell};
use algol_cells::{Bounds, Cell};
use algol_tree::List;

/// How many subscripts lie within bounds.
pub fn size_of(b: &Bounds) -> usize
    ensures { result ≡ capped (arrays.size_of (seen.bounds b.now)) }
{
    if b.low <= b.high {
        (b.high.abs_diff(b.low) as usize).saturating_add(1)
    } else {
        0
    }
}

/// How many elements an array with these bounds has.
#[tactic(auto, using(crate::proofs::Capping::capping))]
pub fn elements_of(bounds: &[Bounds]) -> usize
    ensures { result ≡ capped (arrays.elements_of (map seen.bounds bounds.now)) }
{
    match bounds.split_first() {
        None => 1,
        Some((b, further)) => size_of(b).saturating_mul(elements_of(further)),
    }
}

/// Tests that some upper bound is below its lower bound.
pub fn some_empty(bounds: &[Bounds]) -> bool
    ensures { result ≡ arrays.some_empty (map seen.bounds bounds.now) }
{
    'asking: for b in bounds {
        if b.high < b.low {
            return true;
        }
    }
    false
}

/// Tests that a cell is an array.
pub fn is_array(cell: &Cell<'_>) -> bool
    ensures { result ≡ counting.cell_is_array (seen.cell cell.now) }
{
    match cell {
        Cell::Array(_) => true,
        _ => false,
    }
}

/// How many elements a cell has: none where it is no array.
pub fn size_of_cell(cell: &Cell<'_>) -> usize
    ensures { result ≡ capped (arrays.size_of_cell (seen.cell cell.now)) }
{
    match cell {
        Cell::Array(array) => elements_of(array.bounds.items()),
        _ => 0,
    }
}

/// How many elements cells have.
#[tactic(auto, using(crate::proofs::Capping::adding))]
pub fn size_of_cells(cells: &[NamedCell<'_>]) -> usize
    ensures { result ≡ capped (arrays.size_of_cells (named_cells cells.now)) }
{
    let mut size: usize = 0;
    'adding: for c in cells {
        size = size.saturating_add(size_of_cell(&c.cell));
    }
    size
}

/// How many elements the arrays of an instance have that live: none where it is left.
pub fn live_in(x: &Instance<'_>) -> usize
    ensures { result ≡ capped (counting.live_in (instance x.now)) }
{
    if x.left {
        0
    } else {
        size_of_cells(x.cells.items())
    }
}

/// How many elements the arrays of instances have that live.
#[tactic(auto, using(crate::proofs::Capping::adding))]
pub fn live_in_all(instances: &[Instance<'_>]) -> usize
    ensures { result ≡ capped (arrays.live_elements (map instance instances.now)) }
{
    let mut size: usize = 0;
    'adding: for x in instances {
        size = size.saturating_add(live_in(x));
    }
    size
}

/// How many elements live after so many are gone and so many have come. They are counted anew where there may be too many
/// for a `usize`.
#[tactic(auto, using(crate::proofs::Capping::adjusting))]
pub fn adjusted(lived: usize, gone: usize, come: usize, instances: &List<Instance<'_>>) -> usize
    requires { Adjusts lived gone come (arrays.live_elements (map instance instances.now)) }
    ensures { result ≡ capped (arrays.live_elements (map instance instances.now)) }
{
    let most = lived.saturating_add(come);
    if most < usize::MAX {
        most - gone
    } else {
        live_in_all(instances.items())
    }
}
