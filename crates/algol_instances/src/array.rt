//! Subscripts and elements. Numbers of elements that are too great for a `usize` are its greatest value, which no list
//! has as its length.

ghost use Rattle.std.specs.Prelude.{◌≡◌, map, Some};
ghost use Rattle.algol_meaning.specs.Value as plain;
ghost use Rattle.algol_meaning.specs.World as world;
ghost use Rattle.algol_meaning.specs.Settle.{sort_at};
ghost use Rattle.algol_cells.specs.SeenScope.{scoped};
ghost use Rattle.algol_cells.specs.SeenValue.{value};
ghost use Rattle.algol_meaning.specs.Arrays as arrays;
ghost use Rattle.algol_cells.specs.SeenCell as seen;
ghost use Rattle.algol_instances.specs.SeenInstance.{cell_or_none};
ghost use Rattle.algol_instances.specs.SeenArray.{capped, base_of};

use crate::lists::{item, no_items};
use crate::size::size_of;
use algol_cells::{ArrayCell, Bounds, Cell, Scopes, Value};
use algol_tree::{Named, Whole};
use std::alloc::Global;

/// The number of an element, row by row, before which so many rows lie.
#[tactic(auto, using(crate::proofs::Capping::capping))]
fn flat(before: usize, bounds: &[Bounds], subscripts: &[usize]) -> usize
    ensures { result ≡ capped (arrays.flat before (map seen.bounds bounds.now) subscripts.now) }
{
    match subscripts.split_first() {
        None => before,
        Some((k, rest)) => match bounds.split_first() {
            None => before,
            Some((b, further)) => {
                let rows = before.saturating_mul(size_of(b));
                flat(rows.saturating_add(*k), further, rest)
            }
        },
    }
}

/// The place of a subscript within bounds, from 0, where subscripts count from `low`.
fn placed(b: &Bounds, low: i64, subscript: i64) -> Option<usize>
    ensures { result ≡ arrays.placed (seen.bounds b.now) (arrays.moved_to (Some (seen.bounds b.now)) (Some low) subscript) }
{
    if low <= subscript && b.low <= b.high && subscript.abs_diff(low) <= b.high.abs_diff(b.low) {
        Some(subscript.abs_diff(low) as usize)
    } else {
        None
    }
}

/// The lower bound from which a formal array's subscripts count, none for another array.
fn base(scopes: &Scopes<'_>, n: &Named, dimension: usize) -> Option<i64>
    ensures { result ≡ base_of (sort_at (scoped scopes.now) n.now) dimension }
{
    match scopes.lows(n) {
        None => None,
        Some(lows) => match lows.get(dimension) {
            None => None,
            Some(low) => Some(*low),
        },
    }
}

/// The place of a subscript of what a name means, from 0. A subscript of a formal array is moved by the difference of the lower
/// bounds.
fn moved_place(
    scopes: &Scopes<'_>,
    n: &Named,
    b: &Bounds,
    dimension: usize,
    subscript: i64,
) -> Option<usize>
    ensures { result ≡ arrays.placed (seen.bounds b.now) (arrays.moved (sort_at (scoped scopes.now) n.now) (Some (seen.bounds b.now)) dimension subscript) }
{
    match base(scopes, n, dimension) {
        None => placed(b, b.low, subscript),
        Some(low) => placed(b, low, subscript),
    }
}

/// The place of the subscript of an array that comes after those before it, from 0.
fn place_in(
    scopes: &Scopes<'_>,
    n: &Named,
    array: &ArrayCell,
    before: &[usize],
    subscript: i64,
) -> Option<usize>
    ensures { result ≡ arrays.subscript_place (sort_at (scoped scopes.now) n.now) (seen.array array.now) before.now subscript }
{
    match item(&array.bounds, before.len()) {
        None => None,
        Some(b) => moved_place(scopes, n, b, before.len(), subscript),
    }
}

/// The place of the subscript of a cell that comes after those before it, from 0; none where the cell is no array.
pub fn subscript_place(
    scopes: &Scopes<'_>,
    n: &Named,
    cell: Option<&Cell<'_>>,
    before: &[usize],
    subscript: i64,
) -> Option<usize>
    ensures { result ≡ arrays.subscript_place (sort_at (scoped scopes.now) n.now) (world.array_in (cell_or_none cell.entry)) before.now subscript }
{
    match cell {
        Some(Cell::Array(array)) => place_in(scopes, n, array, before, subscript),
        _ => None,
    }
}

/// The value of an element, 0 where there is none.
fn element(array: &ArrayCell, subscripts: &[usize]) -> Value
    ensures { value result ≡ arrays.element_at (seen.array array.now) subscripts.now }
{
    let number = flat(0, array.bounds.items(), subscripts);
    let elements = array.elements.items();
    let count = elements.len();
    let elements = elements.as_slice();
    if number < count {
        elements[number]
    } else {
        Value::Number(Whole::zero())
    }
}

/// The value of an element of a cell, 0 where there is none.
pub fn element_at(cell: Option<&Cell<'_>>, subscripts: &[usize]) -> Value
    ensures { value result ≡ arrays.element_at (world.array_in (cell_or_none cell.entry)) subscripts.now }
{
    match cell {
        Some(Cell::Array(array)) => element(array, subscripts),
        _ => Value::Number(Whole::zero()),
    }
}

/// Another value of an element.
fn set_element(array: &mut ArrayCell, subscripts: &[usize], v: Value)
    ensures { seen.array array.new ≡ arrays.with_element (seen.array array.old) subscripts.now (value v) }
{
    let number = flat(0, array.bounds.items(), subscripts);
    let elements = array.elements.items_mut();
    if number < elements.len() {
        elements[number] = v;
    }
}

/// A cell with another value of an element; no array where it was none.
pub fn with_element<'p>(alloc: Global, cell: Cell<'p>, subscripts: &[usize], v: Value) -> Cell<'p>
    ensures { seen.cell result ≡ plain.array (arrays.with_element (world.array_in (seen.cell cell.entry)) subscripts.now (value v)) }
{
    match cell {
        Cell::Array(mut array) => {
            set_element(&mut array, subscripts, v);
            Cell::Array(array)
        }
        _ => Cell::Array(ArrayCell {
            bounds: no_items(alloc),
            elements: no_items(alloc),
        }),
    }
}
