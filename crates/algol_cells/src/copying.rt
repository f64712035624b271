//! Copies of lists and of cells.

ghost use Rattle.std.specs.Prelude.{◌≡◌, IfOk};

use crate::cell::{ArrayCell, Cell, EventCell};
use algol_tree::List;
use std::alloc::{AllocError, Global};

/// A list of these items.
pub fn copied<T: Copy>(alloc: Global, items: &[T]) -> Result<List<T>, AllocError>
    ensures { IfOk result (λ list. list ≡ items.now) }
{
    let mut list = Vec::new(alloc);
    list.extend_from_slice(items)?;
    Ok(List::of(list))
}

/// A copy of a list.
pub fn copy_list<T: Copy>(alloc: Global, list: &List<T>) -> Result<List<T>, AllocError>
    ensures { IfOk result (λ copy. copy ≡ list.now) }
{
    copied(alloc, list.items())
}

/// A copy of an event.
fn copy_event(alloc: Global, event: &EventCell) -> Result<EventCell, AllocError>
    ensures { IfOk result (λ copy. copy ≡ event.now) }
{
    Ok(EventCell {
        happened: event.happened,
        available: event.available,
        waiters: copy_list(alloc, &event.waiters)?,
        procurers: copy_list(alloc, &event.procurers)?,
    })
}

/// A copy of an array.
fn copy_array(alloc: Global, array: &ArrayCell) -> Result<ArrayCell, AllocError>
    ensures { IfOk result (λ copy. copy ≡ array.now) }
{
    Ok(ArrayCell {
        bounds: copy_list(alloc, &array.bounds)?,
        elements: copy_list(alloc, &array.elements)?,
    })
}

/// A copy of a cell.
pub fn copy_cell<'p>(alloc: Global, cell: &Cell<'p>) -> Result<Cell<'p>, AllocError>
    ensures { IfOk result (λ copy. copy ≡ cell.now) }
{
    match cell {
        Cell::Simple(v) => Ok(Cell::Simple(*v)),
        Cell::Event(event) => Ok(Cell::Event(copy_event(alloc, event)?)),
        Cell::Array(array) => Ok(Cell::Array(copy_array(alloc, array)?)),
        Cell::Named(actual, instance) => Ok(Cell::Named(*actual, *instance)),
        Cell::Reference(r) => Ok(Cell::Reference(*r)),
    }
}
