//! Copies of instances and their cells.

ghost use Rattle.std.specs.Prelude.{◌≡◌, IfOk};

use crate::instance::{Instance, NamedCell};
use algol_cells::copy_cell;
use algol_tree::List;
use std::alloc::{AllocError, Global};

/// A copy of a cell with its name.
fn copy_named<'p>(alloc: Global, named: &NamedCell<'p>) -> Result<NamedCell<'p>, AllocError>
    ensures { IfOk result (λ copy. copy ≡ named.now) }
{
    Ok(NamedCell {
        name: named.name,
        cell: copy_cell(alloc, &named.cell)?,
    })
}

/// Copies of the cells of an instance.
fn copy_cells<'p>(alloc: Global, cells: &[NamedCell<'p>]) -> Result<List<NamedCell<'p>>, AllocError>
    ensures { IfOk result (λ copies. copies ≡ cells.now) }
{
    let mut copies = Vec::with_capacity(alloc, cells.len())?;
    for named in cells {
        copies.push(copy_named(alloc, named)?)?;
    }
    Ok(List::of(copies))
}

/// A copy of an instance.
fn copy_instance<'p>(alloc: Global, from: &Instance<'p>) -> Result<Instance<'p>, AllocError>
    ensures { IfOk result (λ copy. copy ≡ from.now) }
{
    Ok(Instance {
        block: from.block,
        parent: from.parent,
        process: from.process,
        cells: copy_cells(alloc, from.cells.items())?,
        left: from.left,
    })
}

/// Copies of instances.
pub fn copy_instances<'p>(
    alloc: Global,
    instances: &[Instance<'p>],
) -> Result<List<Instance<'p>>, AllocError>
    ensures { IfOk result (λ copies. copies ≡ instances.now) }
{
    let mut copies = Vec::with_capacity(alloc, instances.len())?;
    for from in instances {
        copies.push(copy_instance(alloc, from)?)?;
    }
    Ok(List::of(copies))
}
