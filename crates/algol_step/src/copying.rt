//! Copies of cells, as parameters are passed on.

ghost use Rattle.std.specs.Prelude.{◌≡◌, IfOk};
ghost use Rattle.algol_cells.specs.SeenCell as seen;
ghost use Rattle.algol_instances.specs.SeenInstance.{cell_or_none};

use algol_cells::{Cell, Value, copy_cell};
use algol_tree::Whole;
use std::alloc::{AllocError, Global};

/// A copy of a cell, a number 0 where there is none.
pub fn copy_or_zero<'p>(alloc: Global, cell: Option<&Cell<'p>>) -> Result<Cell<'p>, AllocError>
    ensures { IfOk result (λ copy. seen.cell copy ≡ cell_or_none cell.entry) }
{
    match cell {
        None => Ok(Cell::Simple(Value::Number(Whole::zero()))),
        Some(found) => copy_cell(alloc, found),
    }
}
