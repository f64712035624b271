//! The lines of a cell.

ghost use Rattle.std.specs.Prelude.{◌≡◌, ◌++◌, ◌<◌, ◌^◌, ◌-◌, map, IfOk, OnOk};
ghost use Rattle.algol_cells.specs.SeenCell as seen;
ghost use Rattle.algol_cells.specs.SeenValue.{value};
ghost use Rattle.b67_dump.specs.Cells.{content_text, element_line, element_lines, cell_lines};

use crate::content::push_content;
use crate::parts::{push_subscripts, push_value};
use algol_cells::{ArrayCell, Bounds, Cell, Value};
use b67_list::Line;
use std::alloc::{AllocError, Global};

/// The line of an element of an array.
fn element_line(
    alloc: Global,
    name: &Line,
    bounds: &[Bounds],
    number: usize,
    v: Value,
) -> Result<Line, AllocError>
    requires { number < 2 ^ 64 - 1 }
    ensures { IfOk result (λ line. line ≡ element_line name.now (map seen.bounds bounds.now) number (value v)) }
{
    let mut text = Vec::from_slice(alloc, name.bytes())?;
    text.extend_from_slice(b"[")?;
    push_subscripts(&mut text, bounds, number)?;
    text.extend_from_slice(b"] = ")?;
    push_value(&mut text, v)?;
    Ok(Line::of(text))
}

/// Appends the lines of the elements of an array.
fn push_elements(
    alloc: Global,
    lines: &mut Vec<Line>,
    name: &Line,
    array: &ArrayCell,
) -> Result<(), AllocError>
    ensures { OnOk result (lines.new.items ≡ lines.old.items ++ element_lines name.now (map seen.bounds array.now.bounds) 0 (map value array.now.elements)) }
{
    let bounds = array.bounds.items().as_slice();
    let mut number = 0;
    'elements: for v in array.elements.items() {
        lines.push(element_line(alloc, name, bounds, number, *v)?)?;
        number += 1;
    }
    Ok(())
}

/// The line of a cell of that name.
fn cell_line(alloc: Global, name: &Line, cell: &Cell<'_>) -> Result<Line, AllocError>
    ensures { IfOk result (λ line. line ≡ name.now ++ content_text (seen.cell cell.now)) }
{
    let mut text = Vec::from_slice(alloc, name.bytes())?;
    push_content(&mut text, cell)?;
    Ok(Line::of(text))
}

/// Appends the lines of a cell of that name.
pub fn push_cell(
    alloc: Global,
    lines: &mut Vec<Line>,
    name: &Line,
    cell: &Cell<'_>,
) -> Result<(), AllocError>
    ensures { OnOk result (lines.new.items ≡ lines.old.items ++ cell_lines name.now (seen.cell cell.now)) }
{
    lines.push(cell_line(alloc, name, cell)?)?;
    match cell {
        Cell::Array(array) => push_elements(alloc, lines, name, array),
        _ => Ok(()),
    }
}
