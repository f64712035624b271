//! What stands after the name of a cell.

ghost use Rattle.std.specs.Prelude.{◌≡◌, ◌++◌, OnOk};
ghost use Rattle.algol_cells.specs.SeenCell as seen;
ghost use Rattle.algol_cells.specs.SeenValue.{value};
ghost use Rattle.algol_meaning.specs.SeenTree.{expr};
ghost use Rattle.b67_dump.specs.Cells.{simple_text, event_text, array_text, reference_text, actual_text, content_text};

use crate::parts::{push_available, push_bounds, push_each, push_happened, push_spot, push_value};
use algol_cells::{ArrayCell, Cell, EventCell, Reference, Value};
use algol_rules::first_spot;
use algol_tree::Expr;
use b67_list::push_number;
use std::alloc::AllocError;

/// Appends the value of a variable.
fn push_simple(text: &mut Vec<u8>, v: Value) -> Result<(), AllocError>
    ensures { OnOk result (text.new.items ≡ text.old.items ++ simple_text (value v)) }
{
    text.extend_from_slice(b" = ")?;
    push_value(text, v)
}

/// Appends the states of an event, and who waits for it.
fn push_event(text: &mut Vec<u8>, event: &EventCell) -> Result<(), AllocError>
    ensures { OnOk result (text.new.items ≡ text.old.items ++ event_text (seen.event event.now)) }
{
    push_happened(text, event.happened)?;
    push_available(text, event.available)?;
    push_each(text, b" WAITS ", event.waiters.items())?;
    push_each(text, b" PROCURES ", event.procurers.items())
}

/// Appends the bounds of an array.
fn push_array(text: &mut Vec<u8>, array: &ArrayCell) -> Result<(), AllocError>
    ensures { OnOk result (text.new.items ≡ text.old.items ++ array_text (seen.array array.now)) }
{
    text.extend_from_slice(b" ARRAY ")?;
    push_bounds(text, array.bounds.items())
}

/// Appends the cell that a cell stands for.
fn push_reference(text: &mut Vec<u8>, r: Reference<'_>) -> Result<(), AllocError>
    ensures { OnOk result (text.new.items ≡ text.old.items ++ reference_text (seen.reference r.entry)) }
{
    push_number(text, b" REF ", r.instance)?;
    text.extend_from_slice(b" ")?;
    text.extend_from_slice(r.name.bytes())
}

/// Appends where the actual of a name parameter stands, and in which instance.
fn push_actual(text: &mut Vec<u8>, actual: &Expr, instance: usize) -> Result<(), AllocError>
    ensures { OnOk result (text.new.items ≡ text.old.items ++ actual_text (record { actual = expr actual.now; instance = instance })) }
{
    push_number(text, b" ACTUAL ", instance)?;
    text.extend_from_slice(b" ")?;
    push_spot(text, first_spot(actual))
}

/// Appends what a cell holds.
pub fn push_content(text: &mut Vec<u8>, cell: &Cell<'_>) -> Result<(), AllocError>
    ensures { OnOk result (text.new.items ≡ text.old.items ++ content_text (seen.cell cell.now)) }
{
    match cell {
        Cell::Simple(v) => push_simple(text, *v),
        Cell::Event(event) => push_event(text, event),
        Cell::Array(array) => push_array(text, array),
        Cell::Reference(r) => push_reference(text, *r),
        Cell::Named(actual, instance) => push_actual(text, actual, *instance),
    }
}
