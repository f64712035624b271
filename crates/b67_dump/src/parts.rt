//! The parts of a line.

ghost use Rattle.std.specs.Prelude.{◌≡◌, ◌++◌, ◌<◌, ◌^◌, ◌-◌, ◌/◌, ◌%◌, ◌≤◌, ◌+ℤ◌, pos, map, OnOk};
ghost use Rattle.b67_list.specs.Lines.{digits_of};
ghost use Rattle.algol_meaning.specs.Arrays.{elements_of};
ghost use Rattle.algol_cells.specs.SeenCell as seen;
ghost use Rattle.algol_cells.specs.SeenValue.{value};
ghost use Rattle.b67_dump.specs.Cells.{spot_text, value_text, happened_text, available_text, each_text, bound_text, further_bounds, bounds_text, subscripts_of, further_text, subscripts_text};

use algol_cells::{Bounds, Value};
use algol_instances::elements_of;
use algol_tree::Spot;
use b67_list::push_number;
use std::alloc::AllocError;

/// Appends a place in the text of a source.
pub fn push_spot(text: &mut Vec<u8>, spot: Spot) -> Result<(), AllocError>
    ensures { OnOk result (text.new.items ≡ text.old.items ++ spot_text spot) }
{
    push_number(text, b"", spot.line)?;
    push_number(text, b":", spot.column)
}

/// Appends a value.
pub fn push_value(text: &mut Vec<u8>, v: Value) -> Result<(), AllocError>
    ensures { OnOk result (text.new.items ≡ text.old.items ++ value_text (value v)) }
{
    match v {
        Value::Number(whole) => push_number(text, b"", whole.number()),
        Value::Truth(true) => text.extend_from_slice(b"TRUE"),
        Value::Truth(false) => text.extend_from_slice(b"FALSE"),
    }
}

/// Appends whether an event has happened.
pub fn push_happened(text: &mut Vec<u8>, happened: bool) -> Result<(), AllocError>
    ensures { OnOk result (text.new.items ≡ text.old.items ++ happened_text happened) }
{
    if happened {
        text.extend_from_slice(b" EVENT HAPPENED")
    } else {
        text.extend_from_slice(b" EVENT CLEAR")
    }
}

/// Appends whether an event is available.
pub fn push_available(text: &mut Vec<u8>, available: bool) -> Result<(), AllocError>
    ensures { OnOk result (text.new.items ≡ text.old.items ++ available_text available) }
{
    if available {
        text.extend_from_slice(b" AVAILABLE")
    } else {
        text.extend_from_slice(b" TAKEN")
    }
}

/// Appends a word and a number for each of these processes.
pub fn push_each(text: &mut Vec<u8>, word: &[u8], processes: &[usize]) -> Result<(), AllocError>
    ensures { OnOk result (text.new.items ≡ text.old.items ++ each_text word.now processes.now) }
{
    'processes: for process in processes {
        push_number(text, word, *process)?;
    }
    Ok(())
}

/// Appends the bounds of one dimension.
fn push_bound(text: &mut Vec<u8>, b: &Bounds) -> Result<(), AllocError>
    ensures { OnOk result (text.new.items ≡ text.old.items ++ bound_text (seen.bounds b.now)) }
{
    push_number(text, b"", b.low)?;
    push_number(text, b":", b.high)
}

/// Appends the bounds of an array.
pub fn push_bounds(text: &mut Vec<u8>, bounds: &[Bounds]) -> Result<(), AllocError>
    ensures { OnOk result (text.new.items ≡ text.old.items ++ bounds_text (map seen.bounds bounds.now)) }
{
    match bounds.split_first() {
        None => Ok(()),
        Some((b, further)) => {
            push_bound(text, b)?;
            push_further_bounds(text, further)
        }
    }
}

/// Appends the bounds of further dimensions.
fn push_further_bounds(text: &mut Vec<u8>, bounds: &[Bounds]) -> Result<(), AllocError>
    ensures { OnOk result (text.new.items ≡ text.old.items ++ further_bounds (map seen.bounds bounds.now)) }
{
    'bounds: for b in bounds {
        text.extend_from_slice(b",")?;
        push_bound(text, b)?;
    }
    Ok(())
}

/// The number of the row in which the element of that number is, and the element's number in it, where a row has these bounds.
#[tactic(auto, using(crate::proofs::Rows::row_laws))]
fn row_and_place(number: usize, bounds: &[Bounds]) -> (usize, usize)
    requires { number < 2 ^ 64 - 1 }
    ensures row { result.0 ≡ number / elements_of (map seen.bounds bounds.now) }
    ensures place { result.1 ≡ number % elements_of (map seen.bounds bounds.now) }
    ensures within { result.1 ≤ number }
{
    let row = elements_of(bounds);
    if row == 0 {
        (0, number)
    } else {
        (number / row, number % row)
    }
}

/// Appends the subscript that is so far above the lower bound.
fn push_subscript(text: &mut Vec<u8>, low: i64, above: usize) -> Result<(), AllocError>
    ensures { OnOk result (text.new.items ≡ text.old.items ++ digits_of (low +ℤ pos above)) }
{
    push_number(text, b"", i128::from(low) + above as i128)
}

/// Appends the subscripts of the element of that number.
pub fn push_subscripts(
    text: &mut Vec<u8>,
    bounds: &[Bounds],
    number: usize,
) -> Result<(), AllocError>
    requires { number < 2 ^ 64 - 1 }
    ensures { OnOk result (text.new.items ≡ text.old.items ++ subscripts_text (subscripts_of (map seen.bounds bounds.now) number)) }
{
    match bounds.split_first() {
        None => Ok(()),
        Some((b, further)) => {
            let (row, place) = row_and_place(number, further);
            push_subscript(text, b.low, row)?;
            push_further(text, further, place)
        }
    }
}

/// Appends the subscripts of the element of that number, each after a comma.
fn push_further(text: &mut Vec<u8>, bounds: &[Bounds], number: usize) -> Result<(), AllocError>
    requires { number < 2 ^ 64 - 1 }
    ensures { OnOk result (text.new.items ≡ text.old.items ++ further_text (subscripts_of (map seen.bounds bounds.now) number)) }
{
    match bounds.split_first() {
        None => Ok(()),
        Some((b, further)) => {
            let (row, place) = row_and_place(number, further);
            text.extend_from_slice(b",")?;
            push_subscript(text, b.low, row)?;
            push_further(text, further, place)
        }
    }
}
