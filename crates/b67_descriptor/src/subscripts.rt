// The elements and the rows of arrays.
ghost use Rattle.std.specs.Prelude.{◌≡◌, ◌↔◌, ◌<◌, false, true, None, Some, Err, IfSome};
ghost use Rattle.b67_store.specs.Store.{row_at};
ghost use Rattle.b67_table.specs.Arrays.{is_array_descriptor, index_in, word_in_row};
ghost use Rattle.b67_descriptor.specs.Subscripts.{indexed, row_loaded};

use crate::DescriptorFault;
use b67_control::Descriptor;
use b67_store::Core;

// Tests that a descriptor is of an array with a mother, or of one without.
fn is_array(mother: bool, d: &Descriptor) -> bool
    ensures { result ≡ is_array_descriptor mother d.now }
{
    d.presence && !d.indexed && d.mother == mother
}

// A subscript as an index below a length.
fn index_in(at: i64, length: u32) -> Option<u32>
    ensures value { result ≡ index_in at length }
    ensures bound { IfSome result (λ n. n < length) }
{
    if at < 0 || at >= i64::from(length) {
        None
    } else {
        Some(at as u32)
    }
}

/// The element of an array that a subscript names: an indexed copy of the array's descriptor. InvalidOperand comes exactly
/// where the descriptor is indexed, absent or a mother's, and InvalidIndex exactly where it is none of these and the
/// subscript is below 0 or not below the length.
pub fn index(d: &Descriptor, at: i64) -> Result<Descriptor, DescriptorFault>
    ensures { result ≡ indexed d.now at }
{
    if !is_array(false, d) {
        return Err(DescriptorFault::InvalidOperand);
    }
    match index_in(at, d.length) {
        Some(index) => Ok(Descriptor {
            copy: true,
            indexed: true,
            length: index,
            ..*d
        }),
        None => Err(DescriptorFault::InvalidIndex),
    }
}

/// The row of an array that a subscript names: a copy of the row's descriptor. InvalidOperand comes exactly where the
/// descriptor is indexed, absent or no mother's, where the mother's row is not open, or where, for a subscript in range, no
/// data descriptor stands there; InvalidIndex where it is none of these and the subscript is out of range.
pub fn load_row<C: Core>(core: &C, d: &Descriptor, at: i64) -> Result<Descriptor, DescriptorFault>
    ensures { result ≡ row_loaded (C.Core.rows core.now) d.now at }
{
    if !is_array(true, d) || !core.has_row(d.address) {
        return Err(DescriptorFault::InvalidOperand);
    }
    let Some(index) = index_in(at, d.length) else {
        return Err(DescriptorFault::InvalidIndex);
    };
    match core.read_row(d.address, index).and_then(Descriptor::unpack) {
        Some(row) => Ok(Descriptor { copy: true, ..row }),
        None => Err(DescriptorFault::InvalidOperand),
    }
}
