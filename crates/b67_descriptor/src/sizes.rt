// How many elements an array has, by its bounds.
ghost use Rattle.std.specs.Prelude.{◌≡◌, ◌-ℤ◌, IfOk, [], ◌∷◌};
ghost use Rattle.b67_table.specs.Image.{Image};
ghost use Rattle.b67_table.specs.Program.{asked};
ghost use Rattle.b67_table.specs.Intrinsics.{extents};
ghost use Rattle.b67_descriptor.specs.Sizes.{numbers_of_bounds, Sizes, IsSize, Extent, SizesTwo, AreOne, AreTwo};

use crate::DescriptorFault;
use b67_store::MOST_COUNTED_WORDS;

/// The elements of an array in each of its dimensions.
#[derive(Clone, Copy)]
pub enum Size {
    One(u32),
    /// So many rows, and the elements of each.
    Two(u32, u32),
}

// How many subscripts there are from one bound to the other. None comes also where they are more than a store may hold.
fn extent(low: i64, high: i64) -> Option<u32>
    ensures { Extent (high -ℤ low) result }
{
    match high.checked_sub(low) {
        Some(more) => {
            if 0 <= more && more < i64::from(MOST_COUNTED_WORDS) {
                Some(more as u32 + 1)
            } else {
                None
            }
        }
        None => None,
    }
}

// The size of an array of so many rows and columns.
fn product(rows: u32, columns: u32) -> Result<Size, DescriptorFault>
    ensures { SizesTwo rows columns result }
{
    if u64::from(rows) * u64::from(columns) <= u64::from(MOST_COUNTED_WORDS) {
        Ok(Size::Two(rows, columns))
    } else {
        Err(DescriptorFault::ArraySize)
    }
}

// The size of an array of two dimensions.
fn size_of_two(first: (i64, i64), second: (i64, i64)) -> Result<Size, DescriptorFault>
    ensures sizes { (img : Image) → Sizes (asked img (extents (numbers_of_bounds (first ∷ second ∷ [])))) result }
    ensures good { IfOk result IsSize }
{
    let Some(rows) = extent(first.0, first.1) else {
        return Err(DescriptorFault::ArraySize);
    };
    let Some(columns) = extent(second.0, second.1) else {
        return Err(DescriptorFault::ArraySize);
    };
    product(rows, columns)
}

// The bounds of two dimensions, where there are two.
fn two_of(bounds: &[(i64, i64)]) -> Option<((i64, i64), (i64, i64))>
    ensures { AreTwo bounds.now result }
{
    if bounds.len() == 2 {
        Some((bounds[0], bounds[1]))
    } else {
        None
    }
}

// The bounds of one dimension, where there is one.
fn one_of(bounds: &[(i64, i64)]) -> Option<(i64, i64)>
    ensures { AreOne bounds.now result }
{
    if bounds.len() == 1 {
        Some(bounds[0])
    } else {
        None
    }
}

/// The size of an array with a lower and an upper bound for each dimension. ArraySize comes exactly where an upper bound is
/// below its lower bound or the elements are more than a store may hold, InvalidOperand exactly where there are neither one
/// nor two dimensions.
#[tactic(auto, using(crate::proofs::Extents::neither))]
pub fn size_of(bounds: &[(i64, i64)]) -> Result<Size, DescriptorFault>
    ensures sizes { (img : Image) → Sizes (asked img (extents (numbers_of_bounds bounds.now))) result }
    ensures good { IfOk result IsSize }
{
    if let Some((first, second)) = two_of(bounds) {
        return size_of_two(first, second);
    }
    if let Some((low, high)) = one_of(bounds) {
        return match extent(low, high) {
            Some(count) => Ok(Size::One(count)),
            None => Err(DescriptorFault::ArraySize),
        };
    }
    Err(DescriptorFault::InvalidOperand)
}
