//! Descriptors of arrays: the making of an array, its elements and its rows.
//!
//! An array of one dimension is a row of words. One of two dimensions is a mother's row, which holds the descriptor of
//! each of its rows. Descriptors are the B6700's; what is tested, and in which order, is this project's profile.
#![tactic(auto)]

mod arrays;
mod sizes;
mod subscripts;

pub use arrays::{allocate, elements, make_array, make_arrays};
pub use sizes::{Size, size_of};
pub use subscripts::{index, load_row};

/// Why an array was not made, or has no such element or row.
#[derive(Clone, Copy)]
pub enum DescriptorFault {
    /// The subscript is below 0 or not below the length.
    InvalidIndex,
    /// An upper bound is below its lower bound, or the array would have too many elements.
    ArraySize,
    /// The words that count and the elements asked for are more than a store may have.
    CoreFull,
    /// The descriptor is not of such an array, or what it describes is not there; or an array has neither one nor two
    /// dimensions.
    InvalidOperand,
    /// There is no memory for a row, or no number.
    NoMemory,
}
