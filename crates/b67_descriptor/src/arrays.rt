// The making of arrays.
ghost use Rattle.std.specs.Prelude.{◌≡◌, ℕ, ◌+◌, ◌≤◌, ◌<◌, false, true, [], ◌∷◌, ◌++◌, length, vec_capacity, All, slice_get, IfOk, OnErr, OnOk, IfErr, is_some, Some, None};
ghost use Rattle.b67_control.specs.Control.{descriptor_word, Fits_descriptor};
ghost use Rattle.b67_store.specs.Store.{Rows, row_at, row_words, row_limit, least_free, opened_at, zero_row, count_limit, with_row_word};
ghost use Rattle.b67_table.specs.Arrays.{one, two, elements};
ghost use Rattle.b67_descriptor.specs.declared.DescriptorFault.TheVariants.{NoMemory};
ghost use Rattle.b67_descriptor.specs.Sizes.{IsSize, extents_of};
ghost use Rattle.b67_descriptor.specs.Arrays.{array_descriptor, descriptor_by, Makes, SameRows, HasMore, row_added, child, described, HasArray, HaveArrays, MakesArrays, StoreHolds, Allocates};

use crate::sizes::size_of;
use crate::{DescriptorFault, Size};
use b67_control::Descriptor;
use b67_store::{Core, MOST_COUNTED_WORDS};
use std::alloc::Global;

// The descriptor of a new array.
fn descriptor(mother: bool, length: u32, address: u32) -> Descriptor
    requires short { length ≤ count_limit }
    requires low { address < row_limit }
    ensures value { result ≡ array_descriptor mother length address }
    ensures fits { Fits_descriptor result }
{
    Descriptor {
        presence: true,
        copy: false,
        indexed: false,
        mother,
        length,
        address,
    }
}

// A row of zeros. There is room for it, so that an error is a want of memory, and then nothing has changed.
fn open<C: Core>(core: &mut C, length: u32, counted: bool) -> Result<u32, DescriptorFault>
    requires some { 1 ≤ length }
    requires most { length ≤ count_limit }
    ensures number { IfOk result (λ row. (row ≡ least_free (C.Core.rows core.old)) × (row < row_limit)) }
    ensures rows { IfOk result (λ row. C.Core.rows core.new ≡ opened_at (C.Core.rows core.old) row (zero_row length counted)) }
    ensures fault { IfErr result (λ fault. fault ≡ NoMemory) }
    ensures unchanged { OnErr result (C.Core.rows core.new ≡ C.Core.rows core.old) }
    ensures stacks { C.Core.stacks core.new ≡ C.Core.stacks core.old }
{
    match core.open_row(length, counted) {
        Ok(row) => Ok(row),
        Err(_) => Err(DescriptorFault::NoMemory),
    }
}

// An array of one dimension.
fn make_row<C: Core>(core: &mut C, count: u32) -> Result<Descriptor, DescriptorFault>
    requires some { 1 ≤ count }
    requires most { count ≤ count_limit }
    ensures made { IfOk result (Makes (one count) (C.Core.rows core.old) (C.Core.rows core.new)) }
    ensures descriptor { IfOk result (λ d. d ≡ descriptor_by (one count) (least_free (C.Core.rows core.old))) }
    ensures more { IfOk result (HasArray (C.Core.rows core.old) (C.Core.rows core.new)) }
    ensures fits { IfOk result Fits_descriptor }
    ensures fault { IfErr result (λ fault. fault ≡ NoMemory) }
    ensures unchanged { OnErr result (C.Core.rows core.new ≡ C.Core.rows core.old) }
    ensures stacks { C.Core.stacks core.new ≡ C.Core.stacks core.old }
{
    let row = open(core, count, true)?;
    Ok(descriptor(false, count, row))
}

// One more row of a mother: it is opened, and its descriptor put into the mother's row.
fn add_row<C: Core>(core: &mut C, mother: u32, at: u32, count: u32) -> Result<(), DescriptorFault>
    requires some { 1 ≤ count }
    requires most { count ≤ count_limit }
    requires there { is_some (row_at (C.Core.rows core.old) mother) ≡ true }
    requires within { at < length (row_words (C.Core.rows core.old) mother) }
    ensures added { OnOk result (C.Core.rows core.new ≡ row_added (C.Core.rows core.old) mother at count) }
    ensures low { OnOk result (least_free (C.Core.rows core.old) < row_limit) }
    ensures unchanged { OnErr result (C.Core.rows core.new ≡ C.Core.rows core.old) }
    ensures stacks { C.Core.stacks core.new ≡ C.Core.stacks core.old }
{
    let row = open(core, count, true)?;
    let word = descriptor(false, count, row).pack();
    let _ = core.write_row(mother, at, word);
    Ok(())
}

// The row that the mother's row describes at a place goes.
fn close_child<C: Core>(core: &mut C, mother: u32, at: u32)
    ensures closed { (a : ℕ) → child (C.Core.rows core.old) mother at ≡ Some a → row_at (C.Core.rows core.new) a ≡ None }
    ensures kept { (x : ℕ) → (child (C.Core.rows core.old) mother at ≡ Some x → ⊥) → row_at (C.Core.rows core.new) x ≡ row_at (C.Core.rows core.old) x }
    ensures stacks { C.Core.stacks core.new ≡ C.Core.stacks core.old }
{
    if let Some(row) = core.read_row(mother, at).and_then(Descriptor::unpack) {
        let _ = core.close_row(row.address);
    }
}

// All rows of a mother up to a place go, and the mother's row.
fn close_rows<C: Core>(core: &mut C, mother: u32, to: u32)
    ensures closed { (before : Rows) → HasMore before (C.Core.rows core.old) mother 0 to → SameRows before (C.Core.rows core.new) }
    ensures stacks { C.Core.stacks core.new ≡ C.Core.stacks core.old }
{
    'closing: for at in 0..to {
        close_child(core, mother, at);
    }
    let _ = core.close_row(mother);
}

// An array of two dimensions: the mother's row first, then its rows in order. On want of memory they are closed again.
fn make_rows<C: Core>(core: &mut C, rows: u32, columns: u32) -> Result<Descriptor, DescriptorFault>
    requires rows { (1 ≤ rows) × (rows ≤ count_limit) }
    requires columns { (1 ≤ columns) × (columns ≤ count_limit) }
    ensures made { IfOk result (Makes (two rows columns) (C.Core.rows core.old) (C.Core.rows core.new)) }
    ensures descriptor { IfOk result (λ d. d ≡ descriptor_by (two rows columns) (least_free (C.Core.rows core.old))) }
    ensures more { IfOk result (HasArray (C.Core.rows core.old) (C.Core.rows core.new)) }
    ensures fits { IfOk result Fits_descriptor }
    ensures fault { IfErr result (λ fault. fault ≡ NoMemory) }
    ensures unchanged { OnErr result (SameRows (C.Core.rows core.old) (C.Core.rows core.new)) }
    ensures stacks { C.Core.stacks core.new ≡ C.Core.stacks core.old }
{
    let mother = open(core, rows, false)?;
    'filling: for at in 0..rows {
        if add_row(core, mother, at, columns).is_err() {
            close_rows(core, mother, at);
            return Err(DescriptorFault::NoMemory);
        }
    }
    Ok(descriptor(true, rows, mother))
}

/// Makes an array of this size, of operands 0: of one dimension its row; of two the mother's row first, which holds the
/// descriptors, and then its rows in order, each at the least number that is free. An error is a want of memory or of a
/// number; then the rows are as before.
pub fn make_array<C: Core>(core: &mut C, size: Size) -> Result<Descriptor, DescriptorFault>
    requires { IsSize size }
    ensures made { IfOk result (Makes (extents_of size) (C.Core.rows core.old) (C.Core.rows core.new)) }
    ensures descriptor { IfOk result (λ d. d ≡ descriptor_by (extents_of size) (least_free (C.Core.rows core.old))) }
    ensures more { IfOk result (HasArray (C.Core.rows core.old) (C.Core.rows core.new)) }
    ensures fits { IfOk result Fits_descriptor }
    ensures fault { IfErr result (λ fault. fault ≡ NoMemory) }
    ensures unchanged { OnErr result (SameRows (C.Core.rows core.old) (C.Core.rows core.new)) }
    ensures stacks { C.Core.stacks core.new ≡ C.Core.stacks core.old }
{
    match size {
        Size::One(count) => make_row(core, count),
        Size::Two(rows, columns) => make_rows(core, rows, columns),
    }
}

// How many rows an array's row describes.
fn described(array: &Descriptor) -> u32
    ensures { result ≡ described array.now }
{
    if array.mother { array.length } else { 0 }
}

// The rows of an array go.
fn close_array<C: Core>(core: &mut C, array: &Descriptor)
    ensures closed { (before : Rows) → HasArray before (C.Core.rows core.old) array.now → SameRows before (C.Core.rows core.new) }
    ensures stacks { C.Core.stacks core.new ≡ C.Core.stacks core.old }
{
    close_rows(core, array.address, described(array));
}

// The array at a place of a list.
fn array_at(arrays: &[Descriptor], at: usize) -> Descriptor
    requires { at < length arrays.now }
    ensures { slice_get arrays.now at ≡ Some result }
{
    arrays[at]
}

// The rows of arrays that were made one after another go, those of the last one first.
fn close_arrays<C: Core>(core: &mut C, arrays: &[Descriptor])
    ensures closed { (before : Rows) → HaveArrays before arrays.now (length arrays.now) (C.Core.rows core.old) → SameRows before (C.Core.rows core.new) }
    ensures stacks { C.Core.stacks core.new ≡ C.Core.stacks core.old }
{
    let mut left = arrays.len();
    'closing: while left > 0 {
        left -= 1;
        let array = array_at(arrays, left);
        close_array(core, &array);
    }
}

// Adds an array to a list that has room for it.
fn add_array(arrays: &mut Vec<Descriptor>, array: Descriptor)
    requires { length arrays.old.items < vec_capacity arrays.old }
    ensures items { arrays.new.items ≡ arrays.old.items ++ array ∷ [] }
    ensures capacity { vec_capacity arrays.old ≤ vec_capacity arrays.new }
{
    arrays.push(array).unwrap();
}

/// Makes so many arrays of this size, of operands 0, one after another, and gives their descriptors in order. An error is a
/// want of memory or of a number; then the rows are as before.
pub fn make_arrays<C: Core>(
    core: &mut C,
    alloc: Global,
    size: Size,
    count: u32,
) -> Result<Vec<Descriptor>, DescriptorFault>
    requires { IsSize size }
    ensures made { IfOk result (λ arrays. MakesArrays count (extents_of size) (C.Core.rows core.old) (C.Core.rows core.new) arrays.items) }
    ensures count { IfOk result (λ arrays. length arrays.items ≡ count) }
    ensures fits { IfOk result (λ arrays. All Fits_descriptor arrays.items) }
    ensures fault { IfErr result (λ fault. fault ≡ NoMemory) }
    ensures unchanged { OnErr result (SameRows (C.Core.rows core.old) (C.Core.rows core.new)) }
    ensures stacks { C.Core.stacks core.new ≡ C.Core.stacks core.old }
{
    let Ok(mut arrays) = Vec::with_capacity(alloc, count as usize) else {
        return Err(DescriptorFault::NoMemory);
    };
    'making: for _ in 0..count {
        match make_array(core, size) {
            Ok(array) => add_array(&mut arrays, array),
            Err(fault) => {
                close_arrays(core, arrays.as_slice());
                return Err(fault);
            }
        }
    }
    Ok(arrays)
}

/// How many elements an array of this size has.
pub fn elements(size: Size) -> u32
    requires { IsSize size }
    ensures value { result ≡ elements (extents_of size) }
    ensures bound { result ≤ count_limit }
{
    match size {
        Size::One(count) => count,
        Size::Two(rows, columns) => rows * columns,
    }
}

// Tests that the store may hold so many elements more.
fn is_held<C: Core>(core: &C, size: Size) -> bool
    requires { IsSize size }
    ensures { StoreHolds (C.Core.rows core.now) (extents_of size) result }
{
    core.counted() + elements(size) <= MOST_COUNTED_WORDS
}

/// Makes an array of operands 0 with a lower and an upper bound for each dimension, and gives its descriptor. All is tested
/// before the first row is opened: InvalidOperand comes exactly where there are neither one nor two dimensions, then
/// ArraySize exactly where an upper bound is below its lower bound or the elements are more than a store may hold, then
/// CoreFull exactly where the words that count and the elements are more than that. NoMemory is a want of memory or of a
/// number. After an error the rows are as before.
pub fn allocate<C: Core>(core: &mut C, bounds: &[(i64, i64)]) -> Result<Descriptor, DescriptorFault>
    ensures allocated { Allocates bounds.now (C.Core.rows core.old) (C.Core.rows core.new) result }
    ensures unchanged { OnErr result (SameRows (C.Core.rows core.old) (C.Core.rows core.new)) }
    ensures stacks { C.Core.stacks core.new ≡ C.Core.stacks core.old }
{
    let size = match size_of(bounds) {
        Ok(size) => size,
        Err(fault) => return Err(fault),
    };
    if is_held(core, size) {
        make_array(core, size)
    } else {
        Err(DescriptorFault::CoreFull)
    }
}
