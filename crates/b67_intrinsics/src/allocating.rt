//! ARRAYS: makes arrays.

ghost use Rattle.std.specs.Prelude.{◌≡◌, ◌+◌, ◌≤◌, ◌<◌, nat_le, All, List, OnOk, IfOk, IfSome, IsTrue, Some, length, drop, map, slice_get, true, vec_capacity, Ok};
ghost use Rattle.b67_list.specs.Numbered.{numbered};
ghost use Rattle.b67_control.specs.Control.{descriptor_word, Fits_descriptor};
ghost use Rattle.b67_events.specs.Events.{Events};
ghost use Rattle.b67_store.specs.Store.{Stacks, stack_limit};
ghost use Rattle.b67_table.specs.Arrays.{if_held};
ghost use Rattle.b67_table.specs.Image.{Image};
ghost use Rattle.b67_table.specs.Intrinsics.{arrays, count_in, extents, intrinsic_wanted};
ghost use Rattle.b67_table.specs.Look.{look_seen};
ghost use Rattle.b67_table.specs.Program.{asked};
ghost use Rattle.b67_descriptor.specs.Sizes.{IsSize, Sizes, extents_of};
ghost use Rattle.b67_reach.specs.Images.{image_of};
ghost use Rattle.b67_reach.specs.Answers.{outcome_answered, looked, whole_outcome, ProgramActs, IsReady, TestTells};
ghost use Rattle.b67_intrinsics.specs.Called.{arguments, called_in, ended, finished_in, IsCalled, IsChained, MayLead, Tries};
ghost use Rattle.b67_intrinsics.specs.Arrays.{as_extents, as_held, as_order, is_order, order_in, stop_for, array_tests, array_tests_in, StackHasRoom};

use crate::happening::registers;
use crate::hindrance::Hindrance;
use crate::marks::{chained, finish_with_all, whole_arguments};
use b67_control::{Descriptor, Mscw};
use b67_descriptor::{DescriptorFault, Size, elements, make_arrays, size_of};
use b67_num::FaultKind;
use b67_reach::{Parts, Registers, Stop, invalid};
use b67_store::{Core, MOST_COUNTED_WORDS, MOST_STACK_WORDS};
use std::alloc::Global;

/// The most arrays that are made at once, by this project's profile.
pub const MOST_ARRAYS: u32 = b67_limits::MOST_BLOCK_CELLS as u32;

// ---- what is asked for

// A count of arrays.
fn count_in(count: i64) -> Option<u32>
    ensures { result ≡ count_in count }
{
    if 1 <= count && count <= i64::from(MOST_ARRAYS) {
        Some(count as u32)
    } else {
        None
    }
}

// Tests that there are a count and the bounds of one dimension or two.
fn is_order(numbers: &[i64]) -> bool
    ensures { result ≡ is_order numbers.now }
{
    numbers.len() == 3 || numbers.len() == 5
}

// The number at a place of a list.
fn number_at(numbers: &[i64], at: usize) -> i64
    requires { at < length numbers.now }
    ensures { slice_get numbers.now at ≡ Some result }
{
    numbers[at]
}

// Two numbers, one after the other.
fn bounds_at(numbers: &[i64], at: usize) -> (i64, i64)
    requires { at + 1 < length numbers.now }
    ensures low { slice_get numbers.now at ≡ Some result.0 }
    ensures high { slice_get numbers.now (at + 1) ≡ Some result.1 }
{
    (numbers[at], numbers[at + 1])
}

// How many arrays are wanted, where the numbers are a count and bounds.
fn order(numbers: &[i64]) -> Option<u32>
    ensures order { (stacks : Stacks) → looked (look_seen stacks (intrinsic_wanted numbers.now)) ≡ order_in numbers.now result }
    ensures some { IfSome result (λ count. is_order numbers.now ≡ true) }
{
    if !is_order(numbers) {
        return None;
    }
    count_in(number_at(numbers, 0))
}

// The size of an array with these bounds.
fn size_in(numbers: &[i64]) -> Result<Size, DescriptorFault>
    requires { is_order numbers.now ≡ true }
    ensures sizes { (img : Image) → Sizes (asked img (extents (drop 1 numbers.now))) result }
    ensures good { IfOk result IsSize }
{
    let first = bounds_at(numbers, 1);
    if numbers.len() == 3 {
        size_of(&[first])
    } else {
        let second = bounds_at(numbers, 3);
        size_of(&[first, second])
    }
}

// What stops ARRAYS where an array has no size.
fn stop_for(fault: DescriptorFault) -> Stop
    ensures { result ≡ stop_for fault }
{
    match fault {
        DescriptorFault::InvalidOperand => invalid(),
        DescriptorFault::ArraySize => Stop::Fault(FaultKind::ArraySize),
        DescriptorFault::CoreFull => Stop::Fault(FaultKind::CoreFull),
        DescriptorFault::InvalidIndex => Stop::Fault(FaultKind::InvalidIndex),
        DescriptorFault::NoMemory => invalid(),
    }
}

// The size of the arrays. ArraySize comes exactly where an upper bound is below its lower bound, or there are more elements
// than a store may hold.
fn sized(numbers: &[i64]) -> Result<Size, Stop>
    requires { is_order numbers.now ≡ true }
    ensures sizes { (img : Image) → whole_outcome (asked img (extents (drop 1 numbers.now))) ≡ outcome_answered (as_extents result) }
    ensures good { IfOk result IsSize }
{
    match size_in(numbers) {
        Ok(size) => Ok(size),
        Err(fault) => Err(stop_for(fault)),
    }
}

// Tests that so many arrays have room. CoreFull comes exactly where the words that count and the elements of all of them are
// more than a store may hold.
fn held<C: Core>(core: &C, count: u32, size: Size) -> Result<(), Stop>
    requires { IsSize size }
    ensures { TestTells (if_held count (extents_of size)) (C.Core.stacks core.now) (C.Core.rows core.now) (as_held size result) }
{
    let wanted = u64::from(count) * u64::from(elements(size));
    if wanted <= u64::from(MOST_COUNTED_WORDS) - u64::from(core.counted()) {
        Ok(())
    } else {
        Err(Stop::Fault(FaultKind::CoreFull))
    }
}

// How many arrays are asked for, and of which size. All is tested before the first row is opened.
fn find_order<C: Core>(
    core: &C,
    alloc: Global,
    regs: &Registers,
    mark: &Mscw,
) -> Result<(u32, Size), Hindrance>
    requires ready { IsReady (C.Core.stacks core.now) regs.now }
    requires above { regs.now.f + 2 ≤ regs.now.s }
    ensures leads { (img : Image) → img.stacks ≡ C.Core.stacks core.now → img.rows ≡ C.Core.rows core.now → MayLead img (array_tests regs.now mark.now (arguments img.stacks regs.now)) (as_order result) }
    ensures good { IfOk result (λ order. IsSize order.1) }
    ensures within { OnOk result (mark.now.df ≤ regs.now.f) }
{
    let numbers = whole_arguments(core, alloc, regs)?;
    let Some(count) = order(numbers.as_slice()) else {
        return Err(Hindrance::Stopped(invalid()));
    };
    chained(core, regs, mark)?;
    let size = sized(numbers.as_slice())?;
    held(core, count, size)?;
    Ok((count, size))
}

// How many arrays a process asks for, and of which size.
fn find<C: Core>(
    core: &C,
    parts: &Parts,
    process: u32,
    mark: &Mscw,
) -> Result<(u32, Size), Hindrance>
    requires { IsCalled (C.Core.stacks core.now) (numbered parts.now.regs.items process) }
    ensures leads { (img : Image) → img.stacks ≡ C.Core.stacks core.now → img.rows ≡ C.Core.rows core.now → MayLead img (array_tests_in (numbered parts.now.regs.items process) mark.now img.stacks) (as_order result) }
    ensures good { IfOk result (λ order. IsSize order.1) }
    ensures within { OnOk result (IsChained mark.now (numbered parts.now.regs.items process)) }
{
    let alloc = *parts.output.allocator();
    find_order(core, alloc, registers(&parts.regs, process), mark)
}

// ---- the end

// Tests that a stack has room for so many words from the mark at F on.
fn has_room(regs: &Registers, count: u32) -> bool
    ensures { result ≡ nat_le (regs.now.f + count) stack_limit }
{
    usize::from(regs.f) + count as usize <= MOST_STACK_WORDS
}

// A process's mark gives way to descriptors, and its pointer goes to a place.
fn end_with_all<C: Core>(
    core: &mut C,
    all: &mut Vec<Registers>,
    process: u32,
    mark: &Mscw,
    arrays: &[Descriptor],
    place: u16,
)
    requires called { IsCalled (C.Core.stacks core.old) (numbered all.old.items process) }
    requires within { IsChained mark.now (numbered all.old.items process) }
    requires room { StackHasRoom (length arrays.now) (numbered all.old.items process) }
    requires fits { All Fits_descriptor arrays.now }
    ensures acts { (img : Image) → img.stacks ≡ C.Core.stacks core.old → img.rows ≡ C.Core.rows core.old → img.regs ≡ all.old.items → ProgramActs process (finished_in (numbered all.old.items process) mark.now (map descriptor_word arrays.now) place) img (ended (C.Core.stacks core.new) (C.Core.rows core.new) all.new.items img) (Ok result) }
    ensures room { vec_capacity all.old ≤ vec_capacity all.new }
{
    let regs = &mut all[process as usize - 1];
    finish_with_all(core, regs, mark, arrays, place);
}

/// ARRAYS: given a count and the bounds of one dimension or two, so many arrays of operands 0 are made, and their descriptors
/// take the place of the mark. All is tested before the first row is opened: InvalidOperand comes exactly where the arguments
/// are not these, or the count is not from 1 to [`MOST_ARRAYS`]; then BrokenChain; then ArraySize exactly where an upper bound
/// is below its lower bound or the elements of one are more than a store may hold; then CoreFull exactly where the words that
/// count and the elements of all are more than that; then the stack limit. Without memory, or a number for a row, the rows that
/// were opened are closed again, and all is as it was.
pub fn arrays<C: Core>(
    core: &mut C,
    parts: &mut Parts,
    process: u32,
    mark: &Mscw,
    next: u16,
) -> Result<(), Hindrance>
    requires { IsCalled (C.Core.stacks core.old) (numbered parts.old.regs.items process) }
    ensures acts { (kernel : Events) → Tries process (called_in arrays parts.old.code (numbered parts.old.regs.items process) next mark.now) (image_of (C.Core.stacks core.old) (C.Core.rows core.old) kernel parts.old) (image_of (C.Core.stacks core.new) (C.Core.rows core.new) kernel parts.new) result }
    ensures code { parts.new.code ≡ parts.old.code }
    ensures woken { parts.new.woken ≡ parts.old.woken }
{
    let (count, size) = find(core, parts, process, mark)?;
    if !has_room(registers(&parts.regs, process), count) {
        return Err(Hindrance::Stopped(Stop::StackLimit));
    }
    let alloc = *parts.output.allocator();
    match make_arrays(core, alloc, size, count) {
        Ok(made) => {
            end_with_all(core, &mut parts.regs, process, mark, made.as_slice(), next);
            Ok(())
        }
        Err(_) => Err(Hindrance::NoMemory),
    }
}
