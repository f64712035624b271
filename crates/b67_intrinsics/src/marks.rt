//! What all intrinsics share: the mark at F, the mark below it, the arguments, and how an intrinsic ends.

ghost use Rattle.std.specs.Prelude.{◌≡◌, ◌+◌, ◌-◌, ◌<◌, ◌≤◌, ℕ, length, Ok, Err, Some, OnOk, IfOk, IfErr, IsSome, All, map, unsigned_abs, slice_get, vec_capacity, [], ◌∷◌, ◌++◌};
ghost use Rattle.b67_word.specs.Word.{most_mantissa};
ghost use Rattle.b67_control.specs.Control.{descriptor_word, Fits_descriptor};
ghost use Rattle.b67_store.specs.Store.{stack_at, words_of, with_push, with_cut, stack_limit};
ghost use Rattle.b67_table.specs.Arguments.{finished_at, three, wholes_in};
ghost use Rattle.b67_table.specs.Look.{look_seen};
ghost use Rattle.b67_table.specs.Program.{answer};
ghost use Rattle.b67_reach.specs.Images.{own_of_image};
ghost use Rattle.b67_reach.specs.Answers.{looked, IsReady, ProgramPerforms};
ghost use Rattle.b67_intrinsics.specs.Arrays.{pushed_on};
ghost use Rattle.b67_intrinsics.specs.Called.{arguments, only, whole_in, as_triple, mark_below, WholesFail};

use crate::hindrance::Hindrance;
use b67_control::{Descriptor, Mscw};
use b67_reach::{InterruptKind, Registers, Stop, invalid};
use b67_store::Core;
use b67_word::{Place, Word};
use std::alloc::Global;

/// How many arguments there are.
pub fn arguments<C: Core>(core: &C, regs: &Registers) -> u32
    requires ready { IsReady (C.Core.stacks core.now) regs.now }
    requires above { regs.now.f + 2 ≤ regs.now.s }
    ensures { result ≡ length (arguments (C.Core.stacks core.now) regs.now) }
{
    regs.s - (u32::from(regs.f) + 2)
}

/// The only argument. InvalidOperand comes exactly where there is none, or more than one.
pub fn only_argument<C: Core>(core: &C, regs: &Registers) -> Result<Word, Stop>
    requires ready { IsReady (C.Core.stacks core.now) regs.now }
    requires above { regs.now.f + 2 ≤ regs.now.s }
    ensures { result ≡ only (arguments (C.Core.stacks core.now) regs.now) }
{
    if regs.s - (u32::from(regs.f) + 2) != 1 {
        return Err(invalid());
    }
    let place = Place {
        stack: regs.stack,
        at: regs.f + 2,
    };
    Ok(core.read(place).unwrap())
}

/// The whole number that an argument is read as, by its number from 0. InvalidOperand comes exactly where it is none.
pub fn whole_argument<C: Core>(core: &C, regs: &Registers, n: u32) -> Result<i64, Stop>
    requires ready { IsReady (C.Core.stacks core.now) regs.now }
    requires within { regs.now.f + 2 + n < regs.now.s }
    ensures value { result ≡ whole_in (slice_get (arguments (C.Core.stacks core.now) regs.now) n) }
    ensures small { IfOk result (λ z. unsigned_abs z ≤ most_mantissa) }
{
    let place = Place {
        stack: regs.stack,
        at: (u32::from(regs.f) + 2 + n) as u16,
    };
    match core.read(place).unwrap().as_whole() {
        Some(value) => Ok(value),
        None => Err(invalid()),
    }
}

/// The three whole numbers that the arguments are read as. InvalidOperand comes exactly where they are not three.
pub fn three_arguments<C: Core>(core: &C, regs: &Registers) -> Result<(i64, i64, i64), Stop>
    requires ready { IsReady (C.Core.stacks core.now) regs.now }
    requires above { regs.now.f + 2 ≤ regs.now.s }
    ensures value { result ≡ looked (as_triple (look_seen (C.Core.stacks core.now) (three (arguments (C.Core.stacks core.now) regs.now)))) }
    ensures first { IfOk result (λ z. unsigned_abs z.0 ≤ most_mantissa) }
    ensures second { IfOk result (λ z. unsigned_abs z.1 ≤ most_mantissa) }
    ensures third { IfOk result (λ z. unsigned_abs z.2 ≤ most_mantissa) }
{
    if arguments(core, regs) != 3 {
        return Err(invalid());
    }
    let x = whole_argument(core, regs, 0)?;
    let y = whole_argument(core, regs, 1)?;
    let z = whole_argument(core, regs, 2)?;
    Ok((x, y, z))
}

// Adds a number to a list that has room for it.
fn add_item(items: &mut Vec<i64>, item: i64)
    requires { length items.old.items < vec_capacity items.old }
    ensures items { items.new.items ≡ items.old.items ++ item ∷ [] }
    ensures capacity { vec_capacity items.old ≤ vec_capacity items.new }
{
    items.push(item).unwrap();
}

/// The whole numbers that the arguments are read as. InvalidOperand comes exactly where one of them is none.
pub fn whole_arguments<C: Core>(
    core: &C,
    alloc: Global,
    regs: &Registers,
) -> Result<Vec<i64>, Hindrance>
    requires ready { IsReady (C.Core.stacks core.now) regs.now }
    requires above { regs.now.f + 2 ≤ regs.now.s }
    ensures items { IfOk result (λ items. wholes_in (arguments (C.Core.stacks core.now) regs.now) ≡ Some items.items) }
    ensures fault { IfErr result (WholesFail (arguments (C.Core.stacks core.now) regs.now)) }
{
    let count = arguments(core, regs);
    let mut items = Vec::with_capacity(alloc, count as usize)?;
    'reading: for n in 0..count {
        let item = whole_argument(core, regs, n)?;
        add_item(&mut items, item);
    }
    Ok(items)
}

/// The mark below the one at F. BrokenChain comes exactly where no mark stands as far below as that one says.
pub fn chained<C: Core>(core: &C, regs: &Registers, mark: &Mscw) -> Result<Mscw, Stop>
    ensures value { result ≡ looked (look_seen (C.Core.stacks core.now) (mark_below regs.now mark.now)) }
    ensures within { OnOk result (mark.now.df ≤ regs.now.f) }
{
    let broken = Stop::Interrupt(InterruptKind::BrokenChain);
    if mark.df > regs.f {
        return Err(broken);
    }
    let place = Place {
        stack: regs.stack,
        at: regs.f - mark.df,
    };
    match core.read(place) {
        Some(word) => match Mscw::unpack(word) {
            Some(lower) => Ok(lower),
            None => Err(broken),
        },
        None => Err(broken),
    }
}

/// All from the mark at F on is taken off, and the pointer goes to a place.
pub fn finish<C: Core>(core: &mut C, regs: &mut Registers, mark: &Mscw, place: u16)
    requires ready { IsReady (C.Core.stacks core.old) regs.old }
    requires above { regs.old.f + 2 ≤ regs.old.s }
    requires within { mark.now.df ≤ regs.old.f }
    ensures { ProgramPerforms (answer (finished_at regs.old mark.now [] place)) (own_of_image (C.Core.stacks core.old) (C.Core.rows core.old) regs.old) (own_of_image (C.Core.stacks core.new) (C.Core.rows core.new) regs.new) (Ok result) }
{
    let length = u32::from(regs.f);
    core.cut(regs.stack, length).unwrap();
    regs.s = length;
    regs.f -= mark.df;
    regs.place = place;
}

/// All from the mark at F on gives way to a word, and the pointer goes to a place.
pub fn finish_with<C: Core>(core: &mut C, regs: &mut Registers, mark: &Mscw, word: Word, place: u16)
    requires ready { IsReady (C.Core.stacks core.old) regs.old }
    requires above { regs.old.f + 2 ≤ regs.old.s }
    requires within { mark.now.df ≤ regs.old.f }
    ensures { ProgramPerforms (answer (finished_at regs.old mark.now (word ∷ []) place)) (own_of_image (C.Core.stacks core.old) (C.Core.rows core.old) regs.old) (own_of_image (C.Core.stacks core.new) (C.Core.rows core.new) regs.new) (Ok result) }
{
    let length = u32::from(regs.f);
    core.cut(regs.stack, length).unwrap();
    core.push(regs.stack, word).unwrap();
    regs.s = length + 1;
    regs.f -= mark.df;
    regs.place = place;
}

// Leaves the lowest words of an open stack, so many of them.
fn cut_to<C: Core>(core: &mut C, stack: u16, length: u32)
    requires { IsSome (stack_at (C.Core.stacks core.old) stack) }
    ensures stacks { C.Core.stacks core.new ≡ with_cut (C.Core.stacks core.old) stack length }
    ensures rows { C.Core.rows core.new ≡ C.Core.rows core.old }
{
    core.cut(stack, length).unwrap();
}

// Pushes a word on a stack that has room for it.
fn push_word<C: Core>(core: &mut C, stack: u16, word: Word)
    requires open { IsSome (stack_at (C.Core.stacks core.old) stack) }
    requires room { length (words_of (C.Core.stacks core.old) stack) < stack_limit }
    ensures stacks { C.Core.stacks core.new ≡ with_push (C.Core.stacks core.old) stack word }
    ensures rows { C.Core.rows core.new ≡ C.Core.rows core.old }
{
    let _ = core.push(stack, word);
}

// A descriptor of a list.
fn descriptor_at(arrays: &[Descriptor], at: usize) -> Descriptor
    requires within { at < length arrays.now }
    requires fits { All Fits_descriptor arrays.now }
    ensures value { slice_get arrays.now at ≡ Some result }
    ensures fits { Fits_descriptor result }
{
    arrays[at]
}

// Pushes descriptors on a stack that has room for them, the first one first.
fn push_all<C: Core>(core: &mut C, stack: u16, arrays: &[Descriptor])
    requires open { IsSome (stack_at (C.Core.stacks core.old) stack) }
    requires room { length (words_of (C.Core.stacks core.old) stack) + length arrays.now ≤ stack_limit }
    requires fits { All Fits_descriptor arrays.now }
    ensures stacks { C.Core.stacks core.new ≡ pushed_on (C.Core.stacks core.old) stack (map descriptor_word arrays.now) }
    ensures rows { C.Core.rows core.new ≡ C.Core.rows core.old }
{
    'pushing: for at in 0..arrays.len() {
        let array = descriptor_at(arrays, at);
        push_word(core, stack, array.pack());
    }
}

/// All from the mark at F on gives way to descriptors, and the pointer goes to a place.
pub fn finish_with_all<C: Core>(
    core: &mut C,
    regs: &mut Registers,
    mark: &Mscw,
    arrays: &[Descriptor],
    place: u16,
)
    requires ready { IsReady (C.Core.stacks core.old) regs.old }
    requires above { regs.old.f + 2 ≤ regs.old.s }
    requires within { mark.now.df ≤ regs.old.f }
    requires room { regs.old.f + length arrays.now ≤ stack_limit }
    requires fits { All Fits_descriptor arrays.now }
    ensures { ProgramPerforms (answer (finished_at regs.old mark.now (map descriptor_word arrays.now) place)) (own_of_image (C.Core.stacks core.old) (C.Core.rows core.old) regs.old) (own_of_image (C.Core.stacks core.new) (C.Core.rows core.new) regs.new) (Ok result) }
{
    let length = u32::from(regs.f);
    cut_to(core, regs.stack, length);
    push_all(core, regs.stack, arrays);
    regs.s = length + arrays.len() as u32;
    regs.f -= mark.df;
    regs.place = place;
}
