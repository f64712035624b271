//! Operators on arrays: INDX, NXLV, NXLN.

ghost use Rattle.std.specs.Prelude.{◌≡◌, ◌<◌, ◌≤◌, ◌+◌, IfOk, IfSome, OnOk, unsigned_abs};
ghost use Rattle.b67_num.specs.Whole.{most};
ghost use Rattle.b67_control.specs.Control.{as_descriptor, Fits_descriptor, descriptor_word};
ghost use Rattle.b67_table.specs.Look.{look_seen};
ghost use Rattle.b67_table.specs.Private.{floor};
ghost use Rattle.b67_table.specs.Arrays.{is_array_descriptor, array_in, array_of, subscripted, index_in, index_or_fault, subscripted_element, index_program, index_and_load, index_mother};
ghost use Rattle.b67_reach.specs.Images.{own_of_image};
ghost use Rattle.b67_reach.specs.Answers.{looked, IsReady, ProgramPerforms, TestTells};
ghost use Rattle.b67_operators.specs.Arrays.{as_pair, array_found, subscript_found, test_element_at, copy_replaces};

use crate::loading::operand_replaces;
use b67_control::Descriptor;
use b67_num::FaultKind;
use b67_reach::{
    Registers, Stop, cell_of, element, invalid, operand_in, popped_two, reached, replaced,
};
use b67_store::Core;
use b67_word::Word;

// The descriptor of an array, with or without mother, that a word is.
fn array_in(mother: bool, word: Word) -> Result<Descriptor, Stop>
    ensures value { result ≡ array_found mother (as_descriptor word) }
    ensures fits { IfOk result Fits_descriptor }
{
    let Some(d) = Descriptor::unpack(word) else {
        return Err(invalid());
    };
    if d.presence && !d.indexed && d.mother == mother {
        Ok(d)
    } else {
        Err(invalid())
    }
}

// The descriptor of an array that a word is or reaches.
fn array_of<C: Core>(
    core: &C,
    regs: &Registers,
    mother: bool,
    word: Word,
) -> Result<Descriptor, Stop>
    ensures value { result ≡ looked (look_seen (C.Core.stacks core.now) (array_of regs.now mother word)) }
    ensures fits { IfOk result Fits_descriptor }
{
    match cell_of(regs, word) {
        Some(cell) => {
            let found = reached(core, Some(cell))?;
            array_in(mother, found.word)
        }
        None => array_in(mother, word),
    }
}

// The array that the word on top is or reaches, and the whole number under it.
fn subscripted<C: Core>(core: &C, regs: &Registers, mother: bool) -> Result<(Descriptor, i64), Stop>
    requires { IsReady (C.Core.stacks core.now) regs.now }
    ensures value { result ≡ looked (as_pair (look_seen (C.Core.stacks core.now) (subscripted regs.now mother))) }
    ensures fits { IfOk result (λ found. Fits_descriptor found.0) }
    ensures small { IfOk result (λ found. unsigned_abs found.1 ≤ most) }
    ensures some { OnOk result (floor regs.now + 2 ≤ regs.now.s) }
{
    let (x, y) = popped_two(core, regs)?;
    let Some(subscript) = y.as_whole() else {
        return Err(invalid());
    };
    let array = array_of(core, regs, mother, x)?;
    Ok((array, subscript))
}

// A subscript as an index, from 0 to below the length.
fn index_of(subscript: i64, length: u32) -> Result<u32, Stop>
    ensures value { result ≡ subscript_found (index_in subscript length) }
    ensures within { IfOk result (λ n. n < length) }
{
    if 0 <= subscript && subscript < i64::from(length) {
        Ok(subscript as u32)
    } else {
        Err(Stop::Fault(FaultKind::InvalidIndex))
    }
}

/// INDX: a subscript and an array without mother are replaced by an indexed copy of the array's descriptor. It does not
/// look at the row.
pub fn index<C: Core>(core: &mut C, regs: &mut Registers, next: u16) -> Result<(), Stop>
    requires { IsReady (C.Core.stacks core.old) regs.old }
    ensures { ProgramPerforms (index_program regs.old next) (own_of_image (C.Core.stacks core.old) (C.Core.rows core.old) regs.old) (own_of_image (C.Core.stacks core.new) (C.Core.rows core.new) regs.new) result }
{
    let (array, subscript) = subscripted(core, regs, false)?;
    let at = index_of(subscript, array.length)?;
    let indexed = Descriptor {
        copy: true,
        indexed: true,
        length: at,
        ..array
    };
    replaced(core, regs, next, 2, indexed.pack());
    Ok(())
}

// The element of an array that a subscript names; the row is looked at before the subscript.
fn element_at<C: Core>(core: &C, array: Descriptor, subscript: i64) -> Result<Word, Stop>
    ensures { TestTells (test_element_at array subscript) (C.Core.stacks core.now) (C.Core.rows core.now) result }
{
    if !core.has_row(array.address) {
        return Err(invalid());
    }
    let at = index_of(subscript, array.length)?;
    element(core, array.address, at)
}

// The element that the words on top name.
fn subscripted_element<C: Core>(core: &C, regs: &Registers, mother: bool) -> Result<Word, Stop>
    requires { IsReady (C.Core.stacks core.now) regs.now }
    ensures value { TestTells (subscripted_element regs.now mother) (C.Core.stacks core.now) (C.Core.rows core.now) result }
    ensures some { OnOk result (floor regs.now + 2 ≤ regs.now.s) }
{
    let (array, subscript) = subscripted(core, regs, mother)?;
    element_at(core, array, subscript)
}

/// NXLV: a subscript and an array without mother are replaced by the element, an operand.
pub fn index_and_load<C: Core>(core: &mut C, regs: &mut Registers, next: u16) -> Result<(), Stop>
    requires { IsReady (C.Core.stacks core.old) regs.old }
    ensures { ProgramPerforms (index_and_load regs.old next) (own_of_image (C.Core.stacks core.old) (C.Core.rows core.old) regs.old) (own_of_image (C.Core.stacks core.new) (C.Core.rows core.new) regs.new) result }
{
    let word = subscripted_element(core, regs, false)?;
    operand_replaces(core, regs, next, 2, word)
}

// A copy of the descriptor that a word is takes the place of the two words on top.
fn copy_replaces<C: Core>(
    core: &mut C,
    regs: &mut Registers,
    next: u16,
    word: Word,
) -> Result<(), Stop>
    requires ready { IsReady (C.Core.stacks core.old) regs.old }
    requires some { 2 ≤ regs.old.s }
    ensures { ProgramPerforms (copy_replaces regs.old next word) (own_of_image (C.Core.stacks core.old) (C.Core.rows core.old) regs.old) (own_of_image (C.Core.stacks core.new) (C.Core.rows core.new) regs.new) result }
{
    let Some(row) = Descriptor::unpack(word) else {
        return Err(invalid());
    };
    let copy = Descriptor { copy: true, ..row };
    replaced(core, regs, next, 2, copy.pack());
    Ok(())
}

/// NXLN: a subscript and a mother are replaced by a copy of the row's descriptor.
pub fn index_mother<C: Core>(core: &mut C, regs: &mut Registers, next: u16) -> Result<(), Stop>
    requires { IsReady (C.Core.stacks core.old) regs.old }
    ensures { ProgramPerforms (index_mother regs.old next) (own_of_image (C.Core.stacks core.old) (C.Core.rows core.old) regs.old) (own_of_image (C.Core.stacks core.new) (C.Core.rows core.new) regs.new) result }
{
    let word = subscripted_element(core, regs, true)?;
    copy_replaces(core, regs, next, word)
}
