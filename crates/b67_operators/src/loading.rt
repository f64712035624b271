//! Operators that put a word on the stack that lies elsewhere: LODT, LOAD, and VALC on an operand.

ghost use Rattle.std.specs.Prelude.{◌≡◌, ◌||◌, ◌==◌, ◌+◌, ◌≤◌, IfOk, OnOk, Some, ℕ};
ghost use Rattle.b67_table.specs.Rows.{is_passed, load_through, load_value, loaded, operand_pushed, value_pushed};
ghost use Rattle.b67_table.specs.Arrays.{as_indexed};
ghost use Rattle.b67_operators.specs.Stages.{operand_replaces};
ghost use Rattle.b67_reach.specs.Images.{own_of_image};
ghost use Rattle.b67_reach.specs.Answers.{IsReady, ProgramPerforms, TestTells};
ghost use Rattle.b67_table.specs.Look.{look_seen};
ghost use Rattle.b67_table.specs.References.{popped};
ghost use Rattle.b67_letters.specs.Letters.{told_by, loaded_letter};

use crate::letters::{element_or_not, lettered};
use b67_control::Sirw;
use b67_deeds::Letter;
use b67_reach::{
    Reached, Registers, Stop, as_indexed, cell_of, element, invalid, is_operand, named, popped,
    reached, replaced,
};
use b67_store::{Core, MOST_STACK_WORDS};
use b67_word::Word;

// Tests that LODT passes a word on: an operand or a SIRW.
fn is_passed(word: Word) -> bool
    ensures { result ≡ is_passed word }
{
    is_operand(word) || Sirw::unpack(word).is_some()
}

/// LODT: the reference on top is replaced by the word that it names, an operand or a SIRW.
pub fn load_through<C: Core>(core: &mut C, regs: &mut Registers, next: u16) -> Result<(), Stop>
    requires { IsReady (C.Core.stacks core.old) regs.old }
    ensures { ProgramPerforms (load_through regs.old next) (own_of_image (C.Core.stacks core.old) (C.Core.rows core.old) regs.old) (own_of_image (C.Core.stacks core.new) (C.Core.rows core.new) regs.new) result }
{
    let x = popped(core, regs)?;
    let found = named(core, cell_of(regs, x))?;
    if !is_passed(found.word) {
        return Err(invalid());
    }
    replaced(core, regs, next, 1, found.word);
    Ok(())
}

// The word of an indexed descriptor's element, or what a reference reaches.
fn loaded<C: Core>(core: &C, regs: &Registers, x: Word) -> Result<Word, Stop>
    ensures { TestTells (loaded regs.now x (as_indexed x)) (C.Core.stacks core.now) (C.Core.rows core.now) result }
{
    match as_indexed(x) {
        Some(descriptor) => element(core, descriptor.address, descriptor.length),
        None => Ok(reached(core, cell_of(regs, x))?.word),
    }
}

/// An operand takes the place of so many words on top, as LOAD and NXLV end.
pub fn operand_replaces<C: Core>(
    core: &mut C,
    regs: &mut Registers,
    next: u16,
    count: u32,
    word: Word,
) -> Result<(), Stop>
    requires ready { IsReady (C.Core.stacks core.old) regs.old }
    requires some { (1 ≤ count) × (count ≤ regs.old.s) }
    ensures { ProgramPerforms (operand_replaces regs.old next count word) (own_of_image (C.Core.stacks core.old) (C.Core.rows core.old) regs.old) (own_of_image (C.Core.stacks core.new) (C.Core.rows core.new) regs.new) result }
{
    if is_operand(word) {
        replaced(core, regs, next, count, word);
        Ok(())
    } else {
        Err(invalid())
    }
}

/// LOAD: the reference or the indexed descriptor on top is replaced by the operand that it reaches. The letter says which of the two it was.
pub fn load_value<C: Core>(core: &mut C, regs: &mut Registers, next: u16) -> Result<Letter, Stop>
    requires { IsReady (C.Core.stacks core.old) regs.old }
    ensures letter { IfOk result (λ l. told_by loaded_letter (look_seen (C.Core.stacks core.old) (popped regs.old)) ≡ Some l) }
    ensures performs { ProgramPerforms (load_value regs.old next) (own_of_image (C.Core.stacks core.old) (C.Core.rows core.old) regs.old) (own_of_image (C.Core.stacks core.new) (C.Core.rows core.new) regs.new) result }
{
    let x = popped(core, regs)?;
    let word = loaded(core, regs, x)?;
    let answer = operand_replaces(core, regs, next, 1, word);
    let letter = element_or_not(Letter::ElementRead, Letter::Read, x);
    lettered(answer, letter)
}

// A word is pushed, where its stack has room.
fn value_pushed<C: Core>(
    core: &mut C,
    regs: &mut Registers,
    next: u16,
    word: Word,
) -> Result<(), Stop>
    requires { IsReady (C.Core.stacks core.old) regs.old }
    ensures { ProgramPerforms (value_pushed regs.old next word) (own_of_image (C.Core.stacks core.old) (C.Core.rows core.old) regs.old) (own_of_image (C.Core.stacks core.new) (C.Core.rows core.new) regs.new) result }
{
    if regs.s as usize == MOST_STACK_WORDS {
        return Err(Stop::StackLimit);
    }
    core.push(regs.stack, word).unwrap();
    regs.s += 1;
    regs.place = next;
    Ok(())
}

/// VALC where it reaches no PCW: the operand that was reached is pushed.
pub fn operand_pushed<C: Core>(
    core: &mut C,
    regs: &mut Registers,
    next: u16,
    found: Reached,
) -> Result<(), Stop>
    requires { IsReady (C.Core.stacks core.old) regs.old }
    ensures { ProgramPerforms (operand_pushed regs.old next found) (own_of_image (C.Core.stacks core.old) (C.Core.rows core.old) regs.old) (own_of_image (C.Core.stacks core.new) (C.Core.rows core.new) regs.new) result }
{
    if is_operand(found.word) {
        value_pushed(core, regs, next, found.word)
    } else {
        Err(invalid())
    }
}
