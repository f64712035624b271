//! Reads: each answers what the table's look or test finds.

ghost use Rattle.std.specs.Prelude.{◌≡◌, ◌+◌, ◌<◌, ◌≤◌, ◌==◌, nat_le, if◌then◌else◌, Ok, Err, OnOk, IfOk, IfSome, IsSome, Some, ◌^◌};
ghost use Rattle.b67_control.specs.Display.{levels};
ghost use Rattle.b67_store.specs.Store.{Stacks, stack_at, word_at, stack_limit};
ghost use Rattle.b67_table.specs.Look.{look_seen};
ghost use Rattle.b67_table.specs.Private.{display_at, floor};
ghost use Rattle.b67_table.specs.References.{cell_place, couple_cell, sirw_cell, cell_of, named, reached, from_top, popped, popped_two, operand_in};
ghost use Rattle.b67_table.specs.Arrays.{as_indexed, element};
ghost use Rattle.b67_table.specs.declared.InterruptKind.TheVariants.{InvalidOperand, StackUnderflow};
ghost use Rattle.b67_reach.specs.declared.Stop.TheVariants.{Interrupt};
ghost use Rattle.b67_reach.specs.Answers.{looked, both, TestTells};

use crate::{Cell, InterruptKind, Reached, Registers, Stop};
use b67_control::{Descriptor, Irw, Sirw};
use b67_store::Core;
use b67_table::floor;
use b67_word::{Place, Word};

/// The interrupt of a word that has a tag, kind or range that the operator does not name.
pub fn invalid() -> Stop
    ensures { result ≡ Interrupt InvalidOperand }
{
    Stop::Interrupt(InterruptKind::InvalidOperand)
}

/// The place that the display names at a level, where there is one.
pub fn frame_at(regs: &Registers, level: u8) -> Option<Place>
    requires { level < levels }
    ensures { result ≡ display_at regs.now level }
{
    regs.display.get(level)
}

// ---- words on top

/// The word so far below the top, 0 being the top. An error comes exactly where no such word is in the stack.
pub fn from_top<C: Core>(core: &C, regs: &Registers, n: u32) -> Result<Word, Stop>
    requires room { regs.now.s ≤ stack_limit }
    requires some { n < regs.now.s }
    ensures { result ≡ looked (look_seen (C.Core.stacks core.now) (from_top regs.now n)) }
{
    let place = Place {
        stack: regs.stack,
        at: (regs.s - (n + 1)) as u16,
    };
    match core.read(place) {
        Some(word) => Ok(word),
        None => Err(invalid()),
    }
}

// Tests that so many words lie in the private part.
fn need(regs: &Registers, n: u8) -> Result<(), Stop>
    requires { regs.now.ll < levels }
    ensures { result ≡ (if nat_le (floor regs.now + n) regs.now.s then Ok tt else Err (Interrupt StackUnderflow)) }
{
    if floor(regs) + u32::from(n) <= regs.s {
        Ok(())
    } else {
        Err(Stop::Interrupt(InterruptKind::StackUnderflow))
    }
}

/// The word on top of the private part. StackUnderflow comes exactly where the private part is empty.
pub fn popped<C: Core>(core: &C, regs: &Registers) -> Result<Word, Stop>
    requires level { regs.now.ll < levels }
    requires room { regs.now.s ≤ stack_limit }
    ensures value { result ≡ looked (look_seen (C.Core.stacks core.now) (popped regs.now)) }
    ensures some { OnOk result (floor regs.now + 1 ≤ regs.now.s) }
{
    need(regs, 1)?;
    from_top(core, regs, 0)
}

/// The word on top of the private part, and the one under it. StackUnderflow comes exactly where the private part has
/// fewer than two words.
pub fn popped_two<C: Core>(core: &C, regs: &Registers) -> Result<(Word, Word), Stop>
    requires level { regs.now.ll < levels }
    requires room { regs.now.s ≤ stack_limit }
    ensures value { result ≡ looked (both (look_seen (C.Core.stacks core.now) (popped_two regs.now))) }
    ensures some { OnOk result (floor regs.now + 2 ≤ regs.now.s) }
{
    need(regs, 2)?;
    let x = from_top(core, regs, 0)?;
    let y = from_top(core, regs, 1)?;
    Ok((x, y))
}

// ---- cells

/// The word in a cell, None where none is there.
pub fn read_cell<C: Core>(core: &C, cell: Cell) -> Option<Word>
    ensures { result ≡ word_at (C.Core.stacks core.now) (cell_place cell) }
{
    match cell.frame.at.checked_add(cell.index) {
        Some(at) => core.read(Place {
            stack: cell.frame.stack,
            at,
        }),
        None => {
            // no stack is so long
            let _ = core.length(cell.frame.stack);
            None
        }
    }
}

/// The cell that a couple names, where the display names a frame at its level.
pub fn couple_cell(regs: &Registers, level: u8, index: u16) -> Option<Cell>
    requires { level < levels }
    ensures { result ≡ couple_cell regs.now level index }
{
    match frame_at(regs, level) {
        Some(frame) => Some(Cell { frame, index }),
        None => None,
    }
}

/// The cell that a SIRW names.
pub fn sirw_cell(sirw: Sirw) -> Cell
    ensures { result ≡ sirw_cell sirw }
{
    Cell {
        frame: Place {
            stack: sirw.stack,
            at: sirw.displacement,
        },
        index: sirw.index,
    }
}

/// The cell that a word names, None where it is no reference or the display names no frame at its level.
pub fn cell_of(regs: &Registers, word: Word) -> Option<Cell>
    ensures value { result ≡ cell_of regs.now word }
    ensures fits { IfSome result (λ cell. cell.index < 2 ^ 14) }
{
    match Irw::unpack(word) {
        Some(irw) => couple_cell(regs, irw.level, irw.index),
        None => match Sirw::unpack(word) {
            Some(sirw) => Some(sirw_cell(sirw)),
            None => None,
        },
    }
}

/// The word in the cell that a reference names. An error comes exactly where there is no cell, or no word in it.
pub fn named<C: Core>(core: &C, cell: Option<Cell>) -> Result<Reached, Stop>
    ensures value { result ≡ looked (look_seen (C.Core.stacks core.now) (named cell)) }
    ensures same { IfOk result (λ found. cell ≡ Some found.cell) }
    ensures is_open { IfOk result (λ found. IsSome (stack_at (C.Core.stacks core.now) found.cell.frame.stack)) }
{
    match cell {
        Some(cell) => match read_cell(core, cell) {
            Some(word) => Ok(Reached { word, cell }),
            None => Err(invalid()),
        },
        None => Err(invalid()),
    }
}

/// The word that a reference reaches, through one SIRW at most. An error comes exactly where no word is named, or a
/// second SIRW is.
pub fn reached<C: Core>(core: &C, cell: Option<Cell>) -> Result<Reached, Stop>
    ensures value { result ≡ looked (look_seen (C.Core.stacks core.now) (reached cell)) }
    ensures fits { IfSome cell (λ c. c.index < 2 ^ 14) → IfOk result (λ found. found.cell.index < 2 ^ 14) }
    ensures is_open { IfOk result (λ found. IsSome (stack_at (C.Core.stacks core.now) found.cell.frame.stack)) }
{
    let first = named(core, cell)?;
    let Some(sirw) = Sirw::unpack(first.word) else {
        return Ok(first);
    };
    let second = named(core, Some(sirw_cell(sirw)))?;
    match Sirw::unpack(second.word) {
        Some(_) => Err(invalid()),
        None => Ok(second),
    }
}

// ---- kinds of word

/// Tests that a word is an operand.
pub fn is_operand(word: Word) -> bool
    ensures { result ≡ (word.tag == 0) }
{
    word.tag() == 0
}

/// The word where it is an operand, and InvalidOperand where it is none.
pub fn operand_in(word: Word) -> Result<Word, Stop>
    ensures value { (stacks : Stacks) → result ≡ looked (look_seen stacks (operand_in word)) }
    ensures same { IfOk result (λ operand. operand ≡ word) }
{
    if is_operand(word) {
        Ok(word)
    } else {
        Err(invalid())
    }
}

/// The indexed descriptor that a word is, None where it is none.
pub fn as_indexed(word: Word) -> Option<Descriptor>
    ensures { result ≡ as_indexed word }
{
    let descriptor = Descriptor::unpack(word)?;
    if descriptor.indexed {
        Some(descriptor)
    } else {
        None
    }
}

/// The word at a place of a row. An error comes exactly where the row is not open or has no such word.
pub fn element<C: Core>(core: &C, row: u32, at: u32) -> Result<Word, Stop>
    ensures { TestTells (element row at) (C.Core.stacks core.now) (C.Core.rows core.now) result }
{
    match core.read_row(row, at) {
        Some(word) => Ok(word),
        None => Err(invalid()),
    }
}
