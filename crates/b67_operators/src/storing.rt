//! Operators that store: STOD, STON.

ghost use Rattle.std.specs.Prelude.{◌≡◌, ◌≤◌, ◌+◌, ◌<◌, true, is_some, slice_get, Ok, Some, None, IfOk};
ghost use Rattle.b67_store.specs.Store.{word_at, row_words, stack_limit};
ghost use Rattle.b67_table.specs.Arrays.{as_indexed};
ghost use Rattle.b67_table.specs.References.{cell_place, named, popped_two};
ghost use Rattle.b67_table.specs.Look.{look_seen};
ghost use Rattle.b67_table.specs.Rows.{store, store_by, stored};
ghost use Rattle.b67_table.specs.Program.{answer, save, write_row};
ghost use Rattle.b67_reach.specs.Images.{own_of_image};
ghost use Rattle.b67_reach.specs.Answers.{IsReady, ProgramPerforms};
ghost use Rattle.b67_operators.specs.Stages.{finished, operand_cell};
ghost use Rattle.b67_letters.specs.Letters.{told_by, stored_letter};

use crate::letters::{element_or_not, lettered};
use b67_control::Descriptor;
use b67_deeds::Letter;
use b67_reach::{
    Cell, Registers, Stop, as_indexed, cell_of, element, invalid, is_operand, named, popped_two,
};
use b67_store::Core;
use b67_word::{Place, Word};

// The two words on top are dropped, or the operand of them stays, and the pointer goes on.
fn finish<C: Core>(core: &mut C, regs: &mut Registers, keeps: bool, next: u16, x: Word)
    requires ready { IsReady (C.Core.stacks core.old) regs.old }
    requires some { 2 ≤ regs.old.s }
    ensures { ProgramPerforms (answer (finished keeps regs.old next x)) (own_of_image (C.Core.stacks core.old) (C.Core.rows core.old) regs.old) (own_of_image (C.Core.stacks core.new) (C.Core.rows core.new) regs.new) (Ok result) }
{
    let length = regs.s - 2;
    core.cut(regs.stack, length).unwrap();
    regs.s = length;
    if keeps {
        core.push(regs.stack, x).unwrap();
        regs.s += 1;
    }
    regs.place = next;
}

// An operand is stored in an element of a row.
fn stored_element<C: Core>(
    core: &mut C,
    regs: &mut Registers,
    keeps: bool,
    next: u16,
    x: Word,
    d: Descriptor,
)
    requires ready { IsReady (C.Core.stacks core.old) regs.old }
    requires some { 2 ≤ regs.old.s }
    requires there { is_some (slice_get (row_words (C.Core.rows core.old) d.address) d.length) ≡ true }
    ensures { ProgramPerforms (answer (stored keeps regs.old next x (write_row d.address d.length x))) (own_of_image (C.Core.stacks core.old) (C.Core.rows core.old) regs.old) (own_of_image (C.Core.stacks core.new) (C.Core.rows core.new) regs.new) (Ok result) }
{
    core.write_row(d.address, d.length, x).unwrap();
    finish(core, regs, keeps, next, x);
}

// An operand is stored in a cell.
fn stored_cell<C: Core>(
    core: &mut C,
    regs: &mut Registers,
    keeps: bool,
    next: u16,
    x: Word,
    cell: Cell,
)
    requires ready { IsReady (C.Core.stacks core.old) regs.old }
    requires some { 2 ≤ regs.old.s }
    requires there { is_some (word_at (C.Core.stacks core.old) (cell_place cell)) ≡ true }
    requires fits { cell.frame.at + cell.index < stack_limit }
    ensures { ProgramPerforms (answer (stored keeps regs.old next x (save (cell_place cell) x))) (own_of_image (C.Core.stacks core.old) (C.Core.rows core.old) regs.old) (own_of_image (C.Core.stacks core.new) (C.Core.rows core.new) regs.new) (Ok result) }
{
    let place = Place {
        stack: cell.frame.stack,
        at: cell.frame.at + cell.index,
    };
    core.write(place, x).unwrap();
    finish(core, regs, keeps, next, x);
}

// The place of the cell that a reference names, where an operand lies in it.
fn operand_cell<C: Core>(core: &C, cell: Option<Cell>) -> Result<Cell, Stop>
    ensures value { result ≡ operand_cell (look_seen (C.Core.stacks core.now) (named cell)) }
    ensures there { IfOk result (λ c. is_some (word_at (C.Core.stacks core.now) (cell_place c)) ≡ true) }
    ensures fits { IfOk result (λ c. c.frame.at + c.index < stack_limit) }
{
    let found = named(core, cell)?;
    if !is_operand(found.word) {
        return Err(invalid());
    }
    // no stack is so long that the cell could lie higher
    let _ = core.length(found.cell.frame.stack);
    Ok(found.cell)
}

// The operand is stored in the cell that a word names.
fn store_in_cell<C: Core>(
    core: &mut C,
    regs: &mut Registers,
    keeps: bool,
    next: u16,
    x: Word,
    y: Word,
) -> Result<(), Stop>
    requires ready { IsReady (C.Core.stacks core.old) regs.old }
    requires some { 2 ≤ regs.old.s }
    ensures { ProgramPerforms (store_by keeps regs.old next x y None) (own_of_image (C.Core.stacks core.old) (C.Core.rows core.old) regs.old) (own_of_image (C.Core.stacks core.new) (C.Core.rows core.new) regs.new) result }
{
    let cell = operand_cell(core, cell_of(regs, y))?;
    stored_cell(core, regs, keeps, next, x, cell);
    Ok(())
}

// The operand is stored in the element that an indexed descriptor names.
fn store_in_element<C: Core>(
    core: &mut C,
    regs: &mut Registers,
    keeps: bool,
    next: u16,
    x: Word,
    y: Word,
    d: Descriptor,
) -> Result<(), Stop>
    requires ready { IsReady (C.Core.stacks core.old) regs.old }
    requires some { 2 ≤ regs.old.s }
    ensures { ProgramPerforms (store_by keeps regs.old next x y (Some d)) (own_of_image (C.Core.stacks core.old) (C.Core.rows core.old) regs.old) (own_of_image (C.Core.stacks core.new) (C.Core.rows core.new) regs.new) result }
{
    if core.read_row(d.address, d.length).is_none() {
        return Err(invalid());
    }
    stored_element(core, regs, keeps, next, x, d);
    Ok(())
}

// The operand is stored where the word under it leads.
fn store_by<C: Core>(
    core: &mut C,
    regs: &mut Registers,
    keeps: bool,
    next: u16,
    x: Word,
    y: Word,
) -> Result<(), Stop>
    requires ready { IsReady (C.Core.stacks core.old) regs.old }
    requires some { 2 ≤ regs.old.s }
    ensures { ProgramPerforms (store_by keeps regs.old next x y (as_indexed y)) (own_of_image (C.Core.stacks core.old) (C.Core.rows core.old) regs.old) (own_of_image (C.Core.stacks core.new) (C.Core.rows core.new) regs.new) result }
{
    match as_indexed(y) {
        Some(d) => store_in_element(core, regs, keeps, next, x, y, d),
        None => store_in_cell(core, regs, keeps, next, x, y),
    }
}

/// STOD and STON: the operand on top is stored where the reference or the indexed descriptor under it leads; both are
/// dropped, or the operand stays. A reference has to name an operand; what an element holds is not looked at. The letter says which of the
/// two it was.
pub fn store<C: Core>(
    core: &mut C,
    regs: &mut Registers,
    next: u16,
    keeps: bool,
) -> Result<Letter, Stop>
    requires { IsReady (C.Core.stacks core.old) regs.old }
    ensures letter { IfOk result (λ l. told_by stored_letter (look_seen (C.Core.stacks core.old) (popped_two regs.old)) ≡ Some l) }
    ensures performs { ProgramPerforms (store keeps regs.old next) (own_of_image (C.Core.stacks core.old) (C.Core.rows core.old) regs.old) (own_of_image (C.Core.stacks core.new) (C.Core.rows core.new) regs.new) result }
{
    let two = popped_two(core, regs)?;
    if !is_operand(two.0) {
        return Err(invalid());
    }
    let answer = store_by(core, regs, keeps, next, two.0, two.1);
    let letter = element_or_not(Letter::ElementStore, Letter::Store, two.1);
    lettered(answer, letter)
}
