// VALC, STOD, BRUN back and INDX on the lent room of a process's own stack, where they read and write its cells only.
ghost use Rattle.std.specs.Prelude.{◌≡◌, ◌<◌, ◌≤◌, None, IfSome, false, true, if◌then◌else◌, Some, length};
ghost use Rattle.b67_control.specs.Display.{levels};
ghost use Rattle.b67_table.specs.Privacy.{RegistersStay};
ghost use Rattle.b67_table.specs.Rows.{value_call, store, branch_turn};
ghost use Rattle.b67_private.specs.Actions.{words_program, IsHeldWords};
ghost use Rattle.b67_private.specs.declared.operators.WordsRow.TheVariants.{Store, ValueCall};
ghost use Rattle.b67_action.specs.Lettered.{LettersOn};
ghost use Rattle.b67_action.specs.OnRoom.{HoldsOperand, IsRoom, PerformsOn};
ghost use Rattle.b67_deeds.specs.declared.Letter.TheVariants as letters;

use crate::arrays::index;
use crate::cells::cell_at;
use b67_control::Irw;
use b67_deeds::Letter;
use b67_ops::{BranchKind, Couple};
use b67_private::WordsRow;
use b67_reach::{Registers, floor, is_operand};
use b67_word::Word;

// The place in its own stack of the cell that a couple names, where an operand stands in it.
#[inline(always)]
fn operand_at(regs: &Registers, room: &[Word], level: u8, index: u16) -> Option<u32>
    requires level { level < levels }
    requires room { IsRoom regs.now room.now }
    ensures { IfSome result (λ at. HoldsOperand regs.now room.now level index at) }
{
    let at = cell_at(regs, room, level, index)?;
    if is_operand(room[at as usize]) {
        Some(at)
    } else {
        None
    }
}

// VALC of such a cell: its operand is pushed, where the stack has room.
#[inline(always)]
fn value(regs: &mut Registers, room: &mut [Word], couple: Couple, next: u16) -> bool
    requires held { couple.level < levels }
    requires room { IsRoom regs.old room.old }
    ensures done { result ≡ true → PerformsOn (value_call couple regs.old next) regs.old room.old regs.new room.new }
    ensures letter { result ≡ true → LettersOn (ValueCall couple) regs.old room.old letters.Read }
    ensures none { result ≡ false → (regs.new ≡ regs.old) × (room.new ≡ room.old) }
    ensures held { regs.new.s ≤ length room.old }
    ensures keeps { RegistersStay regs.old regs.new }
{
    let Some(at) = operand_at(regs, room, couple.level, couple.index) else {
        return false;
    };
    let top = regs.s as usize;
    if top >= room.len() {
        return false;
    }
    room[top] = room[at as usize];
    regs.s += 1;
    regs.place = next;
    true
}

// STOD of an operand by an IRW of such a cell: it is stored there, and both are dropped.
#[inline(always)]
fn store(regs: &mut Registers, room: &mut [Word], next: u16) -> bool
    requires room { IsRoom regs.old room.old }
    ensures done { result ≡ true → PerformsOn (store false regs.old next) regs.old room.old regs.new room.new }
    ensures letter { result ≡ true → LettersOn (Store false) regs.old room.old letters.Store }
    ensures none { result ≡ false → (regs.new ≡ regs.old) × (room.new ≡ room.old) }
    ensures held { regs.new.s ≤ length room.old }
    ensures keeps { RegistersStay regs.old regs.new }
{
    if floor(regs) + 2 > regs.s {
        return false;
    }
    let top = regs.s as usize;
    let word = room[top - 1];
    let Some(reference) = Irw::unpack(room[top - 2]) else {
        return false;
    };
    let Some(at) = operand_at(regs, room, reference.level, reference.index) else {
        return false;
    };
    if !is_operand(word) {
        return false;
    }
    room[at as usize] = word;
    regs.s -= 2;
    regs.place = next;
    true
}

// BRUN back.
#[inline(always)]
fn turn(regs: &mut Registers, room: &[Word], kind: BranchKind, target: u16, next: u16) -> bool
    requires room { IsRoom regs.old room.now }
    ensures done { result ≡ true → PerformsOn (branch_turn kind target regs.old next) regs.old room.now regs.new room.now }
    ensures none { result ≡ false → regs.new ≡ regs.old }
    ensures held { regs.new.s ≤ length room.now }
    ensures keeps { RegistersStay regs.old regs.new }
{
    match kind {
        BranchKind::Brun => {
            regs.place = target;
            true
        }
        BranchKind::Brfl | BranchKind::Brtr => false,
    }
}

// The letter, where the action went on.
#[inline(always)]
pub fn if_went(went: bool, letter: Letter) -> Option<Letter>
    ensures { result ≡ (if went then Some letter else None) }
{
    if went { Some(letter) } else { None }
}

/// Performs an action by its row where it is one of these, and answers its letter. Else nothing is done.
#[inline(always)]
pub fn perform_on_room(
    regs: &mut Registers,
    room: &mut [Word],
    row: WordsRow,
    next: u16,
) -> Option<Letter>
    requires held { IsHeldWords row }
    requires room { IsRoom regs.old room.old }
    ensures done { IfSome result (λ l. PerformsOn (words_program row regs.old next) regs.old room.old regs.new room.new) }
    ensures letter { IfSome result (λ l. LettersOn row regs.old room.old l) }
    ensures none { result ≡ None → (regs.new ≡ regs.old) × (room.new ≡ room.old) }
    ensures held { regs.new.s ≤ length room.old }
    ensures keeps { RegistersStay regs.old regs.new }
{
    match row {
        WordsRow::ValueCall(couple) => if_went(value(regs, room, couple, next), Letter::Read),
        WordsRow::Store(keeps) => {
            if keeps {
                None
            } else {
                if_went(store(regs, room, next), Letter::Store)
            }
        }
        WordsRow::Turn(kind, target) => {
            if_went(turn(regs, room, kind, target, next), Letter::Turn)
        }
        WordsRow::Index => if_went(index(regs, room, next), Letter::Index),
        _ => None,
    }
}
