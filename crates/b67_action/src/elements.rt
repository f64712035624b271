// Elements of arrays, as operators on the words of a process's own stack name them, while the stack has all the words of its room.
ghost use Rattle.std.specs.Prelude.{◌≡◌, ◌<◌, ◌≤◌, ◌==◌, IfSome, None, Some, true, false, Ok};
ghost use Rattle.b67_control.specs.Control.{Fits_descriptor};
ghost use Rattle.b67_control.specs.Display.{levels};
ghost use Rattle.b67_store.specs.Store.{stack_limit, with_cut};
ghost use Rattle.b67_table.specs.Arrays.{index_and_load, index_mother};
ghost use Rattle.b67_table.specs.Moves.{replaced};
ghost use Rattle.b67_table.specs.Privacy.{RegistersStay};
ghost use Rattle.b67_table.specs.Program.{answer};
ghost use Rattle.b67_table.specs.Rows.{store};
ghost use Rattle.b67_private.specs.Actions.{words_program};
ghost use Rattle.b67_private.specs.Lettered.{words_letter};
ghost use Rattle.b67_private.specs.declared.operators.WordsRow.TheVariants.{Store as StoreRow};
ghost use Rattle.b67_deeds.specs.declared.Letter.TheVariants.{ElementStore};
ghost use Rattle.b67_reach.specs.Answers.{ProgramPerforms};
ghost use Rattle.b67_action.specs.OnRoom.{Stores, Subscripts};
ghost use Rattle.b67_action.specs.Reaching.{IsOpen, own_of};

use crate::arrays::{Storing, replace_two, stored, subscripted};
use crate::room::if_went;
use b67_control::Descriptor;
use b67_deeds::Letter;
use b67_private::WordsRow;
use b67_reach::{Registers, is_operand};
use b67_store::Core;
use b67_word::Word;

// The array and the index that the two words on top name.
#[inline(always)]
fn named<C: Core>(core: &mut C, regs: &Registers, mother: bool) -> Option<(Descriptor, u32)>
    requires open { IsOpen (C.Core.stacks core.old) regs.now }
    ensures found { IfSome result (λ f. Subscripts (with_cut (C.Core.stacks core.old) regs.now.stack regs.now.s) regs.now mother f.0 f.1) }
    ensures two { IfSome result (λ f. 2 ≤ regs.now.s) }
    ensures same { own_of (C.Core.stacks core.new) (C.Core.rows core.new) regs.now ≡ own_of (C.Core.stacks core.old) (C.Core.rows core.old) regs.now }
    ensures open { IsOpen (C.Core.stacks core.new) regs.now }
{
    let room = core.room(regs.stack, regs.s);
    subscripted(regs, room, mother)
}

// A word takes the place of the two on top, and the pointer goes on.
#[inline(always)]
fn put<C: Core>(core: &mut C, regs: &mut Registers, word: Word, next: u16)
    requires open { IsOpen (C.Core.stacks core.old) regs.old }
    requires two { 2 ≤ regs.old.s }
    ensures done { ProgramPerforms (answer (replaced regs.old next 2 word)) (own_of (C.Core.stacks core.old) (C.Core.rows core.old) regs.old) (own_of (C.Core.stacks core.new) (C.Core.rows core.new) regs.new) (Ok result) }
    ensures open { IsOpen (C.Core.stacks core.new) regs.new }
    ensures keeps { RegistersStay regs.old regs.new }
{
    let room = core.room(regs.stack, regs.s);
    replace_two(regs, room, word, next);
}

// NXLV of an element that is an operand, and whether it was done.
#[inline(always)]
fn load_element<C: Core>(core: &mut C, regs: &mut Registers, next: u16) -> bool
    requires open { IsOpen (C.Core.stacks core.old) regs.old }
    ensures done { result ≡ true → ProgramPerforms {A = Unit {0}} (index_and_load regs.old next) (own_of (C.Core.stacks core.old) (C.Core.rows core.old) regs.old) (own_of (C.Core.stacks core.new) (C.Core.rows core.new) regs.new) (Ok (tt {0})) }
    ensures none { result ≡ false → own_of (C.Core.stacks core.new) (C.Core.rows core.new) regs.new ≡ own_of (C.Core.stacks core.old) (C.Core.rows core.old) regs.old }
    ensures open { IsOpen (C.Core.stacks core.new) regs.new }
    ensures keeps { RegistersStay regs.old regs.new }
{
    let Some((array, at)) = named(core, regs, false) else {
        return false;
    };
    let Some(word) = core.read_row(array.address, at) else {
        return false;
    };
    if !is_operand(word) {
        return false;
    }
    put(core, regs, word, next);
    true
}

// NXLN of a row, and whether it was done.
#[inline(always)]
fn load_row<C: Core>(core: &mut C, regs: &mut Registers, next: u16) -> bool
    requires open { IsOpen (C.Core.stacks core.old) regs.old }
    ensures done { result ≡ true → ProgramPerforms {A = Unit {0}} (index_mother regs.old next) (own_of (C.Core.stacks core.old) (C.Core.rows core.old) regs.old) (own_of (C.Core.stacks core.new) (C.Core.rows core.new) regs.new) (Ok (tt {0})) }
    ensures none { result ≡ false → own_of (C.Core.stacks core.new) (C.Core.rows core.new) regs.new ≡ own_of (C.Core.stacks core.old) (C.Core.rows core.old) regs.old }
    ensures open { IsOpen (C.Core.stacks core.new) regs.new }
    ensures keeps { RegistersStay regs.old regs.new }
{
    let Some((mother, at)) = named(core, regs, true) else {
        return false;
    };
    let Some(word) = core.read_row(mother.address, at) else {
        return false;
    };
    let Some(row) = Descriptor::unpack(word) else {
        return false;
    };
    let copy = Descriptor { copy: true, ..row };
    put(core, regs, copy.pack(), next);
    true
}

// The operand on top, and the indexed descriptor of an element that is under it.
#[inline(always)]
fn to_store<C: Core>(core: &mut C, regs: &Registers) -> Option<Storing>
    requires open { IsOpen (C.Core.stacks core.old) regs.now }
    ensures found { IfSome result (λ s. Stores (with_cut (C.Core.stacks core.old) regs.now.stack regs.now.s) regs.now s.word s.element) }
    ensures two { IfSome result (λ f. 2 ≤ regs.now.s) }
    ensures same { own_of (C.Core.stacks core.new) (C.Core.rows core.new) regs.now ≡ own_of (C.Core.stacks core.old) (C.Core.rows core.old) regs.now }
    ensures open { IsOpen (C.Core.stacks core.new) regs.now }
{
    let room = core.room(regs.stack, regs.s);
    stored(regs, room)
}

// STOD through an indexed descriptor, and whether it was done.
#[inline(always)]
fn store_element<C: Core>(core: &mut C, regs: &mut Registers, next: u16) -> bool
    requires open { IsOpen (C.Core.stacks core.old) regs.old }
    ensures done { result ≡ true → ProgramPerforms {A = Unit {0}} (store false regs.old next) (own_of (C.Core.stacks core.old) (C.Core.rows core.old) regs.old) (own_of (C.Core.stacks core.new) (C.Core.rows core.new) regs.new) (Ok (tt {0})) }
    ensures letter { result ≡ true → words_letter (StoreRow false) (with_cut (C.Core.stacks core.old) regs.old.stack regs.old.s) regs.old ≡ Some ElementStore }
    ensures none { result ≡ false → own_of (C.Core.stacks core.new) (C.Core.rows core.new) regs.new ≡ own_of (C.Core.stacks core.old) (C.Core.rows core.old) regs.old }
    ensures open { IsOpen (C.Core.stacks core.new) regs.new }
    ensures keeps { RegistersStay regs.old regs.new }
{
    let Some(stored) = to_store(core, regs) else {
        return false;
    };
    match core.write_row(stored.element.address, stored.element.length, stored.word) {
        Ok(()) => {
            regs.s -= 2;
            regs.place = next;
            true
        }
        Err(_) => false,
    }
}

/// Performs NXLV, NXLN, or STOD through an indexed descriptor, while the stack has all the words of its room, where the element is there and its
/// array is or stands in the process's own stack; and answers its letter. Else nothing is done.
#[inline(always)]
pub fn reach_at_once<C: Core>(
    core: &mut C,
    regs: &mut Registers,
    kind: WordsRow,
    next: u16,
) -> Option<Letter>
    requires open { IsOpen (C.Core.stacks core.old) regs.old }
    ensures done { IfSome result (λ l. ProgramPerforms {A = Unit {0}} (words_program kind regs.old next) (own_of (C.Core.stacks core.old) (C.Core.rows core.old) regs.old) (own_of (C.Core.stacks core.new) (C.Core.rows core.new) regs.new) (Ok (tt {0}))) }
    ensures letter { IfSome result (λ l. words_letter kind (with_cut (C.Core.stacks core.old) regs.old.stack regs.old.s) regs.old ≡ Some l) }
    ensures none { result ≡ None → own_of (C.Core.stacks core.new) (C.Core.rows core.new) regs.new ≡ own_of (C.Core.stacks core.old) (C.Core.rows core.old) regs.old }
    ensures open { IsOpen (C.Core.stacks core.new) regs.new }
    ensures keeps { RegistersStay regs.old regs.new }
{
    match kind {
        WordsRow::IndexAndLoad => if_went(load_element(core, regs, next), Letter::ElementRead),
        WordsRow::IndexMother => if_went(load_row(core, regs, next), Letter::Index),
        WordsRow::Store(keeps) => {
            if keeps {
                None
            } else {
                if_went(store_element(core, regs, next), Letter::ElementStore)
            }
        }
        _ => None,
    }
}
