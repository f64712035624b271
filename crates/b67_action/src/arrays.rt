// Arrays, seen from the lent room of a process's own stack: what the two words on top name.
ghost use Rattle.std.specs.Prelude.{◌≡◌, ◌+◌, ◌<◌, ◌≤◌, IfSome, Some, true, false, length};
ghost use Rattle.b67_control.specs.Control.{as_descriptor, Fits_descriptor};
ghost use Rattle.b67_table.specs.Arrays.{is_array_descriptor, index_program, index_in};
ghost use Rattle.b67_table.specs.Moves.{replaced};
ghost use Rattle.b67_table.specs.Privacy.{RegistersStay};
ghost use Rattle.b67_table.specs.Program.{answer};
ghost use Rattle.b67_action.specs.OnRoom.{IsRoom, PerformsOn, IsArrayOf, SubscriptsOn, StoresOn};

use crate::cells::cell_at;
use b67_control::{Descriptor, Irw};
use b67_reach::{Registers, as_indexed, floor, is_operand};
use b67_word::Word;

// The descriptor of an array, with or without mother, that a word is.
#[inline(always)]
fn array_in(mother: bool, word: Word) -> Option<Descriptor>
    ensures found { IfSome result (λ array. (as_descriptor word ≡ Some array) × (is_array_descriptor mother array ≡ true)) }
    ensures fits { IfSome result Fits_descriptor }
{
    let array = Descriptor::unpack(word)?;
    if array.presence && !array.indexed && array.mother == mother {
        Some(array)
    } else {
        None
    }
}

// The descriptor of an array that a word is, or that stands in a cell of the process's own stack which it names.
#[inline(always)]
fn array_of(regs: &Registers, room: &[Word], mother: bool, word: Word) -> Option<Descriptor>
    requires room { IsRoom regs.now room.now }
    ensures found { IfSome result (λ array. IsArrayOf regs.now room.now mother word array) }
    ensures fits { IfSome result Fits_descriptor }
{
    match Irw::unpack(word) {
        Some(reference) => {
            let at = cell_at(regs, room, reference.level, reference.index)?;
            array_in(mother, room[at as usize])
        }
        None => array_in(mother, word),
    }
}

// A subscript as an index, from 0 to below the length.
#[inline(always)]
fn index_of(subscript: i64, length: u32) -> Option<u32>
    ensures value { result ≡ index_in subscript length }
    ensures within { IfSome result (λ n. n < length) }
{
    if 0 <= subscript && subscript < i64::from(length) {
        Some(subscript as u32)
    } else {
        None
    }
}

/// The array that the word on top is or names, and the index that the whole number under it is.
#[inline(always)]
pub fn subscripted(regs: &Registers, room: &[Word], mother: bool) -> Option<(Descriptor, u32)>
    requires room { IsRoom regs.now room.now }
    ensures found { IfSome result (λ f. SubscriptsOn regs.now room.now mother f.0 f.1) }
    ensures fits { IfSome result (λ f. Fits_descriptor f.0) }
    ensures two { IfSome result (λ f. 2 ≤ regs.now.s) }
    ensures within { IfSome result (λ f. f.1 < f.0.length) }
{
    if floor(regs) + 2 > regs.s {
        return None;
    }
    let top = regs.s as usize;
    let subscript = room[top - 2].as_whole()?;
    let array = array_of(regs, room, mother, room[top - 1])?;
    let at = index_of(subscript, array.length)?;
    Some((array, at))
}

/// What is to be stored in an element of an array.
#[derive(Clone, Copy)]
pub struct Storing {
    pub word: Word,
    /// The indexed descriptor of the element.
    pub element: Descriptor,
}

/// The operand on top, and the indexed descriptor of an element that is under it.
#[inline(always)]
pub fn stored(regs: &Registers, room: &[Word]) -> Option<Storing>
    requires room { IsRoom regs.now room.now }
    ensures found { IfSome result (λ s. StoresOn regs.now room.now s.word s.element) }
    ensures two { IfSome result (λ f. 2 ≤ regs.now.s) }
{
    if floor(regs) + 2 > regs.s {
        return None;
    }
    let top = regs.s as usize;
    let word = room[top - 1];
    if !is_operand(word) {
        return None;
    }
    let element = as_indexed(room[top - 2])?;
    Some(Storing { word, element })
}

/// A word takes the place of the two on top, and the pointer goes on.
#[inline(always)]
pub fn replace_two(regs: &mut Registers, room: &mut [Word], word: Word, next: u16)
    requires room { IsRoom regs.old room.old }
    requires two { 2 ≤ regs.old.s }
    ensures done { PerformsOn (answer (replaced regs.old next 2 word)) regs.old room.old regs.new room.new }
    ensures fewer { regs.new.s + 1 ≡ regs.old.s }
    ensures keeps { RegistersStay regs.old regs.new }
{
    let below = regs.s as usize - 2;
    room[below] = word;
    regs.s -= 1;
    regs.place = next;
}

/// INDX of an array without mother and an index within it.
#[inline(always)]
pub fn index(regs: &mut Registers, room: &mut [Word], next: u16) -> bool
    requires room { IsRoom regs.old room.old }
    ensures done { result ≡ true → PerformsOn (index_program regs.old next) regs.old room.old regs.new room.new }
    ensures none { result ≡ false → (regs.new ≡ regs.old) × (room.new ≡ room.old) }
    ensures held { regs.new.s ≤ length room.old }
    ensures keeps { RegistersStay regs.old regs.new }
{
    let Some((array, at)) = subscripted(regs, room, false) else {
        return false;
    };
    let indexed = Descriptor {
        copy: true,
        indexed: true,
        length: at,
        ..array
    };
    replace_two(regs, room, indexed.pack(), next);
    true
}
