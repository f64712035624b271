// The words on top of a stack, in its room, and words in their place. S says how many of the room are in use.
ghost use Rattle.std.specs.Prelude.{◌≡◌, ◌+◌, ◌-◌, ◌∷◌, ◌≤◌, drop, length};
ghost use Rattle.b67_private.specs.Parts.{AreReady, HasRoom, part_in, top_first};
ghost use Rattle.b67_private.specs.Performing.{TakesOne, TakesTwo, set_to};

use crate::Stop;
use b67_table::{InterruptKind, Registers, floor};
use b67_word::Word;

/// No word lies in the private part.
pub const UNDERFLOW: Stop = Stop::Interrupt(InterruptKind::StackUnderflow);

// The word on top.
#[inline(always)]
pub fn top(regs: &Registers, room: &[Word]) -> Result<Word, Stop>
    requires ready { AreReady regs.now }
    requires room { HasRoom regs.now room.now }
    ensures { TakesOne (part_in regs.now room.now) result }
{
    if floor(regs) >= regs.s {
        return Err(UNDERFLOW);
    }
    Ok(room[regs.s as usize - 1])
}

// The two words on top, the top one first.
#[inline(always)]
pub fn two(regs: &Registers, room: &[Word]) -> Option<(Word, Word)>
    requires ready { AreReady regs.now }
    requires room { HasRoom regs.now room.now }
    ensures { TakesTwo (part_in regs.now room.now) result }
{
    if floor(regs) + 1 >= regs.s {
        return None;
    }
    let length = regs.s as usize;
    Some((room[length - 1], room[length - 2]))
}

// A word takes the place of so many on top.
#[inline(always)]
pub fn replace(regs: &mut Registers, room: &mut [Word], count: u32, word: Word, next: u16)
    requires room { HasRoom regs.old room.old }
    requires within { count ≤ regs.old.s }
    requires fits { regs.old.s + 1 ≤ length room.old + count }
    ensures registers { regs.new ≡ set_to (regs.old.s + 1 - count) next regs.old }
    ensures words { top_first regs.new.s room.new ≡ word ∷ drop count (top_first regs.old.s room.old) }
{
    let at = regs.s - count;
    room[at as usize] = word;
    regs.s = at + 1;
    regs.place = next;
}

// Words take the places of the two on top.
#[inline(always)]
pub fn put_two(regs: &Registers, room: &mut [Word], lower: Word, upper: Word)
    requires room { HasRoom regs.now room.old }
    requires two { 2 ≤ regs.now.s }
    ensures { top_first regs.now.s room.new ≡ upper ∷ lower ∷ drop 2 (top_first regs.now.s room.old) }
{
    let length = regs.s as usize;
    room[length - 2] = lower;
    room[length - 1] = upper;
}

// So many words on top go.
#[inline(always)]
pub fn lower(regs: &mut Registers, room: &[Word], count: u32, next: u16)
    requires room { HasRoom regs.old room.now }
    requires within { count ≤ regs.old.s }
    ensures registers { regs.new ≡ set_to (regs.old.s - count) next regs.old }
    ensures words { top_first regs.new.s room.now ≡ drop count (top_first regs.old.s room.now) }
{
    regs.s -= count;
    regs.place = next;
}
