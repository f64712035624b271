// Where two parts of a process differ first.
ghost use Rattle.std.specs.Prelude.{◌≡◌, ◌↔◌, ◌-◌, ◌<◌, ◌≤◌, ◌^◌, None, IfSome, IsTrue, drop, length, map, reverse};
ghost use Rattle.b67_control.specs.Display.{levels};
ghost use Rattle.b67_store.specs.Store.{words_of, stack_limit};
ghost use Rattle.b67_linkage.specs.Held.{IsLinked};
ghost use Rattle.b67_machine.specs.Parts.{number_word, place_word, registers_before_display, last_registers, register_list, FirstDiffer, FirstOf};

use b67_control::{Display, Registers};
use b67_store::{Core, Words};
use b67_word::{Place, Word, operand};

// How many registers come before the display.
const FIRST: u32 = 4;

// How many levels a display has.
const LEVELS: u32 = 32;

/// How many words the registers are as a list.
pub const REGISTER_WORDS: u32 = 41;

// Tests that two words are the same.
#[inline(always)]
fn is_same(ours: Word, theirs: Word) -> bool
    ensures { IsTrue result ↔ (ours ≡ theirs) }
{
    ours == theirs
}

// The first position at which two lists of as many words differ, and the word of each there.
fn first_difference(kept: &[Word], given: &[Word]) -> Option<(u32, Word, Word)>
    requires length { length kept.now ≡ length given.now }
    requires few { length kept.now < 2 ^ 32 }
    ensures first { FirstOf kept.now given.now result }
    ensures within { IfSome result (λ found. found.0 < length kept.now) }
{
    'words: for position in 0..kept.len() {
        let ours = kept[position];
        let theirs = given[position];
        if !is_same(ours, theirs) {
            return Some((position as u32, ours, theirs));
        }
    }
    None
}

// A place as a word.
#[inline(always)]
fn place_word(place: Option<Place>) -> Word
    ensures value { result ≡ place_word place }
    ensures fits { IfSome place (λ p. p.at < 2 ^ 16) }
{
    match place {
        Some(place) => operand(65_536 * i64::from(place.stack) + i64::from(place.at) + 1),
        None => operand(0),
    }
}

// The first level at which two displays differ, and what each names there as a word.
fn first_level(kept: &Display, given: &Display) -> Option<(u32, Word, Word)>
    ensures none { result ≡ None → kept.now ≡ given.now }
    ensures some { IfSome result (λ found. FirstDiffer (map place_word kept.now) (map place_word given.now) found.0 found.1 found.2) }
    ensures within { IfSome result (λ found. found.0 < levels) }
    ensures length { length kept.now ≡ levels }
{
    'levels: for level in 0..LEVELS {
        let ours = place_word(kept.get(level as u8));
        let theirs = place_word(given.get(level as u8));
        if ours != theirs {
            return Some((level, ours, theirs));
        }
    }
    None
}

// The registers before the display as words.
fn first_registers(regs: &Registers) -> [Word; 4]
    ensures { result ≡ registers_before_display regs.now }
{
    [
        operand(i64::from(regs.stack)),
        operand(i64::from(regs.s)),
        operand(i64::from(regs.f)),
        operand(i64::from(regs.ll)),
    ]
}

// The registers after the display as words.
fn last_registers(regs: &Registers) -> [Word; 5]
    ensures value { result ≡ last_registers regs.now }
    ensures task { IfSome regs.now.task (λ p. p.at < 2 ^ 16) }
    ensures critical { IfSome regs.now.critical (λ p. p.at < 2 ^ 16) }
{
    [
        operand(i64::from(regs.cells)),
        operand(i64::from(regs.segment)),
        operand(i64::from(regs.place)),
        place_word(regs.task),
        place_word(regs.critical),
    ]
}

/// The first position at which the registers of two parts differ as words, and the word of each there.
pub fn first_register(kept: &Registers, given: &Registers) -> Option<(u32, Word, Word)>
    ensures none { result ≡ None → kept.now ≡ given.now }
    ensures some { IfSome result (λ found. FirstDiffer (register_list kept.now) (register_list given.now) found.0 found.1 found.2) }
    ensures length { result ≡ None → length (register_list kept.now) ≡ REGISTER_WORDS }
{
    if let Some(found) = first_difference(&first_registers(kept), &first_registers(given)) {
        return Some(found);
    }
    if let Some(found) = first_level(&kept.display, &given.display) {
        return Some((FIRST + found.0, found.1, found.2));
    }
    match first_difference(&last_registers(kept), &last_registers(given)) {
        Some(found) => Some((FIRST + LEVELS + found.0, found.1, found.2)),
        None => None,
    }
}

/// The first position, from the top, at which the topmost words of a process's stack and as many given ones differ, and the word of each
/// there.
pub fn first_word<C: Core>(core: &C, regs: &Registers, given: &Words) -> Option<(u32, Word, Word)>
    requires linked { IsLinked (C.Core.stacks core.now) (C.Core.rows core.now) regs.now }
    requires within { length given.now ≤ regs.now.s }
    ensures first { FirstOf (reverse (drop (regs.now.s - length given.now) (words_of (C.Core.stacks core.now) regs.now.stack))) given.now result }
    ensures within { IfSome result (λ found. found.0 < stack_limit) }
{
    'words: for position in 0..given.len() {
        let place = Place {
            stack: regs.stack,
            at: (regs.s - 1 - position) as u16,
        };
        let ours = core.read(place).unwrap();
        let theirs = given.from_top(position).unwrap();
        if ours != theirs {
            return Some((position, ours, theirs));
        }
    }
    None
}
