// A run of a process on the lent room of its own stack: its plain operators, and actions of its own that go on.
ghost use Rattle.std.specs.Prelude.{◌≡◌, ◌+◌, ◌-◌, ◌≤◌, ℕ, IfSome, None, true, false, length};
ghost use Rattle.b67_segment.specs.Decoded.{found, AreDecoded};
ghost use Rattle.b67_store.specs.Store.{stack_limit};
ghost use Rattle.b67_table.specs.Image.{Image};
ghost use Rattle.b67_table.specs.Privacy.{RegistersStay};
ghost use Rattle.b67_private.specs.Parts.{HasRoom};
ghost use Rattle.b67_private.specs.Prepared.{IsFlatRowOf};
ghost use Rattle.b67_action.specs.Running.{IsLent, given_back, IsOpenAt, HasCome, HasRunIn, HasRun, ActionGoesOn, PlainStep};

use crate::room::perform_on_room;
use b67_deeds::Letter;
use b67_private::{FlatRow, Prepared, flat_at, frequent_words, perform_fetched, perform_flat};
use b67_reach::Registers;
use b67_segment::Code;
use b67_word::Word;

/// What a process has done on the room of its own stack.
#[derive(Clone, Copy)]
pub struct Ran {
    /// How many entries went on.
    pub entries: u32,
    /// How many operators these were, all in all.
    pub operators: u32,
    /// How many plain operators came after them.
    pub plain: u32,
}

// Performs the next operator by its row, where it is plain; and answers whether it did. Else nothing is done.
#[inline(always)]
fn plain_by_row(
    regs: &mut Registers,
    room: &mut [Word],
    code: &Code,
    row: &FlatRow,
    next: u16,
) -> bool
    requires lent { (img : Image) × (p : ℕ) × IsLent code.now img p regs.old room.old }
    requires room { HasRoom regs.old room.old }
    requires row { IsFlatRowOf regs.old.place (found code.now regs.old.segment regs.old.ll regs.old.place) (row.now, next) }
    ensures steps { (img : Image) (p : ℕ) → IsLent code.now img p regs.old room.old → PlainStep regs.new room.new result code.now p img (given_back regs.new room.new p img) }
    ensures lends { (img : Image) (p : ℕ) → IsLent code.now img p regs.old room.old → IsLent code.now (given_back regs.new room.new p img) p regs.new room.new }
    ensures none { result ≡ false → regs.new ≡ regs.old }
    ensures held { regs.new.s ≤ length room.old }
    ensures keeps { RegistersStay regs.old regs.new }
{
    perform_flat(regs, room, *row, next).is_ok()
}

// Performs the next operator where it is plain, whether its row was made ready or not; and answers whether it did. Else nothing is done.
#[inline(always)]
fn plain_fetched(
    regs: &mut Registers,
    room: &mut [Word],
    code: &Code,
    table: Option<&Prepared>,
) -> bool
    requires lent { (img : Image) × (p : ℕ) × IsLent code.now img p regs.old room.old }
    requires room { HasRoom regs.old room.old }
    requires table { IfSome table (λ t. AreDecoded code.now regs.old.segment regs.old.ll t.now) }
    ensures steps { (img : Image) (p : ℕ) → IsLent code.now img p regs.old room.old → PlainStep regs.new room.new result code.now p img (given_back regs.new room.new p img) }
    ensures lends { (img : Image) (p : ℕ) → IsLent code.now img p regs.old room.old → IsLent code.now (given_back regs.new room.new p img) p regs.new room.new }
    ensures held { regs.new.s ≤ length room.old }
    ensures keeps { RegistersStay regs.old regs.new }
{
    perform_fetched(regs, room, code, table)
}

// Performs the next operator where it is allowed and is an action of the process's own that goes on; and answers its letter. Else nothing is
// done.
#[inline(always)]
fn act_by_row(
    regs: &mut Registers,
    room: &mut [Word],
    code: &Code,
    row: &FlatRow,
    next: u16,
    allowed: bool,
) -> Option<Letter>
    requires lent { (img : Image) × (p : ℕ) × IsLent code.now img p regs.old room.old }
    requires room { HasRoom regs.old room.old }
    requires row { IsFlatRowOf regs.old.place (found code.now regs.old.segment regs.old.ll regs.old.place) (row.now, next) }
    ensures goes { IfSome result (λ l. (img : Image) (p : ℕ) → IsLent code.now img p regs.old room.old → ActionGoesOn code.now p l img (given_back regs.new room.new p img)) }
    ensures lends { IfSome result (λ l. (img : Image) (p : ℕ) → IsLent code.now img p regs.old room.old → IsLent code.now (given_back regs.new room.new p img) p regs.new room.new) }
    ensures none { result ≡ None → (regs.new ≡ regs.old) × (room.new ≡ room.old) }
    ensures held { regs.new.s ≤ length room.old }
    ensures keeps { RegistersStay regs.old regs.new }
    ensures allowed { IfSome result (λ l. allowed ≡ true) }
{
    if !allowed {
        return None;
    }
    let Some(kind) = frequent_words(*row) else {
        return None;
    };
    perform_on_room(regs, room, kind, next)
}

// What was performed, where this many operators were in all, up to the last entry so many.
#[inline(always)]
fn ran_to(entries: u32, operators: u32, done: u32) -> Ran
    requires { operators ≤ done }
    ensures { result ≡ record { entries = entries; operators = operators; plain = done - operators } }
{
    Ran {
        entries,
        operators,
        plain: done - operators,
    }
}

/// Performs operators of a process that come next, one after another, on its registers and on the room of its stack: plain ones, and VALC, STOD,
/// BRUN back and INDX where they read and write its own stack only. At most as many of these actions are performed as letters can be noted,
/// and at most so many operators in all, those among them that it has performed so far. It stops before anything else, after the last letter
/// that can be noted, and where the room has no place for a word that is pushed.
pub fn go_on_room(
    regs: &mut Registers,
    room: &mut [Word],
    code: &Code,
    table: Option<&Prepared>,
    letters: &mut [Letter],
    most: u32,
    so_far: Ran,
) -> Ran
    requires lent { (img : Image) × (p : ℕ) × IsLent code.now img p regs.old room.old }
    requires room { HasRoom regs.old room.old }
    requires table { IfSome table (λ t. AreDecoded code.now regs.old.segment regs.old.ll t.now) }
    requires is_open { IsOpenAt so_far.entries letters.old }
    requires entries { so_far.entries ≤ length letters.old }
    requires counted { so_far.entries ≤ so_far.operators }
    requires most { so_far.operators + so_far.plain ≤ most }
    ensures ran { (first img : Image) (p : ℕ) → IsLent code.now img p regs.old room.old → HasCome code.now p first so_far letters.old img → HasRunIn regs.new room.new code.now p most first result letters.new (given_back regs.new room.new p img) }
    ensures entries { result.entries ≤ length letters.new }
    ensures counted { result.entries ≤ result.operators }
    ensures size { length letters.new ≡ length letters.old }
    ensures most { result.operators + result.plain ≤ most }
    ensures held { regs.new.s ≤ length room.old }
    ensures keeps { RegistersStay regs.old regs.new }
{
    // the plain operators after the last entry are those that are done beyond its own
    let mut entries = so_far.entries;
    let mut operators = so_far.operators;
    let mut done = so_far.operators + so_far.plain;
    let mut place = regs.place;
    'running: while done < most {
        match flat_at(table, place) {
            Some((row, next)) => {
                if plain_by_row(regs, room, code, &row, next) {
                    done += 1;
                    place = regs.place;
                } else {
                    let allowed = (entries as usize) < letters.len();
                    let Some(letter) = act_by_row(regs, room, code, &row, next, allowed) else {
                        return ran_to(entries, operators, done);
                    };
                    letters[entries as usize] = letter;
                    entries += 1;
                    done += 1;
                    place = regs.place;
                    operators = done;
                    if entries as usize == letters.len() {
                        return ran_to(entries, operators, done);
                    }
                }
            }
            None => {
                if !plain_fetched(regs, room, code, table) {
                    return ran_to(entries, operators, done);
                }
                done += 1;
                place = regs.place;
            }
        }
    }
    ran_to(entries, operators, done)
}

/// Performs operators of a process that come next, as [`go_on_room`] does, where none was performed so far and the room has all words that a
/// stack may have.
pub fn run_on_room(
    regs: &mut Registers,
    room: &mut [Word],
    code: &Code,
    table: Option<&Prepared>,
    letters: &mut [Letter],
    most: u32,
) -> Ran
    requires lent { (img : Image) × (p : ℕ) × IsLent code.now img p regs.old room.old }
    requires room { length room.old ≡ stack_limit }
    requires table { IfSome table (λ t. AreDecoded code.now regs.old.segment regs.old.ll t.now) }
    ensures ran { (img : Image) (p : ℕ) → IsLent code.now img p regs.old room.old → HasRun code.now p most img result letters.new (given_back regs.new room.new p img) }
    ensures entries { result.entries ≤ length letters.new }
    ensures counted { result.entries ≤ result.operators }
    ensures size { length letters.new ≡ length letters.old }
    ensures most { result.operators + result.plain ≤ most }
    ensures keeps { RegistersStay regs.old regs.new }
{
    let none = Ran {
        entries: 0,
        operators: 0,
        plain: 0,
    };
    go_on_room(regs, room, code, table, letters, most, none)
}
