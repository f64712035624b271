// A run of a process on its own stack, in its store.
ghost use Rattle.std.specs.Prelude.{◌≡◌, ◌⊎◌, ◌+◌, ◌<◌, ◌≤◌, ℕ, IfSome, length, Ok, Some, None, true, false};
ghost use Rattle.b67_segment.specs.Decoded.{AreDecoded};
ghost use Rattle.b67_store.specs.Store.{with_cut, stack_limit};
ghost use Rattle.b67_table.specs.Image.{Image};
ghost use Rattle.b67_table.specs.Privacy.{RegistersStay};
ghost use Rattle.b67_linkage.specs.Held.{IsLinked};
ghost use Rattle.b67_private.specs.Actions.{words_program, IsHeldWords};
ghost use Rattle.b67_private.specs.Lettered.{words_letter};
ghost use Rattle.b67_reach.specs.Answers.{ProgramPerforms};
ghost use Rattle.b67_reach.specs.Images.{own_of_image, with_own};
ghost use Rattle.b67_action.specs.Reaching.{ProcessIsIn, IsInOpen, IsOpen, own_of, enters};
ghost use Rattle.b67_action.specs.Running.{ActionGoesOn, IsOpenAt, HasCome, HasRun};

use crate::elements::reach_at_once;
use crate::own::room_for;
use crate::running::{Ran, go_on_room};
use crate::words::perform;
use b67_deeds::Letter;
use b67_linkage::cut_words;
use b67_private::{Prepared, Row, WordsRow, row_at};
use b67_reach::Registers;
use b67_segment::Code;
use b67_store::{Core, MOST_STACK_WORDS};

// Tests that an operator on words may enter a procedure.
fn enters(kind: WordsRow) -> bool
    ensures { result ≡ enters kind }
{
    match kind {
        WordsRow::ValueCall(_) | WordsRow::Evaluate => true,
        _ => false,
    }
}

// What was done on a room that was lent, and whether more can be done on a longer one.
#[derive(Clone, Copy)]
struct Lent {
    ran: Ran,
    short: bool,
}

// Tests that more can be done on a longer room: this one has no place for one more word, a stack may have more, and not all letters that can be
// noted are.
fn is_short(regs: &Registers, size: usize, ran: Ran, letters: &[Letter]) -> bool
    ensures no { result ≡ false → IsOpenAt ran.entries letters.now → (regs.now.s < size) ⊎ (stack_limit ≤ size) }
    ensures longer { result ≡ true → (size ≤ regs.now.s) × (size < stack_limit) }
    ensures is_open { result ≡ true → IsOpenAt ran.entries letters.now }
{
    size <= regs.s as usize
        && size < MOST_STACK_WORDS
        && (ran.entries == 0 || (ran.entries as usize) < letters.len())
}

// What comes next on the lent room of the process's own stack, which has all the words of its room after it.
#[inline(never)]
fn run_lent<C: Core>(
    core: &mut C,
    regs: &mut Registers,
    code: &Code,
    table: Option<&Prepared>,
    letters: &mut [Letter],
    most: u32,
    so_far: Ran,
) -> Lent
    requires stands { (first img : Image) × (p : ℕ) × IsInOpen code.now img p (C.Core.stacks core.old) (C.Core.rows core.old) regs.old × HasCome code.now p first so_far letters.old img }
    requires open { IsOpen (C.Core.stacks core.old) regs.old }
    requires table { IfSome table (λ t. AreDecoded code.now regs.old.segment regs.old.ll t.now) }
    requires is_open { IsOpenAt so_far.entries letters.old }
    requires entries { so_far.entries ≤ length letters.old }
    requires counted { so_far.entries ≤ so_far.operators }
    requires most { so_far.operators + so_far.plain ≤ most }
    ensures come { (first img : Image) (p : ℕ) → IsInOpen code.now img p (C.Core.stacks core.old) (C.Core.rows core.old) regs.old → HasCome code.now p first so_far letters.old img → HasCome code.now p first result.ran letters.new (with_own (own_of (C.Core.stacks core.new) (C.Core.rows core.new) regs.new) p img) }
    ensures ran { result.short ≡ false → (first img : Image) (p : ℕ) → IsInOpen code.now img p (C.Core.stacks core.old) (C.Core.rows core.old) regs.old → HasCome code.now p first so_far letters.old img → HasRun code.now p most first result.ran letters.new (with_own (own_of (C.Core.stacks core.new) (C.Core.rows core.new) regs.new) p img) }
    ensures longer { result.short ≡ true → regs.old.s < regs.new.s }
    ensures is_open { result.short ≡ true → IsOpenAt result.ran.entries letters.new }
    ensures open { IsOpen (C.Core.stacks core.new) regs.new }
    ensures entries { result.ran.entries ≤ length letters.new }
    ensures counted { result.ran.entries ≤ result.ran.operators }
    ensures size { length letters.new ≡ length letters.old }
    ensures most { result.ran.operators + result.ran.plain ≤ most }
    ensures keeps { RegistersStay regs.old regs.new }
{
    let least = room_for(regs);
    let room = core.room(regs.stack, least);
    let size = room.len();
    let ran = go_on_room(regs, room, code, table, letters, most, so_far);
    let short = is_short(regs, size, ran, letters);
    Lent { ran, short }
}

// What comes next on the process's own stack, on a longer room where one is too short.
fn run_here<C: Core>(
    core: &mut C,
    regs: &mut Registers,
    code: &Code,
    table: Option<&Prepared>,
    letters: &mut [Letter],
    most: u32,
) -> Ran
    requires stands { (img : Image) × (p : ℕ) × IsInOpen code.now img p (C.Core.stacks core.old) (C.Core.rows core.old) regs.old }
    requires open { IsOpen (C.Core.stacks core.old) regs.old }
    requires table { IfSome table (λ t. AreDecoded code.now regs.old.segment regs.old.ll t.now) }
    ensures ran { (img : Image) (p : ℕ) → IsInOpen code.now img p (C.Core.stacks core.old) (C.Core.rows core.old) regs.old → HasRun code.now p most img result letters.new (with_own (own_of (C.Core.stacks core.new) (C.Core.rows core.new) regs.new) p img) }
    ensures open { IsOpen (C.Core.stacks core.new) regs.new }
    ensures entries { result.entries ≤ length letters.new }
    ensures counted { result.entries ≤ result.operators }
    ensures size { length letters.new ≡ length letters.old }
    ensures most { result.operators + result.plain ≤ most }
    ensures keeps { RegistersStay regs.old regs.new }
{
    let none = Ran {
        entries: 0,
        operators: 0,
        plain: 0,
    };
    let mut lent = run_lent(core, regs, code, table, letters, most, none);
    'lending: while lent.short {
        let next = run_lent(core, regs, code, table, letters, most, lent.ran);
        lent = next;
    }
    lent.ran
}

// Performs an operator on words and rows, after the stack was cut; and answers its letter, where nothing stopped it.
fn reach_by_cut<C: Core>(
    core: &mut C,
    regs: &mut Registers,
    kind: WordsRow,
    next: u16,
) -> Option<Letter>
    requires linked { IsLinked (with_cut (C.Core.stacks core.old) regs.old.stack regs.old.s) (C.Core.rows core.old) regs.old }
    requires open { IsOpen (C.Core.stacks core.old) regs.old }
    requires held { IsHeldWords kind }
    ensures done { IfSome result (λ l. ProgramPerforms {A = Unit {0}} (words_program kind regs.old next) (own_of (C.Core.stacks core.old) (C.Core.rows core.old) regs.old) (own_of_image (C.Core.stacks core.new) (C.Core.rows core.new) regs.new) (Ok (tt {0}))) }
    ensures letter { IfSome result (λ l. words_letter kind (with_cut (C.Core.stacks core.old) regs.old.stack regs.old.s) regs.old ≡ Some l) }
    ensures none { result ≡ None → own_of_image (C.Core.stacks core.new) (C.Core.rows core.new) regs.new ≡ own_of (C.Core.stacks core.old) (C.Core.rows core.old) regs.old }
{
    cut_words(core, regs.stack, regs.s);
    perform(core, regs, kind, next).ok()
}

// Performs the next operator where it is one on words and rows that enters no procedure, its row was made ready, and nothing stops it; and
// answers its letter. Else nothing is done.
fn reach<C: Core>(
    core: &mut C,
    regs: &mut Registers,
    code: &Code,
    table: Option<&Prepared>,
) -> Option<Letter>
    requires stands { (img : Image) × (p : ℕ) × IsInOpen code.now img p (C.Core.stacks core.old) (C.Core.rows core.old) regs.old }
    requires open { IsOpen (C.Core.stacks core.old) regs.old }
    requires table { IfSome table (λ t. AreDecoded code.now regs.old.segment regs.old.ll t.now) }
    ensures went { IfSome result (λ l. (img : Image) (p : ℕ) → IsInOpen code.now img p (C.Core.stacks core.old) (C.Core.rows core.old) regs.old → ActionGoesOn code.now p l img (with_own (own_of (C.Core.stacks core.new) (C.Core.rows core.new) regs.new) p img)) }
    ensures none { result ≡ None → own_of (C.Core.stacks core.new) (C.Core.rows core.new) regs.new ≡ own_of (C.Core.stacks core.old) (C.Core.rows core.old) regs.old }
    ensures open { IsOpen (C.Core.stacks core.new) regs.new }
    ensures keeps { RegistersStay regs.old regs.new }
{
    let Some((row, next)) = row_at(table, regs.place) else {
        return None;
    };
    let Row::Words(kind) = row else {
        return None;
    };
    if enters(kind) {
        return None;
    }
    if let Some(letter) = reach_at_once(core, regs, kind, next) {
        // no store has more rows than it has numbers for
        let _ = core.counted();
        return Some(letter);
    }
    let done = reach_by_cut(core, regs, kind, next);
    let _ = core.counted();
    done
}

// What [`run_own`] does, where the stack is not cut.
fn run_open<C: Core>(
    core: &mut C,
    regs: &mut Registers,
    code: &Code,
    table: Option<&Prepared>,
    letters: &mut [Letter],
    most: u32,
) -> Ran
    requires stands { (img : Image) × (p : ℕ) × IsInOpen code.now img p (C.Core.stacks core.old) (C.Core.rows core.old) regs.old }
    requires open { IsOpen (C.Core.stacks core.old) regs.old }
    requires table { IfSome table (λ t. AreDecoded code.now regs.old.segment regs.old.ll t.now) }
    ensures ran { (img : Image) (p : ℕ) → IsInOpen code.now img p (C.Core.stacks core.old) (C.Core.rows core.old) regs.old → HasRun code.now p most img result letters.new (with_own (own_of (C.Core.stacks core.new) (C.Core.rows core.new) regs.new) p img) }
    ensures open { IsOpen (C.Core.stacks core.new) regs.new }
    ensures entries { result.entries ≤ length letters.new }
    ensures counted { result.entries ≤ result.operators }
    ensures size { length letters.new ≡ length letters.old }
    ensures most { result.operators + result.plain ≤ most }
    ensures keeps { RegistersStay regs.old regs.new }
{
    let mut ran = run_here(core, regs, code, table, letters, most);
    'running: while (ran.entries as usize) < letters.len() && ran.operators + ran.plain < most {
        let Some(letter) = reach(core, regs, code, table) else {
            return ran;
        };
        letters[ran.entries as usize] = letter;
        ran.entries += 1;
        ran.operators += ran.plain + 1;
        if ran.entries as usize == letters.len() {
            ran.plain = 0;
            return ran;
        }
        let rest = &mut letters[ran.entries as usize..];
        let more = run_here(core, regs, code, table, rest, most - ran.operators);
        ran.entries += more.entries;
        ran.operators += more.operators;
        ran.plain = more.plain;
    }
    ran
}

/// Performs operators of a process that come next, one after another: plain ones, and actions on words and rows that enter no procedure, or
/// VALC of an operand in its own stack. At most as many of these actions are performed as letters can be noted, and at most so many operators in
/// all. It stops before anything else, and after the last letter that can be noted.
pub fn run_own<C: Core>(
    core: &mut C,
    regs: &mut Registers,
    code: &Code,
    table: Option<&Prepared>,
    letters: &mut [Letter],
    most: u32,
) -> Ran
    requires stands { (img : Image) × (p : ℕ) × ProcessIsIn code.now img p (C.Core.stacks core.old) (C.Core.rows core.old) regs.old }
    requires table { IfSome table (λ t. AreDecoded code.now regs.old.segment regs.old.ll t.now) }
    ensures ran { (img : Image) (p : ℕ) → ProcessIsIn code.now img p (C.Core.stacks core.old) (C.Core.rows core.old) regs.old → HasRun code.now p most img result letters.new (with_own (own_of_image (C.Core.stacks core.new) (C.Core.rows core.new) regs.new) p img) }
    ensures entries { result.entries ≤ length letters.new }
    ensures counted { result.entries ≤ result.operators }
    ensures size { length letters.new ≡ length letters.old }
    ensures most { result.operators + result.plain ≤ most }
    ensures keeps { RegistersStay regs.old regs.new }
{
    let ran = run_open(core, regs, code, table, letters, most);
    cut_words(core, regs.stack, regs.s);
    ran
}
