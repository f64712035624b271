//! Operators that enter procedures: VALC and EVAL by accidental entry.

ghost use Rattle.std.specs.Prelude.{◌≡◌, ◌<◌, ◌≤◌, ◌+◌, ◌-◌, ◌^◌, ℕ, Bool, Ok, Err, Some, None, IfOk, OnOk, OnErr, IsSome, length, nat_lt, nat_le};
ghost use Rattle.b67_control.specs.Control.{Fits_pcw, as_pcw};
ghost use Rattle.b67_control.specs.Display.{levels};
ghost use Rattle.b67_store.specs.Store.{stack_at, stack_limit};
ghost use Rattle.b67_table.specs.Private.{floor};
ghost use Rattle.b67_table.specs.Look.{look_seen, ◌>->◌};
ghost use Rattle.b67_table.specs.Linkage.{entering, accidental, selected};
ghost use Rattle.b67_table.specs.Limits.{end_of_code};
ghost use Rattle.b67_table.specs.Program.{answer};
ghost use Rattle.b67_table.specs.References.{couple_cell, popped, reached, cell_of, cell_word};
ghost use Rattle.b67_table.specs.Rows.{value_call, value_or_entry, cell_or_entry, evaluate};
ghost use Rattle.b67_linkage.specs.Held.{IsLinked};
ghost use Rattle.b67_reach.specs.Images.{own_of_image};
ghost use Rattle.b67_reach.specs.Answers.{looked, IsReady, ProgramPerforms};
ghost use Rattle.b67_letters.specs.Letters.{told_by, value_letter, place_letter};
ghost use Rattle.b67_operators.specs.Entries.{stop_by, accident};

use crate::letters::{entered_or, lettered};
use crate::loading::operand_pushed;
use b67_control::{Mscw, Pcw, Sirw};
use b67_deeds::Letter;
use b67_linkage::{LinkFault, control_word, entering, go_in};
use b67_num::FaultKind;
use b67_ops::Couple;
use b67_reach::{
    Cell, InterruptKind, Reached, Registers, Stop, cell_of, couple_cell, invalid, is_operand,
    popped, reached, replaced,
};
use b67_segment::MOST_SEGMENT_SYLLABLES;
use b67_store::{Core, MOST_STACK_WORDS};
use b67_table::Entry;
use b67_word::{Place, Word, operand};

/// What stops an operator where a call of the linkage was refused.
pub fn stop_by(fault: LinkFault) -> Stop
    ensures { result ≡ stop_by fault }
{
    match fault {
        LinkFault::InvalidOperand => Stop::Interrupt(InterruptKind::InvalidOperand),
        LinkFault::StackUnderflow => Stop::Interrupt(InterruptKind::StackUnderflow),
        LinkFault::StackLimit => Stop::StackLimit,
        LinkFault::BrokenChain => Stop::Interrupt(InterruptKind::BrokenChain),
    }
}

// What an entry at a mark finds, where the pointer is left after the operator.
pub fn entering_after<C: Core>(
    core: &C,
    regs: &mut Registers,
    next: u16,
    fits: bool,
    mark: u16,
    pcw: &Pcw,
    home: Place,
) -> Result<Entry, Stop>
    requires { Fits_pcw pcw.now }
    ensures value { result ≡ looked (look_seen (C.Core.stacks core.now) (entering regs.old next fits mark pcw.now (Some home))) }
    ensures home { IfOk result (λ e. e.home ≡ home) }
    ensures returnable { IfOk result (λ e. next < end_of_code) }
    ensures same { regs.new ≡ regs.old }
{
    if usize::from(next) >= MOST_SEGMENT_SYLLABLES {
        return Err(Stop::Interrupt(InterruptKind::BadCode));
    }
    let here = regs.place;
    regs.place = next;
    let found = entering(core, regs, fits, mark, pcw, home);
    regs.place = here;
    match found {
        Ok(entry) => Ok(entry),
        Err(fault) => Err(stop_by(fault)),
    }
}

// How many words a selector takes: one, where the procedure has names.
fn selectors(names: bool, selector: u8) -> u32
    ensures value { result ≡ length (selected names selector) }
    ensures bound { result ≤ 1 }
{
    if names { 1 } else { 0 }
}

// A frame is opened at a mark, and its selector pushed where the procedure has names.
fn open_frame<C: Core>(
    core: &mut C,
    regs: &mut Registers,
    next: u16,
    mark: u16,
    pcw: &Pcw,
    entry: &Entry,
    selector: u8,
)
    requires linked { IsLinked (C.Core.stacks core.old) (C.Core.rows core.old) regs.old }
    requires below { regs.old.f < mark }
    requires mark { mark ≤ regs.old.s }
    requires next { next < end_of_code }
    requires procedure { Fits_pcw pcw.now }
    requires home { entry.now.home.stack < 2 ^ 10 }
    requires room { mark + 2 + length (selected pcw.now.names selector) ≤ stack_limit }
    ensures { ProgramPerforms (answer (accident regs.old next mark pcw.now entry.now selector)) (own_of_image (C.Core.stacks core.old) (C.Core.rows core.old) regs.old) (own_of_image (C.Core.stacks core.new) (C.Core.rows core.new) regs.new) (Ok result) }
{
    let mscw = Mscw {
        entered: true,
        stack: entry.home.stack,
        displacement: entry.home.at,
        df: mark - regs.f,
    };
    regs.place = next;
    let control = control_word(regs, pcw.level);
    core.cut(regs.stack, u32::from(mark)).unwrap();
    core.push(regs.stack, mscw.pack()).unwrap();
    core.push(regs.stack, control).unwrap();
    let mut s = u32::from(mark) + 2;
    if pcw.names {
        core.push(regs.stack, operand(i64::from(selector))).unwrap();
        s += 1;
    }
    go_in(regs, s, mark, pcw, entry, 0);
}

// What comes of an accidental entry where the stack is full: an interrupt, or the stack limit.
fn full<C: Core>(
    core: &C,
    regs: &mut Registers,
    next: u16,
    pcw: &Pcw,
    home: Place,
    selector: u8,
) -> Result<(), Stop>
    requires linked { IsLinked (C.Core.stacks core.now) (C.Core.rows core.now) regs.old }
    requires full { regs.old.s ≡ stack_limit }
    requires procedure { Fits_pcw pcw.now }
    ensures { ProgramPerforms (accidental regs.old next 0 pcw.now home selector) (own_of_image (C.Core.stacks core.now) (C.Core.rows core.now) regs.old) (own_of_image (C.Core.stacks core.now) (C.Core.rows core.now) regs.new) result }
{
    // what is found there, and what is refused, is the same at any mark
    let fits = u32::from(regs.f) < regs.s;
    let _found = entering_after(core, regs, next, fits, u16::MAX, pcw, home)?;
    Err(Stop::StackLimit)
}

// Accidental entry at a mark that a stack can have.
fn enter_at<C: Core>(
    core: &mut C,
    regs: &mut Registers,
    next: u16,
    taken: u32,
    pcw: &Pcw,
    home: Place,
    selector: u8,
) -> Result<(), Stop>
    requires linked { IsLinked (C.Core.stacks core.old) (C.Core.rows core.old) regs.old }
    requires taken { taken ≤ regs.old.s }
    requires mark { regs.old.s - taken < stack_limit }
    requires procedure { Fits_pcw pcw.now }
    requires home { home.stack < 2 ^ 10 }
    ensures { ProgramPerforms (accidental regs.old next taken pcw.now home selector) (own_of_image (C.Core.stacks core.old) (C.Core.rows core.old) regs.old) (own_of_image (C.Core.stacks core.new) (C.Core.rows core.new) regs.new) result }
{
    let mark = (regs.s - taken) as u16;
    let entry = entering_after(core, regs, next, regs.f < mark, mark, pcw, home)?;
    if u32::from(mark) + 2 + selectors(pcw.names, selector) > MOST_STACK_WORDS as u32 {
        return Err(Stop::StackLimit);
    }
    open_frame(core, regs, next, mark, pcw, &entry, selector);
    Ok(())
}

/// Accidental entry: after so many words on top are taken off, the procedure that lies in the frame home is entered, with
/// the selector where it has names.
pub fn accidental<C: Core>(
    core: &mut C,
    regs: &mut Registers,
    next: u16,
    taken: u32,
    pcw: &Pcw,
    home: Place,
    selector: u8,
) -> Result<(), Stop>
    requires linked { IsLinked (C.Core.stacks core.old) (C.Core.rows core.old) regs.old }
    requires taken { taken ≤ regs.old.s }
    requires procedure { Fits_pcw pcw.now }
    requires home { home.stack < 2 ^ 10 }
    ensures { ProgramPerforms (accidental regs.old next taken pcw.now home selector) (own_of_image (C.Core.stacks core.old) (C.Core.rows core.old) regs.old) (own_of_image (C.Core.stacks core.new) (C.Core.rows core.new) regs.new) result }
{
    if taken == 0 && regs.s == MOST_STACK_WORDS as u32 {
        full(core, regs, next, pcw, home, selector)
    } else {
        enter_at(core, regs, next, taken, pcw, home, selector)
    }
}

/// VALC: the operand in the cell that the couple's reference reaches is pushed; a procedure is entered, with selector 0. The letter says
/// which of the two it did.
pub fn value_call<C: Core>(
    core: &mut C,
    regs: &mut Registers,
    next: u16,
    couple: Couple,
) -> Result<Letter, Stop>
    requires linked { IsLinked (C.Core.stacks core.old) (C.Core.rows core.old) regs.old }
    requires couple { couple.level < levels }
    ensures letter { IfOk result (λ l. told_by value_letter (look_seen (C.Core.stacks core.old) (reached (couple_cell regs.old couple.level couple.index))) ≡ Some l) }
    ensures performs { ProgramPerforms (value_call couple regs.old next) (own_of_image (C.Core.stacks core.old) (C.Core.rows core.old) regs.old) (own_of_image (C.Core.stacks core.new) (C.Core.rows core.new) regs.new) result }
{
    let found = reached(core, couple_cell(regs, couple.level, couple.index))?;
    let letter = entered_or(Letter::Read, found.word);
    let answer = value_or_entry(core, regs, next, found);
    lettered(answer, letter)
}

// What VALC does with the word that it reaches.
fn value_or_entry<C: Core>(
    core: &mut C,
    regs: &mut Registers,
    next: u16,
    found: Reached,
) -> Result<(), Stop>
    requires linked { IsLinked (C.Core.stacks core.old) (C.Core.rows core.old) regs.old }
    requires is_open { IsSome (stack_at (C.Core.stacks core.old) found.cell.frame.stack) }
    ensures { ProgramPerforms (value_or_entry regs.old next found (as_pcw found.word)) (own_of_image (C.Core.stacks core.old) (C.Core.rows core.old) regs.old) (own_of_image (C.Core.stacks core.new) (C.Core.rows core.new) regs.new) result }
{
    match Pcw::unpack(found.word) {
        Some(pcw) => {
            if pcw.intrinsic {
                Err(invalid())
            } else {
                accidental(core, regs, next, 0, &pcw, found.cell.frame, 0)
            }
        }
        None => operand_pushed(core, regs, next, found),
    }
}

// The reference to a cell, wherever it is read.
fn cell_word(cell: Cell) -> Word
    requires stack { cell.frame.stack < 2 ^ 10 }
    requires index { cell.index < 2 ^ 14 }
    ensures { result ≡ cell_word cell }
{
    Sirw {
        stack: cell.frame.stack,
        displacement: cell.frame.at,
        index: cell.index,
    }
    .pack()
}

// What EVAL does with the word that it reaches.
fn cell_or_entry<C: Core>(
    core: &mut C,
    regs: &mut Registers,
    next: u16,
    found: Reached,
) -> Result<(), Stop>
    requires linked { IsLinked (C.Core.stacks core.old) (C.Core.rows core.old) regs.old }
    requires some { 1 ≤ regs.old.s }
    requires is_open { IsSome (stack_at (C.Core.stacks core.old) found.cell.frame.stack) }
    requires index { found.cell.index < 2 ^ 14 }
    ensures { ProgramPerforms (cell_or_entry regs.old next found (as_pcw found.word)) (own_of_image (C.Core.stacks core.old) (C.Core.rows core.old) regs.old) (own_of_image (C.Core.stacks core.new) (C.Core.rows core.new) regs.new) result }
{
    match Pcw::unpack(found.word) {
        Some(pcw) => {
            if pcw.names {
                accidental(core, regs, next, 1, &pcw, found.cell.frame, 1)
            } else {
                Err(Stop::Fault(FaultKind::NotAVariable))
            }
        }
        None => cell_replaces(core, regs, next, found),
    }
}

// The reference to the cell of an operand that is reached takes the place of the word on top.
fn cell_replaces<C: Core>(
    core: &mut C,
    regs: &mut Registers,
    next: u16,
    found: Reached,
) -> Result<(), Stop>
    requires linked { IsLinked (C.Core.stacks core.old) (C.Core.rows core.old) regs.old }
    requires some { 1 ≤ regs.old.s }
    requires is_open { IsSome (stack_at (C.Core.stacks core.old) found.cell.frame.stack) }
    requires index { found.cell.index < 2 ^ 14 }
    ensures { ProgramPerforms (cell_or_entry regs.old next found None) (own_of_image (C.Core.stacks core.old) (C.Core.rows core.old) regs.old) (own_of_image (C.Core.stacks core.new) (C.Core.rows core.new) regs.new) result }
{
    if !is_operand(found.word) {
        return Err(invalid());
    }
    replaced(core, regs, next, 1, cell_word(found.cell));
    Ok(())
}

/// EVAL: the reference on top is replaced by one to the cell of the operand that it reaches; a procedure with names is
/// entered instead, with selector 1, and another is the fault NOT A VARIABLE. The letter says which of the two it did.
pub fn evaluate<C: Core>(core: &mut C, regs: &mut Registers, next: u16) -> Result<Letter, Stop>
    requires linked { IsLinked (C.Core.stacks core.old) (C.Core.rows core.old) regs.old }
    ensures letter { IfOk result (λ l. told_by place_letter (look_seen (C.Core.stacks core.old) (popped regs.old >-> (λ x. reached (cell_of regs.old x)))) ≡ Some l) }
    ensures performs { ProgramPerforms (evaluate regs.old next) (own_of_image (C.Core.stacks core.old) (C.Core.rows core.old) regs.old) (own_of_image (C.Core.stacks core.new) (C.Core.rows core.new) regs.new) result }
{
    let found = evaluated(core, regs)?;
    let letter = entered_or(Letter::Resolve, found.word);
    let answer = cell_or_entry(core, regs, next, found);
    lettered(answer, letter)
}

/// What the reference on top reaches.
pub fn evaluated<C: Core>(core: &C, regs: &Registers) -> Result<Reached, Stop>
    requires linked { IsLinked (C.Core.stacks core.now) (C.Core.rows core.now) regs.now }
    ensures value { result ≡ looked (look_seen (C.Core.stacks core.now) (popped regs.now >-> (λ x. reached (cell_of regs.now x)))) }
    ensures some { OnOk result (1 ≤ regs.now.s) }
    ensures fits { IfOk result (λ found. found.cell.index < 2 ^ 14) }
    ensures is_open { IfOk result (λ found. IsSome (stack_at (C.Core.stacks core.now) found.cell.frame.stack)) }
{
    let x = popped(core, regs)?;
    reached(core, cell_of(regs, x))
}
