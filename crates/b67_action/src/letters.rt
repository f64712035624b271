// Which letter an operator has, by what it finds.
ghost use Rattle.std.specs.Prelude.{◌≡◌, ◌≢◌, ◌<◌, ◌≤◌, IfSome};
ghost use Rattle.b67_list.specs.Numbered.{numbered};
ghost use Rattle.b67_control.specs.Display.{levels};
ghost use Rattle.b67_events.specs.Events.{Events};
ghost use Rattle.b67_store.specs.Store.{stack_limit};
ghost use Rattle.b67_table.specs.Look.{◌>->◌, look_seen};
ghost use Rattle.b67_table.specs.Private.{frame};
ghost use Rattle.b67_table.specs.References.{couple_cell, cell_of, reached, popped, popped_two};
ghost use Rattle.b67_letters.specs.Letters.{told_by, value_letter, place_letter, loaded_letter, stored_letter, left_letter, wait_letter, letter_of};
ghost use Rattle.b67_linkage.specs.Held.{IsLinked};
ghost use Rattle.b67_operators.specs.Leaves.{IsLinkedIn};
ghost use Rattle.b67_private.specs.Actions.{IsHeldWords};
ghost use Rattle.b67_private.specs.Lettered.{words_letter};
ghost use Rattle.b67_reach.specs.Images.{image_of};
ghost use Rattle.b67_action.specs.declared.rows.Row.TheVariants.{Enter};
ghost use Rattle.b67_action.specs.Lettered.{row_letter, by_called};
ghost use Rattle.b67_action.specs.Rows.{IsHeldRow};

use crate::entering::intrinsic_numbered;
use crate::rows::Row;
use b67_control::Pcw;
use b67_deeds::Letter;
use b67_intrinsics::registers;
use b67_operators::{element_or_not, entered_or, evaluated};
use b67_ops::{Couple, Intrinsic};
use b67_private::WordsRow;
use b67_reach::{Parts, Registers, couple_cell, popped, popped_two, reached};
use b67_store::Core;
use b67_table::frame;

// VALC, by what the couple's reference reaches.
fn value_letter<C: Core>(core: &C, regs: &Registers, couple: Couple) -> Option<Letter>
    requires couple { couple.level < levels }
    ensures { result ≡ told_by value_letter (look_seen (C.Core.stacks core.now) (reached (couple_cell regs.now couple.level couple.index))) }
{
    match reached(core, couple_cell(regs, couple.level, couple.index)) {
        Ok(found) => Some(entered_or(Letter::Read, found.word)),
        Err(_) => None,
    }
}

// EVAL, by what the reference on top reaches.
fn place_letter<C: Core>(core: &C, regs: &Registers) -> Option<Letter>
    requires linked { IsLinked (C.Core.stacks core.now) (C.Core.rows core.now) regs.now }
    ensures { result ≡ told_by place_letter (look_seen (C.Core.stacks core.now) (popped regs.now >-> (λ x. reached (cell_of regs.now x)))) }
{
    match evaluated(core, regs) {
        Ok(found) => Some(entered_or(Letter::Resolve, found.word)),
        Err(_) => None,
    }
}

// LOAD, by the word on top.
fn loaded_letter<C: Core>(core: &C, regs: &Registers) -> Option<Letter>
    requires level { regs.now.ll < levels }
    requires room { regs.now.s ≤ stack_limit }
    ensures { result ≡ told_by loaded_letter (look_seen (C.Core.stacks core.now) (popped regs.now)) }
{
    match popped(core, regs) {
        Ok(x) => Some(element_or_not(Letter::ElementRead, Letter::Read, x)),
        Err(_) => None,
    }
}

// STOD and STON, by the word under the top.
fn stored_letter<C: Core>(core: &C, regs: &Registers) -> Option<Letter>
    requires level { regs.now.ll < levels }
    requires room { regs.now.s ≤ stack_limit }
    ensures { result ≡ told_by stored_letter (look_seen (C.Core.stacks core.now) (popped_two regs.now)) }
{
    match popped_two(core, regs) {
        Ok(two) => Some(element_or_not(Letter::ElementStore, Letter::Store, two.1)),
        Err(_) => None,
    }
}

// An operator on words and rows.
fn words_letter<C: Core>(core: &C, regs: &Registers, row: WordsRow) -> Option<Letter>
    requires linked { IsLinked (C.Core.stacks core.now) (C.Core.rows core.now) regs.now }
    requires held { IsHeldWords row }
    ensures { result ≡ words_letter row (C.Core.stacks core.now) regs.now }
{
    match row {
        WordsRow::ValueCall(couple) => value_letter(core, regs, couple),
        WordsRow::Turn(_, _) => Some(Letter::Turn),
        WordsRow::Evaluate => place_letter(core, regs),
        WordsRow::LoadThrough => Some(Letter::Pass),
        WordsRow::LoadValue => loaded_letter(core, regs),
        WordsRow::Store(_) => stored_letter(core, regs),
        WordsRow::Index => Some(Letter::Index),
        WordsRow::IndexAndLoad => Some(Letter::ElementRead),
        WordsRow::IndexMother => Some(Letter::Index),
    }
}

// WAITANY of a process with this woken number.
fn wait_letter(woken: u32) -> Letter
    ensures { result ≡ wait_letter woken }
{
    if woken == 0 {
        Letter::WaitAny
    } else {
        Letter::Woke
    }
}

// An intrinsic of a process with this woken number.
fn letter_of(woken: u32, name: Intrinsic) -> Letter
    ensures { result ≡ letter_of woken name }
{
    match name {
        Intrinsic::GoTo => Letter::GoTo,
        Intrinsic::Select => Letter::Select,
        Intrinsic::Arrays => Letter::MakeArrays,
        Intrinsic::Event => Letter::MakeEvent,
        Intrinsic::Start => Letter::Start,
        Intrinsic::Write => Letter::Line,
        Intrinsic::Wait => Letter::Wait,
        Intrinsic::Cause => Letter::Cause,
        Intrinsic::Reset => Letter::Reset,
        Intrinsic::Happened => Letter::Happened,
        Intrinsic::Procure => Letter::Procure,
        Intrinsic::Liberate => Letter::Liberate,
        Intrinsic::WaitAny => wait_letter(woken),
        Intrinsic::CauseAndReset => Letter::CauseAndReset,
        Intrinsic::Available => Letter::Available,
        Intrinsic::Fix => Letter::Fix,
    }
}

/// What is called by ENTR of a process with this woken number.
pub fn called_letter(woken: u32, pcw: &Pcw) -> Option<Letter>
    ensures { result ≡ by_called woken pcw.now }
{
    if !pcw.intrinsic {
        return Some(Letter::Enter);
    }
    match intrinsic_numbered(pcw.number) {
        Some(name) => Some(letter_of(woken, name)),
        None => None,
    }
}

// EXIT: the base frame is left at the end of the process.
fn left_letter(regs: &Registers) -> Letter
    requires { regs.now.ll < levels }
    ensures { result ≡ left_letter (frame regs.now) }
{
    if frame(regs) == 0 {
        Letter::End
    } else {
        Letter::Leave
    }
}

/// The letter of the operator of this row that a process would perform, where it is not ENTR: a private one has none.
pub fn row_letter<C: Core>(core: &C, parts: &Parts, process: u32, row: Row) -> Option<Letter>
    requires linked { IsLinkedIn (C.Core.stacks core.now) (C.Core.rows core.now) (numbered parts.now.regs.items process) }
    requires held { IsHeldRow row }
    requires plain { row ≢ Enter }
    ensures { (kernel : Events) → IfSome (numbered parts.now.regs.items process) (λ r. result ≡ row_letter row (image_of (C.Core.stacks core.now) (C.Core.rows core.now) kernel parts.now) r) }
{
    let regs = registers(&parts.regs, process);
    match row {
        Row::Own => None,
        Row::Words(kind) => words_letter(core, regs, kind),
        Row::Exit => Some(left_letter(regs)),
        Row::ReturnValue => Some(Letter::Leave),
        Row::Enter => None,
    }
}
