//! Which cells are a process's own.
ghost use Rattle.std.specs.Prelude.{◌≡◌, ◌⊎◌, ◌≤◌, All, length, true};
ghost use Rattle.b67_word.specs.declared.Place.{Place};
ghost use Rattle.b67_ops.specs.declared.TheConstants.{MOST_LEVEL};
ghost use Rattle.b67_segment.specs.declared.TheConstants.{MOST_SEGMENT_WORDS};
ghost use Rattle.b67_table.specs.Valid.{IsValid};
ghost use Rattle.b67_settling.specs.Local.{NobodyDepends, IsOwnCell, ReadsCell, StoresCell};
ghost use Rattle.b67_explorer.specs.Cells.{AccessesOwn, ReadsOwn, StoresOwn};

use b67_again::Again;
use b67_machine::Machine;
use b67_ops::{MOST_LEVEL, Operator, PlainKind};
use b67_reach::{as_indexed, cell_of, couple_cell};
use b67_segment::{Code, Pointer, fetch};
use b67_store::MOST_STACK_WORDS;
use b67_table::{Cell, Private, Registers, floor};
use b67_word::Place;

// Tests that a place lies in the stack.
fn lies_in(place: Option<Place>, stack: u16) -> bool
    ensures { (c : Place) → place ≡ Some c → c.stack ≡ stack → result ≡ true }
{
    match place {
        Some(place) => place.stack == stack,
        None => false,
    }
}

// Tests that the stack has no place that is critical for a process that there has been.
fn is_free<C: Again>(machine: &Machine<C>, stack: u16) -> bool
    requires valid { IsValid machine.now.code machine.now.image }
    ensures { result ≡ true → NobodyDepends machine.now.image stack }
{
    let last = machine.started();
    let mut done = 0;
    'processes: while done < last {
        if lies_in(machine.critical(done + 1), stack) {
            return false;
        }
        done += 1;
    }
    true
}

// Tests that a cell lies in the stack of a process with these registers, below the floor, and holds an operand.
fn is_own_cell<C: Again>(machine: &Machine<C>, regs: &Registers, cell: Cell) -> bool
    requires level { regs.now.ll ≤ MOST_LEVEL }
    ensures { result ≡ true → IsOwnCell machine.now.image regs.now cell }
{
    let at = cell.frame.at as u32 + cell.index as u32;
    if cell.frame.stack != regs.stack || at >= floor(regs) || at > u16::MAX as u32 {
        return false;
    }
    match machine.word_at(Place {
        stack: cell.frame.stack,
        at: at as u16,
    }) {
        Some(word) => word.tag() == 0,
        None => false,
    }
}

// Tests that VALC of the couple reads an own cell.
fn reads<C: Again>(
    machine: &Machine<C>,
    regs: &Registers,
    part: &Private,
    level: u8,
    index: u16,
) -> bool
    requires level { regs.now.ll ≤ MOST_LEVEL }
    ensures { result ≡ true → ReadsOwn machine.now.image regs.now part.now level index }
{
    if level > MOST_LEVEL || part.regs.s >= MOST_STACK_WORDS as u32 {
        return false;
    }
    match couple_cell(&part.regs, level, index) {
        Some(cell) => is_own_cell(machine, regs, cell),
        None => false,
    }
}

// Tests that the operand on top is stored in an own cell, which the word under it names.
fn stores<C: Again>(machine: &Machine<C>, regs: &Registers, part: &Private) -> bool
    requires level { regs.now.ll ≤ MOST_LEVEL }
    requires part_level { part.now.regs.ll ≤ MOST_LEVEL }
    ensures { result ≡ true → StoresOwn machine.now.image regs.now part.now }
{
    if part.regs.s < floor(&part.regs) + 2 {
        return false;
    }
    let value = match part.words.from_top(0) {
        Some(word) => word,
        None => return false,
    };
    let reference = match part.words.from_top(1) {
        Some(word) => word,
        None => return false,
    };
    if value.tag() != 0 || as_indexed(reference).is_some() {
        return false;
    }
    match cell_of(&part.regs, reference) {
        Some(cell) => is_own_cell(machine, regs, cell),
        None => false,
    }
}

// Tests that the next operator of a private part of a process with these registers reads an own cell, or stores in one.
fn touches_own<C: Again>(
    code: &Code,
    machine: &Machine<C>,
    regs: &Registers,
    part: &Private,
) -> bool
    requires level { regs.now.ll ≤ MOST_LEVEL }
    requires part_level { part.now.regs.ll ≤ MOST_LEVEL }
    requires segments { All (λ segment. length segment.words ≤ MOST_SEGMENT_WORDS) code.now.segments }
    ensures { result ≡ true → ReadsCell code.now machine.now.image regs.now part.now ⊎ StoresCell code.now machine.now.image regs.now part.now }
{
    let at = Pointer {
        segment: part.regs.segment,
        place: part.regs.place,
    };
    match fetch(code, at, part.regs.ll) {
        Ok((Operator::Valc(couple), _)) => reads(machine, regs, part, couple.level, couple.index),
        Ok((Operator::Plain(PlainKind::Stod), _)) => stores(machine, regs, part),
        Ok((Operator::Plain(PlainKind::Ston), _)) => stores(machine, regs, part),
        _ => false,
    }
}

/// Tests that the next operator of a private part of a process reads a cell of the process's own stack, or stores in one, and that no process that there has been
/// depends on that stack.
pub fn accesses_own<C: Again>(machine: &Machine<C>, part: &Private, process: u32) -> bool
    requires valid { IsValid machine.now.code machine.now.image }
    requires part_level { part.now.regs.ll ≤ MOST_LEVEL }
    ensures { result ≡ true → AccessesOwn machine.now.code machine.now.image process part.now }
{
    match machine.registers(process) {
        Some(regs) => {
            touches_own(machine.code(), machine, regs, part) && is_free(machine, regs.stack)
        }
        None => false,
    }
}
