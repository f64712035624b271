//! START: a process of its own for a procedure.

ghost use Rattle.std.specs.Prelude.{◌≡◌, ◌+◌, ◌<◌, ◌≤◌, ◌↔◌, ℕ, pos, IsTrue, Ok, Some, IfOk, IfSome, OnOk, IsSome, slice_get, length};
ghost use Rattle.b67_list.specs.Numbered.{numbered};
ghost use Rattle.b67_word.specs.Word.{as_whole};
ghost use Rattle.b67_control.specs.Control.{Fits_pcw};
ghost use Rattle.b67_store.specs.Store.{stack_at, words_of, stack_limit};
ghost use Rattle.b67_table.specs.Image.{Image};
ghost use Rattle.b67_table.specs.Limits.{most_processes};
ghost use Rattle.b67_table.specs.Look.{look_seen};
ghost use Rattle.b67_table.specs.Program.{asked};
ghost use Rattle.b67_table.specs.References.{cell_of};
ghost use Rattle.b67_table.specs.Starting.{task_of, starting, start_process};
ghost use Rattle.b67_reach.specs.Images.{image_of};
ghost use Rattle.b67_reach.specs.Answers.{looked, whole_outcome, outcome_answered, IsReady};
ghost use Rattle.b67_intrinsics.specs.Called.{arguments, called_in};
ghost use Rattle.b67_going.specs.Starts.{procedure_of, given_in, beginning, beginning_in, StartIsGiven, Starts, IsCalling, HasNext};

use crate::adds::add_process;
use crate::paths::Needs;
use crate::starts::{Given, MOST_CELLS, first_registers};
use b67_control::{Mscw, Pcw};
use b67_events::Kernel;
use b67_intrinsics::{arguments, chained, end, event_of, registers};
use b67_reach::{Cell, Parts, Registers, Stop, cell_of, invalid, reached};
use b67_store::Core;
use b67_word::{Place, Word};

/// Why no process was started.
#[derive(Clone, Copy)]
pub enum Unstarted {
    /// The operator is stopped.
    Stopped(Stop),
    /// There is no memory for the process.
    NoMemory,
}

// An argument by its number from 0.
fn argument<C: Core>(core: &C, regs: &Registers, n: u32) -> Word
    requires ready { IsReady (C.Core.stacks core.now) regs.now }
    requires within { regs.now.f + 2 + n < regs.now.s }
    ensures { slice_get (words_of (C.Core.stacks core.now) regs.now.stack) (regs.now.f + 2 + n) ≡ Some result }
{
    let place = Place {
        stack: regs.stack,
        at: (u32::from(regs.f) + 2 + n) as u16,
    };
    core.read(place).unwrap()
}

// The procedure that a reference reaches, and the frame in which it lies.
fn procedure_of<C: Core>(core: &C, regs: &Registers, word: Word) -> Result<(Pcw, Place), Stop>
    ensures value { result ≡ looked (look_seen (C.Core.stacks core.now) (procedure_of (cell_of regs.now word))) }
    ensures fits { IfOk result (λ p. Fits_pcw p.0) }
    ensures is_open { IfOk result (λ p. IsSome (stack_at (C.Core.stacks core.now) p.1.stack)) }
{
    let found = reached(core, cell_of(regs, word))?;
    match Pcw::unpack(found.word) {
        Some(pcw) => Ok((pcw, found.cell.frame)),
        None => Err(invalid()),
    }
}

// Tests that a word is read as the whole number 0.
fn is_zero(word: Word) -> bool
    ensures { IsTrue result ↔ (as_whole word ≡ Some (pos 0)) }
{
    match word.as_whole() {
        Some(value) => value == 0,
        None => false,
    }
}

// The cell of a task's event, or none for the operand 0.
fn task_of<C: Core>(
    core: &C,
    kernel: &Kernel,
    regs: &Registers,
    word: Word,
) -> Result<Option<Cell>, Stop>
    ensures told { (img : Image) → img.stacks ≡ C.Core.stacks core.now → img.events ≡ kernel.now.events → whole_outcome (asked img (task_of regs.now word)) ≡ outcome_answered result }
    ensures fits { IfOk result (λ task. IfSome task (λ c. c.frame.at + c.index < stack_limit)) }
{
    if is_zero(word) {
        return Ok(None);
    }
    match event_of(core, kernel, regs, word) {
        Ok(cell) => Ok(Some(cell)),
        Err(stop) => Err(stop),
    }
}

// What START is given. InvalidOperand comes exactly where that is no procedure and no task, or too many parameters.
fn find_given<C: Core>(core: &C, kernel: &Kernel, regs: &Registers) -> Result<Given, Stop>
    requires ready { IsReady (C.Core.stacks core.now) regs.now }
    requires above { regs.now.f + 2 ≤ regs.now.s }
    ensures told { (img : Image) → img.stacks ≡ C.Core.stacks core.now → img.events ≡ kernel.now.events → whole_outcome (asked img (starting regs.now (arguments img.stacks regs.now))) ≡ outcome_answered (given_in (C.Core.stacks core.now) result) }
    ensures given { IfOk result (StartIsGiven (C.Core.stacks core.now)) }
    ensures home { IfOk result (λ t. IsSome (stack_at (C.Core.stacks core.now) t.needs.home.stack)) }
    ensures stack { IfOk result (λ t. t.needs.stack ≡ regs.now.stack) }
{
    let count = arguments(core, regs);
    if count < 2 {
        return Err(invalid());
    }
    let reference = argument(core, regs, 0);
    let event = argument(core, regs, 1);
    let (procedure, home) = procedure_of(core, regs, reference)?;
    let task = task_of(core, kernel, regs, event)?;
    if count - 2 > MOST_CELLS {
        return Err(invalid());
    }
    let needs = Needs {
        home,
        task,
        stack: regs.stack,
        first: u32::from(regs.f) + 4,
        count: count - 2,
    };
    Ok(Given { procedure, needs })
}

// What a new process begins with, where nothing stops START.
fn beginning<C: Core>(
    core: &C,
    kernel: &Kernel,
    all: &[Registers],
    regs: &Registers,
    started: u32,
    mark: &Mscw,
) -> Result<(Given, Registers), Stop>
    requires ready { IsReady (C.Core.stacks core.now) regs.now }
    requires above { regs.now.f + 2 ≤ regs.now.s }
    requires most { started ≤ most_processes }
    ensures told { (img : Image) → img.stacks ≡ C.Core.stacks core.now → img.events ≡ kernel.now.events → img.regs ≡ all.now → img.started ≡ started → whole_outcome (asked img (beginning regs.now mark.now (arguments img.stacks regs.now))) ≡ outcome_answered (beginning_in (C.Core.stacks core.now) result) }
    ensures within { OnOk result (mark.now.df ≤ regs.now.f) }
    ensures given { IfOk result (λ b. StartIsGiven (C.Core.stacks core.now) b.0) }
    ensures home { IfOk result (λ b. IsSome (stack_at (C.Core.stacks core.now) b.0.needs.home.stack)) }
    ensures stack { IfOk result (λ b. b.0.needs.stack ≡ regs.now.stack) }
    ensures number { IfOk result (λ b. b.1.stack ≡ started + 1) }
    ensures few { OnOk result (started < most_processes) }
{
    let start = find_given(core, kernel, regs)?;
    chained(core, regs, mark)?;
    let first = first_registers(core, all, regs, started, &start)?;
    Ok((start, first))
}

/// START: the next process has a stack of its own, whose base frame is that of a procedure, linked to where the procedure
/// lies, with the parameters as its cells; its critical place is the first frame that it needs on the starter's path. The
/// number of the new process is answered. ProcessLimit comes exactly where there have been as many as a run has. Without
/// memory nothing is changed.
pub fn start<C: Core>(
    core: &mut C,
    kernel: &Kernel,
    parts: &mut Parts,
    process: u32,
    mark: &Mscw,
    next: u16,
) -> Result<u32, Unstarted>
    requires calling { IsCalling (C.Core.stacks core.old) (C.Core.rows core.old) (numbered parts.old.regs.items process) }
    requires next { HasNext (C.Core.stacks core.old) parts.old }
    ensures starts { Starts process (called_in start_process parts.old.code (numbered parts.old.regs.items process) next mark.now) (image_of (C.Core.stacks core.old) (C.Core.rows core.old) kernel.now parts.old) (image_of (C.Core.stacks core.new) (C.Core.rows core.new) kernel.now parts.new) result }
    ensures number { IfOk result (λ n. n ≡ parts.old.started + 1) }
    ensures code { parts.new.code ≡ parts.old.code }
    ensures woken { parts.new.woken ≡ parts.old.woken }
{
    let regs = registers(&parts.regs, process);
    let (start, first) = match beginning(core, kernel, &parts.regs, regs, parts.started, mark) {
        Ok(found) => found,
        Err(stop) => return Err(Unstarted::Stopped(stop)),
    };
    match add_process(core, parts, &start, first) {
        Ok(()) => {}
        Err(_) => return Err(Unstarted::NoMemory),
    }
    end(core, &mut parts.regs, process, mark, next);
    Ok(parts.started)
}
