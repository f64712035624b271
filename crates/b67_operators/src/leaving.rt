//! Operators that leave a frame: EXIT and RETN. A process that leaves its base frame has ended.

ghost use Rattle.std.specs.Prelude.{◌≡◌, ◌<◌, ◌≤◌, ℕ, [], ◌∷◌, IfOk, OnOk, IsSome, Some, vec_capacity};
ghost use Rattle.b67_list.specs.Numbered.{numbered};
ghost use Rattle.b67_control.specs.Control.{Fits_rcw};
ghost use Rattle.b67_control.specs.Display.{levels};
ghost use Rattle.b67_events.specs.Events.{closed_from};
ghost use Rattle.b67_table.specs.Linkage.{is_critical, leaving};
ghost use Rattle.b67_table.specs.Look.{look_seen};
ghost use Rattle.b67_table.specs.Private.{frame};
ghost use Rattle.b67_table.specs.Questions.{live_criticals};
ghost use Rattle.b67_table.specs.Rows.{exit, is_result, return_value};
ghost use Rattle.b67_table.specs.Writes.{able_again};
ghost use Rattle.b67_linkage.specs.Held.{held, IsLinked};
ghost use Rattle.b67_linkage.specs.Leaving.{frame_left};
ghost use Rattle.b67_reach.specs.Images.{image_of};
ghost use Rattle.b67_reach.specs.Woken.{HasPlaces, KeepsPlaces};
ghost use Rattle.b67_reach.specs.Answers.{looked, IsReady, ProgramActs};
ghost use Rattle.b67_operators.specs.Leaves.{IsLinkedIn, program_in, valued, leaves, HasLeftFrame, below_found, returned, program_ends, HasLeftBase, task_caused, task_waiters, task_numbers, released};

use b67_control::{Registers, Sirw};
use b67_events::{Kernel, Woken};
use b67_linkage::{leave_base, leave_frame, leaving};
use b67_num::FaultKind;
use b67_reach::{
    InterruptKind, Parts, ProcessState, Stop, as_indexed, frame_at, invalid, is_critical,
    is_operand, popped, set_state, wake_all,
};
use b67_store::Core;
use b67_table::Leaving;
use b67_word::{Place, Word};

// The registers of a process.
pub fn registers(all: &Vec<Registers>, process: u32) -> &Registers
    requires { IsSome (numbered all.now.items process) }
    ensures { numbered all.now.items process ≡ Some result.now }
{
    &all[process as usize - 1]
}

// The displacement of the process's frame.
pub fn frame_of(regs: &Registers) -> u16
    requires { regs.now.ll < levels }
    ensures { result ≡ frame regs.now }
{
    match frame_at(regs, regs.ll) {
        Some(place) => place.at,
        None => 0,
    }
}

// Tests that a frame is a live process's critical place.
pub fn is_needed(states: &[ProcessState], all: &[Registers], frame: Place) -> bool
    ensures { result ≡ is_critical frame.stack (frame.at ∷ []) (live_criticals states.now all.now) }
{
    is_critical(states, all, frame)
}

// ---- another frame than the base frame

// What leaving a frame finds below it, where it is no live process's critical place.
fn below<C: Core>(
    core: &C,
    states: &[ProcessState],
    all: &[Registers],
    frame: Place,
) -> Result<Leaving, Stop>
    ensures value { result ≡ below_found (look_seen (C.Core.stacks core.now) (leaving frame)) (is_critical frame.stack (frame.at ∷ []) (live_criticals states.now all.now)) }
    ensures fits { IfOk result (λ l. Fits_rcw l.below.control) }
{
    let Ok(found) = leaving(core, frame) else {
        return Err(Stop::Interrupt(InterruptKind::BrokenChain));
    };
    if is_needed(states, all, frame) {
        return Err(Stop::Fault(FaultKind::CriticalBlockExit));
    }
    Ok(found)
}

// The frame of a process is left, and a value stands in its place, or nothing.
fn leave_frame_for<C: Core>(
    core: &mut C,
    regs: &mut Registers,
    leaving: &Leaving,
    value: Option<Word>,
)
    requires linked { IsLinked (C.Core.stacks core.old) (C.Core.rows core.old) regs.old }
    requires fits { Fits_rcw leaving.now.below.control }
    ensures { held (C.Core.stacks core.new) (C.Core.rows core.new) regs.new ≡ frame_left (held (C.Core.stacks core.old) (C.Core.rows core.old) regs.old) (valued value) leaving.now }
{
    leave_frame(core, regs, leaving);
    if let Some(word) = value {
        core.push(regs.stack, word).unwrap();
        regs.s += 1;
    }
}

// So it is in a process.
fn leave_frame_in<C: Core>(
    core: &mut C,
    all: &mut Vec<Registers>,
    process: u32,
    leaving: &Leaving,
    value: Option<Word>,
)
    requires linked { IsLinkedIn (C.Core.stacks core.old) (C.Core.rows core.old) (numbered all.old.items process) }
    requires fits { Fits_rcw leaving.now.below.control }
    ensures left { HasLeftFrame (C.Core.stacks core.old) (C.Core.rows core.old) all.old.items process leaving.now value (numbered all.old.items process) (C.Core.stacks core.new) (C.Core.rows core.new) all.new.items }
    ensures room { vec_capacity all.old ≤ vec_capacity all.new }
{
    let regs = &mut all[process as usize - 1];
    leave_frame_for(core, regs, leaving, value);
}

// A frame that is not the base frame is left: the rows of its cells and its events are closed, its words are taken off,
// and the process goes on in the frame below.
fn leave<C: Core>(
    core: &mut C,
    kernel: &mut Kernel,
    parts: &mut Parts,
    process: u32,
    value: Option<Word>,
) -> Result<(), Stop>
    requires linked { IsLinkedIn (C.Core.stacks core.old) (C.Core.rows core.old) (numbered parts.old.regs.items process) }
    ensures acts { (next : ℕ) → ProgramActs process (program_in (leaves (C.Core.stacks core.old) (C.Core.rows core.old) value) (numbered parts.old.regs.items process) next) (image_of (C.Core.stacks core.old) (C.Core.rows core.old) kernel.old parts.old) (image_of (C.Core.stacks core.new) (C.Core.rows core.new) kernel.new parts.new) result }
    ensures processes { kernel.new.room ≡ kernel.old.room }
    ensures code { parts.new.code ≡ parts.old.code }
    ensures woken { parts.new.woken ≡ parts.old.woken }
{
    let regs = registers(&parts.regs, process);
    let frame = Place {
        stack: regs.stack,
        at: frame_of(regs),
    };
    let found = below(core, &parts.states, &parts.regs, frame)?;
    leave_frame_in(core, &mut parts.regs, process, &found, value);
    kernel.close_from(frame.stack, u32::from(frame.at));
    Ok(())
}

// ---- the base frame

// The base frame of a process is left, and its pointer is at a place.
fn leave_base_in<C: Core>(core: &mut C, all: &mut Vec<Registers>, process: u32, place: u16)
    requires { IsLinkedIn (C.Core.stacks core.old) (C.Core.rows core.old) (numbered all.old.items process) }
    ensures left { HasLeftBase (C.Core.stacks core.old) (C.Core.rows core.old) all.old.items process place (numbered all.old.items process) (C.Core.stacks core.new) (C.Core.rows core.new) all.new.items }
    ensures room { vec_capacity all.old ≤ vec_capacity all.new }
{
    let regs = &mut all[process as usize - 1];
    leave_base(core, regs);
    regs.place = place;
}

// A task's event is caused, where it is open, and who waits for it is released.
fn cause_task(
    kernel: &mut Kernel,
    states: &mut Vec<ProcessState>,
    numbers: &mut Vec<u32>,
    woken: &mut Woken,
    task: Option<Place>,
)
    requires { HasPlaces kernel.old.room woken.old }
    ensures kernel { kernel.new ≡ task_caused task kernel.old }
    ensures states { states.new.items ≡ able_again (task_waiters task kernel.old.events) states.old.items }
    ensures numbers { numbers.new.items ≡ task_numbers task kernel.old numbers.old.items }
    ensures woken { woken.new.processes.items ≡ task_waiters task kernel.old.events }
    ensures capacity { KeepsPlaces woken.old woken.new }
{
    woken.processes.clear();
    let Some(event) = task else {
        return;
    };
    if kernel.is_open(event) {
        kernel.cause(event, woken);
        wake_all(states, numbers, woken);
    }
}

// The base frame of a process is left, and the process has ended: its stack is closed, and its task's event caused.
fn end<C: Core>(
    core: &mut C,
    kernel: &mut Kernel,
    parts: &mut Parts,
    process: u32,
    next: u16,
) -> Result<(), Stop>
    requires linked { IsLinkedIn (C.Core.stacks core.old) (C.Core.rows core.old) (numbered parts.old.regs.items process) }
    requires room { HasPlaces kernel.old.room parts.old.woken }
    ensures acts { ProgramActs process (program_in (program_ends (C.Core.stacks core.old) (C.Core.rows core.old)) (numbered parts.old.regs.items process) next) (image_of (C.Core.stacks core.old) (C.Core.rows core.old) kernel.old parts.old) (image_of (C.Core.stacks core.new) (C.Core.rows core.new) kernel.new parts.new) result }
    ensures woken { OnOk result ((r : Registers) → numbered parts.old.regs.items process ≡ Some r → parts.new.woken.processes.items ≡ task_waiters r.task (closed_from r.stack 0 kernel.old.events)) }
    ensures capacity { KeepsPlaces parts.old.woken parts.new.woken }
    ensures processes { kernel.new.room ≡ kernel.old.room }
    ensures code { parts.new.code ≡ parts.old.code }
{
    let regs = registers(&parts.regs, process);
    let stack = regs.stack;
    let task = regs.task;
    if is_needed(&parts.states, &parts.regs, Place { stack, at: 0 }) {
        return Err(Stop::Fault(FaultKind::CriticalBlockExit));
    }
    leave_base_in(core, &mut parts.regs, process, next);
    kernel.close_from(stack, 0);
    cause_task(
        kernel,
        &mut parts.states,
        &mut parts.numbers,
        &mut parts.woken,
        task,
    );
    set_state(&mut parts.states, process, ProcessState::Ended);
    Ok(())
}

// ---- both

/// EXIT: the frame of a process is left, with the rows of its cells and its events. Where it is the base frame the process
/// has ended: its stack is closed, its task's event happens where it is open, and all who wait for it are released.
/// BrokenChain comes exactly where the frame below can not be found; then CriticalBlockExit exactly where the frame is a
/// live process's critical place.
pub fn exit<C: Core>(
    core: &mut C,
    kernel: &mut Kernel,
    parts: &mut Parts,
    process: u32,
    next: u16,
) -> Result<(), Stop>
    requires linked { IsLinkedIn (C.Core.stacks core.old) (C.Core.rows core.old) (numbered parts.old.regs.items process) }
    requires room { HasPlaces kernel.old.room parts.old.woken }
    ensures acts { ProgramActs process (program_in exit (numbered parts.old.regs.items process) next) (image_of (C.Core.stacks core.old) (C.Core.rows core.old) kernel.old parts.old) (image_of (C.Core.stacks core.new) (C.Core.rows core.new) kernel.new parts.new) result }
    ensures woken { OnOk result (parts.new.woken.processes.items ≡ released (numbered parts.old.regs.items process) kernel.old.events parts.old.woken.processes.items) }
    ensures capacity { KeepsPlaces parts.old.woken parts.new.woken }
    ensures processes { kernel.new.room ≡ kernel.old.room }
    ensures code { parts.new.code ≡ parts.old.code }
{
    if frame_of(registers(&parts.regs, process)) == 0 {
        end(core, kernel, parts, process, next)
    } else {
        leave(core, kernel, parts, process, None)
    }
}

// Tests that a word can be a result: an operand, a stuffed reference or an indexed descriptor.
fn is_result(word: Word) -> bool
    ensures { result ≡ is_result word }
{
    is_operand(word) || Sirw::unpack(word).is_some() || as_indexed(word).is_some()
}

// The word on top, which is the value of the frame that is left.
pub fn returned<C: Core>(core: &C, regs: &Registers) -> Result<Word, Stop>
    requires { IsReady (C.Core.stacks core.now) regs.now }
    ensures { result ≡ looked (look_seen (C.Core.stacks core.now) (returned regs.now)) }
{
    let word = popped(core, regs)?;
    if !is_result(word) || frame_of(regs) == 0 {
        return Err(invalid());
    }
    Ok(word)
}

/// RETN: as EXIT, but the word on top stands in the place of the frame. StackUnderflow comes exactly where the private part
/// is empty, and InvalidOperand where the word is no operand, stuffed reference or indexed descriptor, or the frame is the
/// base frame.
pub fn return_value<C: Core>(
    core: &mut C,
    kernel: &mut Kernel,
    parts: &mut Parts,
    process: u32,
    next: u16,
) -> Result<(), Stop>
    requires { IsLinkedIn (C.Core.stacks core.old) (C.Core.rows core.old) (numbered parts.old.regs.items process) }
    ensures acts { ProgramActs process (program_in return_value (numbered parts.old.regs.items process) next) (image_of (C.Core.stacks core.old) (C.Core.rows core.old) kernel.old parts.old) (image_of (C.Core.stacks core.new) (C.Core.rows core.new) kernel.new parts.new) result }
    ensures processes { kernel.new.room ≡ kernel.old.room }
    ensures code { parts.new.code ≡ parts.old.code }
    ensures woken { parts.new.woken ≡ parts.old.woken }
{
    let word = returned(core, registers(&parts.regs, process))?;
    leave(core, kernel, parts, process, Some(word))
}
