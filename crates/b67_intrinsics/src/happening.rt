//! The intrinsics on one event: WAIT, CAUSE, CAUSEANDRESET, RESET, HAPPENED, AVAILABLE, FIX, PROCURE and LIBERATE.

ghost use Rattle.std.specs.Prelude.{◌≡◌, ◌≤◌, OnOk, IfOk, IsSome, Some, IsTrue, IsFalse, vec_capacity, [], ◌∷◌, Ok};
ghost use Rattle.b67_list.specs.Numbered.{numbered};
ghost use Rattle.b67_control.specs.declared.Registers.{Registers};
ghost use Rattle.b67_deeds.specs.declared.EventAct.TheVariants as act;
ghost use Rattle.b67_deeds.specs.declared.EventTest.TheVariants as test;
ghost use Rattle.b67_deeds.specs.Deeds.{acts};
ghost use Rattle.b67_events.specs.Events.{is_open, is_waiting, is_listed, deed_at};
ghost use Rattle.b67_table.specs.Image.{Image};
ghost use Rattle.b67_table.specs.Intrinsics.{on_event, tell_event};
ghost use Rattle.b67_table.specs.Writes.{able_again};
ghost use Rattle.b67_reach.specs.Images.{image_of};
ghost use Rattle.b67_reach.specs.Woken.{HasPlaces, KeepsPlaces};
ghost use Rattle.b67_reach.specs.Answers.{ProgramActs};
ghost use Rattle.b67_intrinsics.specs.Called.{process_listed, state_after, IsCalled, IsChained, called_in, finished_in, ended, IntrinsicLeads, event_tests_in};

use crate::finding::find_event;
use crate::marks::{finish, finish_with};
use b67_control::Mscw;
use b67_events::{Kernel, Took, Woken};
use b67_reach::{Parts, ProcessState, Registers, Stop, set_state, wake_all};
use b67_store::Core;
use b67_word::{Place, Word, truth};

/// A process's mark at F gives way with all above it, and its pointer goes to a place.
pub fn end<C: Core>(core: &mut C, all: &mut Vec<Registers>, process: u32, mark: &Mscw, place: u16)
    requires called { IsCalled (C.Core.stacks core.old) (numbered all.old.items process) }
    requires within { IsChained mark.now (numbered all.old.items process) }
    ensures acts { (img : Image) → img.stacks ≡ C.Core.stacks core.old → img.rows ≡ C.Core.rows core.old → img.regs ≡ all.old.items → ProgramActs process (finished_in (numbered all.old.items process) mark.now [] place) img (ended (C.Core.stacks core.new) (C.Core.rows core.new) all.new.items img) (Ok result) }
    ensures room { vec_capacity all.old ≤ vec_capacity all.new }
{
    let regs = &mut all[process as usize - 1];
    finish(core, regs, mark, place);
}

/// The registers of a process.
pub fn registers(all: &Vec<Registers>, process: u32) -> &Registers
    requires { IsSome (numbered all.now.items process) }
    ensures { numbered all.now.items process ≡ Some result.now }
{
    &all[process as usize - 1]
}

// The event that is the argument in a process.
fn find<C: Core>(
    core: &C,
    kernel: &Kernel,
    all: &Vec<Registers>,
    process: u32,
    mark: &Mscw,
) -> Result<Place, Stop>
    requires { IsCalled (C.Core.stacks core.now) (numbered all.now.items process) }
    ensures leads { (img : Image) → img.stacks ≡ C.Core.stacks core.now → img.events ≡ kernel.now.events → IntrinsicLeads img (event_tests_in (numbered all.now.items process) mark.now img.stacks) result }
    ensures there { IfOk result (λ place. IsTrue (is_open place kernel.now.events)) }
    ensures within { OnOk result (IsChained mark.now (numbered all.now.items process)) }
{
    find_event(core, kernel, registers(all, process), mark)
}

/// RESET: the event has not happened. Who was released stays released.
pub fn reset<C: Core>(
    core: &mut C,
    kernel: &mut Kernel,
    parts: &mut Parts,
    process: u32,
    mark: &Mscw,
    next: u16,
) -> Result<(), Stop>
    requires { IsCalled (C.Core.stacks core.old) (numbered parts.old.regs.items process) }
    ensures acts { ProgramActs process (called_in (on_event (acts act.Reset)) parts.old.code (numbered parts.old.regs.items process) next mark.now) (image_of (C.Core.stacks core.old) (C.Core.rows core.old) kernel.old parts.old) (image_of (C.Core.stacks core.new) (C.Core.rows core.new) kernel.new parts.new) result }
    ensures processes { kernel.new.room ≡ kernel.old.room }
    ensures code { parts.new.code ≡ parts.old.code }
    ensures woken { parts.new.woken ≡ parts.old.woken }
{
    let place = find(core, kernel, &parts.regs, process, mark)?;
    kernel.reset(place);
    end(core, &mut parts.regs, process, mark, next);
    Ok(())
}

// A process is in a state, where it waits.
fn set_waiting(states: &mut Vec<ProcessState>, process: u32, took: Took, state: ProcessState)
    ensures { states.new.items ≡ state_after took state process states.old.items }
{
    match took {
        Took::Went => {}
        Took::Waits => set_state(states, process, state),
    }
}

/// WAIT: the process goes on where the event has happened; else it waits for it, after all who wait.
pub fn wait<C: Core>(
    core: &mut C,
    kernel: &mut Kernel,
    parts: &mut Parts,
    process: u32,
    mark: &Mscw,
    next: u16,
) -> Result<(), Stop>
    requires called { IsCalled (C.Core.stacks core.old) (numbered parts.old.regs.items process) }
    requires process { (1 ≤ process) × (process ≤ kernel.old.room) }
    requires idle { IsFalse (is_waiting process kernel.old.events) }
    requires unlisted { IsFalse (is_listed process kernel.old.lists) }
    ensures acts { ProgramActs process (called_in (on_event (acts act.Wait)) parts.old.code (numbered parts.old.regs.items process) next mark.now) (image_of (C.Core.stacks core.old) (C.Core.rows core.old) kernel.old parts.old) (image_of (C.Core.stacks core.new) (C.Core.rows core.new) kernel.new parts.new) result }
    ensures processes { kernel.new.room ≡ kernel.old.room }
    ensures code { parts.new.code ≡ parts.old.code }
    ensures woken { parts.new.woken ≡ parts.old.woken }
{
    let place = find(core, kernel, &parts.regs, process, mark)?;
    let took = kernel.wait(place, process);
    set_waiting(
        &mut parts.states,
        process,
        took,
        ProcessState::WaitsFor(place),
    );
    end(core, &mut parts.regs, process, mark, next);
    Ok(())
}

/// PROCURE: the process takes the event where it is available; else it waits to procure it, after all who wait.
pub fn procure<C: Core>(
    core: &mut C,
    kernel: &mut Kernel,
    parts: &mut Parts,
    process: u32,
    mark: &Mscw,
    next: u16,
) -> Result<(), Stop>
    requires called { IsCalled (C.Core.stacks core.old) (numbered parts.old.regs.items process) }
    requires process { (1 ≤ process) × (process ≤ kernel.old.room) }
    requires idle { IsFalse (is_waiting process kernel.old.events) }
    requires unlisted { IsFalse (is_listed process kernel.old.lists) }
    ensures acts { ProgramActs process (called_in (on_event (acts act.Procure)) parts.old.code (numbered parts.old.regs.items process) next mark.now) (image_of (C.Core.stacks core.old) (C.Core.rows core.old) kernel.old parts.old) (image_of (C.Core.stacks core.new) (C.Core.rows core.new) kernel.new parts.new) result }
    ensures processes { kernel.new.room ≡ kernel.old.room }
    ensures code { parts.new.code ≡ parts.old.code }
    ensures woken { parts.new.woken ≡ parts.old.woken }
{
    let place = find(core, kernel, &parts.regs, process, mark)?;
    let took = kernel.procure(place, process);
    set_waiting(
        &mut parts.states,
        process,
        took,
        ProcessState::Procures(place),
    );
    end(core, &mut parts.regs, process, mark, next);
    Ok(())
}

// The process that was served is the one released, and is able.
fn wake_one(states: &mut Vec<ProcessState>, woken: &mut Woken, served: Option<u32>)
    requires { HasPlaces 1 woken.old }
    ensures states { states.new.items ≡ able_again (process_listed served) states.old.items }
    ensures woken { woken.new.processes.items ≡ process_listed served }
    ensures capacity { KeepsPlaces woken.old woken.new }
{
    woken.processes.clear();
    woken.positions.clear();
    if let Some(process) = served {
        woken.processes.push(process).unwrap();
        woken.positions.push(0).unwrap();
        set_state(states, process, ProcessState::Able);
    }
}

/// CAUSE: the event happens, and all who wait for it are released, in the order in which they came.
pub fn cause<C: Core>(
    core: &mut C,
    kernel: &mut Kernel,
    parts: &mut Parts,
    process: u32,
    mark: &Mscw,
    next: u16,
) -> Result<(), Stop>
    requires called { IsCalled (C.Core.stacks core.old) (numbered parts.old.regs.items process) }
    requires room { HasPlaces kernel.old.room parts.old.woken }
    ensures acts { ProgramActs process (called_in (on_event (acts act.Cause)) parts.old.code (numbered parts.old.regs.items process) next mark.now) (image_of (C.Core.stacks core.old) (C.Core.rows core.old) kernel.old parts.old) (image_of (C.Core.stacks core.new) (C.Core.rows core.new) kernel.new parts.new) result }
    ensures woken { OnOk result ((at : Place) × IntrinsicLeads (image_of (C.Core.stacks core.old) (C.Core.rows core.old) kernel.old parts.old) (event_tests_in (numbered parts.old.regs.items process) mark.now (C.Core.stacks core.old)) (Ok at) × (parts.new.woken.processes.items ≡ (deed_at (acts act.Cause) process at kernel.old.events).frees)) }
    ensures capacity { KeepsPlaces parts.old.woken parts.new.woken }
    ensures processes { kernel.new.room ≡ kernel.old.room }
    ensures code { parts.new.code ≡ parts.old.code }
{
    let place = find(core, kernel, &parts.regs, process, mark)?;
    kernel.cause(place, &mut parts.woken);
    wake_all(&mut parts.states, &mut parts.numbers, &parts.woken);
    end(core, &mut parts.regs, process, mark, next);
    Ok(())
}

/// CAUSEANDRESET: all who wait for the event are released, in the order in which they came, and it has not happened.
pub fn cause_and_reset<C: Core>(
    core: &mut C,
    kernel: &mut Kernel,
    parts: &mut Parts,
    process: u32,
    mark: &Mscw,
    next: u16,
) -> Result<(), Stop>
    requires called { IsCalled (C.Core.stacks core.old) (numbered parts.old.regs.items process) }
    requires room { HasPlaces kernel.old.room parts.old.woken }
    ensures acts { ProgramActs process (called_in (on_event (acts act.CauseAndReset)) parts.old.code (numbered parts.old.regs.items process) next mark.now) (image_of (C.Core.stacks core.old) (C.Core.rows core.old) kernel.old parts.old) (image_of (C.Core.stacks core.new) (C.Core.rows core.new) kernel.new parts.new) result }
    ensures woken { OnOk result ((at : Place) × IntrinsicLeads (image_of (C.Core.stacks core.old) (C.Core.rows core.old) kernel.old parts.old) (event_tests_in (numbered parts.old.regs.items process) mark.now (C.Core.stacks core.old)) (Ok at) × (parts.new.woken.processes.items ≡ (deed_at (acts act.CauseAndReset) process at kernel.old.events).frees)) }
    ensures capacity { KeepsPlaces parts.old.woken parts.new.woken }
    ensures processes { kernel.new.room ≡ kernel.old.room }
    ensures code { parts.new.code ≡ parts.old.code }
{
    let place = find(core, kernel, &parts.regs, process, mark)?;
    kernel.cause_and_reset(place, &mut parts.woken);
    wake_all(&mut parts.states, &mut parts.numbers, &parts.woken);
    end(core, &mut parts.regs, process, mark, next);
    Ok(())
}

/// LIBERATE: the first who waits to procure the event has it and is released; where nobody does, it is available.
pub fn liberate<C: Core>(
    core: &mut C,
    kernel: &mut Kernel,
    parts: &mut Parts,
    process: u32,
    mark: &Mscw,
    next: u16,
) -> Result<(), Stop>
    requires called { IsCalled (C.Core.stacks core.old) (numbered parts.old.regs.items process) }
    requires room { HasPlaces 1 parts.old.woken }
    ensures acts { ProgramActs process (called_in (on_event (acts act.Liberate)) parts.old.code (numbered parts.old.regs.items process) next mark.now) (image_of (C.Core.stacks core.old) (C.Core.rows core.old) kernel.old parts.old) (image_of (C.Core.stacks core.new) (C.Core.rows core.new) kernel.new parts.new) result }
    ensures woken { OnOk result ((at : Place) × IntrinsicLeads (image_of (C.Core.stacks core.old) (C.Core.rows core.old) kernel.old parts.old) (event_tests_in (numbered parts.old.regs.items process) mark.now (C.Core.stacks core.old)) (Ok at) × (parts.new.woken.processes.items ≡ (deed_at (acts act.Liberate) process at kernel.old.events).frees)) }
    ensures capacity { KeepsPlaces parts.old.woken parts.new.woken }
    ensures processes { kernel.new.room ≡ kernel.old.room }
    ensures code { parts.new.code ≡ parts.old.code }
{
    let place = find(core, kernel, &parts.regs, process, mark)?;
    let served = kernel.liberate(place);
    wake_one(&mut parts.states, &mut parts.woken, served);
    end(core, &mut parts.regs, process, mark, next);
    Ok(())
}

// A process's mark gives way to a word, and its pointer goes to a place.
pub fn end_with<C: Core>(
    core: &mut C,
    all: &mut Vec<Registers>,
    process: u32,
    mark: &Mscw,
    word: Word,
    place: u16,
)
    requires called { IsCalled (C.Core.stacks core.old) (numbered all.old.items process) }
    requires within { IsChained mark.now (numbered all.old.items process) }
    ensures acts { (img : Image) → img.stacks ≡ C.Core.stacks core.old → img.rows ≡ C.Core.rows core.old → img.regs ≡ all.old.items → ProgramActs process (finished_in (numbered all.old.items process) mark.now (word ∷ []) place) img (ended (C.Core.stacks core.new) (C.Core.rows core.new) all.new.items img) (Ok result) }
    ensures room { vec_capacity all.old ≤ vec_capacity all.new }
{
    let regs = &mut all[process as usize - 1];
    finish_with(core, regs, mark, word, place);
}

/// HAPPENED: whether the event has happened, as a truth value on the stack.
pub fn happened<C: Core>(
    core: &mut C,
    kernel: &Kernel,
    parts: &mut Parts,
    process: u32,
    mark: &Mscw,
    next: u16,
) -> Result<(), Stop>
    requires called { IsCalled (C.Core.stacks core.old) (numbered parts.old.regs.items process) }
    ensures acts { ProgramActs process (called_in (tell_event test.Happened) parts.old.code (numbered parts.old.regs.items process) next mark.now) (image_of (C.Core.stacks core.old) (C.Core.rows core.old) kernel.now parts.old) (image_of (C.Core.stacks core.new) (C.Core.rows core.new) kernel.now parts.new) result }
    ensures code { parts.new.code ≡ parts.old.code }
    ensures woken { parts.new.woken ≡ parts.old.woken }
{
    let place = find(core, kernel, &parts.regs, process, mark)?;
    let happened = kernel.happened(place);
    end_with(core, &mut parts.regs, process, mark, truth(happened), next);
    Ok(())
}

/// AVAILABLE: whether the event is available, as a truth value on the stack.
pub fn available<C: Core>(
    core: &mut C,
    kernel: &Kernel,
    parts: &mut Parts,
    process: u32,
    mark: &Mscw,
    next: u16,
) -> Result<(), Stop>
    requires called { IsCalled (C.Core.stacks core.old) (numbered parts.old.regs.items process) }
    ensures acts { ProgramActs process (called_in (tell_event test.Available) parts.old.code (numbered parts.old.regs.items process) next mark.now) (image_of (C.Core.stacks core.old) (C.Core.rows core.old) kernel.now parts.old) (image_of (C.Core.stacks core.new) (C.Core.rows core.new) kernel.now parts.new) result }
    ensures code { parts.new.code ≡ parts.old.code }
    ensures woken { parts.new.woken ≡ parts.old.woken }
{
    let place = find(core, kernel, &parts.regs, process, mark)?;
    let available = kernel.available(place);
    end_with(core, &mut parts.regs, process, mark, truth(available), next);
    Ok(())
}

/// FIX: whether the event is not available, as a truth value on the stack; where it is, the process takes it.
pub fn fix<C: Core>(
    core: &mut C,
    kernel: &mut Kernel,
    parts: &mut Parts,
    process: u32,
    mark: &Mscw,
    next: u16,
) -> Result<(), Stop>
    requires called { IsCalled (C.Core.stacks core.old) (numbered parts.old.regs.items process) }
    ensures acts { ProgramActs process (called_in (tell_event test.Fix) parts.old.code (numbered parts.old.regs.items process) next mark.now) (image_of (C.Core.stacks core.old) (C.Core.rows core.old) kernel.old parts.old) (image_of (C.Core.stacks core.new) (C.Core.rows core.new) kernel.new parts.new) result }
    ensures processes { kernel.new.room ≡ kernel.old.room }
    ensures code { parts.new.code ≡ parts.old.code }
    ensures woken { parts.new.woken ≡ parts.old.woken }
{
    let place = find(core, kernel, &parts.regs, process, mark)?;
    let fixed = kernel.fix(place);
    end_with(core, &mut parts.regs, process, mark, truth(fixed), next);
    Ok(())
}
