//! A new process among the others.

ghost use Rattle.std.specs.Prelude.{◌≡◌, ◌≢◌, ◌+◌, ◌<◌, ◌^◌, ◌++◌, ◌∷◌, [], ℕ, List, None, OnOk, OnErr, take, length};
ghost use Rattle.b67_store.specs.Store.{stack_at};
ghost use Rattle.b67_events.specs.Events.{Events};
ghost use Rattle.b67_table.specs.declared.ProcessState.TheVariants.{Able};
ghost use Rattle.b67_table.specs.Limits.{most_processes};
ghost use Rattle.b67_table.specs.Starting.{first_words};
ghost use Rattle.b67_table.specs.Writes.{write_made};
ghost use Rattle.b67_table.specs.Writes as writes;
ghost use Rattle.b67_reach.specs.Images.{image_of};
ghost use Rattle.b67_going.specs.Starts.{starting_of, StartIsGiven};

use crate::opens::{NoMemory, open_process};
use crate::starts::Given;
use b67_reach::{Parts, ProcessState, Registers};
use b67_store::Core;

// Registers, a state and a woken number are added at the end; without memory nothing changes.
fn add_entry(parts: &mut Parts, registers: Registers) -> Result<(), NoMemory>
    requires { length parts.old.regs.items ≡ length parts.old.states.items }
    ensures regs { OnOk result (parts.new.regs.items ≡ parts.old.regs.items ++ registers ∷ []) }
    ensures states { OnOk result (parts.new.states.items ≡ parts.old.states.items ++ Able ∷ []) }
    ensures numbers { OnOk result (parts.new.numbers.items ≡ parts.old.numbers.items ++ 0 ∷ []) }
    ensures same_regs { OnErr result (parts.new.regs.items ≡ parts.old.regs.items) }
    ensures same_states { OnErr result (parts.new.states.items ≡ parts.old.states.items) }
    ensures same_numbers { OnErr result (parts.new.numbers.items ≡ parts.old.numbers.items) }
    ensures output { parts.new.output ≡ parts.old.output }
    ensures started { parts.new.started ≡ parts.old.started }
    ensures code { parts.new.code ≡ parts.old.code }
    ensures woken { parts.new.woken ≡ parts.old.woken }
{
    let count = parts.regs.len();
    if parts.regs.push(registers).is_err() {
        return Err(NoMemory);
    }
    if parts.states.push(ProcessState::Able).is_err() {
        parts.regs.truncate(count);
        return Err(NoMemory);
    }
    if parts.numbers.push(0).is_err() {
        parts.regs.truncate(count);
        parts.states.truncate(count);
        return Err(NoMemory);
    }
    Ok(())
}

// What was added last is taken off.
fn drop_entry(parts: &mut Parts, count: usize)
    ensures regs { parts.new.regs.items ≡ take count parts.old.regs.items }
    ensures states { parts.new.states.items ≡ take count parts.old.states.items }
    ensures numbers { parts.new.numbers.items ≡ take count parts.old.numbers.items }
    ensures output { parts.new.output ≡ parts.old.output }
    ensures started { parts.new.started ≡ parts.old.started }
    ensures code { parts.new.code ≡ parts.old.code }
    ensures woken { parts.new.woken ≡ parts.old.woken }
{
    parts.regs.truncate(count);
    parts.states.truncate(count);
    parts.numbers.truncate(count);
}

/// A new process with these registers is added, and its stack opened. Without memory nothing changes.
pub fn add_process<C: Core>(
    core: &mut C,
    parts: &mut Parts,
    start: &Given,
    registers: Registers,
) -> Result<(), NoMemory>
    requires given { StartIsGiven (C.Core.stacks core.old) start.now }
    requires free { stack_at (C.Core.stacks core.old) registers.stack ≡ None }
    requires home { start.now.needs.home.stack < 2 ^ 10 }
    requires other { start.now.needs.stack ≢ registers.stack }
    requires each { length parts.old.regs.items ≡ length parts.old.states.items }
    requires numbers { length parts.old.regs.items ≡ length parts.old.numbers.items }
    requires most { parts.old.started < most_processes }
    ensures added { (p : ℕ) (kernel : Events) → OnOk result (image_of (C.Core.stacks core.new) (C.Core.rows core.new) kernel parts.new ≡ write_made p (writes.start registers (first_words (starting_of (C.Core.stacks core.old) start.now))) (image_of (C.Core.stacks core.old) (C.Core.rows core.old) kernel parts.old)) }
    ensures regs { OnOk result (parts.new.regs.items ≡ parts.old.regs.items ++ registers ∷ []) }
    ensures started { OnOk result (parts.new.started ≡ parts.old.started + 1) }
    ensures code { parts.new.code ≡ parts.old.code }
    ensures woken { parts.new.woken ≡ parts.old.woken }
    ensures unchanged { (kernel : Events) → OnErr result (image_of (C.Core.stacks core.new) (C.Core.rows core.new) kernel parts.new ≡ image_of (C.Core.stacks core.old) (C.Core.rows core.old) kernel parts.old) }
{
    let count = parts.regs.len();
    let number = registers.stack;
    match add_entry(parts, registers) {
        Ok(()) => {}
        Err(none) => return Err(none),
    }
    match open_process(core, number, start) {
        Ok(()) => {
            parts.started += 1;
            Ok(())
        }
        Err(none) => {
            drop_entry(parts, count);
            Err(none)
        }
    }
}
