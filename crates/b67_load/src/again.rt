// The first image once more, in the memory of a machine that was run.
ghost use Rattle.std.specs.Prelude.{◌≡◌, ◌≤◌, [], ◌∷◌, OnOk, length};
ghost use Rattle.b67_table.specs.declared.ProcessState.TheVariants.{Able, Ended};
ghost use Rattle.b67_table.specs.Beginning.{first_image, first_registers};
ghost use Rattle.b67_table.specs.Valid.{IsValid};
ghost use Rattle.b67_reach.specs.Images.{image_of};
ghost use Rattle.b67_reach.specs.Woken.{KeepsPlaces};
ghost use Rattle.b67_action.specs.Done.{KernelHasRoom};

use crate::opening::open_with;
use crate::words::{base_words, first_registers};
use b67_again::Again;
use b67_events::Kernel;
use b67_reach::{Parts, ProcessState};
use std::alloc::AllocError;

// Leaves one only, in place of all in a list that has room for it.
fn leave<T: Drop>(list: &mut Vec<T>, one: T)
    requires { 1 ≤ length list.old.items }
    ensures { list.new.items ≡ one ∷ [] }
{
    list.clear();
    list.push_reserved(one);
}

// Leaves one process, in its first registers and in this state. Nobody is released.
fn leave_first(parts: &mut Parts, state: ProcessState)
    requires regs { 1 ≤ length parts.old.regs.items }
    requires states { 1 ≤ length parts.old.states.items }
    requires numbers { 1 ≤ length parts.old.numbers.items }
    ensures regs { parts.new.regs.items ≡ first_registers ∷ [] }
    ensures states { parts.new.states.items ≡ state ∷ [] }
    ensures numbers { parts.new.numbers.items ≡ 0 ∷ [] }
    ensures output { parts.new.output.items ≡ [] }
    ensures started { parts.new.started ≡ 1 }
    ensures places { KeepsPlaces parts.old.woken parts.new.woken }
    ensures code { parts.new.code ≡ parts.old.code }
{
    leave(&mut parts.regs, first_registers());
    leave(&mut parts.states, state);
    leave(&mut parts.numbers, 0);
    parts.output.clear();
    parts.woken.processes.clear();
    parts.woken.positions.clear();
    parts.started = 1;
}

/// Builds the first image once more, whatever was run from it, in the memory that was used. Where there is none for the stack of process 1,
/// it is as if that process had ended.
pub fn load_again<C: Again>(
    core: &mut C,
    kernel: &mut Kernel,
    parts: &mut Parts,
) -> Result<(), AllocError>
    requires valid { IsValid parts.old.code (image_of (C.Core.stacks core.old) (C.Core.rows core.old) kernel.old parts.old) }
    requires room { KernelHasRoom kernel.old parts.old }
    ensures image { OnOk result (image_of (C.Core.stacks core.new) (C.Core.rows core.new) kernel.new parts.new ≡ first_image) }
    ensures valid { IsValid parts.new.code (image_of (C.Core.stacks core.new) (C.Core.rows core.new) kernel.new parts.new) }
    ensures room { KernelHasRoom kernel.new parts.new }
    ensures code { parts.new.code ≡ parts.old.code }
{
    kernel.clear();
    core.clear_from(1);
    match open_with(core, 1, &base_words()) {
        Ok(()) => {
            leave_first(parts, ProcessState::Able);
            Ok(())
        }
        Err(error) => {
            leave_first(parts, ProcessState::Ended);
            Err(error)
        }
    }
}
