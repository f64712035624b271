// The first image.
ghost use Rattle.std.specs.Prelude.{◌≡◌, [], ◌∷◌, IfOk, OnOk, OnErr};
ghost use Rattle.b67_store.specs.Store.{opened_at};
ghost use Rattle.b67_table.specs.declared.ProcessState.TheVariants.{Able};
ghost use Rattle.b67_table.specs.Beginning.{base_frame, first_registers, system_stack};
ghost use Rattle.b67_reach.specs.Images.{image_of};
ghost use Rattle.b67_action.specs.Done.{KernelHasRoom};
ghost use Rattle.b67_load.specs.Closed.{NoneOpen, first_on};

use crate::opening::open_with;
use crate::words::{base_words, first_registers, system_words};
use b67_events::{Kernel, Woken};
use b67_going::MOST_PROCESSES;
use b67_reach::{Parts, ProcessState};
use b67_segment::Code;
use b67_store::Core;
use std::alloc::{AllocError, Global};

// What a machine has beside its store, before its first operator.
fn parts_of(alloc: Global, code: Code) -> Result<(Kernel, Parts), AllocError>
    ensures events { IfOk result (λ made. made.0.events ≡ []) }
    ensures lists { IfOk result (λ made. made.0.lists ≡ []) }
    ensures regs { IfOk result (λ made. made.1.regs.items ≡ first_registers ∷ []) }
    ensures states { IfOk result (λ made. made.1.states.items ≡ Able ∷ []) }
    ensures numbers { IfOk result (λ made. made.1.numbers.items ≡ 0 ∷ []) }
    ensures output { IfOk result (λ made. made.1.output.items ≡ []) }
    ensures started { IfOk result (λ made. made.1.started ≡ 1) }
    ensures room { IfOk result (λ made. KernelHasRoom made.0 made.1) }
    ensures code { IfOk result (λ made. made.1.code ≡ code) }
{
    let kernel = Kernel::with_room(alloc, MOST_PROCESSES)?;
    let mut regs = Vec::new(alloc);
    regs.push(first_registers())?;
    let mut states = Vec::new(alloc);
    states.push(ProcessState::Able)?;
    let mut numbers = Vec::with_capacity(alloc, MOST_PROCESSES as usize)?;
    numbers.push(0)?;
    let woken = Woken {
        processes: Vec::with_capacity(alloc, MOST_PROCESSES as usize)?,
        positions: Vec::with_capacity(alloc, MOST_PROCESSES as usize)?,
    };
    let parts = Parts {
        code,
        regs,
        output: Vec::new(alloc),
        states,
        numbers,
        woken,
        started: 1,
    };
    Ok((kernel, parts))
}

// The first two stacks. Without memory none is open.
fn open_first<C: Core>(core: &mut C) -> Result<(), AllocError>
    requires { NoneOpen (C.Core.stacks core.old) }
    ensures opened { OnOk result (C.Core.stacks core.new ≡ opened_at (opened_at (C.Core.stacks core.old) 0 system_stack) 1 base_frame) }
    ensures none { OnErr result (NoneOpen (C.Core.stacks core.new)) }
    ensures rows { C.Core.rows core.new ≡ C.Core.rows core.old }
{
    open_with(core, 0, &system_words())?;
    let second = open_with(core, 1, &base_words());
    if second.is_err() {
        let _ = core.close_stack(0);
    }
    second
}

/// Builds the first image of a code on a store in which nothing is open, whatever was opened in it and closed, with room for the
/// most processes to wait and to be released. Without memory nothing is open in the store.
pub fn load<C: Core>(alloc: Global, core: &mut C, code: Code) -> Result<(Kernel, Parts), AllocError>
    requires stacks { NoneOpen (C.Core.stacks core.old) }
    requires rows { NoneOpen (C.Core.rows core.old) }
    ensures image { IfOk result (λ made. image_of (C.Core.stacks core.new) (C.Core.rows core.new) made.0 made.1 ≡ first_on (C.Core.stacks core.old) (C.Core.rows core.old)) }
    ensures room { IfOk result (λ made. KernelHasRoom made.0 made.1) }
    ensures code { IfOk result (λ made. made.1.code ≡ code) }
    ensures no_stack { OnErr result (NoneOpen (C.Core.stacks core.new)) }
    ensures same_rows { OnErr result (C.Core.rows core.new ≡ C.Core.rows core.old) }
{
    let made = parts_of(alloc, code)?;
    open_first(core)?;
    Ok(made)
}
