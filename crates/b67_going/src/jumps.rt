//! GOTO: all frames above the one that the display names at a level are left.

ghost use Rattle.std.specs.Prelude.{◌≡◌, ◌+◌, ◌<◌, ◌≤◌, ℕ, Ok, Some, IfOk, OnOk};
ghost use Rattle.b67_list.specs.Numbered.{numbered};
ghost use Rattle.b67_control.specs.declared.Mscw.{Mscw};
ghost use Rattle.b67_control.specs.Display.{levels};
ghost use Rattle.b67_store.specs.Store.{words_of, stack_limit};
ghost use Rattle.b67_table.specs.Chains.{rebuilt};
ghost use Rattle.b67_table.specs.GoingTo.{gone_to, go_to};
ghost use Rattle.b67_table.specs.Image.{Image, with_events};
ghost use Rattle.b67_table.specs.Look.{look_seen};
ghost use Rattle.b67_table.specs.Private.{display_at};
ghost use Rattle.b67_table.specs.Program.{changed};
ghost use Rattle.b67_table.specs.Questions.{live_criticals};
ghost use Rattle.b67_linkage.specs.Held.{IsLinked};
ghost use Rattle.b67_linkage.specs.Leaving.{Cutting, cutting};
ghost use Rattle.b67_reach.specs.Images.{image_of, own_of_image, with_own};
ghost use Rattle.b67_reach.specs.Answers.{looked, ProgramActs, IsReady};
ghost use Rattle.b67_intrinsics.specs.Called.{arguments, called_in};
ghost use Rattle.b67_going.specs.Leaves.{leaves_critical};
ghost use Rattle.b67_going.specs.Starts.{IsCalling};
ghost use Rattle.b67_going.specs.Targets.{tabled, target_in, named_target, Routes, IsClear};

use crate::leaves::{close_events, passes_critical};
use crate::paths::broken;
use crate::starts::frame_of;
use crate::targets::{Target, target_of};
use b67_control::Display;
use b67_display::rebuild;
use b67_events::Kernel;
use b67_intrinsics::{registers, three_arguments};
use b67_linkage::cut_to;
use b67_num::FaultKind;
use b67_reach::{Parts, ProcessState, Registers, Stop};
use b67_store::Core;

// What GOTO goes to by its arguments.
fn find_target<C: Core>(core: &C, regs: &Registers) -> Result<Target, Stop>
    requires ready { IsReady (C.Core.stacks core.now) regs.now }
    requires above { regs.now.f + 2 ≤ regs.now.s }
    ensures value { result ≡ looked (target_in (look_seen (C.Core.stacks core.now) (named_target regs.now (arguments (C.Core.stacks core.now) regs.now)))) }
    ensures low { IfOk result (λ t. 2 ≤ t.level) }
    ensures high { IfOk result (λ t. t.level ≤ regs.now.ll) }
    ensures frame { IfOk result (λ t. display_at regs.now t.level ≡ Some t.frame) }
{
    let (level, segment, place) = three_arguments(core, regs)?;
    target_of(regs, level, segment, place)
}

// Tests that a frame above the target is the critical place of a live process; above one in another stack none is.
fn leaves_critical<C: Core>(
    core: &C,
    states: &[ProcessState],
    all: &[Registers],
    regs: &Registers,
    target: &Target,
) -> Result<bool, Stop>
    requires { regs.now.ll < levels }
    ensures { result ≡ looked (look_seen (C.Core.stacks core.now) (leaves_critical (live_criticals states.now all.now) regs.now target.now.frame)) }
{
    if target.frame.stack != regs.stack {
        return Ok(false);
    }
    passes_critical(
        core,
        states,
        all,
        frame_of(regs),
        regs.cells,
        target.frame.at,
    )
}

// The display of the target.
fn display_of<C: Core>(core: &C, target: &Target) -> Result<Display, Stop>
    requires { target.now.level < levels }
    ensures { result ≡ looked (look_seen (C.Core.stacks core.now) (rebuilt target.now.frame target.now.level)) }
{
    match rebuild(core, target.frame, target.level) {
        Ok(display) => Ok(display),
        Err(_) => Err(broken()),
    }
}

// Tests that nothing on the way to the target stops GOTO.
fn may_go<C: Core>(
    core: &C,
    states: &[ProcessState],
    all: &[Registers],
    regs: &Registers,
    target: &Target,
) -> Result<(), Stop>
    requires linked { IsLinked (C.Core.stacks core.now) (C.Core.rows core.now) regs.now }
    requires high { target.now.level ≤ regs.now.ll }
    ensures routes { (img : Image) → img.stacks ≡ C.Core.stacks core.now → img.states ≡ states.now → img.regs ≡ all.now → Routes regs.now (tabled target.now) img result }
    ensures clear { OnOk result (IsClear (C.Core.stacks core.now) regs.now target.now) }
    ensures own { OnOk result (target.now.frame.stack ≡ regs.now.stack) }
{
    let critical = leaves_critical(core, states, all, regs, target)?;
    display_of(core, target)?;
    if target.frame.stack != regs.stack {
        return Err(Stop::Fault(FaultKind::BadGoTo));
    }
    if critical {
        return Err(Stop::Fault(FaultKind::CriticalBlockExit));
    }
    Ok(())
}

// All frames above the target are left, with their rows, their events and their words, and the process is in it.
fn leave_above<C: Core>(core: &mut C, kernel: &mut Kernel, regs: &mut Registers, target: &Target)
    requires linked { IsLinked (C.Core.stacks core.old) (C.Core.rows core.old) regs.old }
    requires low { 2 ≤ target.now.level }
    requires high { target.now.level ≤ regs.old.ll }
    requires frame { display_at regs.old target.now.level ≡ Some target.now.frame }
    requires own { target.now.frame.stack ≡ regs.old.stack }
    requires clear { IsClear (C.Core.stacks core.old) regs.old target.now }
    ensures changes { (c : Cutting) → look_seen (C.Core.stacks core.old) (cutting regs.old target.now.frame target.now.level) ≡ Ok c → (p : ℕ) (img : Image) → img.stacks ≡ C.Core.stacks core.old → img.rows ≡ C.Core.rows core.old → img.events ≡ kernel.old.events → changed p (gone_to regs.old (tabled target.now) c.passing c.display (words_of (C.Core.stacks core.old) regs.old.stack)) img ≡ with_events (with_own (own_of_image (C.Core.stacks core.new) (C.Core.rows core.new) regs.new) p img) kernel.new.events }
    ensures lists { kernel.new.lists ≡ kernel.old.lists }
    ensures room { regs.new.s ≤ stack_limit }
    ensures processes { kernel.new.room ≡ kernel.old.room }
{
    close_events(core, kernel, frame_of(regs), regs.cells, target.frame.at);
    cut_to(core, regs, target.level).unwrap();
    regs.segment = target.segment;
    regs.place = target.pointer;
}

/// GOTO: all frames above the one that the display names at a level are left, their rows and their events closed; S is
/// the end of its cells, and the pointer is as given. BadGoTo comes exactly where the frame lies in another stack, else
/// CriticalBlockExit exactly where a frame above it is the critical place of a live process; interrupts come before both.
pub fn go_to<C: Core>(
    core: &mut C,
    kernel: &mut Kernel,
    parts: &mut Parts,
    process: u32,
) -> Result<(), Stop>
    requires { IsCalling (C.Core.stacks core.old) (C.Core.rows core.old) (numbered parts.old.regs.items process) }
    ensures acts { (next : ℕ) (mark : Mscw) → ProgramActs process (called_in go_to parts.old.code (numbered parts.old.regs.items process) next mark) (image_of (C.Core.stacks core.old) (C.Core.rows core.old) kernel.old parts.old) (image_of (C.Core.stacks core.new) (C.Core.rows core.new) kernel.new parts.new) result }
    ensures processes { kernel.new.room ≡ kernel.old.room }
    ensures code { parts.new.code ≡ parts.old.code }
    ensures woken { parts.new.woken ≡ parts.old.woken }
{
    let regs = registers(&parts.regs, process);
    let target = find_target(core, regs)?;
    may_go(core, &parts.states, &parts.regs, regs, &target)?;
    let regs = &mut parts.regs[process as usize - 1];
    leave_above(core, kernel, regs, &target);
    Ok(())
}
