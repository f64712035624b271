//! EVENT: makes an event.

ghost use Rattle.std.specs.Prelude.{◌≡◌, ◌≤◌, OnOk, OnErr, vec_capacity};
ghost use Rattle.b67_list.specs.Numbered.{numbered};
ghost use Rattle.b67_table.specs.Image.{Image};
ghost use Rattle.b67_table.specs.Intrinsics.{make_event};
ghost use Rattle.b67_reach.specs.Images.{image_of};
ghost use Rattle.b67_intrinsics.specs.Called.{IsCalled, IsChained, called_in, IntrinsicLeads, mark_tests_in, Tries};

use crate::finding::find_mark;
use crate::happening::{end_with, registers};
use crate::hindrance::Hindrance;
use b67_control::{EventWord, Mscw};
use b67_events::Kernel;
use b67_reach::{Parts, Registers, Stop};
use b67_store::Core;
use b67_word::Place;

// The place of the mark at F of a process, where an event is made.
fn find<C: Core>(core: &C, all: &Vec<Registers>, process: u32, mark: &Mscw) -> Result<Place, Stop>
    requires { IsCalled (C.Core.stacks core.now) (numbered all.now.items process) }
    ensures leads { (img : Image) → img.stacks ≡ C.Core.stacks core.now → IntrinsicLeads img (mark_tests_in (numbered all.now.items process) mark.now img.stacks) result }
    ensures within { OnOk result (IsChained mark.now (numbered all.now.items process)) }
{
    find_mark(core, registers(all, process), mark)
}

/// EVENT: a fresh event is opened at the place of the mark, in place of one that is open there, and an event word takes the
/// place of the mark. Without memory all is as it was.
pub fn make_event<C: Core>(
    core: &mut C,
    kernel: &mut Kernel,
    parts: &mut Parts,
    process: u32,
    mark: &Mscw,
    next: u16,
) -> Result<(), Hindrance>
    requires { IsCalled (C.Core.stacks core.old) (numbered parts.old.regs.items process) }
    ensures acts { Tries process (called_in make_event parts.old.code (numbered parts.old.regs.items process) next mark.now) (image_of (C.Core.stacks core.old) (C.Core.rows core.old) kernel.old parts.old) (image_of (C.Core.stacks core.new) (C.Core.rows core.new) kernel.new parts.new) result }
    ensures stays { OnErr result (image_of (C.Core.stacks core.new) (C.Core.rows core.new) kernel.new parts.new ≡ image_of (C.Core.stacks core.old) (C.Core.rows core.old) kernel.old parts.old) }
    ensures processes { kernel.new.room ≡ kernel.old.room }
    ensures code { parts.new.code ≡ parts.old.code }
    ensures woken { parts.new.woken ≡ parts.old.woken }
{
    let place = find(core, &parts.regs, process, mark)?;
    match kernel.open_event(place) {
        Ok(()) => {}
        Err(_) => return Err(Hindrance::NoMemory),
    }
    end_with(core, &mut parts.regs, process, mark, EventWord.pack(), next);
    Ok(())
}
