//! Which entries of a machine are local.
ghost use Rattle.std.specs.Prelude.{◌≡◌, ◌⊎◌, ◌≤◌, All, length, true, IfOk};
ghost use Rattle.b67_ops.specs.declared.TheConstants.{MOST_LEVEL};
ghost use Rattle.b67_segment.specs.declared.TheConstants.{MOST_SEGMENT_WORDS};
ghost use Rattle.b67_table.specs.Ending.{may_act};
ghost use Rattle.b67_table.specs.Valid.{IsValid};
ghost use Rattle.b67_settling.specs.Local.{Turns};
ghost use Rattle.b67_explorer.specs.Cells.{AccessesOwn, IsLocalThere};

use crate::cells::accesses_own;
use b67_again::Again;
use b67_load::first_registers;
use b67_machine::Machine;
use b67_ops::{BranchKind, Operator};
use b67_private::burst;
use b67_segment::{Code, Pointer, fetch};
use b67_store::Words;
use b67_table::Private;
use std::alloc::{AllocError, Global};

/// A private part, to be written over.
pub fn any_part(alloc: Global) -> Result<Private, AllocError> {
    let words = Words::new(alloc)?;
    Ok(Private {
        regs: first_registers(),
        words,
    })
}

// Tests that the next operator of a part is a branch that always goes, and not forward.
fn turns(code: &Code, part: &Private) -> bool
    requires level { part.now.regs.ll ≤ MOST_LEVEL }
    requires segments { All (λ segment. length segment.words ≤ MOST_SEGMENT_WORDS) code.now.segments }
    ensures { result ≡ true → Turns code.now part.now }
{
    let at = Pointer {
        segment: part.regs.segment,
        place: part.regs.place,
    };
    match fetch(code, at, part.regs.ll) {
        Ok((Operator::Branch(BranchKind::Brun, target), _)) => target <= at.place,
        _ => false,
    }
}

// Tests that the next operator of a private part of a process is local.
fn is_own_next<C: Again>(machine: &Machine<C>, part: &Private, process: u32) -> bool
    requires valid { IsValid machine.now.code machine.now.image }
    requires level { part.now.regs.ll ≤ MOST_LEVEL }
    ensures { result ≡ true → Turns machine.now.code part.now ⊎ AccessesOwn machine.now.code machine.now.image process part.now }
{
    turns(machine.code(), part) || accesses_own(machine, part, process)
}

/// Tests that the next entry of a process that may act is local: its plain operators lead to a branch that does not go forward, or to a cell of its own
/// stack, on which nobody depends. They are performed on a copy of its private part.
pub fn is_own<C: Again>(machine: &Machine<C>, part: &mut Private, process: u32) -> bool
    requires may { may_act machine.now.image process ≡ true }
    requires valid { IsValid machine.now.code machine.now.image }
    ensures { result ≡ true → IsLocalThere machine.now.code machine.now.image process }
{
    machine.copy_private(process, part);
    let _plain = burst(part, machine.code(), None, u32::MAX);
    is_own_next(machine, part, process)
}
