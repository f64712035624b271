//! The end that a report prints, beside that of a world.

ghost use Rattle.std.specs.Prelude.{◌≡◌, ◌↔◌, IsTrue, Some};
ghost use Rattle.algol_meaning.specs.Run as runs;
ghost use Rattle.algol_world.specs.SeenWorld.{world_of};
ghost use Rattle.algol_run.specs.SeenEnd.{seen_end};
ghost use Rattle.b67_judge.specs.Judging.{EndFits};

use algol_run::{End, end_of};
use algol_world::World;
use b67_num::FaultKind;
use b67_report::EndWords;

/// Tests that a world's end is that fault.
fn is_fault(end: Option<End>, kind: FaultKind, process: u32) -> bool
    ensures { IsTrue result ↔ (seen_end end ≡ Some (runs.fault kind process)) }
{
    match end {
        Some(End::Fault(found, at)) => found == kind && at == process as usize,
        _ => false,
    }
}

/// Tests that a printed end fits a world after so many entries.
pub fn end_fits(world: &World<'_>, performed: u64, end: EndWords) -> bool
    ensures { IsTrue result ↔ EndFits (world_of world.now) performed end }
{
    let found = end_of(world);
    match end {
        EndWords::Finished => matches!(found, Some(End::Finished)),
        EndWords::Fault { kind, process } => is_fault(found, kind, process),
        EndWords::AllWaiting => matches!(found, Some(End::AllWaiting)),
        EndWords::BudgetSpent | EndWords::StackLimit { .. } | EndWords::ScheduleEnded => {
            found.is_none()
        }
        EndWords::Illegal { entry } => entry.checked_sub(1) == Some(performed),
        EndWords::Differs { entry } => entry == performed,
    }
}
