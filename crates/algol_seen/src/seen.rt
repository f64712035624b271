//! Steps that tell what they do with cells and events.

ghost use Rattle.std.specs.Prelude.{◌≡◌, IfOk};
ghost use Rattle.algol_cells.specs.SeenScope.{scoped};
ghost use Rattle.algol_world.specs.SeenWorld as views;
ghost use Rattle.algol_world.specs.SeenWorld.{world_of, process_of};
ghost use Rattle.algol_seen.specs.Accesses as accesses;
ghost use Rattle.algol_seen.specs.Seen as told;
ghost use Rattle.algol_seen.specs.Seen.{SeenStep};

use crate::access::access_of;
use crate::names::{Access, Signal};
use crate::signal::{acting_of, signal_after};
use algol_cells::Reference;
use algol_perform::part_under;
use algol_run::{Stepped, step_in_place};
use algol_tree::List;
use algol_world::{Acted, World};
use b67_deeds::Letter;
use std::alloc::{AllocError, Global};

/// What one action did.
#[derive(Drop)]
pub struct Seen<'p> {
    /// Whether the world has an end now.
    pub ended: bool,
    pub letter: Letter,
    pub access: Option<Access<'p>>,
    pub signal: Signal<'p>,
    pub released: List<usize>,
    pub started: Option<usize>,
}

/// The woken number of a process, 0 where there is none.
fn woken_of(world: &World<'_>, process: usize) -> usize
    ensures { result ≡ (process_of world.now process).woken }
{
    match world.process(process) {
        None => 0,
        Some(q) => q.woken,
    }
}

/// What is seen of the next action of a process before it: the cell that it reads or stores, and what a deed does with an event.
fn foreseen<'p>(world: &World<'p>, process: usize) -> (Option<Access<'p>>, Signal<'p>)
    ensures access { told.access result.0 ≡ accesses.access_in (scoped world.now.scopes) (world_of world.now) (process_of world.now process).todo }
    ensures signal { told.signal result.1 ≡ accesses.acting_in (scoped world.now.scopes) (world_of world.now) (process_of world.now process).woken (process_of world.now process).todo }
{
    let woken = woken_of(world, process);
    match part_under(world, process, 0) {
        None => (None, Signal::Nothing),
        Some(part) => (access_of(world, part), acting_of(world, part, woken)),
    }
}

/// The task of a process.
fn task_of<'p>(world: &World<'p>, process: usize) -> Option<Reference<'p>>
    ensures { views.task result ≡ (process_of world.now process).task }
{
    match world.process(process) {
        None => None,
        Some(q) => q.task,
    }
}

/// What is told of an action.
fn told_of<'p>(
    acted: Acted,
    ended: bool,
    access: Option<Access<'p>>,
    task: Option<Reference<'p>>,
    acting: Signal<'p>,
) -> Seen<'p>
    ensures ended { result.ended ≡ ended }
    ensures letter { result.letter ≡ acted.action }
    ensures access { told.access result.access ≡ told.access access.entry }
    ensures signal { told.signal result.signal ≡ accesses.signal_after acted.action (views.task task.entry) (told.signal acting.entry) }
    ensures released { result.released ≡ acted.released }
    ensures started { result.started ≡ acted.started }
{
    let Acted {
        action,
        released,
        started,
    } = acted;
    Seen {
        ended,
        letter: action,
        access,
        signal: signal_after(action, task, acting),
        released,
        started,
    }
}

/// One step of a process that tells what it does; none exactly where the process may not go, and then the world is as it was. Where memory
/// lacks, nothing is said of the world.
pub fn step_seen<'p>(
    world: &mut World<'p>,
    alloc: Global,
    process: usize,
) -> Result<Option<Seen<'p>>, AllocError>
    ensures seen { IfOk result (SeenStep (scoped world.old.scopes) (world_of world.old) process (world_of world.new)) }
    ensures same { world.new.scopes ≡ world.old.scopes }
{
    let (access, acting) = foreseen(world, process);
    let task = task_of(world, process);
    match step_in_place(world, alloc, process)? {
        Stepped::NotAble => Ok(None),
        Stepped::Went(acted) => Ok(Some(told_of(acted, false, access, task, acting))),
        Stepped::Ended(acted) => Ok(Some(told_of(acted, true, access, task, acting))),
    }
}
