//! The end of a run.

ghost use Rattle.std.specs.Prelude.{◌≡◌};
ghost use Rattle.algol_meaning.specs.World as plain;
ghost use Rattle.algol_meaning.specs.Run as runs;
ghost use Rattle.algol_world.specs.SeenWorld.{world_of, process_of, state};
ghost use Rattle.algol_run.specs.SeenEnd.{seen_end};
ghost use Rattle.algol_run.specs.Stepping.{is_kept, is_over};

use algol_world::{Process, State, World};
use b67_num::FaultKind;

/// How a run ends.
#[derive(Clone, Copy)]
pub enum End {
    /// Process 1 has ended.
    Finished,
    /// A fault, and the process in which it came.
    Fault(FaultKind, usize),
    /// Some process lives, and none is able.
    AllWaiting,
}

/// Tests that a process can go on.
fn can_go(q: &Process<'_>) -> bool
    ensures { result ≡ plain.is_able (state q.now.state) }
{
    match q.state {
        State::Able => true,
        State::WaitsFor(_) => false,
        State::WaitsAny(_) => false,
        State::Procures(_) => false,
        State::Ended => false,
    }
}

/// Tests that a process has not ended.
fn is_alive(q: &Process<'_>) -> bool
    ensures { result ≡ plain.lives (state q.now.state) }
{
    match q.state {
        State::Able => true,
        State::WaitsFor(_) => true,
        State::WaitsAny(_) => true,
        State::Procures(_) => true,
        State::Ended => false,
    }
}

/// Tests that the process of that number is able; where there is none, it is not.
pub fn is_able(world: &World<'_>, process: usize) -> bool
    ensures { result ≡ plain.is_able (process_of world.now process).state }
{
    match world.process(process) {
        None => false,
        Some(q) => can_go(q),
    }
}

/// Tests that the process of that number lives; where there is none, it does not.
fn lives(world: &World<'_>, process: usize) -> bool
    ensures { result ≡ plain.lives (process_of world.now process).state }
{
    match world.process(process) {
        None => false,
        Some(q) => is_alive(q),
    }
}

/// Tests that process 1 has ended or a fault is kept.
pub fn is_finished(world: &World<'_>) -> bool
    ensures { result ≡ is_over (world_of world.now) }
{
    !lives(world, 1) || world.fault.is_some()
}

/// Tests that some process is able.
fn some_able(world: &World<'_>) -> bool
    ensures { result ≡ runs.some_able ((world_of world.now).processes) }
{
    'asking: for q in world.processes.items() {
        if can_go(q) {
            return true;
        }
    }
    false
}

/// Tests that some process lives.
fn some_lives(world: &World<'_>) -> bool
    ensures { result ≡ runs.some_lives ((world_of world.now).processes) }
{
    'asking: for q in world.processes.items() {
        if is_alive(q) {
            return true;
        }
    }
    false
}

/// Tests that a world has an end, beside a process of it: only where that is not able, each process is looked at.
#[tactic(auto, using(crate::proofs::Steps::end_laws))]
pub fn has_end(world: &World<'_>, process: usize) -> bool
    ensures { result ≡ is_kept (runs.end_of (world_of world.now)) }
{
    if is_finished(world) {
        return true;
    }
    if is_able(world, process) {
        return false;
    }
    some_lives(world) && !some_able(world)
}

/// The end of a world, none where it has not ended. It looks at each process.
#[tactic(auto, unfolding(algol_meaning::specs::Run::end_of))]
pub fn end_of(world: &World<'_>) -> Option<End>
    ensures { seen_end result ≡ runs.end_of (world_of world.now) }
{
    if !lives(world, 1) {
        return Some(End::Finished);
    }
    match world.fault {
        Some(f) => Some(End::Fault(f.kind, f.process)),
        None => {
            if some_lives(world) && !some_able(world) {
                Some(End::AllWaiting)
            } else {
                None
            }
        }
    }
}
