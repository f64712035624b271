//! One step of a process.

ghost use Rattle.std.specs.Prelude.{◌≡◌, ◌&&◌, not, false, IfOk, OnErr};
ghost use Rattle.algol_meaning.specs.World as plain;
ghost use Rattle.algol_meaning.specs.Choice.{choice};
ghost use Rattle.algol_cells.specs.SeenScope.{scoped};
ghost use Rattle.algol_world.specs.SeenWorld.{world_of, process_of};
ghost use Rattle.algol_world.specs.SeenActed.{acted_choice};
ghost use Rattle.algol_run.specs.Stepping.{told_step, step_of, is_going, is_over};

use crate::ending::{has_end, is_able, is_finished};
use algol_perform::{part_under, perform};
use algol_step::decide_part;
use algol_world::{Acted, World};
use b67_deeds::Letter;
use b67_list::discard;
use std::alloc::{AllocError, Global};

/// What came of a step.
#[derive(Drop)]
pub enum Stepped {
    /// The process went: its action, the processes that it released and the one that it started.
    Went(Acted),
    /// The process is not able, or there is none of its number, or the world had an end.
    NotAble,
    /// The process went, and the world has an end.
    Ended(Acted),
}

/// Tests that a process goes: it is able, process 1 lives and no fault is kept.
fn goes(world: &World<'_>, process: usize) -> bool
    ensures { result ≡ (plain.is_able (process_of world.now process).state && not (is_over (world_of world.now))) }
{
    is_able(world, process) && !is_finished(world)
}

/// The action of a process that is able.
#[tactic(auto, using(crate::proofs::Steps::act_laws))]
fn act<'p>(world: &mut World<'p>, alloc: Global, process: usize) -> Result<Acted, AllocError>
    requires able { (process_of world.old process).state ≡ plain.able }
    ensures acted { IfOk result (λ a. acted_choice a (world_of world.new) ≡ choice (scoped world.old.scopes) (world_of world.old) process) }
    ensures same { world.new.scopes ≡ world.old.scopes }
{
    let effect = match part_under(world, process, 0) {
        None => return Ok(Acted::alone(alloc, Letter::Fault)),
        Some(part) => decide_part(world, alloc, process, part)?,
    };
    perform(world, alloc, process, effect)
}

/// One step of a process, after which nothing is said of the world where memory lacks. It costs what its action costs; only where the
/// process waits after it, or has ended, each process is looked at.
#[tactic(auto, using(crate::proofs::Steps::step_laws))]
pub fn step_in_place<'p>(
    world: &mut World<'p>,
    alloc: Global,
    process: usize,
) -> Result<Stepped, AllocError>
    ensures stepped { IfOk result (λ s. told_step s (world_of world.new) ≡ step_of (scoped world.old.scopes) (world_of world.old) process) }
    ensures still { IfOk result (λ s. is_going s ≡ false → world.new ≡ world.old) }
    ensures same { world.new.scopes ≡ world.old.scopes }
{
    if !goes(world, process) {
        return Ok(Stepped::NotAble);
    }
    let acted = act(world, alloc, process)?;
    if has_end(world, process) {
        Ok(Stepped::Ended(acted))
    } else {
        Ok(Stepped::Went(acted))
    }
}

/// One step of a process. What of the world it may change is kept before it, which costs as much as the world is large; [`follow`] keeps it
/// once for a whole schedule.
///
/// [`follow`]: crate::follow
///
/// # Errors
///
/// Want of memory; then the world is as it was.
pub fn step<'p>(world: &mut World<'p>, alloc: Global, process: usize) -> Result<Stepped, AllocError>
    ensures stepped { IfOk result (λ s. told_step s (world_of world.new) ≡ step_of (scoped world.old.scopes) (world_of world.old) process) }
    ensures still { IfOk result (λ s. is_going s ≡ false → world.new ≡ world.old) }
    ensures same { world.new.scopes ≡ world.old.scopes }
    ensures before { OnErr result (world_of world.new ≡ world_of world.old) }
{
    let saved = world.save(alloc)?;
    match step_in_place(world, alloc, process) {
        Ok(stepped) => {
            discard(saved);
            Ok(stepped)
        }
        Err(lack) => {
            saved.put_back(world);
            Err(lack)
        }
    }
}
