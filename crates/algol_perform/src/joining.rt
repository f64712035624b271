//! The performing of an effect, whatever it is.

ghost use Rattle.std.specs.Prelude.{◌≡◌, false, IfOk};
ghost use Rattle.algol_meaning.specs.World as plain;
ghost use Rattle.algol_cells.specs.SeenScope.{scoped};
ghost use Rattle.algol_world.specs.SeenWorld.{world_of, process_of};
ghost use Rattle.algol_world.specs.SeenActed.{acted_choice};
ghost use Rattle.algol_world.specs.Leaving.{is_nil};
ghost use Rattle.algol_perform.specs.Performing.{performed};

use crate::going::{perform_event, perform_go_to};
use crate::making::{perform_block, perform_enter};
use crate::performing::{
    perform_act, perform_arrays, perform_evaluation, perform_fault, perform_fix, perform_goes,
    perform_leaving, perform_line, perform_store, perform_store_element, perform_wait,
    perform_waking,
};
use crate::starting::perform_start;
use algol_effect::Effect;
use algol_world::{Acted, World};
use b67_deeds::Letter;
use std::alloc::{AllocError, Global};

/// Performs what the innermost part of a process does to the world: what was done, with the processes that it released in
/// their order and the one that it started. The process is able and has a part.
///
/// # Errors
///
/// Want of memory; then nothing is said of the world.
#[tactic(auto, using(crate::proofs::Joins::join_laws))]
pub fn perform<'p>(
    world: &mut World<'p>,
    alloc: Global,
    process: usize,
    effect: Effect<'p>,
) -> Result<Acted, AllocError>
    requires able { (process_of world.old process).state ≡ plain.able }
    requires acts { is_nil ((process_of world.old process).todo) ≡ false }
    ensures performed { IfOk result (λ a. acted_choice a (world_of world.new) ≡ performed (scoped world.old.scopes) (world_of world.old) process effect.entry) }
    ensures same { world.new.scopes ≡ world.old.scopes }
{
    match effect {
        Effect::Nothing => Ok(Acted::alone(alloc, Letter::Fault)),
        Effect::Goes(action, answer) => perform_goes(world, alloc, process, action, answer),
        Effect::Stores(r, v) => perform_store(world, alloc, process, r, v),
        Effect::StoresElement(r, subscripts, v) => {
            perform_store_element(world, alloc, process, r, subscripts, v)
        }
        Effect::Evaluates(inner) => perform_evaluation(world, alloc, process, inner),
        Effect::EntersProcedure(block, parent, given) => {
            perform_enter(world, alloc, process, block, parent, given)
        }
        Effect::EntersBlock(block) => perform_block(world, alloc, process, block),
        Effect::Leaves(answer) => perform_leaving(world, alloc, process, answer),
        Effect::GoesTo(n, instance) => perform_go_to(world, alloc, process, n, instance),
        Effect::Starts(block, parent, given, task) => {
            perform_start(world, alloc, process, block, parent, given, task)
        }
        Effect::Acts(act, r) => perform_act(world, alloc, process, act, r),
        Effect::Fixes(r) => perform_fix(world, alloc, process, r),
        Effect::Waits(rs) => perform_wait(world, alloc, process, rs),
        Effect::Wakes(v) => perform_waking(world, alloc, process, v),
        Effect::Writes(line) => perform_line(world, alloc, process, line),
        Effect::MakesArrays(cells) => perform_arrays(world, alloc, process, cells),
        Effect::MakesEvent(n) => perform_event(world, alloc, process, n),
        Effect::Fails(kind) => Ok(perform_fault(world, alloc, process, kind)),
    }
}
