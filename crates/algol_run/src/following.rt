//! A run under a schedule.

ghost use Rattle.std.specs.Prelude.{◌≡◌, ◌+◌, ◌<◌, ◌≤◌, length, take, Some, None, IfOk, OnErr};
ghost use Rattle.algol_meaning.specs.Run.{run_from};
ghost use Rattle.algol_cells.specs.SeenScope.{scoped};
ghost use Rattle.algol_world.specs.SeenWorld.{world_of};

use crate::stepping::{Stepped, step_in_place};
use algol_world::World;
use b67_list::discard;
use std::alloc::{AllocError, Global};

/// Goes by a schedule as far as it is legal: how many of its entries went. Where memory lacks, nothing is said of the world.
fn follow_in_place<'p>(
    world: &mut World<'p>,
    alloc: Global,
    schedule: &[usize],
) -> Result<usize, AllocError>
    ensures went { IfOk result (λ n. run_from (scoped world.old.scopes) (take n schedule.now) (Some (world_of world.old)) ≡ Some (world_of world.new)) }
    ensures within { IfOk result (λ n. n ≤ length schedule.now) }
    ensures most { IfOk result (λ n. n < length schedule.now → run_from (scoped world.old.scopes) (take (n + 1) schedule.now) (Some (world_of world.old)) ≡ None) }
    ensures same { world.new.scopes ≡ world.old.scopes }
{
    let mut went = 0;
    'going: for process in schedule {
        match step_in_place(world, alloc, *process)? {
            Stepped::Went(_) | Stepped::Ended(_) => went += 1,
            Stepped::NotAble => return Ok(went),
        }
    }
    Ok(went)
}

/// Goes by a schedule as far as it is legal: how many of its entries went. What of the world they may change is kept once before them.
///
/// # Errors
///
/// Want of memory; then the world is as it was.
pub fn follow<'p>(
    world: &mut World<'p>,
    alloc: Global,
    schedule: &[usize],
) -> Result<usize, AllocError>
    ensures went { IfOk result (λ n. run_from (scoped world.old.scopes) (take n schedule.now) (Some (world_of world.old)) ≡ Some (world_of world.new)) }
    ensures within { IfOk result (λ n. n ≤ length schedule.now) }
    ensures most { IfOk result (λ n. n < length schedule.now → run_from (scoped world.old.scopes) (take (n + 1) schedule.now) (Some (world_of world.old)) ≡ None) }
    ensures same { world.new.scopes ≡ world.old.scopes }
    ensures before { OnErr result (world_of world.new ≡ world_of world.old) }
{
    let saved = world.save(alloc)?;
    match follow_in_place(world, alloc, schedule) {
        Ok(went) => {
            discard(saved);
            Ok(went)
        }
        Err(lack) => {
            saved.put_back(world);
            Err(lack)
        }
    }
}
