//! The world of the source goes on by entries of a process.

ghost use Rattle.std.specs.Prelude.{◌≡◌, ℕ, List, ◌++◌, replicate, Some, OnOk};
ghost use Rattle.algol_cells.specs.SeenScope.{scoped};
ghost use Rattle.algol_world.specs.SeenWorld.{world_of};
ghost use Rattle.algol_meaning.specs.World as plain;
ghost use Rattle.algol_meaning.specs.Run.{run_from, start};
ghost use Rattle.b67_console.specs.Moments.{WorldAfter};

use algol_world::World;
use b67_judge::go_on;
use std::alloc::{AllocError, Global};

/// Makes so many entries of a process in the world of the source, where they are legal.
pub(crate) fn go_world<'p>(
    world: &mut World<'p>,
    alloc: Global,
    process: u32,
    times: u32,
) -> Result<(), AllocError>
    ensures goes { OnOk result ((done more : List ℕ) (after : plain.World)
        → run_from (scoped world.old.scopes) (done ++ (replicate times process ++ more)) (Some (start (scoped world.old.scopes))) ≡ Some after
        → WorldAfter (scoped world.old.scopes) done (world_of world.old) → WorldAfter (scoped world.old.scopes) (done ++ replicate times process) (world_of world.new)) }
    ensures same { world.new.scopes ≡ world.old.scopes }
{
    let _went = go_on(world, alloc, process as usize, times)?;
    Ok(())
}
