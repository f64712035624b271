//! The instances of a world, one after another.

ghost use Rattle.std.specs.Prelude.{◌≡◌, IfOk};
ghost use Rattle.algol_cells.specs.SeenScope.{scoped};
ghost use Rattle.algol_world.specs.SeenWorld.{world_of};
ghost use Rattle.b67_dump.specs.Snapshots.{snapshot};

use crate::instances::push_unless_left;
use algol_world::World;
use b67_list::{Line, List};
use std::alloc::{AllocError, Global};

/// What is shown of a world.
pub fn snapshot(alloc: Global, world: &World<'_>) -> Result<List<Line>, AllocError>
    ensures { IfOk result (λ lines. lines ≡ snapshot (scoped world.now.scopes) (world_of world.now)) }
{
    let mut lines = Vec::new(alloc);
    let mut before = 0;
    'instances: for x in world.instances.items() {
        push_unless_left(alloc, &mut lines, &world.scopes, before + 1, x)?;
        before += 1;
    }
    Ok(List::of(lines))
}
