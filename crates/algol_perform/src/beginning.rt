//! The world in which a run begins.

ghost use Rattle.std.specs.Prelude.{◌≡◌, IfOk};
ghost use Rattle.algol_meaning.specs.Run as run;
ghost use Rattle.algol_cells.specs.SeenScope.{scoped};
ghost use Rattle.algol_world.specs.SeenWorld.{world_of};

use crate::making::{add_instance, add_process, part_in};
use algol_cells::Scopes;
use algol_instances::Instances;
use algol_tree::List;
use algol_world::{Purpose, World};
use std::alloc::{AllocError, Global};

/// The world in which a run of the tree begins whose scopes these are: process 1 only at the head of the outer block,
/// after the silent steps.
///
/// # Errors
///
/// Want of memory.
#[tactic(auto, unfolding(algol_meaning::specs::Run::start))]
pub fn start<'p>(alloc: Global, scopes: Scopes<'p>) -> Result<World<'p>, AllocError>
    ensures begins { IfOk result (λ w. world_of w ≡ run.start (scoped scopes.entry)) }
    ensures same { IfOk result (λ w. w.scopes ≡ scopes.entry) }
{
    let mut world = World {
        scopes,
        instances: Instances::new(alloc),
        processes: List::of(Vec::new(alloc)),
        output: List::of(Vec::new(alloc)),
        fault: None,
    };
    let part = part_in(&world, alloc, 0, Purpose::Block)?;
    add_instance(&mut world, alloc, 0, 0, 1, Vec::new(alloc))?;
    add_process(&mut world, alloc, part, None, None)?;
    Ok(world)
}
