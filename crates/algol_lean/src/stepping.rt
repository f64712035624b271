//! Steps after which the instances that they left have given back their arrays.

ghost use Rattle.std.specs.Prelude.{◌≡◌, ◌∷◌, IfOk};
ghost use Rattle.algol_meaning.specs.World as plain;
ghost use Rattle.algol_cells.specs.SeenScope.{scoped};
ghost use Rattle.algol_world.specs.SeenWorld.{world_of, process_of};
ghost use Rattle.algol_perform.specs.Going.{owned};
ghost use Rattle.algol_lean.specs.Shed.{all_shed, leaving_in, StepsShedding, SeenShedding};
ghost use Rattle.algol_lean.specs.Beside.{RunsBeside, StepsBeside, SeenBeside};

use crate::leaving::{innermost, passed};
use crate::shedding::{shed, shed_all};
use algol_run::{Stepped, step_in_place};
use algol_seen::{Seen, step_seen};
use algol_tree::List;
use algol_world::World;
use std::alloc::{AllocError, Global};

/// The instances that an action may leave, if they are left, give back their arrays.
fn shed_left<'p>(world: &mut World<'p>, top: usize, passed: &List<Option<usize>>)
    ensures shed { world_of world.new ≡ all_shed (world_of world.old) (top ∷ owned passed.now) }
    ensures same { world.new.scopes ≡ world.old.scopes }
{
    shed(world, top);
    shed_all(world, passed.items());
}

/// One step of a process, after which the instances that it left have given back their arrays. Beside a world of the meaning it is a step of that;
/// where memory lacks, nothing is said of the world. It costs what its action costs, and what is given back.
pub fn step_lean<'p>(
    world: &mut World<'p>,
    alloc: Global,
    process: usize,
) -> Result<Stepped, AllocError>
    ensures shed { IfOk result (StepsShedding (scoped world.old.scopes) (world_of world.old) process (world_of world.new)) }
    ensures beside { IfOk result (λ s. (w : plain.World) → RunsBeside (scoped world.old.scopes) w (world_of world.old)
        → StepsBeside (scoped world.old.scopes) w process (world_of world.new) s) }
    ensures same { world.new.scopes ≡ world.old.scopes }
{
    let top = innermost(world, process);
    let passed = passed(world, alloc, process)?;
    let stepped = step_in_place(world, alloc, process);
    shed_left(world, top, &passed);
    stepped
}

/// The same step, which tells what it does with cells and events; none exactly where the process may not go.
pub fn step_seen_lean<'p>(
    world: &mut World<'p>,
    alloc: Global,
    process: usize,
) -> Result<Option<Seen<'p>>, AllocError>
    ensures shed { IfOk result (SeenShedding (scoped world.old.scopes) (world_of world.old) process (world_of world.new)) }
    ensures beside { IfOk result (λ s. (w : plain.World) → RunsBeside (scoped world.old.scopes) w (world_of world.old)
        → SeenBeside (scoped world.old.scopes) w process (world_of world.new) s) }
    ensures same { world.new.scopes ≡ world.old.scopes }
{
    let top = innermost(world, process);
    let passed = passed(world, alloc, process)?;
    let seen = step_seen(world, alloc, process);
    shed_left(world, top, &passed);
    seen
}
