//! A schedule, run by run.

ghost use Rattle.std.specs.Prelude.{◌≡◌, ◌≤◌, IfOk};
ghost use Rattle.algol_meaning.specs.World as plain;
ghost use Rattle.algol_cells.specs.SeenScope.{scoped};
ghost use Rattle.algol_world.specs.SeenWorld.{world_of};
ghost use Rattle.b67_schedule.specs.Schedules.{entries};
ghost use Rattle.algol_lean.specs.Beside.{RunsBeside};
ghost use Rattle.b67_judge.specs.Walked.{GoesAsFar, WalksBeside};

use algol_lean::step_lean;
use algol_run::Stepped;
use algol_world::World;
use b67_schedule::Schedule;
use std::alloc::{AllocError, Global};

/// Makes entries of a process, at most so many, as far as it may go: how many. Instances that are left give back their arrays.
pub fn go_on<'p>(
    world: &mut World<'p>,
    alloc: Global,
    process: usize,
    times: u32,
) -> Result<u32, AllocError>
    ensures went { IfOk result (λ n. (w : plain.World) → RunsBeside (scoped world.old.scopes) w (world_of world.old)
        → GoesAsFar (scoped world.old.scopes) w n times process (world_of world.new)) }
    ensures within { IfOk result (λ n. n ≤ times) }
    ensures same { world.new.scopes ≡ world.old.scopes }
{
    let mut went = 0;
    'going: while went < times {
        match step_lean(world, alloc, process)? {
            Stepped::Went(_) | Stepped::Ended(_) => went += 1,
            Stepped::NotAble => return Ok(went),
        }
    }
    Ok(went)
}

/// Where a walk over a schedule stopped: at the end, or before the entry of this number, from 1, which is the first that may not go.
#[derive(Clone, Copy)]
pub enum Walked {
    Whole,
    Stopped { entry: u64 },
}

/// Makes the entries of a schedule as far as it is legal. Instances that are left give back their arrays.
pub fn walk<'p>(
    world: &mut World<'p>,
    alloc: Global,
    schedule: &Schedule,
) -> Result<Walked, AllocError>
    ensures walked { IfOk result (λ walked. (w : plain.World) → RunsBeside (scoped world.old.scopes) w (world_of world.old)
        → WalksBeside (scoped world.old.scopes) (entries schedule.now.runs) w (world_of world.new) walked) }
    ensures same { world.new.scopes ≡ world.old.scopes }
{
    let _most = schedule.len();
    let mut before: u64 = 0;
    'runs: for run in schedule.runs() {
        let went = go_on(world, alloc, run.process as usize, run.times)?;
        before += u64::from(went);
        if went < run.times {
            return Ok(Walked::Stopped { entry: before + 1 });
        }
    }
    Ok(Walked::Whole)
}
