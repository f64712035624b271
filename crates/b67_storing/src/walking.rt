//! A walk over a schedule that notes which entries store under names for which commands look.

ghost use Rattle.std.specs.Prelude.{◌≡◌, ◌+◌, ◌-◌, ◌<◌, ◌^◌, ℕ, List, ◌∷◌, [], ◌++◌, length, replicate, Some, IfOk, OnOk};
ghost use Rattle.algol_cells.specs.SeenScope.{scoped};
ghost use Rattle.algol_world.specs.SeenWorld.{world_of};
ghost use Rattle.algol_meaning.specs.World as plain;
ghost use Rattle.algol_meaning.specs.Run.{run_from};
ghost use Rattle.algol_seen.specs.Seen.{access};
ghost use Rattle.b67_schedule.specs.Schedules.{entries};
ghost use Rattle.b67_commands.specs.Noting.{looked_for_by, note_added};
ghost use Rattle.b67_storing.specs.Stores.{stored_name};
ghost use Rattle.b67_storing.specs.Walking.{StandsNoted};

use algol_lean::step_seen_lean;
use algol_seen::Access;
use algol_world::World;
use b67_commands::{Command, Note, looked_for};
use b67_list::discard;
use b67_schedule::Run;
use std::alloc::{AllocError, Global};

/// Notes what the entry of this number stores, if some command looks for that.
fn note_store(
    notes: &mut Vec<Note>,
    commands: &[Command],
    number: u64,
    found: Option<Access<'_>>,
) -> Result<(), AllocError>
    ensures { OnOk result (notes.new.items ≡ notes.old.items ++ note_added number (looked_for_by commands.now (stored_name (access found.entry))) []) }
{
    let Some(a) = found else {
        return Ok(());
    };
    if !a.storing {
        return Ok(());
    }
    if let Some(place) = looked_for(commands, a.cell.name.bytes()) {
        notes.push(Note {
            entry: number,
            name: place as u64,
        })?;
    }
    Ok(())
}

/// Makes an entry of a process, after so many others, and notes what it stores. Instances that are left give back their arrays.
fn go<'p>(
    world: &mut World<'p>,
    notes: &mut Vec<Note>,
    alloc: Global,
    commands: &[Command],
    process: usize,
    before: u64,
) -> Result<(), AllocError>
    requires few { before < 2 ^ 64 - 1 }
    ensures goes { OnOk result ((w after : plain.World) (given left : List ℕ) → run_from (scoped world.old.scopes) given (Some w) ≡ Some after
        → StandsNoted (scoped world.old.scopes) commands.now w given (world_of world.old) notes.old.items before (process ∷ left)
        → StandsNoted (scoped world.old.scopes) commands.now w given (world_of world.new) notes.new.items (before + 1) left) }
    ensures same { world.new.scopes ≡ world.old.scopes }
{
    match step_seen_lean(world, alloc, process)? {
        None => Ok(()),
        Some(seen) => {
            let noted = note_store(notes, commands, before + 1, seen.access);
            discard(seen);
            noted?;
            Ok(())
        }
    }
}

/// Makes the entries of a run, after so many others, and notes what they store.
fn go_run<'p>(
    world: &mut World<'p>,
    notes: &mut Vec<Note>,
    alloc: Global,
    commands: &[Command],
    run: &Run,
    before: u64,
) -> Result<(), AllocError>
    requires few { before + run.now.times < 2 ^ 64 - 1 }
    ensures goes { OnOk result ((w after : plain.World) (given left : List ℕ) → run_from (scoped world.old.scopes) given (Some w) ≡ Some after
        → StandsNoted (scoped world.old.scopes) commands.now w given (world_of world.old) notes.old.items before (replicate run.now.times run.now.process ++ left)
        → StandsNoted (scoped world.old.scopes) commands.now w given (world_of world.new) notes.new.items (before + run.now.times) left) }
    ensures same { world.new.scopes ≡ world.old.scopes }
{
    let mut made: u32 = 0;
    'going: while made < run.times {
        go(
            world,
            notes,
            alloc,
            commands,
            run.process as usize,
            before + u64::from(made),
        )?;
        made += 1;
    }
    Ok(())
}

/// Makes the entries of a schedule that is legal, and notes what they store: how many there are.
pub fn note_all<'p>(
    world: &mut World<'p>,
    notes: &mut Vec<Note>,
    alloc: Global,
    commands: &[Command],
    runs: &[Run],
) -> Result<u64, AllocError>
    requires few { length (entries runs.now) < 2 ^ 64 - 1 }
    ensures goes { IfOk result (λ all. (w after : plain.World) (given : List ℕ) → run_from (scoped world.old.scopes) given (Some w) ≡ Some after
        → StandsNoted (scoped world.old.scopes) commands.now w given (world_of world.old) notes.old.items 0 (entries runs.now)
        → StandsNoted (scoped world.old.scopes) commands.now w given (world_of world.new) notes.new.items all []) }
{
    let mut before = 0;
    'runs: for run in runs {
        go_run(world, notes, alloc, commands, run, before)?;
        before += u64::from(run.times);
    }
    Ok(before)
}
