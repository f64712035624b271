//! The start of a process: the instance on whose life it depends, its own first instance, and its part.

ghost use Rattle.std.specs.Prelude.{◌≡◌, [], ◌∷◌, ◌++◌, false, map, IfOk};
ghost use Rattle.algol_meaning.specs.World as plain;
ghost use Rattle.algol_meaning.specs.Critical as critical;
ghost use Rattle.algol_cells.specs.SeenCell as seen;
ghost use Rattle.algol_cells.specs.SeenScope.{scoped};
ghost use Rattle.algol_instances.specs.SeenInstance as shown;
ghost use Rattle.algol_world.specs.SeenWorld as views;
ghost use Rattle.algol_world.specs.SeenWorld.{world_of, process_of};
ghost use Rattle.algol_world.specs.SeenActed.{acted_choice};
ghost use Rattle.algol_world.specs.Leaving.{is_nil};
ghost use Rattle.algol_effect.specs.declared.effect.Effect.TheVariants as effects;
ghost use Rattle.algol_perform.specs.Path as path;
ghost use Rattle.algol_perform.specs.Performing.{performed};

use crate::making::{add_instance, add_process, part_in};
use algol_cells::{Cell, Reference};
use algol_instances::instance_at;
use algol_rest_expr::Answer;
use algol_tree::List;
use algol_world::{Acted, Purpose, World};
use b67_deeds::Letter;
use std::alloc::{AllocError, Global};

/// The instance that a cell refers to, after others.
fn add_referred(wanted: &mut Vec<usize>, cell: &Cell<'_>) -> Result<(), AllocError>
    ensures { IfOk result (λ _. wanted.new.items ≡ wanted.old.items ++ critical.referred_in (seen.cell cell.now)) }
{
    match cell {
        Cell::Named(_, instance) => wanted.push(*instance)?,
        Cell::Reference(r) => wanted.push(r.instance)?,
        Cell::Simple(_) => {}
        Cell::Event(_) => {}
        Cell::Array(_) => {}
    }
    Ok(())
}

/// The instance of a task, after others.
fn add_task(wanted: &mut Vec<usize>, task: Option<Reference<'_>>) -> Result<(), AllocError>
    ensures { IfOk result (λ _. wanted.new.items ≡ wanted.old.items ++ critical.referred_by_task (views.task task.entry)) }
{
    if let Some(r) = task {
        wanted.push(r.instance)?;
    }
    Ok(())
}

/// The instances that a process refers to which is started: the one around it, and those of its parameters and task.
#[tactic(auto, using(crate::proofs::Paths::referring))]
fn referred(
    alloc: Global,
    parent: usize,
    cells: &[Cell<'_>],
    task: Option<Reference<'_>>,
) -> Result<Vec<usize>, AllocError>
    ensures { IfOk result (λ all. all.items ≡ parent ∷ critical.referred_by (map seen.cell cells.now) ++ critical.referred_by_task (views.task task.entry)) }
{
    let mut wanted = Vec::new(alloc);
    wanted.push(parent)?;
    'referring: for cell in cells {
        add_referred(&mut wanted, cell)?;
    }
    add_task(&mut wanted, task)?;
    Ok(wanted)
}

/// Tests that a number is one of these.
fn is_one_of(numbers: &[usize], number: usize) -> bool
    ensures { result ≡ critical.process_is_one_of numbers.now number }
{
    'asking: for n in numbers {
        if *n == number {
            return true;
        }
    }
    false
}

/// Tests that an instance stands in the stack of a process and is not left.
fn is_own(world: &World<'_>, process: usize, number: usize) -> bool
    ensures { result ≡ path.is_own (world_of world.now) process number }
{
    match instance_at(&world.instances, number) {
        None => false,
        Some(instance) => instance.process == process && !instance.left,
    }
}

/// The instance of that number where it is newer than another, older than a third and in the stack of a process, else the
/// other.
fn newer_own(world: &World<'_>, process: usize, newest: usize, below: usize, number: usize) -> usize
    ensures { result ≡ path.newer_own (world_of world.now) process below newest number }
{
    if newest < number && number < below && is_own(world, process, number) {
        number
    } else {
        newest
    }
}

/// The newest of these instances that stands in the stack of a process between two others, the older of the two where none
/// does.
fn newest_own(
    world: &World<'_>,
    process: usize,
    above: usize,
    below: usize,
    wanted: &[usize],
) -> usize
    ensures { result ≡ path.newest_own (world_of world.now) process below above wanted.now }
{
    let mut newest = above;
    'choosing: for number in wanted {
        newest = newer_own(world, process, newest, below, *number);
    }
    newest
}

/// The critical instance of a process where it is older than that one, else 0.
fn critical_below(world: &World<'_>, process: usize, below: usize) -> usize
    ensures { result ≡ path.critical_below (process_of world.now process).critical below }
{
    match world.process(process) {
        None => 0,
        Some(q) => match q.critical {
            Some(instance) if instance < below => instance,
            _ => 0,
        },
    }
}

/// The process in whose stack an instance stands, 0 where there is none.
fn stack_of(world: &World<'_>, number: usize) -> usize
    ensures { result ≡ (plain.instance_at (world_of world.now) number).process }
{
    match instance_at(&world.instances, number) {
        None => 0,
        Some(instance) => instance.process,
    }
}

/// The newest of these instances that lies on the path of a process, 0 where none does. The path leads from stack to
/// stack by critical instances, and in each stack only these instances are looked at.
fn first_on_path(world: &World<'_>, process: usize, wanted: &[usize]) -> usize
    ensures { result ≡ critical.first_on_path (world_of world.now) (critical.newest_first 1 (map shown.instance world.now.instances) []) process wanted.now }
{
    let mut at = process;
    let mut below = world.instances.items().len() + 1;
    'following: while below > 1 {
        let critical = critical_below(world, at, below);
        let newest = newest_own(world, at, critical, below, wanted);
        if newest > critical {
            return newest;
        }
        if is_one_of(wanted, critical) {
            return critical;
        }
        at = stack_of(world, critical);
        below = critical;
    }
    0
}

/// A process is started: its first instance and its part, beside which the innermost part goes on.
pub fn perform_start<'p>(
    world: &mut World<'p>,
    alloc: Global,
    process: usize,
    block: usize,
    parent: usize,
    given: Vec<Cell<'p>>,
    task: Option<Reference<'p>>,
) -> Result<Acted, AllocError>
    requires acts { is_nil ((process_of world.old process).todo) ≡ false }
    ensures performed { IfOk result (λ a. acted_choice a (world_of world.new) ≡ performed (scoped world.old.scopes) (world_of world.old) process (effects.Starts block parent given.entry task.entry)) }
    ensures same { world.new.scopes ≡ world.old.scopes }
{
    let wanted = referred(alloc, parent, &given, task)?;
    let critical = first_on_path(world, process, &wanted);
    let number = world.processes.items().len() + 1;
    let part = part_in(world, alloc, block, Purpose::Started)?;
    add_instance(world, alloc, block, parent, number, given)?;
    add_process(world, alloc, part, Some(critical), task)?;
    world.goes(alloc, process, Answer::Done)?;
    Ok(Acted {
        action: Letter::Start,
        released: List::of(Vec::new(alloc)),
        started: Some(number),
    })
}
