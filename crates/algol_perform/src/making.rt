//! New instances of blocks and new processes, and the entry of procedures.

ghost use Rattle.std.specs.Prelude.{◌≡◌, [], false, map, IfOk};
ghost use Rattle.algol_tree.specs.Blocks as blocks;
ghost use Rattle.algol_meaning.specs.World as plain;
ghost use Rattle.algol_meaning.specs.Instances as instances;
ghost use Rattle.algol_meaning.specs.Statements.{settle_items, items_of};
ghost use Rattle.algol_cells.specs.SeenCell as seen;
ghost use Rattle.algol_rest.specs.SeenRest as seen_rest;
ghost use Rattle.algol_cells.specs.SeenScope.{scoped, block};
ghost use Rattle.algol_instances.specs.SeenInstance as shown;
ghost use Rattle.algol_world.specs.SeenWorld as views;
ghost use Rattle.algol_world.specs.SeenWorld.{world_of, process_of};
ghost use Rattle.algol_world.specs.SeenActed.{acted_choice};
ghost use Rattle.algol_world.specs.Leaving.{is_nil};
ghost use Rattle.algol_effect.specs.declared.effect.Effect.TheVariants as effects;
ghost use Rattle.algol_perform.specs.Making.{with_instance_of, part_of_purpose, with_process_of};
ghost use Rattle.algol_perform.specs.Performing.{performed};

use crate::cells::fresh_cells;
use crate::parts::innermost;
use algol_cells::{Block, BlockStatements, Cell, Reference, Scopes, Stack, append};
use algol_instances::{Instance, NamedCell};
use algol_rest::Rest;
use algol_tree::{List, Spot};
use algol_world::{Acted, Part, Process, Purpose, State, World};
use b67_deeds::Letter;
use std::alloc::{AllocError, Global};

/// An empty block.
pub fn no_block<'p>(alloc: Global) -> Block<'p>
    ensures { block result ≡ blocks.block_numbered [] 0 }
{
    Block {
        spot: Spot { line: 0, column: 0 },
        outer: List::of(Vec::new(alloc)),
        owner: None,
        parameters: List::of(Vec::new(alloc)),
        decls: &[],
        stmts: BlockStatements::All(&[]),
    }
}

/// The cells of a new instance of the block of that number, whose parameters hold these.
fn cells_of<'p>(
    scopes: &Scopes<'p>,
    alloc: Global,
    number: usize,
    given: Vec<Cell<'p>>,
) -> Result<Vec<NamedCell<'p>>, AllocError>
    ensures { IfOk result (λ cells. shown.named_cells cells.items ≡ instances.fresh_cells (blocks.block_numbered ((scoped scopes.now).blocks) number) (map seen.cell given.entry.items)) }
{
    match scopes.blocks.get(number) {
        None => {
            let empty = no_block(alloc);
            fresh_cells(alloc, &empty, given)
        }
        Some(found) => fresh_cells(alloc, found, given),
    }
}

/// What a part has to do that enters the block of that number.
fn rest_of<'p>(scopes: &Scopes<'p>, alloc: Global, number: usize) -> Result<Rest<'p>, AllocError>
    ensures { IfOk result (λ r. seen_rest.rest (scoped scopes.now) r ≡ settle_items (scoped scopes.now) (items_of (blocks.block_numbered ((scoped scopes.now).blocks) number))) }
{
    match scopes.blocks.get(number) {
        None => {
            let empty = no_block(alloc);
            Rest::of_block(alloc, scopes, &empty)
        }
        Some(found) => Rest::of_block(alloc, scopes, found),
    }
}

/// A new instance of a block, whose parameters hold these.
fn instance_of<'p>(
    scopes: &Scopes<'p>,
    alloc: Global,
    number: usize,
    parent: usize,
    process: usize,
    given: Vec<Cell<'p>>,
) -> Result<Instance<'p>, AllocError>
    ensures { IfOk result (λ i. shown.instance i ≡ record { block = number; parent = parent; process = process; cells = instances.fresh_cells (blocks.block_numbered ((scoped scopes.now).blocks) number) (map seen.cell given.entry.items); left = false }) }
{
    let cells = cells_of(scopes, alloc, number, given)?;
    Ok(Instance {
        block: number,
        parent,
        process,
        cells: List::of(cells),
        left: false,
    })
}

/// One more instance of a block, whose parameters hold these, in the stack of that process.
#[tactic(auto, using(crate::proofs::Fresh::growing_laws))]
pub fn add_instance<'p>(
    world: &mut World<'p>,
    alloc: Global,
    number: usize,
    parent: usize,
    process: usize,
    given: Vec<Cell<'p>>,
) -> Result<(), AllocError>
    ensures added { IfOk result (λ _. world_of world.new ≡ with_instance_of (scoped world.old.scopes) (world_of world.old) number parent process (map seen.cell given.entry.items)) }
    ensures same { world.new.scopes ≡ world.old.scopes }
{
    let instance = instance_of(&world.scopes, alloc, number, parent, process, given)?;
    world.instances.add(instance)
}

/// The part that goes on in the next instance, which is of that block.
#[tactic(auto, using(crate::proofs::Fresh::growing_laws))]
pub fn part_in<'p>(
    world: &World<'p>,
    alloc: Global,
    number: usize,
    purpose: Purpose,
) -> Result<Part<'p>, AllocError>
    ensures { IfOk result (λ x. views.part (scoped world.now.scopes) x ≡ part_of_purpose (scoped world.now.scopes) (world_of world.now) number (views.purpose purpose)) }
{
    let rest = rest_of(&world.scopes, alloc, number)?;
    Ok(Part {
        instance: world.instances.items().len() + 1,
        purpose,
        rest,
    })
}

/// One more process, with that part only.
#[tactic(auto, using(crate::proofs::Fresh::growing_laws))]
pub fn add_process<'p>(
    world: &mut World<'p>,
    alloc: Global,
    part: Part<'p>,
    critical: Option<usize>,
    task: Option<Reference<'p>>,
) -> Result<(), AllocError>
    ensures added { IfOk result (λ _. world_of world.new ≡ with_process_of (world_of world.old) (views.part (scoped world.old.scopes) part.entry) critical (views.task task.entry)) }
    ensures same { world.new.scopes ≡ world.old.scopes }
{
    let mut todo = Stack::new(alloc);
    todo.push(part)?;
    let process = Process {
        todo,
        critical,
        task,
        state: State::Able,
        woken: 0,
    };
    append(&mut world.processes, process)
}

/// A procedure is entered: a new instance of its block, and a part inside the innermost one.
#[tactic(auto, using(crate::proofs::Entries::entry_laws))]
pub fn perform_enter<'p>(
    world: &mut World<'p>,
    alloc: Global,
    process: usize,
    number: usize,
    parent: usize,
    given: Vec<Cell<'p>>,
) -> Result<Acted, AllocError>
    requires acts { is_nil ((process_of world.old process).todo) ≡ false }
    ensures performed { IfOk result (λ a. acted_choice a (world_of world.new) ≡ performed (scoped world.old.scopes) (world_of world.old) process (effects.EntersProcedure number parent given.entry)) }
    ensures same { world.new.scopes ≡ world.old.scopes }
{
    let part = part_in(world, alloc, number, Purpose::Procedure)?;
    add_instance(world, alloc, number, parent, process, given)?;
    world.opens(alloc, process, part)?;
    Ok(Acted::alone(alloc, Letter::Enter))
}

/// A block is entered: a new instance of it, around which is the one in which the innermost part goes on.
#[tactic(auto, using(crate::proofs::Entries::block_laws))]
pub fn perform_block<'p>(
    world: &mut World<'p>,
    alloc: Global,
    process: usize,
    number: usize,
) -> Result<Acted, AllocError>
    requires acts { is_nil ((process_of world.old process).todo) ≡ false }
    ensures performed { IfOk result (λ a. acted_choice a (world_of world.new) ≡ performed (scoped world.old.scopes) (world_of world.old) process (effects.EntersBlock number)) }
    ensures same { world.new.scopes ≡ world.old.scopes }
{
    let parent = innermost(world, process);
    let part = part_in(world, alloc, number, Purpose::Block)?;
    add_instance(world, alloc, number, parent, process, Vec::new(alloc))?;
    world.opens(alloc, process, part)?;
    Ok(Acted::alone(alloc, Letter::Enter))
}
