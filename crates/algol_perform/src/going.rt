//! GO TO, and the making of events.

ghost use Rattle.std.specs.Prelude.{◌≡◌, ◌==◌, true, false, IfOk};
ghost use Rattle.algol_tree.specs.Blocks as blocks;
ghost use Rattle.algol_meaning.specs.World as plain;
ghost use Rattle.algol_meaning.specs.Critical as critical;
ghost use Rattle.algol_meaning.specs.Statements.{settle_items, items_from};
ghost use Rattle.algol_cells.specs.SeenScope.{scoped};
ghost use Rattle.algol_rest.specs.SeenRest as seen;
ghost use Rattle.algol_world.specs.SeenWorld.{world_of, process_of};
ghost use Rattle.algol_world.specs.SeenActed.{acted_choice};
ghost use Rattle.algol_world.specs.Leaving.{is_nil};
ghost use Rattle.algol_perform.specs.Going.{going_to, making, owned, AreLeft};

use crate::making::no_block;
use crate::parts::{cut_back, innermost, is_past, leave_all, left_by, some_depends_on_any};
use algol_cells::{Cell, EventCell};
use algol_instances::{NamedCell, instance_at};
use algol_rest::Rest;
use algol_tree::{Line, List, Named};
use algol_world::{Acted, World};
use b67_deeds::Letter;
use b67_num::FaultKind;
use std::alloc::{AllocError, Global};

/// Tests that an instance stands in the stack of a process.
fn is_own(world: &World<'_>, process: usize, number: usize) -> bool
    ensures { result ≡ ((plain.instance_at (world_of world.now) number).process == process) }
{
    match instance_at(&world.instances, number) {
        None => process == 0,
        Some(instance) => instance.process == process,
    }
}

/// The block of an instance, 0 where there is none.
fn block_in(world: &World<'_>, number: usize) -> usize
    ensures { result ≡ (plain.instance_at (world_of world.now) number).block }
{
    match instance_at(&world.instances, number) {
        None => 0,
        Some(instance) => instance.block,
    }
}

/// What a part has still to do from a label on, which stands in the block of that instance.
fn rest_from<'p>(
    world: &World<'p>,
    alloc: Global,
    number: usize,
    label: &Line,
) -> Result<Rest<'p>, AllocError>
    ensures { IfOk result (λ r. seen.rest (scoped world.now.scopes) r ≡ settle_items (scoped world.now.scopes) (items_from (blocks.block_numbered ((scoped world.now.scopes).blocks) ((plain.instance_at (world_of world.now) number).block)) label.now)) }
{
    let found = world.scopes.blocks.get(block_in(world, number));
    match found {
        None => {
            let empty = no_block(alloc);
            Rest::from_label(alloc, &world.scopes, &empty, label)
        }
        Some(within) => Rest::from_label(alloc, &world.scopes, within, label),
    }
}

/// GO TO leaves these parts, on which no process depends.
fn go_back<'p>(
    world: &mut World<'p>,
    alloc: Global,
    process: usize,
    left: &[Option<usize>],
    n: &'p Named,
    number: usize,
) -> Result<Acted, AllocError>
    requires acts { is_nil ((process_of world.old process).todo) ≡ false }
    requires left { AreLeft left.now (process_of world.old process).todo number }
    requires own { ((plain.instance_at (world_of world.old) number).process == process) ≡ true }
    requires free { critical.some_depends_on_any ((world_of world.old).processes) (owned left.now) ≡ false }
    ensures gone { IfOk result (λ a. acted_choice a (world_of world.new) ≡ going_to (scoped world.old.scopes) (world_of world.old) process n.now number) }
    ensures same { world.new.scopes ≡ world.old.scopes }
{
    if is_past(world, process, left.len()) {
        return Ok(Acted::alone(alloc, Letter::GoTo));
    }
    let rest = rest_from(world, alloc, number, &n.name)?;
    leave_all(world, left);
    cut_back(world, process, left.len(), rest)?;
    Ok(Acted::alone(alloc, Letter::GoTo))
}

/// GO TO a label in the block of that instance: to no other process's, and past no critical block.
#[tactic(auto, using(crate::proofs::Jumps::jump_laws))]
pub fn perform_go_to<'p>(
    world: &mut World<'p>,
    alloc: Global,
    process: usize,
    n: &'p Named,
    number: usize,
) -> Result<Acted, AllocError>
    requires acts { is_nil ((process_of world.old process).todo) ≡ false }
    ensures performed { IfOk result (λ a. acted_choice a (world_of world.new) ≡ going_to (scoped world.old.scopes) (world_of world.old) process n.now number) }
    ensures same { world.new.scopes ≡ world.old.scopes }
{
    if !is_own(world, process, number) {
        world.fail(process, FaultKind::BadGoTo);
        return Ok(Acted::alone(alloc, Letter::Fault));
    }
    let left = left_by(world, alloc, process, number)?;
    if some_depends_on_any(world, left.items()) {
        world.fail(process, FaultKind::CriticalBlockExit);
        return Ok(Acted::alone(alloc, Letter::Fault));
    }
    go_back(world, alloc, process, left.items(), n, number)
}

/// An event is made in the instance in which the innermost part goes on.
#[tactic(auto, using(crate::proofs::Jumps::event_laws))]
pub fn perform_event<'p>(
    world: &mut World<'p>,
    alloc: Global,
    process: usize,
    n: &'p Named,
) -> Result<Acted, AllocError>
    requires acts { is_nil ((process_of world.old process).todo) ≡ false }
    ensures performed { IfOk result (λ a. acted_choice a (world_of world.new) ≡ making (scoped world.old.scopes) (world_of world.old) process n.now) }
    ensures same { world.new.scopes ≡ world.old.scopes }
{
    let event = EventCell {
        happened: false,
        available: true,
        waiters: List::of(Vec::new(alloc)),
        procurers: List::of(Vec::new(alloc)),
    };
    let mut cells = Vec::new(alloc);
    cells.push(NamedCell {
        name: &n.name,
        cell: Cell::Event(event),
    })?;
    let instance = innermost(world, process);
    let went = world.make(alloc, process, instance, cells);
    went.and(Ok(Acted::alone(alloc, Letter::MakeEvent)))
}
