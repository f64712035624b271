//! The parts of a process, as they are looked at and left.

ghost use Rattle.std.specs.Prelude.{◌≡◌, drop, map, slice_get, IfOk};
ghost use Rattle.algol_meaning.specs.World as plain;
ghost use Rattle.algol_meaning.specs.Instances as instances;
ghost use Rattle.algol_meaning.specs.Critical as critical;
ghost use Rattle.algol_cells.specs.SeenScope.{scoped};
ghost use Rattle.algol_rest.specs.SeenRest as seen;
ghost use Rattle.algol_world.specs.SeenWorld as views;
ghost use Rattle.algol_world.specs.SeenWorld.{world_of, process_of};
ghost use Rattle.algol_world.specs.Leaving.{is_nothing};
ghost use Rattle.algol_perform.specs.Going.{part_or_none, instance_in, own_in, owned, AreLeft, redirected, going_back};

use algol_cells::Scopes;
use algol_instances::place;
use algol_rest::Rest;
use algol_tree::List;
use algol_world::{Part, Process, World, is_evaluation};
use std::alloc::{AllocError, Global};

/// The part of a process before which so many newer ones stand.
#[tactic(auto, using(crate::proofs::Newer::part_laws))]
pub fn part_under<'a, 'p>(
    world: &'a World<'p>,
    process: usize,
    newer: usize,
) -> Option<&'a Part<'p>>
    ensures { part_or_none (scoped world.now.scopes) result ≡ slice_get (process_of world.now process).todo newer }
{
    match world.process(process) {
        None => None,
        Some(q) => q.todo.under(newer),
    }
}

/// Tests that a process has no more than so many parts.
#[tactic(auto, using(crate::proofs::Newer::past_laws))]
pub fn is_past(world: &World<'_>, process: usize, newer: usize) -> bool
    ensures { result ≡ is_nothing (slice_get (process_of world.now process).todo newer) }
{
    match part_under(world, process, newer) {
        None => true,
        Some(_) => false,
    }
}

/// The instance in which the innermost part of a process goes on.
#[tactic(auto, using(crate::proofs::Newer::part_laws))]
pub fn innermost(world: &World<'_>, process: usize) -> usize
    ensures { result ≡ instance_in (process_of world.now process).todo }
{
    match part_under(world, process, 0) {
        None => 0,
        Some(part) => part.instance,
    }
}

/// The instance that a part has for itself.
fn own_instance(part: &Part<'_>) -> Option<usize>
    ensures { result ≡ own_in part.now }
{
    if is_evaluation(part.purpose) {
        None
    } else {
        Some(part.instance)
    }
}

/// Tests that it is this instance.
fn is_this(own: Option<usize>, instance: usize) -> bool
    ensures { result ≡ critical.is_this own instance }
{
    match own {
        None => false,
        Some(number) => number == instance,
    }
}

/// The own instances of the parts of a process that are newer than the part of an instance, the newest first.
#[tactic(auto, using(crate::proofs::Newer::part_laws))]
pub fn left_by(
    world: &World<'_>,
    alloc: Global,
    process: usize,
    instance: usize,
) -> Result<List<Option<usize>>, AllocError>
    ensures { IfOk result (λ left. AreLeft left (process_of world.now process).todo instance) }
{
    let mut left = Vec::new(alloc);
    'leaving: while let Some(part) = part_under(world, process, left.len()) {
        let own = own_instance(part);
        if is_this(own, instance) {
            return Ok(List::of(left));
        }
        left.push(own)?;
    }
    Ok(List::of(left))
}

/// Tests that some live process has one of these as its critical instance.
pub fn some_depends_on_any(world: &World<'_>, left: &[Option<usize>]) -> bool
    ensures { result ≡ critical.some_depends_on_any ((world_of world.now).processes) (owned left.now) }
{
    'asking: for own in left {
        if let Some(instance) = own {
            if world.some_depends(*instance) {
                return true;
            }
        }
    }
    false
}

/// Instances are left.
pub fn leave_all(world: &mut World<'_>, left: &[Option<usize>])
    ensures left { world_of world.new ≡ instances.leave (world_of world.old) (owned left.now) }
    ensures same { world.new.scopes ≡ world.old.scopes }
{
    'leaving: for own in left {
        if let Some(instance) = own {
            world.leave(*instance);
        }
    }
}

/// So many parts of a process are left.
#[tactic(auto, using(crate::proofs::Newer::dropping_laws))]
fn drop_parts(q: &mut Process<'_>, left: usize)
    ensures { q.new ≡ record q.old { todo = drop left q.old.todo } }
{
    let mut further = left;
    'dropping: while further > 0 {
        q.todo.pop();
        further -= 1;
    }
}

/// The innermost part of a process has this still to do, nothing where there is none.
fn redirect<'p>(q: &mut Process<'p>, scopes: &Scopes<'p>, rest: Rest<'p>) -> Result<(), AllocError>
    ensures { IfOk result (λ _. views.process (scoped scopes.now) q.new ≡ record (views.process (scoped scopes.now) q.old) { todo = redirected ((views.process (scoped scopes.now) q.old).todo) (seen.rest (scoped scopes.now) rest.entry) }) }
{
    match q.todo.pop() {
        None => Ok(()),
        Some(target) => q.todo.push(Part {
            instance: target.instance,
            purpose: target.purpose,
            rest,
        }),
    }
}

/// So many parts of a process are left, and the next one has this still to do.
#[tactic(auto, using(crate::proofs::Newer::cutting_laws))]
fn cut_process<'p>(
    q: &mut Process<'p>,
    scopes: &Scopes<'p>,
    left: usize,
    rest: Rest<'p>,
) -> Result<(), AllocError>
    ensures { IfOk result (λ _. views.process (scoped scopes.now) q.new ≡ record (views.process (scoped scopes.now) q.old) { todo = redirected (drop left ((views.process (scoped scopes.now) q.old).todo)) (seen.rest (scoped scopes.now) rest.entry) }) }
{
    drop_parts(q, left);
    redirect(q, scopes, rest)
}

/// So many parts of a process are left, and the next one has this still to do.
pub fn cut_back<'p>(
    world: &mut World<'p>,
    process: usize,
    left: usize,
    rest: Rest<'p>,
) -> Result<(), AllocError>
    ensures went { IfOk result (λ _. world_of world.new ≡ going_back (world_of world.old) process left (seen.rest (scoped world.old.scopes) rest.entry)) }
    ensures same { world.new.scopes ≡ world.old.scopes }
{
    if let Some(at) = place(process) {
        if let Some(q) = world.processes.items_mut().get_mut(at) {
            cut_process(q, &world.scopes, left, rest)?;
        }
    }
    Ok(())
}
