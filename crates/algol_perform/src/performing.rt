//! The effects that change cells, events and parts.

ghost use Rattle.std.specs.Prelude.{◌≡◌, false, IfOk};
ghost use Rattle.algol_meaning.specs.World as plain;
ghost use Rattle.algol_cells.specs.SeenScope.{scoped};
ghost use Rattle.algol_world.specs.SeenWorld.{world_of, process_of};
ghost use Rattle.algol_world.specs.SeenActed.{acted_choice};
ghost use Rattle.algol_world.specs.Leaving.{is_nil};
ghost use Rattle.algol_effect.specs.declared.effect.Effect.TheVariants as effects;
ghost use Rattle.algol_perform.specs.Performing.{performed};

use crate::parts::innermost;
use algol_cells::{Reference, Value, append};
use algol_instances::NamedCell;
use algol_rest_expr::Answer;
use algol_tree::{EventAct, Line, List};
use algol_world::{Acted, Part, World};
use b67_deeds::Letter;
use b67_num::FaultKind;
use std::alloc::{AllocError, Global};

/// The innermost part of a process goes on with this answer.
#[tactic(auto, using(crate::proofs::Effects::goes))]
pub fn perform_goes<'p>(
    world: &mut World<'p>,
    alloc: Global,
    process: usize,
    action: Letter,
    answer: Answer<'p>,
) -> Result<Acted, AllocError>
    requires acts { is_nil ((process_of world.old process).todo) ≡ false }
    ensures performed { IfOk result (λ a. acted_choice a (world_of world.new) ≡ performed (scoped world.old.scopes) (world_of world.old) process (effects.Goes action answer.entry)) }
    ensures same { world.new.scopes ≡ world.old.scopes }
{
    let went = world.goes(alloc, process, answer);
    went.and(Ok(Acted::alone(alloc, action)))
}

/// A value is stored in a simple cell.
#[tactic(auto, using(crate::proofs::Effects::stores))]
pub fn perform_store<'p>(
    world: &mut World<'p>,
    alloc: Global,
    process: usize,
    r: Reference<'p>,
    v: Value,
) -> Result<Acted, AllocError>
    requires acts { is_nil ((process_of world.old process).todo) ≡ false }
    ensures performed { IfOk result (λ a. acted_choice a (world_of world.new) ≡ performed (scoped world.old.scopes) (world_of world.old) process (effects.Stores r.entry v)) }
    ensures same { world.new.scopes ≡ world.old.scopes }
{
    let went = world.store(alloc, process, r, v);
    went.and(Ok(Acted::alone(alloc, Letter::Store)))
}

/// A value is stored in an element.
#[tactic(auto, using(crate::proofs::Effects::stores_element))]
pub fn perform_store_element<'p>(
    world: &mut World<'p>,
    alloc: Global,
    process: usize,
    r: Reference<'p>,
    subscripts: List<usize>,
    v: Value,
) -> Result<Acted, AllocError>
    requires acts { is_nil ((process_of world.old process).todo) ≡ false }
    ensures performed { IfOk result (λ a. acted_choice a (world_of world.new) ≡ performed (scoped world.old.scopes) (world_of world.old) process (effects.StoresElement r.entry subscripts v)) }
    ensures same { world.new.scopes ≡ world.old.scopes }
{
    let went = world.store_element(alloc, process, r, subscripts.items(), v);
    went.and(Ok(Acted::alone(alloc, Letter::ElementStore)))
}

/// A part that evaluates a name comes to be inside the innermost part.
#[tactic(auto, using(crate::proofs::Effects::evaluates))]
pub fn perform_evaluation<'p>(
    world: &mut World<'p>,
    alloc: Global,
    process: usize,
    inner: Part<'p>,
) -> Result<Acted, AllocError>
    requires acts { is_nil ((process_of world.old process).todo) ≡ false }
    ensures performed { IfOk result (λ a. acted_choice a (world_of world.new) ≡ performed (scoped world.old.scopes) (world_of world.old) process (effects.Evaluates inner.entry)) }
    ensures same { world.new.scopes ≡ world.old.scopes }
{
    let went = world.opens(alloc, process, inner);
    went.and(Ok(Acted::alone(alloc, Letter::Enter)))
}

/// The innermost part of a process, which is able, is left with what it gives; the last one ends the process.
#[tactic(auto, using(crate::proofs::Effects::leaves))]
pub fn perform_leaving<'p>(
    world: &mut World<'p>,
    alloc: Global,
    process: usize,
    answer: Answer<'p>,
) -> Result<Acted, AllocError>
    requires able { (process_of world.old process).state ≡ plain.able }
    ensures performed { IfOk result (λ a. acted_choice a (world_of world.new) ≡ performed (scoped world.old.scopes) (world_of world.old) process (effects.Leaves answer.entry)) }
    ensures same { world.new.scopes ≡ world.old.scopes }
{
    world.leaves(alloc, process, answer)
}

/// A statement on an event, by a process that is able.
pub fn perform_act<'p>(
    world: &mut World<'p>,
    alloc: Global,
    process: usize,
    act: EventAct,
    r: Reference<'p>,
) -> Result<Acted, AllocError>
    requires able { (process_of world.old process).state ≡ plain.able }
    requires acts { is_nil ((process_of world.old process).todo) ≡ false }
    ensures performed { IfOk result (λ a. acted_choice a (world_of world.new) ≡ performed (scoped world.old.scopes) (world_of world.old) process (effects.Acts act r.entry)) }
    ensures same { world.new.scopes ≡ world.old.scopes }
{
    world.act(alloc, process, act, r)
}

/// An event is taken, where it is available, by a process that is able.
pub fn perform_fix<'p>(
    world: &mut World<'p>,
    alloc: Global,
    process: usize,
    r: Reference<'p>,
) -> Result<Acted, AllocError>
    requires able { (process_of world.old process).state ≡ plain.able }
    requires acts { is_nil ((process_of world.old process).todo) ≡ false }
    ensures performed { IfOk result (λ a. acted_choice a (world_of world.new) ≡ performed (scoped world.old.scopes) (world_of world.old) process (effects.Fixes r.entry)) }
    ensures same { world.new.scopes ≡ world.old.scopes }
{
    world.fix(alloc, process, r)
}

/// The process waits for several events.
pub fn perform_wait<'p>(
    world: &mut World<'p>,
    alloc: Global,
    process: usize,
    rs: List<Reference<'p>>,
) -> Result<Acted, AllocError>
    requires acts { is_nil ((process_of world.old process).todo) ≡ false }
    ensures performed { IfOk result (λ a. acted_choice a (world_of world.new) ≡ performed (scoped world.old.scopes) (world_of world.old) process (effects.Waits rs.entry)) }
    ensures same { world.new.scopes ≡ world.old.scopes }
{
    world.wait_any(alloc, process, rs)
}

/// The innermost part of a process goes on with this value, which one of several events released.
#[tactic(auto, using(crate::proofs::Effects::wakes))]
pub fn perform_waking<'p>(
    world: &mut World<'p>,
    alloc: Global,
    process: usize,
    v: Value,
) -> Result<Acted, AllocError>
    requires acts { is_nil ((process_of world.old process).todo) ≡ false }
    ensures performed { IfOk result (λ a. acted_choice a (world_of world.new) ≡ performed (scoped world.old.scopes) (world_of world.old) process (effects.Wakes v)) }
    ensures same { world.new.scopes ≡ world.old.scopes }
{
    let went = world.wakes(alloc, process, Answer::Value(v));
    went.and(Ok(Acted::alone(alloc, Letter::Woke)))
}

/// A line is written.
#[tactic(auto, using(crate::proofs::Effects::writes))]
pub fn perform_line<'p>(
    world: &mut World<'p>,
    alloc: Global,
    process: usize,
    line: Line,
) -> Result<Acted, AllocError>
    requires acts { is_nil ((process_of world.old process).todo) ≡ false }
    ensures performed { IfOk result (λ a. acted_choice a (world_of world.new) ≡ performed (scoped world.old.scopes) (world_of world.old) process (effects.Writes line)) }
    ensures same { world.new.scopes ≡ world.old.scopes }
{
    append(&mut world.output, line)?;
    let went = world.goes(alloc, process, Answer::Done);
    went.and(Ok(Acted::alone(alloc, Letter::Line)))
}

/// Arrays are made in the instance in which the innermost part goes on.
#[tactic(auto, using(crate::proofs::Effects::makes_arrays))]
pub fn perform_arrays<'p>(
    world: &mut World<'p>,
    alloc: Global,
    process: usize,
    cells: Vec<NamedCell<'p>>,
) -> Result<Acted, AllocError>
    requires acts { is_nil ((process_of world.old process).todo) ≡ false }
    ensures performed { IfOk result (λ a. acted_choice a (world_of world.new) ≡ performed (scoped world.old.scopes) (world_of world.old) process (effects.MakesArrays cells.entry)) }
    ensures same { world.new.scopes ≡ world.old.scopes }
{
    let instance = innermost(world, process);
    let went = world.make(alloc, process, instance, cells);
    went.and(Ok(Acted::alone(alloc, Letter::MakeArrays)))
}

/// A fault ends the run.
#[tactic(auto, using(crate::proofs::Effects::fails))]
pub fn perform_fault<'p>(
    world: &mut World<'p>,
    alloc: Global,
    process: usize,
    kind: FaultKind,
) -> Acted
    requires acts { is_nil ((process_of world.old process).todo) ≡ false }
    ensures performed { acted_choice result (world_of world.new) ≡ performed (scoped world.old.scopes) (world_of world.old) process (effects.Fails kind) }
    ensures same { world.new.scopes ≡ world.old.scopes }
{
    world.fail(process, kind);
    Acted::alone(alloc, Letter::Fault)
}
