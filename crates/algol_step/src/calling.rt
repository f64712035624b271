//! What a call and the start of a process do.

ghost use Rattle.std.specs.Prelude.{◌≡◌, ◌++◌, ◌∷◌, [], map, IfOk, OnOk};
ghost use Rattle.algol_tree.specs.Scopes as scoping;
ghost use Rattle.algol_meaning.specs.Settle as settling;
ghost use Rattle.algol_meaning.specs.Asks as asks;
ghost use Rattle.algol_cells.specs.SeenScope.{scoped};
ghost use Rattle.algol_cells.specs.SeenCell.{cell};
ghost use Rattle.algol_rest_expr.specs.SeenExpression as seen;
ghost use Rattle.algol_world.specs.SeenWorld.{task, world_of};
ghost use Rattle.algol_effect.specs.Effects.{asked_choice, effect_choice, given_cell_in, given_cells_in, task_in};

use crate::deciding::here;
use algol_cells::{Cell, Reference, copy_cell};
use algol_effect::Effect;
use algol_meaning::MOST_STARTED;
use algol_rest_expr::Given;
use algol_tree::Named;
use algol_world::{Part, World};
use b67_num::FaultKind;
use std::alloc::{AllocError, Global};

/// What a parameter holds for an actual that is done.
fn given_cell<'p>(
    world: &World<'p>,
    alloc: Global,
    process: usize,
    part: &Part<'p>,
    given: &Given<'p>,
) -> Result<Cell<'p>, AllocError>
    ensures { IfOk result (λ c. cell c ≡ given_cell_in world.now process part.now (seen.done given.now)) }
{
    match given {
        Given::Valued(v) => Ok(Cell::Simple(*v)),
        Given::Passed(cell) => copy_cell(alloc, cell),
        Given::Refers(n) => Ok(Cell::Reference(here(world, part, *n))),
        Given::Names(actual) => Ok(Cell::Named(*actual, part.instance)),
    }
}

/// Adds what a parameter holds for an actual that is done.
#[tactic(auto, using(crate::proofs::Parameters::giving))]
fn push_given<'p>(
    cells: &mut Vec<Cell<'p>>,
    world: &World<'p>,
    alloc: Global,
    process: usize,
    part: &Part<'p>,
    given: &Given<'p>,
) -> Result<(), AllocError>
    ensures { OnOk result (map cell cells.new.items ≡ map cell cells.old.items ++ given_cells_in world.now process part.now (seen.done given.now ∷ [])) }
{
    let cell = given_cell(world, alloc, process, part, given)?;
    cells.push(cell)?;
    Ok(())
}

/// What the parameters hold for actuals that are done.
fn given_cells<'p>(
    world: &World<'p>,
    alloc: Global,
    process: usize,
    part: &Part<'p>,
    givens: &[Given<'p>],
) -> Result<Vec<Cell<'p>>, AllocError>
    ensures { IfOk result (λ cs. map cell cs.items ≡ given_cells_in world.now process part.now (seen.all_done givens.now)) }
{
    let mut cells = Vec::new(alloc);
    'giving: for given in givens {
        push_given(&mut cells, world, alloc, process, part, given)?;
    }
    Ok(cells)
}

/// The block of the procedure that a name is.
fn block_of<'p>(world: &World<'p>, n: &Named) -> usize
    ensures { result ≡ settling.block_of_sort ((scoping.use_of (scoped world.now.scopes) n.now).sort) }
{
    world.scopes.procedure(n).unwrap_or(0)
}

/// The entry of a procedure.
pub fn decide_enter<'p>(
    world: &World<'p>,
    alloc: Global,
    process: usize,
    part: &Part<'p>,
    n: &'p Named,
    givens: &[Given<'p>],
) -> Result<Effect<'p>, AllocError>
    ensures { IfOk result (λ e. asked_choice world.now process part.now (asks.enters n.now (seen.all_done givens.now)) ≡ effect_choice world.now process part.now e) }
{
    let cells = given_cells(world, alloc, process, part, givens)?;
    let parent = here(world, part, n).instance;
    Ok(Effect::EntersProcedure(block_of(world, n), parent, cells))
}

/// The task of a process that is started.
fn task_here<'p>(
    world: &World<'p>,
    part: &Part<'p>,
    named: &'p Option<Named>,
) -> Option<Reference<'p>>
    ensures { task result ≡ task_in (scoped world.now.scopes) (world_of world.now) part.now.instance named.now }
{
    match named {
        None => None,
        Some(n) => Some(here(world, part, n)),
    }
}

/// The start of a process: no more than so many.
pub fn decide_start<'p>(
    world: &World<'p>,
    alloc: Global,
    process: usize,
    part: &Part<'p>,
    n: &'p Named,
    givens: &[Given<'p>],
    named: &'p Option<Named>,
) -> Result<Effect<'p>, AllocError>
    ensures { IfOk result (λ e. asked_choice world.now process part.now (asks.starts n.now (seen.all_done givens.now) named.now) ≡ effect_choice world.now process part.now e) }
{
    if world.processes.items().len() > MOST_STARTED {
        return Ok(Effect::Fails(FaultKind::ProcessLimit));
    }
    let cells = given_cells(world, alloc, process, part, givens)?;
    let parent = here(world, part, n).instance;
    let task = task_here(world, part, named);
    Ok(Effect::Starts(block_of(world, n), parent, cells, task))
}
