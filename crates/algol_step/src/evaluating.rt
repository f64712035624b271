//! What the heads of expressions and places do: subscripts, elements and names.

ghost use Rattle.std.specs.Prelude.{◌≡◌, ◌++◌, ◌∷◌, [], IfOk};
ghost use Rattle.algol_meaning.specs.World as plain;
ghost use Rattle.algol_meaning.specs.Asks as asks;
ghost use Rattle.algol_meaning.specs.Choice as choices;
ghost use Rattle.algol_meaning.specs.SeenTree.{expr};
ghost use Rattle.algol_cells.specs.SeenValue.{value};
ghost use Rattle.algol_cells.specs.SeenCell.{reference};
ghost use Rattle.algol_world.specs.SeenWorld.{world_of};
ghost use Rattle.algol_effect.specs.Effects.{asked_choice, effect_choice};

use crate::copying::copy_or_zero;
use crate::deciding::here;
use crate::lists::has_items;
use algol_cells::{Cell, Reference, Value, append, copied, whole_of};
use algol_effect::Effect;
use algol_instances::{cell_at, element_at, subscript_place};
use algol_rest::Rest;
use algol_rest_expr::{Answer, Place};
use algol_tree::{Expr, List, Named};
use algol_world::{Part, Purpose, World};
use b67_deeds::Letter;
use b67_num::FaultKind;
use std::alloc::{AllocError, Global};

/// These subscripts and one more.
fn with_last(alloc: Global, before: &[usize], last: usize) -> Result<List<usize>, AllocError>
    ensures { IfOk result (λ all. all ≡ before.now ++ last ∷ []) }
{
    let mut all = copied(alloc, before)?;
    append(&mut all, last)?;
    Ok(all)
}

/// Tests that an actual is a variable with subscripts.
#[tactic(auto, using(crate::proofs::Trees::tree_laws))]
fn is_subscripted(actual: &Expr) -> bool
    ensures { result ≡ choices.is_subscripted (expr actual.now) }
{
    match actual {
        Expr::Variable(v) => has_items(&v.subs),
        _ => false,
    }
}

/// What a Reference leads to: where its cell holds a Reference itself, that is followed.
pub fn followed<'p>(world: &World<'p>, r: Reference<'p>) -> Reference<'p>
    ensures { reference result ≡ plain.followed (world_of world.now) (reference r.entry) }
{
    match cell_at(&world.instances, r) {
        Some(Cell::Reference(s)) => *s,
        _ => r,
    }
}

/// The reading of an element with its last subscript.
pub fn decide_read_element<'p>(
    world: &World<'p>,
    alloc: Global,
    process: usize,
    part: &Part<'p>,
    n: &'p Named,
    before: &[usize],
    last: Value,
) -> Result<Effect<'p>, AllocError>
    ensures { IfOk result (λ e. asked_choice world.now process part.now (asks.reads_element n.now before.now (value last)) ≡ effect_choice world.now process part.now e) }
{
    let cell = cell_at(&world.instances, followed(world, here(world, part, n)));
    match subscript_place(&world.scopes, n, cell, before, whole_of(last).number()) {
        None => Ok(Effect::Fails(FaultKind::InvalidIndex)),
        Some(k) => {
            let all = with_last(alloc, before, k)?;
            let read = element_at(cell, all.items());
            Ok(Effect::Goes(Letter::ElementRead, Answer::Value(read)))
        }
    }
}

/// A subscript that others follow, or the last one of a place.
pub fn decide_index<'p>(
    world: &World<'p>,
    alloc: Global,
    process: usize,
    part: &Part<'p>,
    n: &'p Named,
    before: &[usize],
    last: Value,
) -> Result<Effect<'p>, AllocError>
    ensures { IfOk result (λ e. asked_choice world.now process part.now (asks.indexes n.now before.now (value last)) ≡ effect_choice world.now process part.now e) }
{
    let r = followed(world, here(world, part, n));
    let cell = cell_at(&world.instances, r);
    match subscript_place(&world.scopes, n, cell, before, whole_of(last).number()) {
        None => Ok(Effect::Fails(FaultKind::InvalidIndex)),
        Some(k) => {
            let all = with_last(alloc, before, k)?;
            Ok(Effect::Goes(Letter::Index, Answer::Place(Place::ElementOf(r, all))))
        }
    }
}

/// The passing of a parameter's own cell.
pub fn decide_pass<'p>(
    world: &World<'p>,
    alloc: Global,
    process: usize,
    part: &Part<'p>,
    n: &'p Named,
) -> Result<Effect<'p>, AllocError>
    ensures { IfOk result (λ e. asked_choice world.now process part.now (asks.passes n.now) ≡ effect_choice world.now process part.now e) }
{
    let cell = copy_or_zero(alloc, cell_at(&world.instances, here(world, part, n)))?;
    Ok(Effect::Goes(Letter::Pass, Answer::Cell(cell)))
}

/// The place of a name parameter.
pub fn decide_resolve<'p>(
    world: &World<'p>,
    alloc: Global,
    process: usize,
    part: &Part<'p>,
    n: &'p Named,
) -> Result<Effect<'p>, AllocError>
    ensures { IfOk result (λ e. asked_choice world.now process part.now (asks.resolves n.now) ≡ effect_choice world.now process part.now e) }
{
    let here = here(world, part, n);
    match cell_at(&world.instances, here) {
        Some(Cell::Named(actual, instance)) => {
            if is_subscripted(*actual) {
                let rest = Rest::of_place(alloc, &world.scopes, *actual)?;
                Ok(Effect::Evaluates(Part {
                    instance: *instance,
                    purpose: Purpose::NamePlace,
                    rest,
                }))
            } else {
                Ok(Effect::Fails(FaultKind::NotAVariable))
            }
        }
        Some(Cell::Reference(r)) => {
            Ok(Effect::Goes(Letter::Resolve, Answer::Place(Place::There(*r))))
        }
        _ => Ok(Effect::Goes(Letter::Resolve, Answer::Place(Place::There(here)))),
    }
}
