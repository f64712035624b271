//! What the heads of statements do.

ghost use Rattle.std.specs.Prelude.{◌≡◌, [], ◌∷◌, IfOk};
ghost use Rattle.b67_deeds.specs.Deeds.{acts};
ghost use Rattle.algol_meaning.specs.Asks as asks;
ghost use Rattle.algol_meaning.specs.Rest as rest;
ghost use Rattle.algol_cells.specs.SeenValue.{value};
ghost use Rattle.algol_rest_expr.specs.SeenExpression as seen;
ghost use Rattle.algol_effect.specs.Effects.{asked_choice, effect_choice};

use crate::deciding::here;
use crate::evaluating::followed;
use algol_cells::{Value, copied};
use algol_effect::Effect;
use algol_rest_expr::{Answer, Place};
use algol_tree::{EventAct, Named};
use algol_world::{Part, World};
use b67_deeds::Letter;
use b67_num::{FaultKind, NumFault};
use std::alloc::{AllocError, Global};

/// A copy of a place.
fn copy_place<'p>(alloc: Global, place: &Place<'p>) -> Result<Place<'p>, AllocError>
    ensures { IfOk result (λ copy. seen.place copy ≡ seen.place place.now) }
{
    match place {
        Place::Own(n) => Ok(Place::Own(*n)),
        Place::There(r) => Ok(Place::There(*r)),
        Place::ElementOf(r, subscripts) => {
            Ok(Place::ElementOf(*r, copied(alloc, subscripts.items())?))
        }
    }
}

/// The storing of a value.
pub fn decide_store<'p>(
    world: &World<'p>,
    alloc: Global,
    process: usize,
    part: &Part<'p>,
    place: &Place<'p>,
    v: Value,
) -> Result<Effect<'p>, AllocError>
    ensures { IfOk result (λ e. asked_choice world.now process part.now (asks.stores (seen.place place.now) (value v)) ≡ effect_choice world.now process part.now e) }
{
    match place {
        Place::Own(n) => Ok(Effect::Stores(here(world, part, *n), v)),
        Place::There(r) => Ok(Effect::Stores(*r, v)),
        Place::ElementOf(r, subscripts) => {
            Ok(Effect::StoresElement(*r, copied(alloc, subscripts.items())?, v))
        }
    }
}

/// A turn of a loop.
pub fn decide_turn<'p>(world: &World<'p>, process: usize, part: &Part<'p>) -> Effect<'p>
    ensures { asked_choice world.now process part.now asks.turns ≡ effect_choice world.now process part.now result }
{
    Effect::Goes(Letter::Turn, Answer::Done)
}

/// GO TO a label.
pub fn decide_go_to<'p>(
    world: &World<'p>,
    process: usize,
    part: &Part<'p>,
    n: &'p Named,
) -> Effect<'p>
    ensures { asked_choice world.now process part.now (asks.goes_to n.now) ≡ effect_choice world.now process part.now result }
{
    Effect::GoesTo(n, here(world, part, n).instance)
}

/// A statement on an event.
pub fn decide_act<'p>(
    world: &World<'p>,
    process: usize,
    part: &Part<'p>,
    act: EventAct,
    n: &'p Named,
) -> Effect<'p>
    ensures { asked_choice world.now process part.now (asks.event_deed (acts act) (n.now ∷ [])) ≡ effect_choice world.now process part.now result }
{
    Effect::Acts(act, followed(world, here(world, part, n)))
}

/// The making of an event.
pub fn decide_event<'p>(
    world: &World<'p>,
    process: usize,
    part: &Part<'p>,
    n: &'p Named,
) -> Effect<'p>
    ensures { asked_choice world.now process part.now (asks.makes_event n.now) ≡ effect_choice world.now process part.now result }
{
    Effect::MakesEvent(n)
}

/// An operator without a result.
pub fn decide_fault<'p>(
    world: &World<'p>,
    process: usize,
    part: &Part<'p>,
    fault: NumFault,
) -> Effect<'p>
    ensures { asked_choice world.now process part.now (asks.fails fault) ≡ effect_choice world.now process part.now result }
{
    Effect::Fails(FaultKind::from(fault))
}

/// The leaving of a part, with nothing.
pub fn decide_leaving<'p>(world: &World<'p>, process: usize, part: &Part<'p>) -> Effect<'p>
    ensures { asked_choice world.now process part.now (asks.leaves rest.done) ≡ effect_choice world.now process part.now result }
{
    Effect::Leaves(Answer::Done)
}

/// The leaving of a part, with a value.
pub fn decide_giving<'p>(world: &World<'p>, process: usize, part: &Part<'p>, v: Value) -> Effect<'p>
    ensures { asked_choice world.now process part.now (asks.leaves (rest.value (value v))) ≡ effect_choice world.now process part.now result }
{
    Effect::Leaves(Answer::Value(v))
}

/// The leaving of a part, with a place.
pub fn decide_giving_place<'p>(
    world: &World<'p>,
    alloc: Global,
    process: usize,
    part: &Part<'p>,
    place: &Place<'p>,
) -> Result<Effect<'p>, AllocError>
    ensures { IfOk result (λ e. asked_choice world.now process part.now (asks.leaves (rest.place (seen.place place.now))) ≡ effect_choice world.now process part.now e) }
{
    Ok(Effect::Leaves(Answer::Place(copy_place(alloc, place)?)))
}
