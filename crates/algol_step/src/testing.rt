//! What the heads do that ask events: the tests of one, and the wait for several.

ghost use Rattle.std.specs.Prelude.{◌≡◌, map, pos, IfOk};
ghost use Rattle.b67_deeds.specs.Deeds.{tests};
ghost use Rattle.b67_deeds.specs.declared.EventTest.TheVariants as test;
ghost use Rattle.algol_meaning.specs.Asks as asks;
ghost use Rattle.algol_meaning.specs.Events as events;
ghost use Rattle.algol_meaning.specs.Value as plain;
ghost use Rattle.algol_cells.specs.SeenCell.{reference};
ghost use Rattle.algol_cells.specs.SeenScope.{scoped};
ghost use Rattle.algol_cells.specs.SeenValue.{value};
ghost use Rattle.algol_rest_expr.specs.SeenExpression.{event_names_of};
ghost use Rattle.algol_world.specs.SeenWorld.{process_of, world_of};
ghost use Rattle.algol_effect.specs.Effects.{asked_choice, effect_choice, followed_in};

use crate::deciding::here;
use crate::evaluating::followed;
use algol_cells::{Reference, Value};
use algol_effect::Effect;
use algol_instances::cell_at;
use algol_rest_expr::Answer;
use algol_tree::{EventName, EventTest, List, Whole};
use algol_world::{Part, World, has_happened, is_available};
use b67_deeds::Letter;
use std::alloc::{AllocError, Global};

// ---- one event

/// Whether the first of these events has happened.
fn decide_happened<'p>(
    world: &World<'p>,
    process: usize,
    part: &Part<'p>,
    es: &'p [EventName],
) -> Effect<'p>
    ensures { asked_choice world.now process part.now (asks.event_deed (tests test.Happened) (event_names_of es.now)) ≡ effect_choice world.now process part.now result }
{
    match es.split_first() {
        None => Effect::Nothing,
        Some((e, _)) => {
            let r = followed(world, here(world, part, &e.name));
            let told = Value::Truth(has_happened(cell_at(&world.instances, r)));
            Effect::Goes(Letter::Happened, Answer::Value(told))
        }
    }
}

/// Whether the first of these events is available.
fn decide_available<'p>(
    world: &World<'p>,
    process: usize,
    part: &Part<'p>,
    es: &'p [EventName],
) -> Effect<'p>
    ensures { asked_choice world.now process part.now (asks.event_deed (tests test.Available) (event_names_of es.now)) ≡ effect_choice world.now process part.now result }
{
    match es.split_first() {
        None => Effect::Nothing,
        Some((e, _)) => {
            let r = followed(world, here(world, part, &e.name));
            let told = Value::Truth(is_available(cell_at(&world.instances, r)));
            Effect::Goes(Letter::Available, Answer::Value(told))
        }
    }
}

/// The taking of the first of these events, if it is available.
fn decide_fix<'p>(
    world: &World<'p>,
    process: usize,
    part: &Part<'p>,
    es: &'p [EventName],
) -> Effect<'p>
    ensures { asked_choice world.now process part.now (asks.event_deed (tests test.Fix) (event_names_of es.now)) ≡ effect_choice world.now process part.now result }
{
    match es.split_first() {
        None => Effect::Nothing,
        Some((e, _)) => Effect::Fixes(followed(world, here(world, part, &e.name))),
    }
}

// ---- several

/// A number of a list as a value. No list has so many items that it is none.
fn number_of(n: usize) -> Result<Value, AllocError>
    ensures { IfOk result (λ v. value v ≡ plain.number (pos n)) }
{
    let Ok(number) = u32::try_from(n) else {
        return Err(AllocError);
    };
    Ok(Value::Number(Whole::fitting(i64::from(number))))
}

/// The place of the event that released a process, 0 where it waited for no several ones.
fn woken_number(world: &World<'_>, process: usize) -> usize
    ensures { result ≡ (process_of world.now process).woken }
{
    match world.process(process) {
        None => 0,
        Some(q) => q.woken,
    }
}

/// What names of events lead to.
fn all_followed<'p>(
    world: &World<'p>,
    alloc: Global,
    part: &Part<'p>,
    es: &'p [EventName],
) -> Result<List<Reference<'p>>, AllocError>
    ensures { IfOk result (λ rs. map reference rs ≡ followed_in (scoped world.now.scopes) (world_of world.now) part.now.instance (event_names_of es.now)) }
{
    let mut rs = Vec::new(alloc);
    'following: for e in es {
        rs.push(followed(world, here(world, part, &e.name)))?;
    }
    Ok(List::of(rs))
}

/// The first of some events, counted from 1, that has happened.
fn first_happened(world: &World<'_>, rs: &[Reference<'_>]) -> Option<usize>
    ensures { result ≡ events.first_happened (world_of world.now) (map reference rs.now) }
{
    let mut place = 1;
    'looking: for r in rs {
        if has_happened(cell_at(&world.instances, *r)) {
            return Some(place);
        }
        place += 1;
    }
    None
}

/// A wait for several events. A process that one of them released goes on by that one, whatever they are now; another one goes on
/// by the first that has happened, or waits for all of them.
#[tactic(auto, using(crate::proofs::Waiting::waiting))]
fn decide_wait<'p>(
    world: &World<'p>,
    alloc: Global,
    process: usize,
    part: &Part<'p>,
    es: &'p [EventName],
) -> Result<Effect<'p>, AllocError>
    ensures { IfOk result (λ e. asked_choice world.now process part.now (asks.event_deed (tests test.WaitAny) (event_names_of es.now)) ≡ effect_choice world.now process part.now e) }
{
    let woken = woken_number(world, process);
    if woken > 0 {
        return Ok(Effect::Wakes(number_of(woken)?));
    }
    let rs = all_followed(world, alloc, part, es)?;
    match first_happened(world, rs.items()) {
        None => Ok(Effect::Waits(rs)),
        Some(n) => Ok(Effect::Goes(Letter::WaitAny, Answer::Value(number_of(n)?))),
    }
}

/// What is asked of events.
pub fn decide_test<'p>(
    world: &World<'p>,
    alloc: Global,
    process: usize,
    part: &Part<'p>,
    test: EventTest,
    es: &'p [EventName],
) -> Result<Effect<'p>, AllocError>
    ensures { IfOk result (λ e. asked_choice world.now process part.now (asks.event_deed (tests test) (event_names_of es.now)) ≡ effect_choice world.now process part.now e) }
{
    match test {
        EventTest::Happened => Ok(decide_happened(world, process, part, es)),
        EventTest::Available => Ok(decide_available(world, process, part, es)),
        EventTest::Fix => Ok(decide_fix(world, process, part, es)),
        EventTest::WaitAny => decide_wait(world, alloc, process, part, es),
    }
}
