//! What the next action of a part does with an event.

ghost use Rattle.std.specs.Prelude.{◌≡◌};
ghost use Rattle.b67_deeds.specs.Deeds.{acts, tests};
ghost use Rattle.b67_deeds.specs.declared.EventTest.TheVariants as test;
ghost use Rattle.algol_meaning.specs.World as plain;
ghost use Rattle.algol_meaning.specs.Asks as asks;
ghost use Rattle.algol_cells.specs.SeenCell.{reference};
ghost use Rattle.algol_cells.specs.SeenScope.{scoped};
ghost use Rattle.algol_rest_expr.specs.SeenExpression.{event_names_of};
ghost use Rattle.algol_rest.specs.SeenRest.{rest_asked, rest};
ghost use Rattle.algol_instances.specs.SeenInstance.{cell_or_none};
ghost use Rattle.algol_world.specs.SeenWorld as views;
ghost use Rattle.algol_world.specs.SeenWorld.{world_of};
ghost use Rattle.algol_effect.specs.Effects.{followed_in};
ghost use Rattle.algol_seen.specs.Accesses as accesses;
ghost use Rattle.algol_seen.specs.Seen as told;

use crate::access::{followed, here};
use crate::names::{Signal, whole};
use algol_cells::{Cell, Reference, Value};
use algol_instances::cell_at;
use algol_rest::Ask;
use algol_rest_expr::{Given, Place};
use algol_tree::{Body, EventAct, EventName, EventTest, Line, Named, Pair, PhraseText, Stmt};
use algol_world::{Part, World, has_happened, is_available};
use b67_deeds::Letter;

/// What a statement on an event does with it, which its cell holds.
fn signal_in<'p>(act: EventAct, r: Reference<'p>, cell: Option<&Cell<'p>>) -> Signal<'p>
    ensures { told.signal result ≡ accesses.signal_of (acts act) (reference r.entry) (plain.event_in (cell_or_none cell.entry)) }
{
    let (happened, available, sought) = match cell {
        Some(Cell::Event(event)) => (
            event.happened,
            event.available,
            !event.procurers.items().is_empty(),
        ),
        _ => (false, false, false),
    };
    match act {
        EventAct::Cause => Signal::Sets(whole(r)),
        EventAct::CauseAndReset | EventAct::Reset => Signal::Nothing,
        EventAct::Wait => {
            if happened {
                Signal::GoesBy(whole(r))
            } else {
                Signal::Nothing
            }
        }
        EventAct::Procure => {
            if available {
                Signal::Takes(whole(r))
            } else {
                Signal::Nothing
            }
        }
        EventAct::Liberate => {
            if available || sought {
                Signal::Nothing
            } else {
                Signal::Frees(whole(r))
            }
        }
    }
}

// ---- tests

/// FIX of the first of these events takes it, where it is available.
fn fixed_by<'p>(world: &World<'p>, part: &Part<'p>, es: &'p [EventName]) -> Signal<'p>
    ensures { told.signal result ≡ accesses.first_signal (world_of world.now) (tests test.Fix) (followed_in (scoped world.now.scopes) (world_of world.now) part.now.instance (event_names_of es.now)) }
{
    match es.split_first() {
        None => Signal::Nothing,
        Some((e, _)) => {
            let r = followed(world, here(world, part, &e.name));
            if is_available(cell_at(&world.instances, r)) {
                Signal::Takes(whole(r))
            } else {
                Signal::Nothing
            }
        }
    }
}

/// A wait for several events goes by the first that has happened.
fn gone_by<'p>(world: &World<'p>, part: &Part<'p>, es: &'p [EventName]) -> Signal<'p>
    ensures { told.signal result ≡ accesses.gone_by (world_of world.now) (followed_in (scoped world.now.scopes) (world_of world.now) part.now.instance (event_names_of es.now)) }
{
    match es.split_first() {
        None => Signal::Nothing,
        Some((e, rest)) => {
            let r = followed(world, here(world, part, &e.name));
            if has_happened(cell_at(&world.instances, r)) {
                Signal::GoesBy(whole(r))
            } else {
                gone_by(world, part, rest)
            }
        }
    }
}

/// What is asked of events does with one, by a process with this woken number.
fn tested_by<'p>(
    world: &World<'p>,
    part: &Part<'p>,
    woken: usize,
    test: EventTest,
    es: &'p [EventName],
) -> Signal<'p>
    ensures { told.signal result ≡ accesses.acting_by (scoped world.now.scopes) (world_of world.now) part.now.instance woken (asks.event_deed (tests test) (event_names_of es.now)) }
{
    match test {
        EventTest::Happened | EventTest::Available => Signal::Nothing,
        EventTest::Fix => fixed_by(world, part, es),
        EventTest::WaitAny => {
            if woken == 0 {
                gone_by(world, part, es)
            } else {
                Signal::Nothing
            }
        }
    }
}

// ---- heads

/// What a head does with an event which asks for this.
fn acting_by<'p>(world: &World<'p>, part: &Part<'p>, woken: usize, ask: &Ask<'_, 'p>) -> Signal<'p>
    ensures { told.signal result ≡ accesses.acting_by (scoped world.now.scopes) (world_of world.now) part.now.instance woken (rest_asked ask.now) }
{
    match ask {
        Ask::Acts(act, n) => {
            let r = followed(world, here(world, part, *n));
            signal_in(*act, r, cell_at(&world.instances, r))
        }
        Ask::Tests(test, es) => tested_by(world, part, woken, *test, *es),
        _ => Signal::Nothing,
    }
}

/// What an [`Ask`] refers to. The kit's borrow checker wants these types named where an ask that another crate made is lent.
type Asked<'a, 'p> = (
    &'a [Given<'p>],
    &'a Place<'p>,
    &'a [Value],
    &'p [Stmt],
    &'p Body,
    &'p [Pair],
    &'p [PhraseText],
    &'p [Named],
    &'p [EventName],
    &'p Line,
);

/// What the next action of a part does with an event by a deed on it, where its process has this woken number.
pub fn acting_of<'p>(world: &World<'p>, part: &Part<'p>, woken: usize) -> Signal<'p>
    ensures { told.signal result ≡ accesses.acting_by (scoped world.now.scopes) (world_of world.now) part.now.instance woken (asks.ask (rest (scoped world.now.scopes) part.now.rest)) }
{
    let _asked: Option<Asked<'_, 'p>> = None;
    let ask = part.rest.ask();
    acting_by(world, part, woken, &ask)
}

/// What an entry does with an event, where its deed on one does that, and its process has this task.
pub fn signal_after<'p>(
    letter: Letter,
    task: Option<Reference<'p>>,
    acting: Signal<'p>,
) -> Signal<'p>
    ensures { told.signal result ≡ accesses.signal_after letter (views.task task.entry) (told.signal acting.entry) }
{
    match (letter, task) {
        (Letter::End, Some(r)) => Signal::Sets(whole(r)),
        _ => acting,
    }
}
