//! The cell that the next action of a part reads or stores.

ghost use Rattle.std.specs.Prelude.{◌≡◌, ℕ, ◌++◌, ◌∷◌, [], map, slice_get};
ghost use Rattle.algol_meaning.specs.World as plain;
ghost use Rattle.algol_meaning.specs.Arrays as arrays;
ghost use Rattle.algol_meaning.specs.Asks as asks;
ghost use Rattle.algol_cells.specs.SeenCell as seen;
ghost use Rattle.algol_cells.specs.SeenCell.{reference};
ghost use Rattle.algol_cells.specs.SeenScope.{scoped};
ghost use Rattle.algol_cells.specs.SeenValue.{value};
ghost use Rattle.algol_rest_expr.specs.SeenExpression.{place};
ghost use Rattle.algol_rest.specs.SeenRest.{rest, rest_asked};
ghost use Rattle.algol_instances.specs.SeenArray.{capped};
ghost use Rattle.algol_instances.specs.SeenInstance.{cell_or_none};
ghost use Rattle.algol_world.specs.SeenWorld.{world_of};
ghost use Rattle.algol_effect.specs.Effects.{here_in};
ghost use Rattle.b67_race.specs.Cells.{at_of};
ghost use Rattle.algol_seen.specs.Accesses as accesses;
ghost use Rattle.algol_seen.specs.Seen as told;

use crate::names::{Access, CellName, whole};
use algol_cells::{ArrayCell, Bounds, Cell, Reference, Value, whole_of};
use algol_instances::{ancestor, cell_at, subscript_place};
use algol_rest::Ask;
use algol_rest_expr::{Given, Place};
use algol_tree::{Body, EventName, Line, Named, Pair, PhraseText, Stmt};
use algol_world::{Part, World};

/// What a name means in a part.
pub fn here<'p>(world: &World<'p>, part: &Part<'p>, n: &'p Named) -> Reference<'p>
    ensures { reference result ≡ here_in (scoped world.now.scopes) (world_of world.now) part.now.instance n.now }
{
    let up = world.scopes.use_of(n).up;
    Reference {
        instance: ancestor(&world.instances, up, part.instance),
        name: &n.name,
    }
}

/// What a Reference leads to: where its cell holds a Reference itself, that is followed.
pub fn followed<'p>(world: &World<'p>, r: Reference<'p>) -> Reference<'p>
    ensures { reference result ≡ plain.followed (world_of world.now) (reference r.entry) }
{
    match cell_at(&world.instances, r) {
        Some(Cell::Reference(s)) => *s,
        _ => r,
    }
}

/// A cell that is read.
fn reading<'p>(r: Reference<'p>) -> Option<Access<'p>>
    ensures { told.access result ≡ accesses.access_reading (reference r.entry) }
{
    Some(Access {
        cell: whole(r),
        storing: false,
    })
}

/// A cell that is stored.
fn storing<'p>(r: Reference<'p>) -> Option<Access<'p>>
    ensures { told.access result ≡ accesses.storing (reference r.entry) }
{
    Some(Access {
        cell: whole(r),
        storing: true,
    })
}

/// An element by its number from 1, none for 0.
fn element<'p>(r: Reference<'p>, number: usize, storing: bool) -> Option<Access<'p>>
    ensures { told.access result ≡ accesses.access_at_element (reference r.entry) (at_of number) storing }
{
    if number == 0 {
        return None;
    }
    Some(Access {
        cell: CellName {
            instance: r.instance,
            name: r.name,
            element: number,
        },
        storing,
    })
}

/// The cell that the reading of a name reads.
fn read_of<'p>(world: &World<'p>, r: Reference<'p>) -> Option<Access<'p>>
    ensures { told.access result ≡ accesses.read_of (reference r.entry) (plain.cell_at (world_of world.now) (reference r.entry)) }
{
    match cell_at(&world.instances, r) {
        Some(Cell::Named(_, _)) => None,
        Some(Cell::Reference(s)) => reading(*s),
        _ => reading(r),
    }
}

// ---- elements

/// The number of an element, row by row, before which so many rows lie; the greatest `usize` where it is greater.
#[tactic(auto, using(algol_instances::proofs::Capping::capping))]
fn flat(before: usize, bounds: &[Bounds], subscripts: &[usize]) -> usize
    ensures { result ≡ capped (arrays.flat before (map seen.bounds bounds.now) subscripts.now) }
{
    match subscripts.split_first() {
        None => before,
        Some((k, rest)) => match bounds.split_first() {
            None => before,
            Some((b, further)) => {
                let rows = before.saturating_mul(size_of(b));
                flat(rows.saturating_add(*k), further, rest)
            }
        },
    }
}

/// The same with one subscript more.
#[tactic(auto, using(algol_instances::proofs::Capping::capping))]
fn flat_with(before: usize, bounds: &[Bounds], subscripts: &[usize], last: usize) -> usize
    ensures { result ≡ capped (arrays.flat before (map seen.bounds bounds.now) (subscripts.now ++ last ∷ [])) }
{
    match subscripts.split_first() {
        None => flat(before, bounds, &[last]),
        Some((k, rest)) => match bounds.split_first() {
            None => before,
            Some((b, further)) => {
                let rows = before.saturating_mul(size_of(b));
                flat_with(rows.saturating_add(*k), further, rest, last)
            }
        },
    }
}

/// How many subscripts lie within bounds.
fn size_of(b: &Bounds) -> usize
    ensures { result ≡ capped (arrays.size_of (seen.bounds b.now)) }
{
    if b.low <= b.high {
        (b.high.abs_diff(b.low) as usize).saturating_add(1)
    } else {
        0
    }
}

/// The number, from 1, of an element that is there, else 0.
#[tactic(auto, using(crate::proofs::Elements::there_laws))]
fn there(array: &ArrayCell, number: usize) -> usize
    ensures { (n : ℕ) → number ≡ capped n → at_of result ≡ accesses.if_there (slice_get ((seen.array array.now).elements) n) n }
{
    if number < array.elements.items().len() {
        number + 1
    } else {
        0
    }
}

/// The number, from 1, of an element of a cell with these subscripts, 0 where it is not there.
fn number_in(cell: Option<&Cell<'_>>, subscripts: &[usize]) -> usize
    ensures { at_of result ≡ accesses.element_number_in (plain.array_in (cell_or_none cell.entry)) subscripts.now }
{
    match cell {
        Some(Cell::Array(array)) => there(array, flat(0, array.bounds.items(), subscripts)),
        _ => 0,
    }
}

/// The same with one subscript more.
fn number_with(cell: Option<&Cell<'_>>, subscripts: &[usize], last: usize) -> usize
    ensures { at_of result ≡ accesses.element_number_in (plain.array_in (cell_or_none cell.entry)) (subscripts.now ++ last ∷ []) }
{
    match cell {
        Some(Cell::Array(array)) => {
            there(array, flat_with(0, array.bounds.items(), subscripts, last))
        }
        _ => 0,
    }
}

/// The element that is read with its last subscript.
fn element_read<'p>(
    world: &World<'p>,
    part: &Part<'p>,
    n: &'p Named,
    before: &[usize],
    last: Value,
) -> Option<Access<'p>>
    ensures { told.access result ≡ accesses.access_by (scoped world.now.scopes) (world_of world.now) part.now.instance (asks.reads_element n.now before.now (value last)) }
{
    let r = followed(world, here(world, part, n));
    let cell = cell_at(&world.instances, r);
    match subscript_place(&world.scopes, n, cell, before, whole_of(last).number()) {
        None => None,
        Some(k) => element(r, number_with(cell, before, k), false),
    }
}

/// The variable or element that is stored.
fn stored_at<'p>(world: &World<'p>, part: &Part<'p>, to: &Place<'p>) -> Option<Access<'p>>
    ensures { told.access result ≡ accesses.stored_at (scoped world.now.scopes) (world_of world.now) part.now.instance (place to.now) }
{
    match to {
        Place::Own(n) => storing(here(world, part, *n)),
        Place::There(r) => storing(*r),
        Place::ElementOf(r, subscripts) => element(
            *r,
            number_in(cell_at(&world.instances, *r), subscripts.items()),
            true,
        ),
    }
}

// ---- heads

/// The cell that a head reads or stores which asks for this.
fn access_by<'p>(world: &World<'p>, part: &Part<'p>, ask: &Ask<'_, 'p>) -> Option<Access<'p>>
    ensures { told.access result ≡ accesses.access_by (scoped world.now.scopes) (world_of world.now) part.now.instance (rest_asked ask.now) }
{
    match ask {
        Ask::Reads(n) => read_of(world, here(world, part, *n)),
        Ask::ReadsElement(n, ks, v) => element_read(world, part, *n, *ks, *v),
        Ask::ReadsResult(name) => reading(Reference {
            instance: part.instance,
            name: *name,
        }),
        Ask::Stores(to, _) => stored_at(world, part, *to),
        _ => None,
    }
}

/// What an [`Ask`] refers to. The kit's borrow checker wants these types named where an ask that another crate made is lent.
type Asked<'a, 'p> = (
    &'a [Given<'p>],
    &'a Place<'p>,
    &'a [Value],
    &'p [Stmt],
    &'p Body,
    &'p [Pair],
    &'p [PhraseText],
    &'p [Named],
    &'p [EventName],
    &'p Line,
);

/// The cell that the next action of a part reads or stores.
pub fn access_of<'p>(world: &World<'p>, part: &Part<'p>) -> Option<Access<'p>>
    ensures { told.access result ≡ accesses.access_by (scoped world.now.scopes) (world_of world.now) part.now.instance (asks.ask (rest (scoped world.now.scopes) part.now.rest)) }
{
    let _asked: Option<Asked<'_, 'p>> = None;
    let ask = part.rest.ask();
    access_by(world, part, &ask)
}
