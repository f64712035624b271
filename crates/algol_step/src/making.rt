//! The making of arrays.

ghost use Rattle.std.specs.Prelude.{◌≡◌, ◌++◌, ◌∷◌, [], map, replicate, IfOk, OnOk};
ghost use Rattle.algol_meaning.specs.Value as plain;
ghost use Rattle.algol_meaning.specs.Arrays as arrays;
ghost use Rattle.algol_meaning.specs.Asks as asks;
ghost use Rattle.algol_meaning.specs.Choice as choices;
ghost use Rattle.algol_meaning.specs.SeenTree as trees;
ghost use Rattle.algol_cells.specs.SeenScope.{scoped};
ghost use Rattle.algol_cells.specs.SeenValue.{value};
ghost use Rattle.algol_cells.specs.SeenCell as seen;
ghost use Rattle.algol_instances.specs.SeenInstance.{named_cells};
ghost use Rattle.algol_world.specs.SeenWorld as views;
ghost use Rattle.algol_world.specs.SeenWorld.{world_of, process_of};
ghost use Rattle.algol_effect.specs.Effects.{asked_choice, effect_choice, outer_of};

use algol_cells::{ArrayCell, Bounds, Cell, Value, copied, whole_of};
use algol_effect::Effect;
use algol_instances::{NamedCell, elements_of, some_empty};
use algol_meaning::MOST_ELEMENTS;
use algol_tree::{Kind, List, Named, Pair, Whole};
use algol_world::{Part, World};
use b67_num::FaultKind;
use std::alloc::{AllocError, Global};

/// The bounds of a pair whose upper bound has this value.
fn bounds_at(pair: &Pair, high: Value) -> Bounds
    ensures { seen.bounds result ≡ record { low = (trees.pair pair.now).low; high = plain.whole_of (value high) } }
{
    Bounds {
        low: pair.low,
        high: whole_of(high).number(),
    }
}

/// Adds the bounds of a pair whose upper bound has this value.
#[tactic(auto, using(crate::proofs::Elements::making))]
fn push_bounds(bounds: &mut Vec<Bounds>, pair: &Pair, high: &Value) -> Result<(), AllocError>
    ensures { OnOk result (map seen.bounds bounds.new.items ≡ map seen.bounds bounds.old.items ++ record { low = (trees.pair pair.now).low; high = plain.whole_of (value high.now) } ∷ []) }
{
    bounds.push(bounds_at(pair, *high))?;
    Ok(())
}

/// Adds bounds: the lower ones as they stand, the upper ones by their values.
fn push_all_bounds(
    bounds: &mut Vec<Bounds>,
    pairs: &[Pair],
    highs: &[Value],
) -> Result<(), AllocError>
    ensures { OnOk result (map seen.bounds bounds.new.items ≡ map seen.bounds bounds.old.items ++ arrays.bounds_of (trees.pairs pairs.now) (map value highs.now)) }
{
    let mut left = highs;
    'pairing: for pair in pairs {
        match left.split_first() {
            None => return Ok(()),
            Some((high, further)) => {
                push_bounds(bounds, pair, high)?;
                left = further;
            }
        }
    }
    Ok(())
}

/// Bounds: the lower ones as they stand, the upper ones by their values.
fn bounds_of(alloc: Global, pairs: &[Pair], highs: &[Value]) -> Result<Vec<Bounds>, AllocError>
    ensures { IfOk result (λ bs. map seen.bounds bs.items ≡ arrays.bounds_of (trees.pairs pairs.now) (map value highs.now)) }
{
    let mut bounds = Vec::new(alloc);
    push_all_bounds(&mut bounds, pairs, highs)?;
    Ok(bounds)
}

/// What an element starts as.
fn initial_value(kind: Kind) -> Value
    ensures { value result ≡ plain.initial_value kind }
{
    match kind {
        Kind::Number => Value::Number(Whole::zero()),
        Kind::Truth => Value::Truth(false),
    }
}

/// So many elements, all the same.
#[tactic(auto, using(crate::proofs::Elements::making))]
fn same_elements(alloc: Global, count: usize, v: Value) -> Result<List<Value>, AllocError>
    ensures { IfOk result (λ vs. map value vs ≡ replicate count (value v)) }
{
    let mut elements = Vec::new(alloc);
    elements.resize(count, v)?;
    Ok(List::of(elements))
}

/// A new array with so many elements.
fn new_array<'p>(
    alloc: Global,
    kind: Kind,
    bounds: &[Bounds],
    elements: usize,
) -> Result<Cell<'p>, AllocError>
    requires { elements ≡ arrays.elements_of (map seen.bounds bounds.now) }
    ensures { IfOk result (λ c. seen.cell c ≡ arrays.new_array kind (map seen.bounds bounds.now)) }
{
    Ok(Cell::Array(ArrayCell {
        bounds: copied(alloc, bounds)?,
        elements: same_elements(alloc, elements, initial_value(kind))?,
    }))
}

/// Adds a new array of that name, with so many elements.
#[tactic(auto, using(crate::proofs::Elements::making))]
fn push_array<'p>(
    cells: &mut Vec<NamedCell<'p>>,
    alloc: Global,
    kind: Kind,
    bounds: &[Bounds],
    elements: usize,
    n: &'p Named,
) -> Result<(), AllocError>
    requires { elements ≡ arrays.elements_of (map seen.bounds bounds.now) }
    ensures { OnOk result (named_cells cells.new.items ≡ named_cells cells.old.items ++ arrays.new_arrays kind (map seen.bounds bounds.now) (n.now ∷ [])) }
{
    let cell = new_array(alloc, kind, bounds, elements)?;
    cells.push(NamedCell {
        name: &n.name,
        cell,
    })?;
    Ok(())
}

/// Adds new arrays, one for each name, each with so many elements.
fn push_arrays<'p>(
    cells: &mut Vec<NamedCell<'p>>,
    alloc: Global,
    kind: Kind,
    bounds: &[Bounds],
    elements: usize,
    names: &'p [Named],
) -> Result<(), AllocError>
    requires { elements ≡ arrays.elements_of (map seen.bounds bounds.now) }
    ensures { OnOk result (named_cells cells.new.items ≡ named_cells cells.old.items ++ arrays.new_arrays kind (map seen.bounds bounds.now) names.now) }
{
    'making: for n in names {
        push_array(cells, alloc, kind, bounds, elements, n)?;
    }
    Ok(())
}

/// New arrays, one for each name, each with so many elements.
fn new_arrays<'p>(
    alloc: Global,
    kind: Kind,
    bounds: &[Bounds],
    elements: usize,
    names: &'p [Named],
) -> Result<Vec<NamedCell<'p>>, AllocError>
    requires { elements ≡ arrays.elements_of (map seen.bounds bounds.now) }
    ensures { IfOk result (λ cs. named_cells cs.items ≡ arrays.new_arrays kind (map seen.bounds bounds.now) names.now) }
{
    let mut cells = Vec::new(alloc);
    push_arrays(&mut cells, alloc, kind, bounds, elements, names)?;
    Ok(cells)
}

/// What the making of arrays with these bounds does: none may be empty or too large, and there is room for so many live elements only.
fn decide_bounded<'p>(
    world: &World<'p>,
    alloc: Global,
    process: usize,
    part: &Part<'p>,
    kind: Kind,
    names: &'p [Named],
    bounds: &[Bounds],
) -> Result<Effect<'p>, AllocError>
    ensures { IfOk result (λ e. choices.made_arrays (scoped world.now.scopes) (world_of world.now) process (process_of world.now process) (views.part (scoped world.now.scopes) part.now) (outer_of ((process_of world.now process).todo)) kind names.now (map seen.bounds bounds.now) ≡ effect_choice world.now process part.now e) }
{
    let elements = elements_of(bounds);
    if some_empty(bounds) || elements > MOST_ELEMENTS {
        return Ok(Effect::Fails(FaultKind::ArraySize));
    }
    let wanted = elements.saturating_mul(names.len());
    if world.live_elements().saturating_add(wanted) > MOST_ELEMENTS {
        return Ok(Effect::Fails(FaultKind::CoreFull));
    }
    let cells = new_arrays(alloc, kind, bounds, elements, names)?;
    Ok(Effect::MakesArrays(cells))
}

/// Arrays of these bounds: none may be empty or too large, and there is room for so many live elements only.
pub fn decide_arrays<'p>(
    world: &World<'p>,
    alloc: Global,
    process: usize,
    part: &Part<'p>,
    kind: Kind,
    names: &'p [Named],
    pairs: &'p [Pair],
    highs: &[Value],
) -> Result<Effect<'p>, AllocError>
    ensures { IfOk result (λ e. asked_choice world.now process part.now (asks.makes_arrays kind names.now (trees.pairs pairs.now) (map value highs.now)) ≡ effect_choice world.now process part.now e) }
{
    let bounds = bounds_of(alloc, pairs, highs)?;
    decide_bounded(world, alloc, process, part, kind, names, bounds.as_slice())
}
