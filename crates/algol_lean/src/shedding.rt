//! What an instance gives back once it is left.

ghost use Rattle.std.specs.Prelude.{◌≡◌, ◌+◌, ◌<◌, ◌^◌, MatchOption, slice_get};
ghost use Rattle.algol_meaning.specs.World as plain;
ghost use Rattle.algol_cells.specs.SeenCell as seen;
ghost use Rattle.algol_cells.specs.SeenCell.{reference};
ghost use Rattle.algol_instances.specs.Counting as counting;
ghost use Rattle.algol_world.specs.SeenWorld.{world_of};
ghost use Rattle.algol_perform.specs.Going.{owned};
ghost use Rattle.algol_lean.specs.Shed.{named_or_none, world_without, shed_of, all_shed};

use algol_cells::{Cell, Reference};
use algol_instances::{NamedCell, instance_at};
use algol_world::World;
use b67_list::discard;

/// Tests that an instance is left, or that there is none of that number.
fn is_left(world: &World<'_>, number: usize) -> bool
    ensures { result ≡ (plain.instance_at (world_of world.now) number).left }
{
    match instance_at(&world.instances, number) {
        None => true,
        Some(found) => found.left,
    }
}

/// Tests that a cell is an array.
fn is_array(cell: &Cell<'_>) -> bool
    ensures { result ≡ counting.cell_is_array (seen.cell cell.now) }
{
    match cell {
        Cell::Array(_) => true,
        _ => false,
    }
}

/// The cell of an instance at that place, from 0.
#[tactic(auto, using(algol_instances::proofs::Numbering::mapping))]
fn cell_under<'a, 'p>(world: &'a World<'p>, number: usize, at: usize) -> Option<&'a NamedCell<'p>>
    ensures cell { named_or_none result ≡ slice_get ((plain.instance_at (world_of world.now) number).cells) at }
    ensures within { MatchOption result (Unit {0}) (λ c. at + 1 < 2 ^ 64) }
{
    match instance_at(&world.instances, number) {
        None => None,
        Some(found) => found.cells.items().get(at),
    }
}

/// A number 0 stands in for what a cell holds, if it is an array.
fn give_back<'p>(world: &mut World<'p>, r: Reference<'p>, array: bool)
    ensures empty { world_of world.new ≡ world_without (world_of world.old) (reference r.entry) array }
    ensures same { world.new.scopes ≡ world.old.scopes }
{
    if array {
        discard(world.instances.take_cell(r));
    }
}

/// An instance that is left gives back its arrays.
pub fn shed<'p>(world: &mut World<'p>, number: usize)
    ensures shed { world_of world.new ≡ shed_of (world_of world.old) number }
    ensures same { world.new.scopes ≡ world.old.scopes }
{
    if !is_left(world, number) {
        return;
    }
    let mut at: usize = 0;
    'shedding: while let Some(c) = cell_under(world, number, at) {
        let array = is_array(&c.cell);
        let name = c.name;
        let r = Reference {
            instance: number,
            name,
        };
        give_back(world, r, array);
        at += 1;
    }
}

/// Instances that are left give back their arrays.
pub fn shed_all<'p>(world: &mut World<'p>, numbers: &[Option<usize>])
    ensures shed { world_of world.new ≡ all_shed (world_of world.old) (owned numbers.now) }
    ensures same { world.new.scopes ≡ world.old.scopes }
{
    'shedding: for number in numbers {
        if let Some(instance) = number {
            shed(world, *instance);
        }
    }
}
