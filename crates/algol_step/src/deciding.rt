//! What the action of a part does, decided from the world as it stands.

ghost use Rattle.std.specs.Prelude.{◌≡◌, IfOk};
ghost use Rattle.algol_meaning.specs.World as plain;
ghost use Rattle.algol_meaning.specs.Asks as asks;
ghost use Rattle.algol_cells.specs.SeenScope.{scoped};
ghost use Rattle.algol_cells.specs.SeenValue.{value};
ghost use Rattle.algol_cells.specs.SeenCell.{reference};
ghost use Rattle.algol_instances.specs.SeenInstance.{cell_or_none};
ghost use Rattle.algol_world.specs.SeenWorld.{world_of};
ghost use Rattle.algol_effect.specs.Effects.{asked_choice, effect_choice, here_in};

use algol_cells::{Cell, Reference, Value};
use algol_effect::Effect;
use algol_instances::{ancestor, cell_at};
use algol_rest::Rest;
use algol_rest_expr::Answer;
use algol_tree::{Line, Named, Whole};
use algol_world::{Part, Purpose, World};
use b67_deeds::Letter;
use std::alloc::{AllocError, Global};

/// The value of a simple variable, 0 for another cell.
fn value_in(cell: Option<&Cell<'_>>) -> Value
    ensures { value result ≡ plain.value_in (cell_or_none cell.entry) }
{
    match cell {
        Some(Cell::Simple(v)) => *v,
        _ => Value::Number(Whole::zero()),
    }
}

/// What a name means in a part: the cell of the instance that is the name's so many static parents up.
pub fn here<'p>(world: &World<'p>, part: &Part<'p>, n: &'p Named) -> Reference<'p>
    ensures { reference result ≡ here_in (scoped world.now.scopes) (world_of world.now) part.now.instance n.now }
{
    let up = world.scopes.use_of(n).up;
    Reference {
        instance: ancestor(&world.instances, up, part.instance),
        name: &n.name,
    }
}

/// The reading of a variable or parameter: a name is evaluated, a Reference is followed.
pub fn decide_read<'p>(
    world: &World<'p>,
    alloc: Global,
    process: usize,
    part: &Part<'p>,
    n: &'p Named,
) -> Result<Effect<'p>, AllocError>
    ensures { IfOk result (λ e. asked_choice world.now process part.now (asks.reads n.now) ≡ effect_choice world.now process part.now e) }
{
    let found = cell_at(&world.instances, here(world, part, n));
    match found {
        Some(Cell::Named(actual, instance)) => {
            let rest = Rest::of_value(alloc, &world.scopes, *actual)?;
            Ok(Effect::Evaluates(Part {
                instance: *instance,
                purpose: Purpose::NameRead,
                rest,
            }))
        }
        Some(Cell::Reference(r)) => {
            let read = value_in(cell_at(&world.instances, *r));
            Ok(Effect::Goes(Letter::Read, Answer::Value(read)))
        }
        _ => Ok(Effect::Goes(Letter::Read, Answer::Value(value_in(found)))),
    }
}

/// The reading of the result of a typed procedure.
pub fn decide_read_result<'p>(
    world: &World<'p>,
    process: usize,
    part: &Part<'p>,
    name: &'p Line,
) -> Effect<'p>
    ensures { asked_choice world.now process part.now (asks.reads_result name.now) ≡ effect_choice world.now process part.now result }
{
    let r = Reference {
        instance: part.instance,
        name,
    };
    let read = value_in(cell_at(&world.instances, r));
    Effect::Goes(Letter::Read, Answer::Value(read))
}
