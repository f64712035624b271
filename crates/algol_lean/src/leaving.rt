//! The instances that the next action of a process may leave.

ghost use Rattle.std.specs.Prelude.{◌≡◌, IfOk};
ghost use Rattle.algol_meaning.specs.World as plain;
ghost use Rattle.algol_meaning.specs.Critical as critical;
ghost use Rattle.algol_cells.specs.SeenScope.{scoped};
ghost use Rattle.algol_rest.specs.SeenRest.{rest_asked};
ghost use Rattle.algol_world.specs.SeenWorld.{world_of, process_of};
ghost use Rattle.algol_perform.specs.Going.{instance_in, own_in, owned, AreLeft};
ghost use Rattle.algol_lean.specs.Shed as shedding;

use algol_cells::Value;
use algol_instances::ancestor;
use algol_perform::part_under;
use algol_rest::Ask;
use algol_rest_expr::{Given, Place};
use algol_tree::{Body, EventName, Line, List, Named, Pair, PhraseText, Stmt};
use algol_world::{Part, World, is_evaluation};
use std::alloc::{AllocError, Global};

/// The instance in which the innermost part of a process goes on.
#[tactic(auto, using(algol_perform::proofs::Newer::part_laws))]
pub fn innermost(world: &World<'_>, process: usize) -> usize
    ensures { result ≡ instance_in (process_of world.now process).todo }
{
    match part_under(world, process, 0) {
        None => 0,
        Some(part) => part.instance,
    }
}

/// The instance that a part has for itself.
fn own_instance(part: &Part<'_>) -> Option<usize>
    ensures { result ≡ own_in part.now }
{
    if is_evaluation(part.purpose) {
        None
    } else {
        Some(part.instance)
    }
}

/// Tests that it is this instance.
fn is_this(own: Option<usize>, instance: usize) -> bool
    ensures { result ≡ critical.is_this own instance }
{
    match own {
        None => false,
        Some(number) => number == instance,
    }
}

/// The own instances of the parts of a process that are newer than the part of an instance, the newest first.
#[tactic(auto, using(algol_perform::proofs::Newer::part_laws))]
fn newer_than(
    world: &World<'_>,
    alloc: Global,
    process: usize,
    instance: usize,
) -> Result<List<Option<usize>>, AllocError>
    ensures { IfOk result (λ newer. AreLeft newer (process_of world.now process).todo instance) }
{
    let mut newer = Vec::new(alloc);
    'seeking: while let Some(part) = part_under(world, process, newer.len()) {
        let own = own_instance(part);
        if is_this(own, instance) {
            return Ok(List::of(newer));
        }
        newer.push(own)?;
    }
    Ok(List::of(newer))
}

/// The instances that an action may leave beside that of the innermost part of its process, whose head asks for this.
#[tactic(auto, using(crate::proofs::Passing::passing))]
fn passed_by<'p>(
    world: &World<'p>,
    alloc: Global,
    process: usize,
    part: &Part<'p>,
    ask: &Ask<'_, 'p>,
) -> Result<List<Option<usize>>, AllocError>
    ensures { IfOk result (λ is. owned is ≡ shedding.passed_by (scoped world.now.scopes) (world_of world.now) (process_of world.now process).todo part.now.instance (rest_asked ask.now)) }
{
    match ask {
        Ask::GoesTo(n) => {
            let up = world.scopes.use_of(*n).up;
            newer_than(
                world,
                alloc,
                process,
                ancestor(&world.instances, up, part.instance),
            )
        }
        _ => Ok(List::of(Vec::new(alloc))),
    }
}

/// What an [`Ask`] refers to. The kit's borrow checker wants these types named where an ask that another crate made is lent.
type Asked<'a, 'p> = (
    &'a [Given<'p>],
    &'a Place<'p>,
    &'a [Value],
    &'p [Stmt],
    &'p Body,
    &'p [Pair],
    &'p [PhraseText],
    &'p [Named],
    &'p [EventName],
    &'p Line,
);

/// The instances that the next action of a process may leave beside that of its innermost part.
pub fn passed<'p>(
    world: &World<'p>,
    alloc: Global,
    process: usize,
) -> Result<List<Option<usize>>, AllocError>
    ensures { IfOk result (λ is. owned is ≡ shedding.passed_in (scoped world.now.scopes) (world_of world.now) (process_of world.now process).todo) }
{
    match part_under(world, process, 0) {
        None => Ok(List::of(Vec::new(alloc))),
        Some(part) => {
            let _asked: Option<Asked<'_, 'p>> = None;
            let ask = part.rest.ask();
            passed_by(world, alloc, process, part, &ask)
        }
    }
}
