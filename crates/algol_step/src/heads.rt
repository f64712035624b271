//! What any head of a part does.

ghost use Rattle.std.specs.Prelude.{◌≡◌, IfOk};
ghost use Rattle.algol_meaning.specs.Asks as asks;
ghost use Rattle.algol_cells.specs.SeenScope.{scoped};
ghost use Rattle.algol_rest.specs.SeenRest.{rest, rest_asked};
ghost use Rattle.algol_effect.specs.Effects.{asked_choice, effect_choice};

use crate::calling::{decide_enter, decide_start};
use crate::deciding::{decide_read, decide_read_result};
use crate::entering::{decide_enter_block, decide_select};
use crate::evaluating::{decide_index, decide_pass, decide_read_element, decide_resolve};
use crate::lists::held;
use crate::making::decide_arrays;
use crate::stating::{
    decide_act, decide_event, decide_fault, decide_giving, decide_giving_place, decide_go_to,
    decide_leaving, decide_store, decide_turn,
};
use crate::testing::decide_test;
use crate::writing::decide_line;
use algol_cells::Value;
use algol_effect::Effect;
use algol_rest::Ask;
use algol_rest_expr::{Given, Place};
use algol_tree::{Body, EventName, Line, Named, Pair, PhraseText, Stmt};
use algol_world::{Part, World};
use std::alloc::{AllocError, Global};

/// What a head does that asks for this.
pub fn decide<'p>(
    world: &World<'p>,
    alloc: Global,
    process: usize,
    part: &Part<'p>,
    ask: &Ask<'_, 'p>,
) -> Result<Effect<'p>, AllocError>
    ensures { IfOk result (λ e. asked_choice world.now process part.now (rest_asked ask.now) ≡ effect_choice world.now process part.now e) }
{
    match ask {
        Ask::Nothing => Ok(Effect::Nothing),
        Ask::Reads(n) => decide_read(world, alloc, process, part, *n),
        Ask::ReadsElement(n, ks, v) => {
            decide_read_element(world, alloc, process, part, *n, *ks, *v)
        }
        Ask::Indexes(n, ks, v) => decide_index(world, alloc, process, part, *n, *ks, *v),
        Ask::Tests(test, es) => decide_test(world, alloc, process, part, *test, *es),
        Ask::Fails(fault) => Ok(decide_fault(world, process, part, *fault)),
        Ask::Enters(n, gs) => decide_enter(world, alloc, process, part, *n, held(gs)),
        Ask::Passes(n) => decide_pass(world, alloc, process, part, *n),
        Ask::Resolves(n) => decide_resolve(world, alloc, process, part, *n),
        Ask::ReadsResult(name) => Ok(decide_read_result(world, process, part, *name)),
        Ask::Leaves => Ok(decide_leaving(world, process, part)),
        Ask::LeavesWith(v) => Ok(decide_giving(world, process, part, *v)),
        Ask::LeavesAt(place) => decide_giving_place(world, alloc, process, part, *place),
        Ask::Stores(place, v) => decide_store(world, alloc, process, part, *place, *v),
        Ask::Selects(v, ss) => Ok(decide_select(world, process, part, *v, *ss)),
        Ask::Turns => Ok(decide_turn(world, process, part)),
        Ask::GoesTo(n) => Ok(decide_go_to(world, process, part, *n)),
        Ask::EntersBlock(b) => Ok(decide_enter_block(world, process, part, *b)),
        Ask::Starts(n, gs, task) => decide_start(world, alloc, process, part, *n, held(gs), *task),
        Ask::Acts(act, n) => Ok(decide_act(world, process, part, *act, *n)),
        Ask::Writes(phrases, vs) => decide_line(world, alloc, process, part, *phrases, *vs),
        Ask::MakesArrays(kind, ns, pairs, vs) => {
            decide_arrays(world, alloc, process, part, *kind, *ns, *pairs, *vs)
        }
        Ask::MakesEvent(n) => Ok(decide_event(world, process, part, *n)),
    }
}

/// What an [`Ask`] refers to. The kit's borrow checker wants these types named where an ask that another crate made is lent.
type Asked<'a, 'p> = (
    &'a [Given<'p>],
    &'a Place<'p>,
    &'a [Value],
    &'p [Stmt],
    &'p Body,
    &'p [Pair],
    &'p [PhraseText],
    &'p [Named],
    &'p [EventName],
    &'p Line,
);

/// What the head of a part does.
pub fn decide_part<'p>(
    world: &World<'p>,
    alloc: Global,
    process: usize,
    part: &Part<'p>,
) -> Result<Effect<'p>, AllocError>
    ensures { IfOk result (λ e. asked_choice world.now process part.now (asks.ask (rest (scoped world.now.scopes) part.now.rest)) ≡ effect_choice world.now process part.now e) }
{
    let _asked: Option<Asked<'_, 'p>> = None;
    let ask = part.rest.ask();
    decide(world, alloc, process, part, &ask)
}
