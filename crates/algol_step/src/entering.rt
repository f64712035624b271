//! CASE, and the entry of a block.

ghost use Rattle.std.specs.Prelude.{◌≡◌};
ghost use Rattle.algol_meaning.specs.Asks as asks;
ghost use Rattle.algol_meaning.specs.Choice as choices;
ghost use Rattle.algol_meaning.specs.SeenTree.{stmts, body};
ghost use Rattle.algol_cells.specs.SeenValue.{value};
ghost use Rattle.algol_effect.specs.Effects.{asked_choice, effect_choice};

use algol_cells::{Value, whole_of};
use algol_effect::Effect;
use algol_rest_expr::Answer;
use algol_tree::{Body, Stmt};
use algol_world::{Part, World};
use b67_deeds::Letter;
use b67_num::FaultKind;

/// Tests that a list has a statement of that number, from 0.
fn nth_exists(number: i64, ss: &[Stmt]) -> bool
    ensures { result ≡ choices.nth_exists number (stmts ss.now) }
{
    0 <= number && number.unsigned_abs() < ss.len() as u64
}

/// The statement of a CASE: the one with the number that was computed, from 0.
pub fn decide_select<'p>(
    world: &World<'p>,
    process: usize,
    part: &Part<'p>,
    v: Value,
    ss: &'p [Stmt],
) -> Effect<'p>
    ensures { asked_choice world.now process part.now (asks.selects (value v) (stmts ss.now)) ≡ effect_choice world.now process part.now result }
{
    if nth_exists(whole_of(v).number(), ss) {
        Effect::Goes(Letter::Select, Answer::Done)
    } else {
        Effect::Fails(FaultKind::CaseIndex)
    }
}

/// The entry of a block.
pub fn decide_enter_block<'p>(
    world: &World<'p>,
    process: usize,
    part: &Part<'p>,
    b: &'p Body,
) -> Effect<'p>
    ensures { asked_choice world.now process part.now (asks.enters_block (body b.now)) ≡ effect_choice world.now process part.now result }
{
    Effect::EntersBlock(world.scopes.blocks.number_at(b.spot))
}
