//! The code of an expression's value, part by part.

ghost use Rattle.std.specs.Prelude.{◌≡◌, ◌+◌, ◌*◌, ◌≤◌, false, IsSome, OnOk};
ghost use Rattle.algol_tree.specs.declared.token.Spot.{Spot};
ghost use Rattle.algol_tree.specs.Image.{expr, call, variable};
ghost use Rattle.algol_tree.specs.Plain as tree;
ghost use Rattle.b67_segment.specs.declared.TheConstants.{MOST_SEGMENT_SYLLABLES};
ghost use Rattle.b67_segment.specs.Operators.{size};
ghost use Rattle.b67_segment.specs.Building.{level_set};
ghost use Rattle.b67_templates.specs.Paying.{given_syllables, inline};
ghost use Rattle.b67_emitter.specs.Values.{AreNear, meanings, HasCode, ValueEmitted, ValueWithExits, HasCall, CallEmitted, FilledEmitted, filled_syllables};
ghost use Rattle.b67_templates.specs.Fragments.{IsWholeNumber};
ghost use Rattle.b67_emit_expr.specs.Applying.{AppliedEmitted};
ghost use Rattle.b67_emit_expr.specs.Passing.{HasActual, ActualEmitted};
ghost use Rattle.b67_emit_expr.specs.Subscripting.{SubscriptEmitted, HasSubscripts, SubscriptsEmitted};

use crate::by_name::append_given;
use crate::naming::append_name;
use crate::operators::{append_ready, operator_for, truth_literal};
use crate::passing::{is_formal, passed_alone};
use algol_tree::{Call, Expr, Op, Variable};
use b67_emitter::{
    Names, aim, aim_exits, append_begun, append_branch, append_exit, append_moved, append_number,
    append_on_events, append_passed, append_plain, append_reference, couple_of, lows_of,
    takes_name,
};
use b67_ops::{BranchKind, Intrinsic, PlainKind};
use b67_segment::Builder;
use std::alloc::AllocError;
use std::slice::from_ref;

/// An operand: its value stands at the place after it.
#[cycle(values)]
pub fn operand(
    e: &Expr,
    names: &Names,
    out: &mut Builder,
    exits: &mut Vec<u16>,
) -> Result<(), AllocError>
    requires set { IsSome out.old.level }
    requires near { AreNear names.now }
    requires code { HasCode names.now (level_set out.old) (expr e.now) }
    requires room { size out.old.operators + inline (meanings names.now) (expr e.now) ≤ MOST_SEGMENT_SYLLABLES }
    ensures code { OnOk result (ValueEmitted names.now (level_set out.old) out.old out.new (expr e.now)) }
    ensures level { OnOk result (out.new.level ≡ out.old.level) }
    ensures size { OnOk result (size out.new.operators ≤ size out.old.operators + inline (meanings names.now) (expr e.now)) }
    ensures exits { OnOk result (exits.new.items ≡ exits.old.items) }
{
    let first = exits.len();
    value_with_exits(e, names, out, exits)?;
    aim_exits(out, exits, first);
    Ok(())
}

/// An operand, and an operator on it.
#[cycle(values)]
pub fn applied(
    kind: PlainKind,
    e: &Expr,
    names: &Names,
    out: &mut Builder,
    exits: &mut Vec<u16>,
) -> Result<(), AllocError>
    requires set { IsSome out.old.level }
    requires near { AreNear names.now }
    requires code { HasCode names.now (level_set out.old) (expr e.now) }
    requires room { size out.old.operators + inline (meanings names.now) (expr e.now) + 1 ≤ MOST_SEGMENT_SYLLABLES }
    ensures code { OnOk result (AppliedEmitted names.now (level_set out.old) out.old out.new kind (expr e.now)) }
    ensures level { OnOk result (out.new.level ≡ out.old.level) }
    ensures size { OnOk result (size out.new.operators ≤ size out.old.operators + inline (meanings names.now) (expr e.now) + 1) }
    ensures exits { OnOk result (exits.new.items ≡ exits.old.items) }
{
    operand(e, names, out, exits)?;
    append_plain(out, kind)
}

/// Two operands, and an operator on them.
#[cycle(values)]
fn calculated(
    op: Op,
    a: &Expr,
    b: &Expr,
    names: &Names,
    out: &mut Builder,
    exits: &mut Vec<u16>,
) -> Result<(), AllocError>
    requires set { IsSome out.old.level }
    requires near { AreNear names.now }
    requires code { HasCode names.now (level_set out.old) (tree.two op (expr a.now) (expr b.now)) }
    requires room { size out.old.operators + inline (meanings names.now) (tree.two op (expr a.now) (expr b.now)) ≤ MOST_SEGMENT_SYLLABLES }
    ensures code { OnOk result (ValueEmitted names.now (level_set out.old) out.old out.new (tree.two op (expr a.now) (expr b.now))) }
    ensures level { OnOk result (out.new.level ≡ out.old.level) }
    ensures size { OnOk result (size out.new.operators
        ≤ size out.old.operators + inline (meanings names.now) (tree.two op (expr a.now) (expr b.now))) }
    ensures exits { OnOk result (exits.new.items ≡ exits.old.items) }
{
    operand(a, names, out, exits)?;
    append_ready(out, op)?;
    operand(b, names, out, exits)?;
    append_plain(out, operator_for(op))
}

/// An actual that is not given by name: the value of an expression, or the reference to the cell of an array or of an event.
#[cycle(values)]
fn valued(
    e: &Expr,
    names: &Names,
    out: &mut Builder,
    exits: &mut Vec<u16>,
) -> Result<(), AllocError>
    requires set { IsSome out.old.level }
    requires near { AreNear names.now }
    requires code { HasActual names.now (level_set out.old) false (expr e.now) }
    requires room { size out.old.operators + inline (meanings names.now) (expr e.now) ≤ MOST_SEGMENT_SYLLABLES }
    ensures code { OnOk result (ActualEmitted names.now (level_set out.old) out.old out.new false (expr e.now)) }
    ensures level { OnOk result (out.new.level ≡ out.old.level) }
    ensures size { OnOk result (size out.new.operators ≤ size out.old.operators + inline (meanings names.now) (expr e.now)) }
    ensures exits { OnOk result (exits.new.items ≡ exits.old.items) }
{
    match passed_alone(e, names) {
        Some(name) => append_passed(out, couple_of(names, name), is_formal(names, name)),
        None => operand(e, names, out, exits),
    }
}

/// An actual, given by name or not.
#[cycle(values)]
fn given(
    e: &Expr,
    by_name: bool,
    names: &Names,
    out: &mut Builder,
    exits: &mut Vec<u16>,
) -> Result<(), AllocError>
    requires set { IsSome out.old.level }
    requires near { AreNear names.now }
    requires code { HasActual names.now (level_set out.old) by_name (expr e.now) }
    requires room { size out.old.operators + given_syllables by_name (inline (meanings names.now) (expr e.now)) ≤ MOST_SEGMENT_SYLLABLES }
    ensures code { OnOk result (ActualEmitted names.now (level_set out.old) out.old out.new by_name (expr e.now)) }
    ensures level { OnOk result (out.new.level ≡ out.old.level) }
    ensures size { OnOk result (size out.new.operators
        ≤ size out.old.operators + given_syllables by_name (inline (meanings names.now) (expr e.now))) }
    ensures exits { OnOk result (exits.new.items ≡ exits.old.items) }
{
    if by_name {
        append_given(e, names, out)
    } else {
        valued(e, names, out, exits)
    }
}

/// The actuals of a call or of a PROCESS in their order, and the entry.
#[cycle(values)]
pub fn filled(
    c: &Call,
    names: &Names,
    out: &mut Builder,
    exits: &mut Vec<u16>,
) -> Result<(), AllocError>
    requires set { IsSome out.old.level }
    requires near { AreNear names.now }
    requires code { HasCall names.now (level_set out.old) (call c.now) }
    requires room { size out.old.operators + filled_syllables names.now (call c.now) ≤ MOST_SEGMENT_SYLLABLES }
    ensures code { OnOk result (FilledEmitted names.now (level_set out.old) out.old out.new (call c.now)) }
    ensures level { OnOk result (out.new.level ≡ out.old.level) }
    ensures size { OnOk result (size out.new.operators ≤ size out.old.operators + filled_syllables names.now (call c.now)) }
    ensures exits { OnOk result (exits.new.items ≡ exits.old.items) }
{
    let actuals = c.actuals.items().as_slice();
    'actuals: for number in 0..actuals.len() {
        given(
            &actuals[number],
            takes_name(names, &c.name, number),
            names,
            out,
            exits,
        )?;
    }
    append_plain(out, PlainKind::Entr)
}

/// A call: its beginning, the actuals in their order, the entry.
#[cycle(values)]
pub fn called(
    c: &Call,
    names: &Names,
    out: &mut Builder,
    exits: &mut Vec<u16>,
) -> Result<(), AllocError>
    requires set { IsSome out.old.level }
    requires near { AreNear names.now }
    requires code { HasCall names.now (level_set out.old) (call c.now) }
    requires room { size out.old.operators + inline (meanings names.now) (tree.call (call c.now)) ≤ MOST_SEGMENT_SYLLABLES }
    ensures code { OnOk result (CallEmitted names.now (level_set out.old) out.old out.new (call c.now)) }
    ensures level { OnOk result (out.new.level ≡ out.old.level) }
    ensures size { OnOk result (size out.new.operators ≤ size out.old.operators + inline (meanings names.now) (tree.call (call c.now))) }
    ensures exits { OnOk result (exits.new.items ≡ exits.old.items) }
{
    append_begun(out, couple_of(names, &c.name))?;
    filled(c, names, out, exits)
}

/// A subscript, moved by this lower bound.
#[cycle(values)]
fn subscript(
    e: &Expr,
    low: i64,
    names: &Names,
    out: &mut Builder,
    exits: &mut Vec<u16>,
) -> Result<(), AllocError>
    requires set { IsSome out.old.level }
    requires near { AreNear names.now }
    requires code { HasCode names.now (level_set out.old) (expr e.now) }
    requires whole { IsWholeNumber low }
    requires room { size out.old.operators + inline (meanings names.now) (expr e.now) + 21 ≤ MOST_SEGMENT_SYLLABLES }
    ensures code { OnOk result (SubscriptEmitted names.now (level_set out.old) out.old out.new low (expr e.now)) }
    ensures level { OnOk result (out.new.level ≡ out.old.level) }
    ensures size { OnOk result (size out.new.operators ≤ size out.old.operators + inline (meanings names.now) (expr e.now) + 21) }
    ensures exits { OnOk result (exits.new.items ≡ exits.old.items) }
{
    operand(e, names, out, exits)?;
    append_moved(out, low)
}

/// The subscripts of an element: the last of them lies under the reference of the array, or under the descriptor of the row to which the
/// first has led.
#[cycle(values)]
pub fn subscripts(
    v: &Variable,
    names: &Names,
    out: &mut Builder,
    exits: &mut Vec<u16>,
) -> Result<(), AllocError>
    requires set { IsSome out.old.level }
    requires near { AreNear names.now }
    requires code { HasSubscripts names.now (level_set out.old) (variable v.now) }
    requires room { size out.old.operators + inline (meanings names.now) (tree.variable (variable v.now)) ≤ MOST_SEGMENT_SYLLABLES }
    ensures code { OnOk result (SubscriptsEmitted names.now (level_set out.old) out.old out.new (variable v.now)) }
    ensures level { OnOk result (out.new.level ≡ out.old.level) }
    ensures size { OnOk result (size out.new.operators + 1 ≤ size out.old.operators + inline (meanings names.now) (tree.variable (variable v.now))) }
    ensures exits { OnOk result (exits.new.items ≡ exits.old.items) }
{
    let lows = lows_of(names, &v.name).list.items().as_slice();
    let subs = v.subs.items().as_slice();
    subscript(&subs[0], lows[0], names, out, exits)?;
    append_reference(out, couple_of(names, &v.name))?;
    if subs.len() > 1 {
        append_plain(out, PlainKind::Nxln)?;
        subscript(&subs[1], lows[1], names, out, exits)?;
        append_plain(out, PlainKind::Exch)?;
    }
    Ok(())
}

/// The value of a variable: an element is read, and a name by itself is read or called.
#[cycle(values)]
fn read(
    v: &Variable,
    names: &Names,
    out: &mut Builder,
    exits: &mut Vec<u16>,
) -> Result<(), AllocError>
    requires set { IsSome out.old.level }
    requires near { AreNear names.now }
    requires code { HasCode names.now (level_set out.old) (tree.variable (variable v.now)) }
    requires room { size out.old.operators + inline (meanings names.now) (tree.variable (variable v.now)) ≤ MOST_SEGMENT_SYLLABLES }
    ensures code { OnOk result (ValueEmitted names.now (level_set out.old) out.old out.new (tree.variable (variable v.now))) }
    ensures level { OnOk result (out.new.level ≡ out.old.level) }
    ensures size { OnOk result (size out.new.operators ≤ size out.old.operators + inline (meanings names.now) (tree.variable (variable v.now))) }
    ensures exits { OnOk result (exits.new.items ≡ exits.old.items) }
{
    if v.subs.items().is_empty() {
        append_name(&v.name, names, out)
    } else {
        subscripts(v, names, out, exits)?;
        append_plain(out, PlainKind::Nxlv)
    }
}

/// A conditional expression: past its first part it is left by an exit.
#[cycle(values)]
fn chosen(
    condition: &Expr,
    x: &Expr,
    y: &Expr,
    names: &Names,
    out: &mut Builder,
    exits: &mut Vec<u16>,
) -> Result<(), AllocError>
    requires set { IsSome out.old.level }
    requires near { AreNear names.now }
    requires condition { HasCode names.now (level_set out.old) (expr condition.now) }
    requires first { HasCode names.now (level_set out.old) (expr x.now) }
    requires second { HasCode names.now (level_set out.old) (expr y.now) }
    requires room { size out.old.operators + inline (meanings names.now) (expr condition.now) + inline (meanings names.now) (expr x.now) + inline (meanings names.now) (expr y.now) + 6
        ≤ MOST_SEGMENT_SYLLABLES }
    ensures code { OnOk result ((spot : Spot) → ValueWithExits names.now (level_set out.old) out.old out.new exits.old.items exits.new.items
        (tree.if (expr condition.now) (expr x.now) (expr y.now) spot)) }
    ensures level { OnOk result (out.new.level ≡ out.old.level) }
    ensures size { OnOk result (size out.new.operators
        ≤ size out.old.operators + inline (meanings names.now) (expr condition.now) + inline (meanings names.now) (expr x.now) + inline (meanings names.now) (expr y.now) + 6) }
{
    operand(condition, names, out, exits)?;
    let otherwise = append_branch(out, BranchKind::Brfl)?;
    value_with_exits(x, names, out, exits)?;
    append_exit(out, BranchKind::Brun, exits)?;
    aim(out, &[otherwise]);
    value_with_exits(y, names, out, exits)
}

/// The code of a value, with the exits out of it after those that there are.
#[cycle(values)]
fn value_with_exits(
    e: &Expr,
    names: &Names,
    out: &mut Builder,
    exits: &mut Vec<u16>,
) -> Result<(), AllocError>
    requires set { IsSome out.old.level }
    requires near { AreNear names.now }
    requires code { HasCode names.now (level_set out.old) (expr e.now) }
    requires room { size out.old.operators + inline (meanings names.now) (expr e.now) ≤ MOST_SEGMENT_SYLLABLES }
    ensures code { OnOk result (ValueWithExits names.now (level_set out.old) out.old out.new exits.old.items exits.new.items (expr e.now)) }
    ensures level { OnOk result (out.new.level ≡ out.old.level) }
    ensures size { OnOk result (size out.new.operators ≤ size out.old.operators + inline (meanings names.now) (expr e.now)) }
{
    match e {
        Expr::Number(value, _) => append_number(out, *value),
        Expr::Truth(value, _) => append_plain(out, truth_literal(*value)),
        Expr::Variable(v) => read(v, names, out, exits),
        Expr::Paren(e, _) => value_with_exits(e, names, out, exits),
        Expr::Plus(e, _) => value_with_exits(e, names, out, exits),
        Expr::Neg(e, _) => applied(PlainKind::Chsn, e, names, out, exits),
        Expr::Not(e, _) => applied(PlainKind::Lnot, e, names, out, exits),
        Expr::Two(op, a, b) => calculated(*op, a, b, names, out, exits),
        Expr::If(condition, x, y, _) => chosen(condition, x, y, names, out, exits),
        Expr::Call(c) => called(c, names, out, exits),
        Expr::Happened(event, _) => {
            append_on_events(Intrinsic::Happened, from_ref(event), names, out)
        }
        Expr::Available(event, _) => {
            append_on_events(Intrinsic::Available, from_ref(event), names, out)
        }
        Expr::Fix(event, _) => append_on_events(Intrinsic::Fix, from_ref(event), names, out),
        Expr::WaitAny(events, _) => {
            append_on_events(Intrinsic::WaitAny, events.items(), names, out)
        }
    }
}
