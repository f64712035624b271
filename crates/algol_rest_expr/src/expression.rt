//! The silent steps of expressions, one after another: nothing here is recursive, and nothing is copied.

ghost use Rattle.std.specs.Prelude.{◌≡◌, ◌+◌, [], ◌∷◌, ◌++◌, length, pos, IfOk, Some};
ghost use Rattle.algol_meaning.specs.Rest as rest;
ghost use Rattle.algol_meaning.specs.Value as plain;
ghost use Rattle.algol_meaning.specs.Settle as settling;
ghost use Rattle.algol_meaning.specs.SeenTree.{expr, exprs, maybe_named};
ghost use Rattle.algol_meaning.specs.SeenTree as seen;
ghost use Rattle.algol_tree.specs.Scopes as scoping;
ghost use Rattle.algol_tree.specs.Plain as tree;
ghost use Rattle.algol_tree.specs.Sorts.{procedure_in};
ghost use Rattle.algol_meaning.specs.Operators as operators;
ghost use Rattle.algol_cells.specs.SeenValue.{value};
ghost use Rattle.algol_cells.specs.SeenScope.{scoped};
ghost use Rattle.algol_cells.specs.SeenCell.{cell};
ghost use Rattle.algol_rest_expr.specs.SeenExpression.{rest_answered, place, done, all_done, sorts_from, sorts_after, hole, refilled, half, Moves, HalfComes, Calculates, Supplies, IsSupplied, expr_size, exprs_size, variable_size, call_size, weigh_frames};

use crate::around::{add_given, no_givens, no_subscripts, surround};
use crate::part::{Answer, Control, Frame, Given, Head, Outcome, Place, Supplied, Supply};
use algol_cells::{Cell, Scopes, Stack, Value, inverted, negated, result_of, truth_of};
use algol_tree::{Call, EventTest, Expr, List, Named, Op, Variable, Whole};
use b67_list::discard;
use std::alloc::{AllocError, Global};
use std::slice;

/// A name by itself: a call where it names a procedure.
pub fn alone<'p>(alloc: Global, scopes: &Scopes<'p>, n: &'p Named) -> Head<'p>
    ensures { settling.named_of (procedure_in (settling.sort_at (scoped scopes.now) n.now)) n.now ≡ rest.busy (hole (scoped scopes.now) result) }
{
    match scopes.procedure(n) {
        Some(_) => Head::Enter(n, no_givens(alloc)),
        None => Head::Read(n),
    }
}

/// An operator whose operands are values.
pub fn calculated<'p>(op: Op, v: Value, w: Value) -> Control<'p>
    ensures { (sc : scoping.Scopes) → Calculates sc (settling.after_result op (value v) (value w) (operators.result_of op (value v) (value w))) result }
{
    match result_of(op, &v, &w) {
        Ok(x) => Control::Value(x),
        Err(fault) => Control::Found(Head::Broken(op, v, w, fault)),
    }
}

/// The first subscript of a variable, with the expressions after it.
fn first_subscript<'p>(
    alloc: Global,
    scopes: &Scopes<'p>,
    n: &'p Named,
    e: &'p Expr,
    es: &'p [Expr],
    frames: &mut Stack<Frame<'p>>,
) -> Result<Control<'p>, AllocError>
    ensures { IfOk result (λ c. Moves (scoped scopes.now) (refilled (scoped scopes.now) frames.old (settling.settle (scoped scopes.now) (tree.variable (tree.subscripted n.now (tree.more (expr e.now) (exprs es.now)))))) (2 + exprs_size (tree.more (expr e.now) (exprs es.now)) + weigh_frames frames.old) c frames.new) }
{
    surround(frames, Frame::Subscript(n, no_subscripts(alloc), es))?;
    Ok(Control::Eval(e))
}

/// A variable: its subscripts come first.
pub fn variable<'p>(
    alloc: Global,
    scopes: &Scopes<'p>,
    n: &'p Named,
    es: &'p [Expr],
    frames: &mut Stack<Frame<'p>>,
) -> Result<Control<'p>, AllocError>
    ensures { IfOk result (λ c. Moves (scoped scopes.now) (refilled (scoped scopes.now) frames.old (settling.settle (scoped scopes.now) (tree.variable (tree.subscripted n.now (exprs es.now))))) (2 + exprs_size (exprs es.now) + weigh_frames frames.old) c frames.new) }
{
    match es.split_first() {
        None => Ok(Control::Found(alone(alloc, scopes, n))),
        Some((e, rest)) => { first_subscript(alloc, scopes, n, e, rest, frames) }
    }
}

/// A variable whose last subscript so far has this value, with the expressions after it.
pub fn subscripted<'p>(n: &'p Named, ks: List<usize>, v: Value, es: &'p [Expr]) -> Head<'p>
    ensures { (sc : scoping.Scopes) → settling.subscripted_of n.now ks (rest.val (value v)) (exprs es.now) ≡ rest.busy (hole sc result) }
{
    match es.split_first() {
        None => Head::Element(n, ks, v),
        Some((e, rest)) => Head::Index(n, ks, v, e, rest),
    }
}

/// The name of an actual that is a name by itself.
pub fn name_alone<'p>(e: &'p Expr) -> Option<&'p Named>
    ensures { maybe_named result ≡ tree.name_alone (expr e.now) }
{
    match e {
        Expr::Variable(v) => without_subscripts(&v.name, v.subs.items()),
        _ => None,
    }
}

/// The name of a variable without subscripts.
fn without_subscripts<'p>(n: &'p Named, es: &'p [Expr]) -> Option<&'p Named>
    ensures { maybe_named result ≡ tree.name_alone (tree.variable (tree.subscripted n.now (exprs es.now))) }
{
    match es.split_first() {
        None => Some(n),
        Some(_) => None,
    }
}

/// One more actual is done.
#[tactic(auto, using(crate::proofs::Supplying::supply_laws))]
fn further<'p>(
    scopes: &Scopes<'p>,
    callee: &'p Named,
    mut gs: List<Given<'p>>,
    given: Given<'p>,
    rest: &'p [Expr],
) -> Result<Supply<'p>, AllocError>
    ensures { IfOk result (λ s. IsSupplied (scoped scopes.now) callee.now rest.now (settling.settle_actuals (scoped scopes.now) (exprs rest.now) (sorts_after (scoped scopes.now) callee.now gs.entry) (all_done gs.entry ++ done given.entry ∷ [])) (exprs_size (exprs rest.now)) s) }
{
    add_given(&mut gs, given)?;
    Ok(Supply::Further(gs))
}

/// An actual that is a name by itself and not by value.
fn supply_alone<'p>(
    scopes: &Scopes<'p>,
    callee: &'p Named,
    gs: List<Given<'p>>,
    n: &'p Named,
    e: &'p Expr,
    rest: &'p [Expr],
) -> Result<Supply<'p>, AllocError>
    requires { tree.name_alone (expr e.now) ≡ Some n.now }
    ensures { IfOk result (λ s. IsSupplied (scoped scopes.now) callee.now rest.now (settling.other_of (scoped scopes.now) (Some n.now) (expr e.now) (all_done gs.entry) (sorts_after (scoped scopes.now) callee.now gs.entry) (exprs rest.now) (settling.settle_actuals (scoped scopes.now) (exprs rest.now) (sorts_after (scoped scopes.now) callee.now gs.entry))) (exprs_size (exprs rest.now)) s) }
{
    match scopes.procedure(n) {
        Some(_) => further(scopes, callee, gs, Given::Names(e), rest),
        None => {
            if scopes.is_formal(n) {
                Ok(Supply::Stopped(Supplied::Pass(gs, n, rest)))
            } else {
                further(scopes, callee, gs, Given::Refers(n), rest)
            }
        }
    }
}

/// An actual that is not by value.
fn supply_other<'p>(
    scopes: &Scopes<'p>,
    callee: &'p Named,
    gs: List<Given<'p>>,
    e: &'p Expr,
    rest: &'p [Expr],
) -> Result<Supply<'p>, AllocError>
    ensures { IfOk result (λ s. IsSupplied (scoped scopes.now) callee.now rest.now (settling.other_of (scoped scopes.now) (tree.name_alone (expr e.now)) (expr e.now) (all_done gs.entry) (sorts_after (scoped scopes.now) callee.now gs.entry) (exprs rest.now) (settling.settle_actuals (scoped scopes.now) (exprs rest.now) (sorts_after (scoped scopes.now) callee.now gs.entry))) (exprs_size (exprs rest.now)) s) }
{
    match name_alone(e) {
        Some(n) => supply_alone(scopes, callee, gs, n, e, rest),
        None => further(scopes, callee, gs, Given::Names(e), rest),
    }
}

/// An actual that has a parameter, by value or not.
fn supply_one<'p>(
    scopes: &Scopes<'p>,
    callee: &'p Named,
    gs: List<Given<'p>>,
    by_value: bool,
    e: &'p Expr,
    rest: &'p [Expr],
) -> Result<Supply<'p>, AllocError>
    ensures { IfOk result (λ s. IsSupplied (scoped scopes.now) callee.now rest.now (settling.actual_of (scoped scopes.now) by_value (expr e.now) (settling.settle (scoped scopes.now) (expr e.now)) (all_done gs.entry) (sorts_after (scoped scopes.now) callee.now gs.entry) (exprs rest.now) (settling.settle_actuals (scoped scopes.now) (exprs rest.now) (sorts_after (scoped scopes.now) callee.now gs.entry))) (1 + expr_size (expr e.now) + exprs_size (exprs rest.now)) s) }
{
    if by_value {
        Ok(Supply::Stopped(Supplied::Value(gs, e, rest)))
    } else {
        supply_other(scopes, callee, gs, e, rest)
    }
}

/// The next actual of a call.
fn supply<'p>(
    scopes: &Scopes<'p>,
    callee: &'p Named,
    gs: List<Given<'p>>,
    e: &'p Expr,
    rest: &'p [Expr],
) -> Result<Supply<'p>, AllocError>
    ensures { IfOk result (λ s. IsSupplied (scoped scopes.now) callee.now rest.now (settling.settle_actuals (scoped scopes.now) (tree.more (expr e.now) (exprs rest.now)) (sorts_from (scoped scopes.now) callee.now (length gs.entry)) (all_done gs.entry)) (1 + expr_size (expr e.now) + exprs_size (exprs rest.now)) s) }
{
    match scopes.is_by_value(callee, gs.items().len()) {
        None => Ok(Supply::Stopped(Supplied::Given(gs))),
        Some(by_value) => supply_one(scopes, callee, gs, by_value, e, rest),
    }
}

/// The actuals of a call from the next one on: up to one that is not done at once.
pub fn supplied<'p>(
    scopes: &Scopes<'p>,
    callee: &'p Named,
    before: List<Given<'p>>,
    actuals: &'p [Expr],
) -> Result<Supplied<'p>, AllocError>
    ensures { IfOk result (λ s. Supplies (scoped scopes.now) callee.now (settling.settle_actuals (scoped scopes.now) (exprs actuals.now) (sorts_from (scoped scopes.now) callee.now (length before.entry)) (all_done before.entry)) (exprs_size (exprs actuals.now)) s) }
{
    let mut gs = before;
    let mut es = actuals;
    'supplying: while let Some((e, rest)) = es.split_first() {
        match supply(scopes, callee, gs, e, rest) {
            Ok(Supply::Further(more)) => gs = more,
            Ok(Supply::Stopped(supplied)) => return Ok(supplied),
            Err(error) => return Err(error),
        }
        es = rest;
    }
    Ok(Supplied::Given(gs))
}

/// A call within an expression, of which some actuals are done.
pub fn call<'p>(
    scopes: &Scopes<'p>,
    callee: &'p Named,
    gs: List<Given<'p>>,
    es: &'p [Expr],
    frames: &mut Stack<Frame<'p>>,
) -> Result<Control<'p>, AllocError>
    ensures { IfOk result (λ c. Moves (scoped scopes.now) (refilled (scoped scopes.now) frames.old (settling.called_of callee.now (settling.settle_actuals (scoped scopes.now) (exprs es.now) (sorts_from (scoped scopes.now) callee.now (length gs.entry)) (all_done gs.entry)))) (1 + exprs_size (exprs es.now) + weigh_frames frames.old) c frames.new) }
{
    match supplied(scopes, callee, gs, es) {
        Ok(Supplied::Given(gs)) => Ok(Control::Found(Head::Enter(callee, gs))),
        Ok(Supplied::Pass(gs, n, es)) => Ok(Control::Found(Head::Pass(callee, gs, n, es))),
        Ok(Supplied::Value(gs, e, es)) => {
            surround(frames, Frame::Argument(callee, gs, es))?;
            Ok(Control::Eval(e))
        }
        Err(error) => Err(error),
    }
}

/// A call within an expression.
fn first_call<'p>(
    alloc: Global,
    scopes: &Scopes<'p>,
    n: &'p Named,
    es: &'p [Expr],
    frames: &mut Stack<Frame<'p>>,
) -> Result<Control<'p>, AllocError>
    ensures { IfOk result (λ c. Moves (scoped scopes.now) (refilled (scoped scopes.now) frames.old (settling.settle (scoped scopes.now) (tree.call (tree.called n.now (exprs es.now))))) (2 + exprs_size (exprs es.now) + weigh_frames frames.old) c frames.new) }
{
    call(scopes, n, no_givens(alloc), es, frames)
}

/// One silent step of an expression.
pub fn eval<'p>(
    alloc: Global,
    scopes: &Scopes<'p>,
    e: &'p Expr,
    frames: &mut Stack<Frame<'p>>,
) -> Result<Control<'p>, AllocError>
    ensures { IfOk result (λ c. Moves (scoped scopes.now) (refilled (scoped scopes.now) frames.old (settling.settle (scoped scopes.now) (expr e.now))) (expr_size (expr e.now) + weigh_frames frames.old) c frames.new) }
{
    match e {
        Expr::Number(number, _) => Ok(Control::Value(Value::Number(*number))),
        Expr::Truth(b, _) => Ok(Control::Value(Value::Truth(*b))),
        Expr::Variable(v) => variable(alloc, scopes, &v.name, v.subs.items(), frames),
        Expr::Call(c) => first_call(alloc, scopes, &c.name, c.actuals.items(), frames),
        Expr::Happened(event, _) => Ok(Control::Found(Head::Tests(
            EventTest::Happened,
            slice::from_ref(event),
        ))),
        Expr::Available(event, _) => Ok(Control::Found(Head::Tests(
            EventTest::Available,
            slice::from_ref(event),
        ))),
        Expr::Fix(event, _) => Ok(Control::Found(Head::Tests(
            EventTest::Fix,
            slice::from_ref(event),
        ))),
        Expr::WaitAny(events, _) => Ok(Control::Found(Head::Tests(
            EventTest::WaitAny,
            events.items().as_slice(),
        ))),
        Expr::Paren(e, _) | Expr::Plus(e, _) => Ok(Control::Eval(e)),
        Expr::Neg(e, _) => {
            surround(frames, Frame::Negated)?;
            Ok(Control::Eval(e))
        }
        Expr::Not(e, _) => {
            surround(frames, Frame::Inverted)?;
            Ok(Control::Eval(e))
        }
        Expr::Two(op, a, b) => {
            surround(frames, Frame::Left(*op, b))?;
            Ok(Control::Eval(a))
        }
        Expr::If(c, x, y, _) => {
            surround(frames, Frame::Condition(x, y))?;
            Ok(Control::Eval(c))
        }
    }
}

/// The silent step of one frame, once what is inside it has this value.
pub fn outward<'p>(
    scopes: &Scopes<'p>,
    v: Value,
    frame: Frame<'p>,
    frames: &mut Stack<Frame<'p>>,
) -> Result<Control<'p>, AllocError>
    ensures { IfOk result (λ c. Moves (scoped scopes.now) (refilled (scoped scopes.now) (frame.entry ∷ frames.old) (rest.val (value v))) (weigh_frames (frame.entry ∷ frames.old)) c frames.new) }
{
    match frame {
        Frame::Subscript(n, ks, es) => Ok(Control::Found(subscripted(n, ks, v, es))),
        Frame::Argument(n, gs, es) => next_argument(scopes, n, gs, v, es, frames),
        Frame::Left(op, b) => {
            surround(frames, Frame::Right(op, v))?;
            Ok(Control::Eval(b))
        }
        Frame::Right(op, w) => Ok(calculated(op, w, v)),
        Frame::Negated => Ok(Control::Value(negated(v))),
        Frame::Inverted => Ok(Control::Value(inverted(v))),
        Frame::Condition(x, y) => Ok(Control::Eval(if truth_of(v) { x } else { y })),
    }
}

/// A call one of whose actuals has this value.
#[tactic(auto, using(crate::proofs::Supplying::supply_laws))]
fn next_argument<'p>(
    scopes: &Scopes<'p>,
    callee: &'p Named,
    mut gs: List<Given<'p>>,
    v: Value,
    es: &'p [Expr],
    frames: &mut Stack<Frame<'p>>,
) -> Result<Control<'p>, AllocError>
    ensures { IfOk result (λ c. Moves (scoped scopes.now) (refilled (scoped scopes.now) frames.old (settling.called_of callee.now (settling.settle_actuals (scoped scopes.now) (exprs es.now) (sorts_after (scoped scopes.now) callee.now gs.entry) (all_done gs.entry ++ rest.valued (value v) ∷ [])))) (1 + exprs_size (exprs es.now) + weigh_frames frames.old) c frames.new) }
{
    add_given(&mut gs, Given::Valued(v))?;
    call(scopes, callee, gs, es, frames)
}

/// The silent steps of an expression up to its head, or to its value.
#[tactic(auto, using(crate::proofs::Frames::busy_laws))]
pub fn evaluate<'p>(
    alloc: Global,
    scopes: &Scopes<'p>,
    from: Control<'p>,
    frames: &mut Stack<Frame<'p>>,
) -> Result<Outcome<'p>, AllocError>
    ensures { IfOk result (λ found. HalfComes (scoped scopes.now) (refilled (scoped scopes.now) frames.old (half (scoped scopes.now) from.entry)) found frames.new) }
{
    let mut control = from;
    'evaluating: loop {
        match control {
            Control::Found(head) => return Ok(Outcome::Busy(head)),
            Control::Eval(e) => control = eval(alloc, scopes, e, frames)?,
            Control::Value(v) => match frames.pop() {
                None => return Ok(Outcome::Value(v)),
                Some(frame) => control = outward(scopes, v, frame, frames)?,
            },
        }
    }
}

/// What stands in place of a head that is not among subscripts or actuals, once it has this answer.
pub fn filled<'p>(answer: &Answer<'p>) -> Control<'p>
    ensures { (sc : scoping.Scopes) → settling.half_of (rest_answered answer.now) ≡ half sc result }
{
    match answer {
        Answer::Value(v) => Control::Value(*v),
        Answer::Entered => Control::Found(Head::Inside),
        _ => Control::Value(Value::Number(Whole::zero())),
    }
}

/// The subscripts of an element's place.
pub fn subscripts_of<'p>(alloc: Global, answer: Answer<'p>) -> List<usize>
    ensures { result ≡ rest.subscripts_of (rest_answered answer.entry) }
{
    match answer {
        Answer::Place(place) => subscripts_in(alloc, place),
        other => {
            discard(other);
            no_subscripts(alloc)
        }
    }
}

/// The subscripts of a place.
fn subscripts_in<'p>(alloc: Global, at: Place<'p>) -> List<usize>
    ensures { result ≡ rest.subscripts_of (rest.place (place at.entry)) }
{
    match at {
        Place::ElementOf(_, ks) => ks,
        _ => no_subscripts(alloc),
    }
}

/// The cell that is passed.
pub fn cell_of<'p>(answer: Answer<'p>) -> Cell<'p>
    ensures { cell result ≡ rest.cell_of_answer (rest_answered answer.entry) (plain.simple (plain.number (pos 0))) }
{
    match answer {
        Answer::Cell(cell) => cell,
        other => {
            discard(other);
            Cell::Simple(Value::Number(Whole::zero()))
        }
    }
}

/// A call one of whose actuals is this cell.
#[tactic(auto, using(crate::proofs::Supplying::supply_laws))]
fn passed<'p>(
    scopes: &Scopes<'p>,
    callee: &'p Named,
    mut gs: List<Given<'p>>,
    passing: Cell<'p>,
    es: &'p [Expr],
    frames: &mut Stack<Frame<'p>>,
) -> Result<Control<'p>, AllocError>
    ensures { IfOk result (λ c. Moves (scoped scopes.now) (refilled (scoped scopes.now) frames.old (settling.called_of callee.now (settling.settle_actuals (scoped scopes.now) (exprs es.now) (sorts_after (scoped scopes.now) callee.now gs.entry) (all_done gs.entry ++ rest.passed (cell passing.entry) ∷ [])))) (1 + exprs_size (exprs es.now) + weigh_frames frames.old) c frames.new) }
{
    add_given(&mut gs, Given::Passed(passing))?;
    call(scopes, callee, gs, es, frames)
}

/// What stands in place of a head that has this answer, with what is around it.
pub fn put<'p>(
    alloc: Global,
    scopes: &Scopes<'p>,
    head: Head<'p>,
    answer: Answer<'p>,
    frames: &mut Stack<Frame<'p>>,
) -> Result<Control<'p>, AllocError>
    ensures { IfOk result (λ c. refilled (scoped scopes.now) frames.old (settling.answer_put (scoped scopes.now) (hole (scoped scopes.now) head.entry) (rest_answered answer.entry)) ≡ refilled (scoped scopes.now) frames.new (half (scoped scopes.now) c)) }
{
    match head {
        Head::Index(n, _, _, e, es) => {
            surround(
                frames,
                Frame::Subscript(n, subscripts_of(alloc, answer), es),
            )?;
            Ok(Control::Eval(e))
        }
        Head::Pass(n, gs, _, es) => passed(scopes, n, gs, cell_of(answer), es, frames),
        _ => Ok(filled(&answer)),
    }
}
