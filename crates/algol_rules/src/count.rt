//! How many tokens the text of a segment has. A count stops at the greatest number.

ghost use Rattle.std.specs.Prelude.{◌≡◌, ◌+◌, ◌-◌, ◌^◌, min, length};
ghost use Rattle.algol_tree.specs.Counts as counts;
ghost use Rattle.algol_tree.specs.Names.{names_of_spec};
ghost use Rattle.algol_rules.specs.Opened.{levels_opened, further_events};
ghost use Rattle.algol_tree.specs.Image.{expr, variable, call, exprs, pairs, stmt, stmts, decl, decls, body, program};

use crate::parts::{boxed_expr, boxed_stmt, decls_in, exprs_in, stmts_in};
use algol_tree::{
    Body, Call, Decl, EventName, Expr, Heading, Kind, Named, Pair, Program, Spec, Stmt, Variable,
};

/// The sum of three counts.
fn sum(a: usize, b: usize, c: usize) -> usize
    ensures { result ≡ min (a + b + c) (2 ^ 64 - 1) }
{
    a.saturating_add(b).saturating_add(c)
}

fn event_tokens(e: &EventName) -> usize
    ensures { result ≡ counts.event_tokens e.now }
{
    if e.task { 3 } else { 1 }
}

/// Events, each with the comma before it.
fn further_events(es: &[EventName]) -> usize
    ensures { result ≡ min (further_events es.now) (2 ^ 64 - 1) }
{
    let mut count: usize = 0;
    'events: for e in es {
        count = sum(count, event_tokens(e), 1);
    }
    count
}

/// Events with the commas between them.
#[tactic(auto, using(crate::proofs::Counting::events))]
fn events_tokens(es: &[EventName]) -> usize
    ensures { result ≡ min (counts.events_tokens es.now) (2 ^ 64 - 1) }
{
    match es.split_first() {
        None => 0,
        Some((first, further)) => event_tokens(first).saturating_add(further_events(further)),
    }
}

/// A name with the brackets after it, but for the comma that the first expression between them has not.
fn opening(es: &[Expr]) -> usize
    ensures { result ≡ levels_opened (exprs es.now) }
{
    match es.split_first() {
        None => 1,
        Some(_) => 2,
    }
}

/// The last part of an expression, the left operand of two, is counted in its place, so that the length of a sum needs no room on
/// the stack.
#[cycle(expressions)]
fn expr_tokens(e: &Expr) -> usize
    ensures { result ≡ min (counts.expr_tokens (expr e.now)) (2 ^ 64 - 1) }
{
    let mut count: usize = 0;
    let mut at = e;
    'parts: loop {
        match at {
            Expr::Number(_, _) => return count.saturating_add(1),
            Expr::Truth(_, _) => return count.saturating_add(1),
            Expr::Variable(v) => return count.saturating_add(variable_tokens(v)),
            Expr::Call(c) => return count.saturating_add(call_tokens(c)),
            Expr::Happened(e, _) => return sum(count, event_tokens(e), 3),
            Expr::Available(e, _) => return sum(count, event_tokens(e), 3),
            Expr::Fix(e, _) => return sum(count, event_tokens(e), 3),
            Expr::WaitAny(es, _) => return sum(count, events_tokens(es.items()), 3),
            Expr::Paren(e, _) => {
                count = count.saturating_add(2);
                at = boxed_expr(e);
            }
            Expr::Plus(e, _) => {
                count = count.saturating_add(1);
                at = boxed_expr(e);
            }
            Expr::Neg(e, _) => {
                count = count.saturating_add(1);
                at = boxed_expr(e);
            }
            Expr::Not(e, _) => {
                count = count.saturating_add(1);
                at = boxed_expr(e);
            }
            Expr::Two(_, a, b) => {
                count = sum(count, expr_tokens(boxed_expr(b)), 1);
                at = boxed_expr(a);
            }
            Expr::If(c, a, b, _) => {
                let before = sum(expr_tokens(boxed_expr(c)), expr_tokens(boxed_expr(a)), 3);
                count = count.saturating_add(before);
                at = boxed_expr(b);
            }
        }
    }
}

#[cycle(expressions)]
#[tactic(auto, using(crate::proofs::Counting::counting))]
fn variable_tokens(v: &Variable) -> usize
    ensures { result ≡ min (counts.variable_tokens (variable v.now)) (2 ^ 64 - 1) }
{
    let mut count = opening(v.subs.items());
    'subscripts: for e in v.subs.items() {
        count = count.saturating_add(expr_tokens(e)).saturating_add(1);
    }
    count
}

#[cycle(expressions)]
#[tactic(auto, using(crate::proofs::Counting::counting))]
fn call_tokens(c: &Call) -> usize
    ensures { result ≡ min (counts.call_tokens (call c.now)) (2 ^ 64 - 1) }
{
    let mut count = opening(c.actuals.items());
    'actuals: for e in c.actuals.items() {
        count = count.saturating_add(expr_tokens(e)).saturating_add(1);
    }
    count
}

/// Expressions, each with the comma before it.
fn exprs_tokens(es: &[Expr]) -> usize
    ensures { result ≡ min (counts.exprs_tokens (exprs es.now)) (2 ^ 64 - 1) }
{
    let mut count: usize = 0;
    'expressions: for e in es {
        count = count.saturating_add(expr_tokens(e)).saturating_add(1);
    }
    count
}

/// Names with the commas between them.
fn names_tokens(names: &[Named]) -> usize
    ensures { result ≡ min (counts.names_tokens names.now) (2 ^ 64 - 1) }
{
    names.len().saturating_mul(2).saturating_sub(1)
}

fn literal_tokens(z: i64) -> usize
    ensures { result ≡ counts.literal_tokens z }
{
    if z < 0 { 2 } else { 1 }
}

fn pairs_tokens(ps: &[Pair]) -> usize
    ensures { result ≡ min (counts.pairs_tokens (pairs ps.now)) (2 ^ 64 - 1) }
{
    let mut count: usize = 0;
    'pairs: for pair in ps {
        count = count
            .saturating_add(literal_tokens(pair.low))
            .saturating_add(expr_tokens(&pair.high))
            .saturating_add(2);
    }
    count
}

fn lows_tokens(lows: &[i64]) -> usize
    ensures { result ≡ min (counts.lows_tokens lows.now) (2 ^ 64 - 1) }
{
    let mut count: usize = 0;
    'lows: for low in lows {
        count = count.saturating_add(literal_tokens(*low)).saturating_add(1);
    }
    count
}

/// A word before ARRAY counts only where it is BOOLEAN.
fn type_before_array(kind: Kind) -> usize
    ensures { result ≡ counts.type_before_array kind }
{
    match kind {
        Kind::Number => 0,
        Kind::Truth => 1,
    }
}

/// The names that a specification speaks of.
pub fn names_of(spec: &Spec) -> &Vec<Named>
    ensures { result.now.items ≡ names_of_spec spec.now }
{
    match spec {
        Spec::Simple(_, names) => names.items(),
        Spec::Events(names) => names.items(),
        Spec::Arrays(_, names, _) => names.items(),
    }
}

fn spec_tokens(spec: &Spec) -> usize
    ensures { result ≡ min (counts.spec_tokens spec.now) (2 ^ 64 - 1) }
{
    let names = names_tokens(names_of(spec)).saturating_add(2);
    match spec {
        Spec::Arrays(kind, _, lows) => {
            names
                .saturating_add(type_before_array(*kind))
                .saturating_add(lows_tokens(lows.items()))
                .saturating_add(1)
        }
        _ => names,
    }
}

/// Names with a word or a bracket before and after them, where there are some.
fn part_tokens(names: &[Named]) -> usize
    ensures { result ≡ min (counts.params_tokens names.now) (2 ^ 64 - 1) }
{
    if names.is_empty() {
        0
    } else {
        names_tokens(names).saturating_add(2)
    }
}

fn type_before_procedure(kind: Option<Kind>) -> usize
    ensures { result ≡ counts.kind_tokens kind }
{
    if kind.is_some() { 1 } else { 0 }
}

fn heading_tokens(h: &Heading) -> usize
    ensures { result ≡ min (counts.heading_tokens h.now) (2 ^ 64 - 1) }
{
    let mut count = type_before_procedure(h.kind)
        .saturating_add(part_tokens(h.params.items()))
        .saturating_add(part_tokens(h.values.items()))
        .saturating_add(3);
    'specs: for spec in h.specs.items() {
        count = count.saturating_add(spec_tokens(spec));
    }
    count
}

#[cycle(statements)]
fn stmt_tokens(s: &Stmt) -> usize
    ensures { result ≡ min (counts.stmt_tokens (stmt s.now)) (2 ^ 64 - 1) }
{
    match s {
        Stmt::Empty => 0,
        Stmt::Label(_, s) => stmt_tokens(boxed_stmt(s)).saturating_add(2),
        Stmt::Assign(v, e) => sum(variable_tokens(v), expr_tokens(e), 1),
        Stmt::Call(c) => call_tokens(c),
        Stmt::GoTo(_) => 2,
        Stmt::Block(b) => body_tokens(b),
        Stmt::If(c, a, None) => sum(expr_tokens(c), stmt_tokens(boxed_stmt(a)), 2),
        Stmt::If(c, a, Some(b)) => sum(
            expr_tokens(c),
            stmt_tokens(boxed_stmt(a)),
            stmt_tokens(boxed_stmt(b)),
        )
        .saturating_add(3),
        Stmt::While(c, s) => sum(expr_tokens(c), stmt_tokens(boxed_stmt(s)), 2),
        Stmt::Until(s, c) => sum(stmt_tokens(boxed_stmt(s)), expr_tokens(c), 2),
        Stmt::For(_, a, s, l, b) => sum(
            sum(expr_tokens(a), expr_tokens(s), expr_tokens(l)),
            stmt_tokens(boxed_stmt(b)),
            6,
        ),
        Stmt::Thru(e, s) => sum(expr_tokens(e), stmt_tokens(boxed_stmt(s)), 2),
        Stmt::Case(e, ss) => sum(expr_tokens(e), stmts_tokens(stmts_in(ss)), 3),
        Stmt::Process(c, None) => call_tokens(c).saturating_add(1),
        Stmt::Process(c, Some(_)) => call_tokens(c).saturating_add(4),
        Stmt::Event(_, e) => event_tokens(e).saturating_add(3),
        Stmt::Write(_, _, phrases, items) => sum(
            phrases.items().len().saturating_mul(2),
            exprs_tokens(exprs_in(items)),
            6,
        ),
    }
}

/// Statements, each with the semicolon after it.
#[cycle(statements)]
fn stmts_tokens(ss: &[Stmt]) -> usize
    ensures { result ≡ min (counts.stmts_tokens (stmts ss.now)) (2 ^ 64 - 1) }
{
    let mut count: usize = 0;
    'statements: for s in ss {
        count = count.saturating_add(stmt_tokens(s)).saturating_add(1);
    }
    count
}

#[cycle(statements)]
#[tactic(auto, using(crate::proofs::Counting::counting))]
fn body_tokens(b: &Body) -> usize
    ensures { result ≡ min (counts.body_tokens (body b.now)) (2 ^ 64 - 1) }
{
    decls_tokens(decls_in(&b.decls))
        .saturating_add(stmts_tokens(stmts_in(&b.stmts)))
        .saturating_add(1)
}

/// Declarations, each with the semicolon after it.
fn decls_tokens(ds: &[Decl]) -> usize
    ensures { result ≡ min (counts.decls_tokens (decls ds.now)) (2 ^ 64 - 1) }
{
    let mut count: usize = 0;
    'declarations: for d in ds {
        count = count.saturating_add(decl_tokens(d)).saturating_add(1);
    }
    count
}

fn decl_tokens(d: &Decl) -> usize
    ensures { result ≡ min (counts.decl_tokens (decl d.now)) (2 ^ 64 - 1) }
{
    match d {
        Decl::Simple(_, ns) => names_tokens(ns.items()).saturating_add(1),
        Decl::Files(ns) => names_tokens(ns.items()).saturating_add(1),
        Decl::Events(ns) => names_tokens(ns.items()).saturating_add(1),
        Decl::Tasks(ns) => names_tokens(ns.items()).saturating_add(1),
        Decl::Labels(ns) => names_tokens(ns.items()).saturating_add(1),
        Decl::Arrays(kind, ns, pairs) => {
            names_tokens(ns.items())
                .saturating_add(type_before_array(*kind))
                .saturating_add(pairs_tokens(pairs.items()))
                .saturating_add(2)
        }
        Decl::Forward(h) => heading_tokens(h).saturating_add(1),
        Decl::Procedure(_, _) => 0,
    }
}

/// The tokens of a procedure's segment.
pub fn procedure_tokens(h: &Heading, s: &Stmt) -> usize
    ensures { result ≡ min (counts.heading_tokens h.now + counts.stmt_tokens (stmt s.now)) (2 ^ 64 - 1) }
{
    heading_tokens(h).saturating_add(stmt_tokens(s))
}

/// The tokens of the program's segment, with the period.
pub fn program_tokens(p: &Program) -> usize
    ensures { result ≡ min (counts.program_tokens (program p.now)) (2 ^ 64 - 1) }
{
    body_tokens(&p.body).saturating_add(1)
}
