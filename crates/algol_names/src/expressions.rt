//! The names in expressions.

ghost use Rattle.std.specs.Prelude.{◌≡◌, ◌++◌, length, OnOk};
ghost use Rattle.algol_tree.specs.Image.{expr, exprs, pairs};
ghost use Rattle.algol_names.specs.Found.{in_events, in_expr, in_exprs, in_pairs};

use crate::found::{Found, add};
use algol_rules::{boxed_expr, exprs_in};
use algol_tree::{EventName, Expr, Pair, Spot};
use std::alloc::AllocError;

/// The names of events, after others.
fn add_events(
    names: &mut Vec<Found>,
    events: &[EventName],
    outer: &[Spot],
) -> Result<(), AllocError>
    ensures { OnOk result (names.new.items ≡ names.old.items ++ in_events events.now (length outer.now)) }
{
    'events: for event in events {
        add(names, &event.name, outer)?;
    }
    Ok(())
}

/// The names in an expression, after others. `outer` are the places of the blocks around it.
#[cycle(expressions)]
pub fn add_in_expr(names: &mut Vec<Found>, e: &Expr, outer: &[Spot]) -> Result<(), AllocError>
    ensures { OnOk result (names.new.items ≡ names.old.items ++ in_expr (expr e.now) (length outer.now)) }
{
    match e {
        Expr::Number(_, _) => Ok(()),
        Expr::Truth(_, _) => Ok(()),
        Expr::Variable(v) => {
            add(names, &v.name, outer)?;
            add_in_exprs(names, exprs_in(&v.subs), outer)
        }
        Expr::Call(c) => {
            add(names, &c.name, outer)?;
            add_in_exprs(names, exprs_in(&c.actuals), outer)
        }
        Expr::Happened(n, _) => add(names, &n.name, outer),
        Expr::Available(n, _) => add(names, &n.name, outer),
        Expr::Fix(n, _) => add(names, &n.name, outer),
        Expr::WaitAny(ns, _) => add_events(names, ns.items(), outer),
        Expr::Paren(e, _) => add_in_expr(names, boxed_expr(e), outer),
        Expr::Plus(e, _) => add_in_expr(names, boxed_expr(e), outer),
        Expr::Neg(e, _) => add_in_expr(names, boxed_expr(e), outer),
        Expr::Not(e, _) => add_in_expr(names, boxed_expr(e), outer),
        Expr::Two(_, x, y) => {
            add_in_expr(names, boxed_expr(x), outer)?;
            add_in_expr(names, boxed_expr(y), outer)
        }
        Expr::If(c, x, y, _) => {
            add_in_expr(names, boxed_expr(c), outer)?;
            add_in_expr(names, boxed_expr(x), outer)?;
            add_in_expr(names, boxed_expr(y), outer)
        }
    }
}

/// The names in expressions, after others.
#[cycle(expressions)]
pub fn add_in_exprs(names: &mut Vec<Found>, es: &[Expr], outer: &[Spot]) -> Result<(), AllocError>
    ensures { OnOk result (names.new.items ≡ names.old.items ++ in_exprs (exprs es.now) (length outer.now)) }
{
    'expressions: for e in es {
        add_in_expr(names, e, outer)?;
    }
    Ok(())
}

/// The names in the bounds of arrays, after others.
pub fn add_in_pairs(
    names: &mut Vec<Found>,
    bounds: &[Pair],
    outer: &[Spot],
) -> Result<(), AllocError>
    ensures { OnOk result (names.new.items ≡ names.old.items ++ in_pairs (pairs bounds.now) (length outer.now)) }
{
    'pairs: for pair in bounds {
        add_in_expr(names, &pair.high, outer)?;
    }
    Ok(())
}
