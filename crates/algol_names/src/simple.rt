//! The names in statements that have no statement in them.

ghost use Rattle.std.specs.Prelude.{◌≡◌, ◌++◌, length, OnOk};
ghost use Rattle.algol_tree.specs.Image.{call, expr, exprs, variable};
ghost use Rattle.algol_names.specs.Found.{in_assignment, in_call, in_for, in_process, in_task, in_write};

use crate::expressions::{add_in_expr, add_in_exprs};
use crate::found::{Found, add, add_left};
use algol_rules::exprs_in;
use algol_tree::{Call, Expr, Named, Spot, Variable};
use std::alloc::AllocError;

/// The names in an assignment, after others. `outer` are the places of the blocks around it.
pub fn add_in_assignment(
    names: &mut Vec<Found>,
    v: &Variable,
    e: &Expr,
    outer: &[Spot],
) -> Result<(), AllocError>
    ensures { OnOk result (names.new.items ≡ names.old.items ++ in_assignment (variable v.now) (expr e.now) (length outer.now)) }
{
    add_left(names, &v.name, outer)?;
    add_in_exprs(names, exprs_in(&v.subs), outer)?;
    add_in_expr(names, e, outer)
}

/// The names in a call that is a statement, after others.
pub fn add_in_call(names: &mut Vec<Found>, c: &Call, outer: &[Spot]) -> Result<(), AllocError>
    ensures { OnOk result (names.new.items ≡ names.old.items ++ in_call (call c.now) (length outer.now)) }
{
    add(names, &c.name, outer)?;
    add_in_exprs(names, exprs_in(&c.actuals), outer)
}

/// The name of the task of a process, where it has one, after others.
fn add_task(names: &mut Vec<Found>, task: &Option<Named>, outer: &[Spot]) -> Result<(), AllocError>
    ensures { OnOk result (names.new.items ≡ names.old.items ++ in_task task.now (length outer.now)) }
{
    match task {
        None => Ok(()),
        Some(n) => add(names, n, outer),
    }
}

/// The names in PROCESS, after others.
pub fn add_in_process(
    names: &mut Vec<Found>,
    c: &Call,
    task: &Option<Named>,
    outer: &[Spot],
) -> Result<(), AllocError>
    ensures { OnOk result (names.new.items ≡ names.old.items ++ in_process (call c.now) task.now (length outer.now)) }
{
    add(names, &c.name, outer)?;
    add_task(names, task, outer)?;
    add_in_exprs(names, exprs_in(&c.actuals), outer)
}

/// The names in WRITE, after others.
pub fn add_in_write(
    names: &mut Vec<Found>,
    n: &Named,
    es: &[Expr],
    outer: &[Spot],
) -> Result<(), AllocError>
    ensures { OnOk result (names.new.items ≡ names.old.items ++ in_write n.now (exprs es.now) (length outer.now)) }
{
    add(names, n, outer)?;
    add_in_exprs(names, es, outer)
}

/// The names in what stands before the statement of FOR, after others.
pub fn add_in_for(
    names: &mut Vec<Found>,
    v: &Named,
    x: &Expr,
    step: &Expr,
    last: &Expr,
    outer: &[Spot],
) -> Result<(), AllocError>
    ensures { OnOk result (names.new.items ≡ names.old.items ++ in_for v.now (expr x.now) (expr step.now) (expr last.now) (length outer.now)) }
{
    add(names, v, outer)?;
    add_in_expr(names, x, outer)?;
    add_in_expr(names, step, outer)?;
    add_in_expr(names, last, outer)
}
