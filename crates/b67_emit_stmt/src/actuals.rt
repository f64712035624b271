//! The actuals of a block that have cells, in the order of the text.

ghost use Rattle.std.specs.Prelude.{◌≡◌, ◌++◌, IfOk, OnOk};
ghost use Rattle.algol_tree.specs.Image as plain;
ghost use Rattle.algol_tree.specs.Image.{expr, exprs, call, stmt, stmts, decls};
ghost use Rattle.b67_emitter.specs.Values.{meanings};
ghost use Rattle.b67_emit_stmt.specs.Actuals.{images, celled, cells_in_actual, cells_among, cells_in_call, cells_in_pairs, cells_in_decls, cells_in_stmt, cells_in_stmts, cells_in_block};

use algol_tree::{Call, Decl, Expr, Pair, Stmt};
use b67_emitter::{Names, has_cell, takes_name};
use std::alloc::{AllocError, Global};

/// Those in an expression.
#[cycle(actuals)]
fn in_expr<'a>(e: &'a Expr, names: &Names, to: &mut Vec<&'a Expr>) -> Result<(), AllocError>
    ensures { OnOk result (images to.new.items ≡ images to.old.items ++ cells_in_actual (meanings names.now) (expr e.now)) }
{
    match e {
        Expr::Variable(v) => in_exprs(v.subs.items(), names, to),
        Expr::Call(c) => in_call(c, names, to),
        Expr::Paren(e, _) => in_expr(e, names, to),
        Expr::Plus(e, _) => in_expr(e, names, to),
        Expr::Neg(e, _) => in_expr(e, names, to),
        Expr::Not(e, _) => in_expr(e, names, to),
        Expr::Two(_, a, b) => {
            in_expr(a, names, to)?;
            in_expr(b, names, to)
        }
        Expr::If(c, x, y, _) => {
            in_expr(c, names, to)?;
            in_expr(x, names, to)?;
            in_expr(y, names, to)
        }
        Expr::Number(_, _) => Ok(()),
        Expr::Truth(_, _) => Ok(()),
        Expr::Happened(_, _) => Ok(()),
        Expr::Available(_, _) => Ok(()),
        Expr::Fix(_, _) => Ok(()),
        Expr::WaitAny(_, _) => Ok(()),
    }
}

/// .. in subscripts, or in items.
#[cycle(actuals)]
fn in_exprs<'a>(es: &'a [Expr], names: &Names, to: &mut Vec<&'a Expr>) -> Result<(), AllocError>
    ensures { OnOk result (images to.new.items ≡ images to.old.items ++ cells_among (meanings names.now) (exprs es.now)) }
{
    'exprs: for e in es {
        in_expr(e, names, to)?;
    }
    Ok(())
}

/// What is given for a parameter, by name or not, if it has a cell.
fn own_if<'a>(
    e: &'a Expr,
    by_name: bool,
    names: &Names,
    to: &mut Vec<&'a Expr>,
) -> Result<(), AllocError>
    ensures { OnOk result (images to.new.items ≡ images to.old.items ++ celled (meanings names.now) by_name (expr e.now)) }
{
    if by_name && has_cell(names, e) {
        to.push(e)?;
    }
    Ok(())
}

/// .. in a call: each comes before those within it.
#[cycle(actuals)]
fn in_call<'a>(c: &'a Call, names: &Names, to: &mut Vec<&'a Expr>) -> Result<(), AllocError>
    ensures { OnOk result (images to.new.items ≡ images to.old.items ++ cells_in_call (meanings names.now) (call c.now)) }
{
    'actuals: for (number, actual) in c.actuals.items().iter().enumerate() {
        own_if(actual, takes_name(names, &c.name, number), names, to)?;
        in_expr(actual, names, to)?;
    }
    Ok(())
}

/// .. in the bounds of arrays.
fn in_pairs<'a>(pairs: &'a [Pair], names: &Names, to: &mut Vec<&'a Expr>) -> Result<(), AllocError>
    ensures { OnOk result (images to.new.items ≡ images to.old.items ++ cells_in_pairs (meanings names.now) (plain.pairs pairs.now)) }
{
    'pairs: for pair in pairs {
        in_expr(&pair.high, names, to)?;
    }
    Ok(())
}

fn in_decls<'a>(ds: &'a [Decl], names: &Names, to: &mut Vec<&'a Expr>) -> Result<(), AllocError>
    ensures { OnOk result (images to.new.items ≡ images to.old.items ++ cells_in_decls (meanings names.now) (decls ds.now)) }
{
    'decls: for d in ds {
        if let Decl::Arrays(_, _, pairs) = d {
            in_pairs(pairs.items(), names, to)?;
        }
    }
    Ok(())
}

/// .. in a statement. What stands in an inner block is that block's.
#[cycle(statements)]
fn in_stmt<'a>(s: &'a Stmt, names: &Names, to: &mut Vec<&'a Expr>) -> Result<(), AllocError>
    ensures { OnOk result (images to.new.items ≡ images to.old.items ++ cells_in_stmt (meanings names.now) (stmt s.now)) }
{
    match s {
        Stmt::Label(_, s) => in_stmt(s, names, to),
        Stmt::Assign(v, e) => {
            in_exprs(v.subs.items(), names, to)?;
            in_expr(e, names, to)
        }
        Stmt::Call(c) => in_call(c, names, to),
        Stmt::Block(b) => {
            if b.decls.items().is_empty() {
                in_stmts(b.stmts.items(), names, to)
            } else {
                Ok(())
            }
        }
        Stmt::If(c, x, other) => {
            in_expr(c, names, to)?;
            in_stmt(x, names, to)?;
            match other {
                None => Ok(()),
                Some(y) => in_stmt(y, names, to),
            }
        }
        Stmt::While(c, b) => {
            in_expr(c, names, to)?;
            in_stmt(b, names, to)
        }
        Stmt::Until(b, c) => {
            in_stmt(b, names, to)?;
            in_expr(c, names, to)
        }
        Stmt::For(_, a, s, l, b) => {
            in_expr(a, names, to)?;
            in_expr(s, names, to)?;
            in_expr(l, names, to)?;
            in_stmt(b, names, to)
        }
        Stmt::Thru(e, b) => {
            in_expr(e, names, to)?;
            in_stmt(b, names, to)
        }
        Stmt::Case(e, ss) => {
            in_expr(e, names, to)?;
            in_stmts(ss.items(), names, to)
        }
        Stmt::Process(c, _) => in_call(c, names, to),
        Stmt::Write(_, _, _, items) => in_exprs(items.items(), names, to),
        Stmt::Empty => Ok(()),
        Stmt::GoTo(_) => Ok(()),
        Stmt::Event(_, _) => Ok(()),
    }
}

#[cycle(statements)]
fn in_stmts<'a>(ss: &'a [Stmt], names: &Names, to: &mut Vec<&'a Expr>) -> Result<(), AllocError>
    ensures { OnOk result (images to.new.items ≡ images to.old.items ++ cells_in_stmts (meanings names.now) (stmts ss.now)) }
{
    'statements: for s in ss {
        in_stmt(s, names, to)?;
    }
    Ok(())
}

/// Those of a block with these declarations and statements.
pub fn actuals_of<'a>(
    alloc: Global,
    ds: &'a [Decl],
    ss: &'a [Stmt],
    names: &Names,
) -> Result<Vec<&'a Expr>, AllocError>
    ensures { IfOk result (λ found. images found.items ≡ cells_in_block (meanings names.now) (decls ds.now) (stmts ss.now)) }
{
    let mut to = Vec::new(alloc);
    in_decls(ds, names, &mut to)?;
    in_stmts(ss, names, &mut to)?;
    Ok(to)
}
