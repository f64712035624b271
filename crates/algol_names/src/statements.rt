//! The names in statements and declarations, in the order of the text.

ghost use Rattle.std.specs.Prelude.{◌≡◌, ◌∷◌, ◌++◌, length, OnOk, IfOk};
ghost use Rattle.algol_tree.specs.Blocks.{of_procedure, of_statement};
ghost use Rattle.algol_tree.specs.Image.{expr, stmt, stmts, decl, decls, body};
ghost use Rattle.algol_names.specs.Blocks as seen;
ghost use Rattle.algol_names.specs.Found.{around_in, at, in_body, in_decl, in_decls, in_expr, in_stmt, in_stmts};

use crate::blocks::{Begin, is_block, with_first};
use crate::expressions::{add_in_expr, add_in_pairs};
use crate::found::{Found, add};
use crate::simple::{add_in_assignment, add_in_call, add_in_for, add_in_process, add_in_write};
use algol_rules::{boxed_stmt, decls_in, exprs_in, stmts_in};
use algol_tree::{Body, Decl, Expr, Named, Spot, Stmt};
use std::alloc::{AllocError, Global};

/// The names in a statement, after others. `outer` are the places of the blocks around it, the innermost first.
#[cycle(statements)]
fn add_in_stmt(
    names: &mut Vec<Found>,
    alloc: Global,
    s: &Stmt,
    begin: Begin,
    outer: &[Spot],
) -> Result<(), AllocError>
    ensures { OnOk result (names.new.items ≡ names.old.items ++ in_stmt (stmt s.now) (seen.begin begin) (length outer.now)) }
{
    match s {
        Stmt::Empty => Ok(()),
        Stmt::Label(n, s) => add_in_labelled(names, alloc, n, boxed_stmt(s), outer),
        Stmt::Assign(v, e) => add_in_assignment(names, v, e, outer),
        Stmt::Call(c) => add_in_call(names, c, outer),
        Stmt::GoTo(n) => add(names, n, outer),
        Stmt::Block(b) => add_in_begin(names, alloc, b, begin, outer),
        Stmt::If(c, a, None) => add_in_guarded(names, alloc, boxed_stmt(a), c, outer),
        Stmt::If(c, a, Some(b)) => {
            add_in_guarded(names, alloc, boxed_stmt(a), c, outer)?;
            add_in_stmt(names, alloc, boxed_stmt(b), Begin::OfStatement, outer)
        }
        Stmt::While(c, b) => add_in_guarded(names, alloc, boxed_stmt(b), c, outer),
        Stmt::Until(b, c) => add_in_until(names, alloc, boxed_stmt(b), c, outer),
        Stmt::For(v, x, s, l, b) => {
            add_in_for(names, v, x, s, l, outer)?;
            add_in_stmt(names, alloc, boxed_stmt(b), Begin::OfStatement, outer)
        }
        Stmt::Thru(n, b) => add_in_guarded(names, alloc, boxed_stmt(b), n, outer),
        Stmt::Case(e, ss) => add_in_case(names, alloc, stmts_in(ss), e, outer),
        Stmt::Process(c, task) => add_in_process(names, c, task, outer),
        Stmt::Event(_, e) => add(names, &e.name, outer),
        Stmt::Write(n, _, _, es) => add_in_write(names, n, exprs_in(es), outer),
    }
}

/// The names in a statement with a label, after others.
#[cycle(statements)]
fn add_in_labelled(
    names: &mut Vec<Found>,
    alloc: Global,
    n: &Named,
    s: &Stmt,
    outer: &[Spot],
) -> Result<(), AllocError>
    ensures { OnOk result (names.new.items ≡ names.old.items ++ at n.now (length outer.now) ∷ in_stmt (stmt s.now) of_statement (length outer.now)) }
{
    add(names, n, outer)?;
    add_in_stmt(names, alloc, s, Begin::OfStatement, outer)
}

/// The names in a statement after its condition or its count, after others.
#[cycle(statements)]
fn add_in_guarded(
    names: &mut Vec<Found>,
    alloc: Global,
    s: &Stmt,
    c: &Expr,
    outer: &[Spot],
) -> Result<(), AllocError>
    ensures { OnOk result (names.new.items ≡ names.old.items ++ (in_expr (expr c.now) (length outer.now) ++ in_stmt (stmt s.now) of_statement (length outer.now))) }
{
    add_in_expr(names, c, outer)?;
    add_in_stmt(names, alloc, s, Begin::OfStatement, outer)
}

/// The names in DO .. UNTIL, after others.
#[cycle(statements)]
fn add_in_until(
    names: &mut Vec<Found>,
    alloc: Global,
    s: &Stmt,
    c: &Expr,
    outer: &[Spot],
) -> Result<(), AllocError>
    ensures { OnOk result (names.new.items ≡ names.old.items ++ (in_stmt (stmt s.now) of_statement (length outer.now) ++ in_expr (expr c.now) (length outer.now))) }
{
    add_in_stmt(names, alloc, s, Begin::OfStatement, outer)?;
    add_in_expr(names, c, outer)
}

/// The names in CASE, after others.
#[cycle(statements)]
fn add_in_case(
    names: &mut Vec<Found>,
    alloc: Global,
    ss: &[Stmt],
    e: &Expr,
    outer: &[Spot],
) -> Result<(), AllocError>
    ensures { OnOk result (names.new.items ≡ names.old.items ++ (in_expr (expr e.now) (length outer.now) ++ in_stmts (stmts ss.now) (length outer.now))) }
{
    add_in_expr(names, e, outer)?;
    add_in_stmts(names, alloc, ss, outer)
}

/// The names in statements, after others.
#[cycle(statements)]
fn add_in_stmts(
    names: &mut Vec<Found>,
    alloc: Global,
    ss: &[Stmt],
    outer: &[Spot],
) -> Result<(), AllocError>
    ensures { OnOk result (names.new.items ≡ names.old.items ++ in_stmts (stmts ss.now) (length outer.now)) }
{
    'statements: for s in ss {
        add_in_stmt(names, alloc, s, Begin::OfStatement, outer)?;
    }
    Ok(())
}

/// The names in a BEGIN, after others.
#[cycle(statements)]
fn add_in_begin(
    names: &mut Vec<Found>,
    alloc: Global,
    b: &Body,
    begin: Begin,
    outer: &[Spot],
) -> Result<(), AllocError>
    ensures { OnOk result (names.new.items ≡ names.old.items ++ in_body (body b.now) (around_in (body b.now) (seen.begin begin) (length outer.now))) }
{
    if is_block(b, begin) {
        let within = with_first(alloc, b.spot, outer)?;
        add_in_body(names, alloc, b, within.as_slice())
    } else {
        add_in_body(names, alloc, b, outer)
    }
}

/// The names in the declarations and statements of a BEGIN, after others.
#[cycle(statements)]
fn add_in_body(
    names: &mut Vec<Found>,
    alloc: Global,
    b: &Body,
    outer: &[Spot],
) -> Result<(), AllocError>
    ensures { OnOk result (names.new.items ≡ names.old.items ++ in_body (body b.now) (length outer.now)) }
{
    add_in_decls(names, alloc, decls_in(&b.decls), outer)?;
    add_in_stmts(names, alloc, stmts_in(&b.stmts), outer)
}

/// The names in declarations, after others.
#[cycle(statements)]
fn add_in_decls(
    names: &mut Vec<Found>,
    alloc: Global,
    ds: &[Decl],
    outer: &[Spot],
) -> Result<(), AllocError>
    ensures { OnOk result (names.new.items ≡ names.old.items ++ in_decls (decls ds.now) (length outer.now)) }
{
    'declarations: for d in ds {
        add_in_decl(names, alloc, d, outer)?;
    }
    Ok(())
}

/// The names in a declaration, after others.
#[cycle(statements)]
fn add_in_decl(
    names: &mut Vec<Found>,
    alloc: Global,
    d: &Decl,
    outer: &[Spot],
) -> Result<(), AllocError>
    ensures { OnOk result (names.new.items ≡ names.old.items ++ in_decl (decl d.now) (length outer.now)) }
{
    match d {
        Decl::Arrays(_, _, pairs) => add_in_pairs(names, pairs.items().as_slice(), outer),
        Decl::Procedure(h, s) => {
            let within = with_first(alloc, h.name.spot, outer)?;
            add_in_stmt(
                names,
                alloc,
                boxed_stmt(s),
                Begin::OfProcedure,
                within.as_slice(),
            )
        }
        _ => Ok(()),
    }
}

/// The names in a program, in the order of the text: one block is around what stands in the outer one.
pub fn names_of(alloc: Global, b: &Body) -> Result<Vec<Found>, AllocError>
    ensures { IfOk result (λ names. names.items ≡ in_body (body b.now) 1) }
{
    let mut names = Vec::new(alloc);
    add_in_body(&mut names, alloc, b, &[b.spot])?;
    Ok(names)
}
