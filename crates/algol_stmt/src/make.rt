//! Statements, declarations and programs of smaller ones. The statements are in boxes, and each is made by a call of its own, so that the frames
//! of the reader's levels have no room for a whole one.

ghost use Rattle.std.specs.Prelude.{◌≡◌, [], ◌∷◌, ◌++◌, IfOk, IfErr, OnOk};
ghost use Rattle.algol_tree.specs.declared.refusal.Refusal.TheVariants.{NoMemory};
ghost use Rattle.algol_tree.specs.Plain as trees;
ghost use Rattle.algol_tree.specs.Image as image;
ghost use Rattle.algol_tree.specs.Image.{stmt as plain};
ghost use Rattle.algol_part.specs.Openings.{led};

use algol_part::Lead;
use algol_tree::{Body, Decl, Expr, Heading, List, Named, Program, Refusal, Spot, Stmt};
use std::alloc::Global;

fn labelled(name: Named, statement: Box<Stmt>) -> Stmt
    ensures { plain result ≡ trees.label name (plain statement.value) }
{
    Stmt::Label(name, statement)
}

fn if_then(condition: Expr, yes: Box<Stmt>) -> Stmt
    ensures { plain result ≡ trees.if_then (image.expr condition) (plain yes.value) }
{
    Stmt::If(condition, yes, None)
}

#[inline(never)]
pub(crate) fn one_armed(
    alloc: Global,
    condition: Box<Expr>,
    yes: Box<Stmt>,
) -> Result<Box<Stmt>, Refusal>
    ensures built { IfOk result (λ s. plain s.value ≡ trees.if_then (image.expr condition.value) (plain yes.value)) }
    ensures memory { IfErr result (λ e. e ≡ NoMemory) }
{
    let statement = Box::new(alloc, if_then(Box::into_inner(condition), yes))?;
    Ok(statement)
}

fn if_else(condition: Expr, yes: Box<Stmt>, otherwise: Box<Stmt>) -> Stmt
    ensures { plain result ≡ trees.if_else (image.expr condition) (plain yes.value) (plain otherwise.value) }
{
    Stmt::If(condition, yes, Some(otherwise))
}

#[inline(never)]
pub(crate) fn two_armed(
    alloc: Global,
    condition: Box<Expr>,
    yes: Box<Stmt>,
    otherwise: Box<Stmt>,
) -> Result<Box<Stmt>, Refusal>
    ensures built { IfOk result (λ s. plain s.value ≡ trees.if_else (image.expr condition.value) (plain yes.value) (plain otherwise.value)) }
    ensures memory { IfErr result (λ e. e ≡ NoMemory) }
{
    let statement = Box::new(alloc, if_else(Box::into_inner(condition), yes, otherwise))?;
    Ok(statement)
}

fn looping(condition: Expr, statement: Box<Stmt>) -> Stmt
    ensures { plain result ≡ trees.while (image.expr condition) (plain statement.value) }
{
    Stmt::While(condition, statement)
}

fn repeated(statement: Box<Stmt>, condition: Expr) -> Stmt
    ensures { plain result ≡ trees.until (plain statement.value) (image.expr condition) }
{
    Stmt::Until(statement, condition)
}

#[inline(never)]
pub(crate) fn repeating(
    alloc: Global,
    statement: Box<Stmt>,
    condition: Expr,
) -> Result<Box<Stmt>, Refusal>
    ensures built { IfOk result (λ s. plain s.value ≡ trees.until (plain statement.value) (image.expr condition)) }
    ensures memory { IfErr result (λ e. e ≡ NoMemory) }
{
    let statement = Box::new(alloc, repeated(statement, condition))?;
    Ok(statement)
}

fn so_often(count: Expr, statement: Box<Stmt>) -> Stmt
    ensures { plain result ≡ trees.thru (image.expr count) (plain statement.value) }
{
    Stmt::Thru(count, statement)
}

/// A FOR over that name, from a first value by a step up to a limit.
fn counting(name: Named, from: Expr, step: Expr, limit: Expr, statement: Box<Stmt>) -> Stmt
    ensures { plain result ≡ trees.for name (image.expr from) (image.expr step) (image.expr limit) (plain statement.value) }
{
    Stmt::For(name, from, step, limit, statement)
}

/// The statement, led by what stands before it.
fn led_by(lead: Lead, statement: Box<Stmt>) -> Stmt
    ensures { plain result ≡ led lead (plain statement.value) }
{
    match lead {
        Lead::Label(name) => labelled(name, statement),
        Lead::While(condition) => looping(condition, statement),
        Lead::Thru(count) => so_often(count, statement),
        Lead::For(name, from, step, limit) => counting(name, from, step, limit, statement),
    }
}

#[inline(never)]
pub(crate) fn led(
    alloc: Global,
    lead: Box<Lead>,
    statement: Box<Stmt>,
) -> Result<Box<Stmt>, Refusal>
    ensures built { IfOk result (λ s. plain s.value ≡ led lead.value (plain statement.value)) }
    ensures memory { IfErr result (λ e. e ≡ NoMemory) }
{
    let statement = Box::new(alloc, led_by(Box::into_inner(lead), statement))?;
    Ok(statement)
}

fn chosen(choice: Expr, stmts: List<Stmt>) -> Stmt
    ensures { plain result ≡ trees.case (image.expr choice) (image.stmts stmts) }
{
    Stmt::Case(choice, stmts)
}

#[inline(never)]
pub(crate) fn choosing(
    alloc: Global,
    choice: Box<Expr>,
    stmts: List<Stmt>,
) -> Result<Box<Stmt>, Refusal>
    ensures built { IfOk result (λ s. plain s.value ≡ trees.case (image.expr choice.value) (image.stmts stmts)) }
    ensures memory { IfErr result (λ e. e ≡ NoMemory) }
{
    let statement = Box::new(alloc, chosen(Box::into_inner(choice), stmts))?;
    Ok(statement)
}

fn compound(spot: Spot, decls: List<Decl>, stmts: List<Stmt>) -> Stmt
    ensures { plain result ≡ trees.block (trees.body spot (image.decls decls) (image.stmts stmts)) }
{
    Stmt::Block(Body { spot, decls, stmts })
}

#[inline(never)]
pub(crate) fn block(
    alloc: Global,
    spot: Spot,
    decls: List<Decl>,
    stmts: List<Stmt>,
) -> Result<Box<Stmt>, Refusal>
    ensures built { IfOk result (λ s. plain s.value ≡ trees.block (trees.body spot (image.decls decls) (image.stmts stmts))) }
    ensures memory { IfErr result (λ e. e ≡ NoMemory) }
{
    let statement = Box::new(alloc, compound(spot, decls, stmts))?;
    Ok(statement)
}

/// One statement more, after those before.
#[inline(never)]
pub(crate) fn add(stmts: &mut Vec<Stmt>, statement: Box<Stmt>) -> Result<(), Refusal>
    ensures added { OnOk result (stmts.new.items ≡ stmts.old.items ++ statement.value ∷ []) }
    ensures memory { IfErr result (λ e. e ≡ NoMemory) }
{
    stmts.push(Box::into_inner(statement))?;
    Ok(())
}

pub(crate) fn program(spot: Spot, decls: List<Decl>, stmts: List<Stmt>) -> Program
    ensures { image.program result ≡ trees.program (trees.body spot (image.decls decls) (image.stmts stmts)) }
{
    Program {
        body: Body { spot, decls, stmts },
    }
}

pub(crate) fn procedure(heading: Heading, statement: Box<Stmt>) -> Decl
    ensures { image.decl result ≡ trees.procedure heading (plain statement.value) }
{
    Decl::Procedure(heading, statement)
}

pub(crate) fn forward(heading: Heading) -> Decl
    ensures { image.decl result ≡ trees.forward heading }
{
    Decl::Forward(heading)
}
