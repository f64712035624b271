//! The procedures of a program in the order of the text.

ghost use Rattle.std.specs.Prelude.{◌≡◌, ◌++◌, map, IfOk, OnOk};
ghost use Rattle.algol_tree.specs.Blocks.{of_statement};
ghost use Rattle.algol_tree.specs.Image.{body, decl, decls, stmt, stmts};
ghost use Rattle.b67_emit_text.specs.Texts.{places_of, text_of_procedure, texts_of, texts_in_body, texts_in_decl, texts_in_decls, texts_in_stmts, HaveLevels, HaveLevelsBody, HaveLevelsDecl, HaveLevelsDecls, HaveLevelsStmts};

use algol_places::Places;
use algol_tree::{Body, Decl, Heading, Stmt};
use std::alloc::{AllocError, Global};

/// A procedure: the level of its block, its heading with the body, and its body.
#[derive(Clone, Copy)]
pub struct Procedure<'a> {
    pub level: u8,
    pub heading: &'a Heading,
    pub body: &'a Stmt,
}

/// Where the names of these procedures stand.
pub(crate) fn places_of_names(alloc: Global, procedures: &[Procedure]) -> Result<Places, AllocError>
    ensures { IfOk result (λ places. places ≡ places_of (map text_of_procedure procedures.now)) }
{
    let mut spots = Vec::new(alloc);
    'procedures: for procedure in procedures {
        spots.push(procedure.heading.name.spot)?;
    }
    Places::of(alloc, spots)
}

/// The procedures that are declared within a statement at a level.
#[cycle(texts)]
fn within<'a>(s: &'a Stmt, level: u8, to: &mut Vec<Procedure<'a>>) -> Result<(), AllocError>
    requires { HaveLevels (stmt s.now) of_statement level }
    ensures { OnOk result (map text_of_procedure to.new.items ≡ map text_of_procedure to.old.items ++ texts_of (stmt s.now) of_statement level) }
{
    match s {
        Stmt::Label(_, s) => within(s, level, to),
        Stmt::Block(b) => {
            if b.decls.items().is_empty() {
                within_body(b, level, to)
            } else {
                within_body(b, level + 1, to)
            }
        }
        Stmt::If(_, x, other) => {
            within(x, level, to)?;
            match other {
                None => Ok(()),
                Some(y) => within(y, level, to),
            }
        }
        Stmt::While(_, b) => within(b, level, to),
        Stmt::Until(b, _) => within(b, level, to),
        Stmt::For(_, _, _, _, b) => within(b, level, to),
        Stmt::Thru(_, b) => within(b, level, to),
        Stmt::Case(_, ss) => within_all(ss.items(), level, to),
        Stmt::Empty => Ok(()),
        Stmt::Assign(_, _) => Ok(()),
        Stmt::Call(_) => Ok(()),
        Stmt::GoTo(_) => Ok(()),
        Stmt::Process(_, _) => Ok(()),
        Stmt::Event(_, _) => Ok(()),
        Stmt::Write(_, _, _, _) => Ok(()),
    }
}

/// .. within statements.
#[cycle(texts)]
fn within_all<'a>(ss: &'a [Stmt], level: u8, to: &mut Vec<Procedure<'a>>) -> Result<(), AllocError>
    requires { HaveLevelsStmts (stmts ss.now) level }
    ensures { OnOk result (map text_of_procedure to.new.items ≡ map text_of_procedure to.old.items ++ texts_in_stmts (stmts ss.now) level) }
{
    'statements: for s in ss {
        within(s, level, to)?;
    }
    Ok(())
}

/// A procedure that is declared at a level, and those within it.
#[cycle(texts)]
fn declared<'a>(d: &'a Decl, level: u8, to: &mut Vec<Procedure<'a>>) -> Result<(), AllocError>
    requires { HaveLevelsDecl (decl d.now) level }
    ensures { OnOk result (map text_of_procedure to.new.items ≡ map text_of_procedure to.old.items ++ texts_in_decl (decl d.now) level) }
{
    if let Decl::Procedure(heading, body) = d {
        to.push(Procedure {
            level: level + 1,
            heading,
            body,
        })?;
        match &**body {
            Stmt::Block(b) => within_body(b, level + 1, to),
            s => within(s, level + 1, to),
        }
    } else {
        Ok(())
    }
}

/// .. that are declared by declarations.
#[cycle(texts)]
fn declared_all<'a>(
    ds: &'a [Decl],
    level: u8,
    to: &mut Vec<Procedure<'a>>,
) -> Result<(), AllocError>
    requires { HaveLevelsDecls (decls ds.now) level }
    ensures { OnOk result (map text_of_procedure to.new.items ≡ map text_of_procedure to.old.items ++ texts_in_decls (decls ds.now) level) }
{
    'decls: for d in ds {
        declared(d, level, to)?;
    }
    Ok(())
}

/// .. within a body whose parts stand at a level.
#[cycle(texts)]
pub(crate) fn within_body<'a>(
    b: &'a Body,
    level: u8,
    to: &mut Vec<Procedure<'a>>,
) -> Result<(), AllocError>
    requires { HaveLevelsBody (body b.now) level }
    ensures { OnOk result (map text_of_procedure to.new.items ≡ map text_of_procedure to.old.items ++ texts_in_body (body b.now) level) }
{
    declared_all(b.decls.items(), level, to)?;
    within_all(b.stmts.items(), level, to)
}
