//! The lower bounds of the arrays of a program, and of the parameters that stand for arrays.

ghost use Rattle.std.specs.Prelude.{◌≡◌, true, OnOk, IfOk};
ghost use Rattle.algol_tree.specs.declared.token.Spot as token;
ghost use Rattle.algol_tree.specs.Ascending.{IsInOrder};
ghost use Rattle.algol_tree.specs.Blocks.{blocks_of_program};
ghost use Rattle.algol_tree.specs.Image as plain;
ghost use Rattle.algol_paths.specs.Arrays as arrays;
ghost use Rattle.algol_scope.specs.Resolved.{AreOf, declaration_of};
ghost use Rattle.algol_lows.specs.Lows.{LowsAdd, lows_begun, lows_in_body, lows_in_decl, lows_in_decls, lows_in_stmt, lows_in_stmts, lows_made, lows_meant, lows_named, lows_of_names, lows_of_spec, lows_of_specs, lows_there, own_lows, told_lows, lows_found_under};

use algol_scope::Scopes;
use algol_tree::{Body, Decl, Named, Pair, Program, Spec, Spot, Stmt};
use b67_list::List;
use std::alloc::{AllocError, Global};
use std::collections::BTreeMap;

/// The lower bounds of an array, and whether it is a parameter.
#[derive(Drop)]
pub struct Lows {
    pub list: List<i64>,
    pub formal: bool,
}

/// The lower bounds of arrays, by the places where their names are declared.
pub type LowsByPlace = BTreeMap<Spot, Lows>;

/// The lower bounds of a declared array.
fn own_lows(alloc: Global, pairs: &[Pair]) -> Result<Lows, AllocError>
    ensures { IfOk result (λ lows. told_lows lows ≡ own_lows (plain.pairs pairs.now)) }
{
    let mut list = Vec::new(alloc);
    'pairs: for pair in pairs {
        list.push(pair.low)?;
    }
    Ok(Lows {
        list: List::of(list),
        formal: false,
    })
}

/// Those of a parameter that is specified as an array.
fn formal_lows(alloc: Global, lows: &[i64]) -> Result<Lows, AllocError>
    ensures { IfOk result (λ own. told_lows own ≡ record { list = lows.now; formal = true }) }
{
    Ok(Lows {
        list: List::of(lows.to_vec(alloc)?),
        formal: true,
    })
}

/// The lower bounds stand under the place, unless some stand there already.
fn add(table: &mut LowsByPlace, spot: Spot, lows: Lows) -> Result<(), AllocError>
    ensures { OnOk result (LowsAdd table.old table.new (lows_there spot (told_lows lows))) }
{
    table.entry(spot)?.or_insert(lows);
    Ok(())
}

/// The same of an array of each of these names.
fn add_names(
    table: &mut LowsByPlace,
    alloc: Global,
    names: &[Named],
    pairs: &[Pair],
) -> Result<(), AllocError>
    ensures { OnOk result (LowsAdd table.old table.new (lows_named names.now (own_lows (plain.pairs pairs.now)))) }
{
    'names: for n in names {
        add(table, n.spot, own_lows(alloc, pairs)?)?;
    }
    Ok(())
}

/// The same of the parameter that a name means, which is specified as an array with these lower bounds.
fn add_parameter(
    table: &mut LowsByPlace,
    alloc: Global,
    scopes: &Scopes,
    n: &Named,
    lows: &[i64],
) -> Result<(), AllocError>
    ensures { OnOk result (LowsAdd table.old table.new (lows_meant (declaration_of scopes.now n.now.spot) lows.now)) }
{
    match scopes.declaration(n.spot) {
        None => Ok(()),
        Some(parameter) => add(table, parameter.spot, formal_lows(alloc, lows)?),
    }
}

/// The same of the parameters that these names mean.
fn add_parameters(
    table: &mut LowsByPlace,
    alloc: Global,
    scopes: &Scopes,
    names: &[Named],
    lows: &[i64],
) -> Result<(), AllocError>
    ensures { OnOk result (LowsAdd table.old table.new (lows_of_names scopes.now names.now lows.now)) }
{
    'names: for n in names {
        add_parameter(table, alloc, scopes, n, lows)?;
    }
    Ok(())
}

/// The same of the parameters that a specification names, if it is one of arrays.
fn add_spec(
    table: &mut LowsByPlace,
    alloc: Global,
    scopes: &Scopes,
    spec: &Spec,
) -> Result<(), AllocError>
    ensures { OnOk result (LowsAdd table.old table.new (lows_of_spec scopes.now spec.now)) }
{
    match spec {
        Spec::Arrays(_, ns, lows) => {
            add_parameters(
                table,
                alloc,
                scopes,
                ns.items().as_slice(),
                lows.items().as_slice(),
            )
        }
        Spec::Simple(_, _) => Ok(()),
        Spec::Events(_) => Ok(()),
    }
}

/// The same of what the specifications of a heading name.
fn add_specs(
    table: &mut LowsByPlace,
    alloc: Global,
    scopes: &Scopes,
    specs: &[Spec],
) -> Result<(), AllocError>
    ensures { OnOk result (LowsAdd table.old table.new (lows_of_specs scopes.now specs.now)) }
{
    'specs: for spec in specs {
        add_spec(table, alloc, scopes, spec)?;
    }
    Ok(())
}

/// The same of the arrays that a declaration makes, or of the parameters of the procedure that it declares.
fn add_made(
    table: &mut LowsByPlace,
    alloc: Global,
    scopes: &Scopes,
    d: &Decl,
) -> Result<(), AllocError>
    ensures { OnOk result (LowsAdd table.old table.new (lows_made scopes.now (plain.decl d.now))) }
{
    match d {
        Decl::Arrays(_, ns, pairs) => {
            add_names(
                table,
                alloc,
                ns.items().as_slice(),
                pairs.items().as_slice(),
            )
        }
        Decl::Procedure(h, _) => add_specs(table, alloc, scopes, h.specs.items().as_slice()),
        Decl::Simple(_, _) => Ok(()),
        Decl::Files(_) => Ok(()),
        Decl::Events(_) => Ok(()),
        Decl::Tasks(_) => Ok(()),
        Decl::Labels(_) => Ok(()),
        Decl::Forward(_) => Ok(()),
    }
}

/// The same of what declarations make and declare.
fn add_declared(
    table: &mut LowsByPlace,
    alloc: Global,
    scopes: &Scopes,
    ds: &[Decl],
) -> Result<(), AllocError>
    ensures { OnOk result (LowsAdd table.old table.new (lows_begun scopes.now (plain.decls ds.now))) }
{
    'declarations: for d in ds {
        add_made(table, alloc, scopes, d)?;
    }
    Ok(())
}

/// The same of what is declared in a statement.
#[cycle(statements)]
fn add_in_stmt(
    table: &mut LowsByPlace,
    alloc: Global,
    scopes: &Scopes,
    s: &Stmt,
) -> Result<(), AllocError>
    ensures { OnOk result (LowsAdd table.old table.new (lows_in_stmt scopes.now (plain.stmt s.now))) }
{
    match s {
        Stmt::Label(_, s) => add_in_stmt(table, alloc, scopes, s),
        Stmt::Block(b) => add_in_body(table, alloc, scopes, b),
        Stmt::If(_, x, y) => {
            add_in_stmt(table, alloc, scopes, x)?;
            match y {
                None => Ok(()),
                Some(y) => add_in_stmt(table, alloc, scopes, y),
            }
        }
        Stmt::While(_, b) => add_in_stmt(table, alloc, scopes, b),
        Stmt::Until(b, _) => add_in_stmt(table, alloc, scopes, b),
        Stmt::For(_, _, _, _, b) => add_in_stmt(table, alloc, scopes, b),
        Stmt::Thru(_, b) => add_in_stmt(table, alloc, scopes, b),
        Stmt::Case(_, ss) => add_in_stmts(table, alloc, scopes, ss.items().as_slice()),
        _ => Ok(()),
    }
}

/// The same of what is declared in statements.
#[cycle(statements)]
fn add_in_stmts(
    table: &mut LowsByPlace,
    alloc: Global,
    scopes: &Scopes,
    ss: &[Stmt],
) -> Result<(), AllocError>
    ensures { OnOk result (LowsAdd table.old table.new (lows_in_stmts scopes.now (plain.stmts ss.now))) }
{
    'statements: for s in ss {
        add_in_stmt(table, alloc, scopes, s)?;
    }
    Ok(())
}

/// The same of what is declared in the procedure of a declaration.
#[cycle(statements)]
fn add_in_decl(
    table: &mut LowsByPlace,
    alloc: Global,
    scopes: &Scopes,
    d: &Decl,
) -> Result<(), AllocError>
    ensures { OnOk result (LowsAdd table.old table.new (lows_in_decl scopes.now (plain.decl d.now))) }
{
    match d {
        Decl::Procedure(_, s) => add_in_stmt(table, alloc, scopes, s),
        _ => Ok(()),
    }
}

/// The same of what is declared in the procedures of declarations.
#[cycle(statements)]
fn add_in_decls(
    table: &mut LowsByPlace,
    alloc: Global,
    scopes: &Scopes,
    ds: &[Decl],
) -> Result<(), AllocError>
    ensures { OnOk result (LowsAdd table.old table.new (lows_in_decls scopes.now (plain.decls ds.now))) }
{
    'declarations: for d in ds {
        add_in_decl(table, alloc, scopes, d)?;
    }
    Ok(())
}

/// The same of what a BEGIN declares, and of what is in it.
#[cycle(statements)]
#[tactic(auto, using(crate::proofs::LowerBounds::body_laws))]
fn add_in_body(
    table: &mut LowsByPlace,
    alloc: Global,
    scopes: &Scopes,
    b: &Body,
) -> Result<(), AllocError>
    ensures { OnOk result (LowsAdd table.old table.new (lows_in_body scopes.now (plain.body b.now))) }
{
    let ds = b.decls.items().as_slice();
    add_declared(table, alloc, scopes, ds)?;
    add_in_decls(table, alloc, scopes, ds)?;
    add_in_stmts(table, alloc, scopes, b.stmts.items().as_slice())
}

/// The lower bounds of the arrays of a program, in whatever block, and of the parameters that stand for arrays, by the places where their
/// names are declared.
pub fn lows_of_program(
    alloc: Global,
    tree: &Program,
    scopes: &Scopes,
) -> Result<LowsByPlace, AllocError>
    requires resolved { AreOf (plain.program tree.now) scopes.now }
    requires order { IsInOrder (plain.program tree.now) }
    ensures { IfOk result (λ table. (spot : token.Spot) → lows_found_under table spot ≡ arrays.lows_at (blocks_of_program (plain.program tree.now)) spot) }
{
    let mut table = BTreeMap::new(alloc);
    add_in_body(&mut table, alloc, scopes, &tree.body)?;
    Ok(table)
}
