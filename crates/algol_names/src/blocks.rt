//! The blocks of a program, in the order of the text.

ghost use Rattle.std.specs.Prelude.{◌≡◌, [], ◌∷◌, ◌++◌, map, IfOk, OnOk};
ghost use Rattle.algol_tree.specs.Blocks as plain;
ghost use Rattle.algol_meaning.specs.SeenTree.{stmt, stmts, body, decl, decls, program};
ghost use Rattle.algol_tree.specs.Sorts.{parameters_of};
ghost use Rattle.algol_cells.specs.SeenScope.{block, in_block, parameter};
ghost use Rattle.algol_names.specs.Blocks as seen;

use algol_cells::{Block, BlockStatements, Owner, Parameter};
use algol_rules::{boxed_stmt, decls_in, is_compound, stmts_in};
use algol_sorts::Specified;
use algol_tree::{Body, Decl, Heading, List, Program, Spot, Stmt};
use std::alloc::{AllocError, Global};

/// Whose the declarations of a BEGIN are.
#[derive(Clone, Copy)]
pub enum Begin {
    OfStatement,
    OfProcedure,
}

/// This spot, and others after it.
pub fn with_first(alloc: Global, first: Spot, others: &[Spot]) -> Result<Vec<Spot>, AllocError>
    ensures { IfOk result (λ all. all.items ≡ first ∷ others.now) }
{
    let mut all = Vec::new(alloc);
    all.push(first)?;
    all.extend_from_slice(others)?;
    Ok(all)
}

fn copied(alloc: Global, spots: &[Spot]) -> Result<List<Spot>, AllocError>
    ensures { IfOk result (λ all. all ≡ spots.now) }
{
    let mut all = Vec::new(alloc);
    all.extend_from_slice(spots)?;
    Ok(List::of(all))
}

/// The parameters of a heading, in their order.
fn parameters_of<'p>(alloc: Global, h: &'p Heading) -> Result<List<Parameter<'p>>, AllocError>
    ensures { IfOk result (λ all. map parameter all ≡ parameters_of h.now) }
{
    let said = Specified::of(alloc, h)?;
    let mut all = Vec::new(alloc);
    'parameters: for n in h.params.items() {
        all.push(Parameter {
            name: &n.name,
            sort: said.sort(n.name.bytes()),
            heading: h,
        })?;
    }
    Ok(List::of(all))
}

/// The declarations and statements of a procedure's body.
fn parts_of(s: &Stmt) -> (&[Decl], BlockStatements<'_>)
    ensures decls { decls result.0.now ≡ plain.decls_of (stmt s.now) }
    ensures stmts { in_block result.1 ≡ plain.stmts_of (stmt s.now) }
{
    match s {
        Stmt::Block(b) => (decls_in(&b.decls), BlockStatements::All(stmts_in(&b.stmts))),
        _ => (&[], BlockStatements::One(s)),
    }
}

/// The block of a procedure.
fn procedure_block<'p>(
    alloc: Global,
    h: &'p Heading,
    s: &'p Stmt,
    outer: &[Spot],
) -> Result<Block<'p>, AllocError>
    ensures { IfOk result (λ b. block b ≡ plain.procedure_block h.now (stmt s.now) outer.now) }
{
    let (decls, stmts) = parts_of(s);
    Ok(Block {
        spot: h.name.spot,
        outer: copied(alloc, outer)?,
        owner: Some(Owner {
            name: &h.name.name,
            result: h.kind,
        }),
        parameters: parameters_of(alloc, h)?,
        decls,
        stmts,
    })
}

/// The block of a BEGIN.
#[tactic(auto, using(crate::proofs::Trees::tree_laws))]
fn begin_block<'p>(alloc: Global, b: &'p Body, outer: &[Spot]) -> Result<Block<'p>, AllocError>
    ensures { IfOk result (λ x. block x ≡ seen.block_of_begin (body b.now) outer.now) }
{
    Ok(Block {
        spot: b.spot,
        outer: copied(alloc, outer)?,
        owner: None,
        parameters: List::of(Vec::new(alloc)),
        decls: decls_in(&b.decls),
        stmts: BlockStatements::All(stmts_in(&b.stmts)),
    })
}

/// One more block.
fn push<'p>(blocks: &mut Vec<Block<'p>>, own: Block<'p>) -> Result<(), AllocError>
    ensures { OnOk result (blocks.new.items ≡ blocks.old.items ++ own.entry ∷ []) }
{
    blocks.push(own)?;
    Ok(())
}

/// Tests that a BEGIN is a block of its own: it has declarations, and is no procedure's.
#[tactic(auto, using(crate::proofs::Trees::tree_laws))]
pub fn is_block(b: &Body, begin: Begin) -> bool
    ensures { result ≡ seen.is_block (body b.now) (seen.begin begin) }
{
    match begin {
        Begin::OfProcedure => false,
        Begin::OfStatement => !is_compound(b),
    }
}

/// The blocks in a statement, after others.
#[cycle(statements)]
fn add_in_stmt<'p>(
    blocks: &mut Vec<Block<'p>>,
    alloc: Global,
    s: &'p Stmt,
    begin: Begin,
    outer: &[Spot],
) -> Result<(), AllocError>
    ensures { OnOk result (map block blocks.new.items ≡ map block blocks.old.items ++ plain.blocks_of (stmt s.now) (seen.begin begin) outer.now) }
{
    match s {
        Stmt::Label(_, s) => add_in_stmt(blocks, alloc, boxed_stmt(s), Begin::OfStatement, outer),
        Stmt::Block(b) => add_in_begin(blocks, alloc, b, begin, outer),
        Stmt::If(_, a, None) => add_in_stmt(
            blocks,
            alloc,
            boxed_stmt(a),
            Begin::OfStatement,
            outer,
        ),
        Stmt::If(_, a, Some(b)) => {
            add_in_stmt(blocks, alloc, boxed_stmt(a), Begin::OfStatement, outer)?;
            add_in_stmt(blocks, alloc, boxed_stmt(b), Begin::OfStatement, outer)
        }
        Stmt::While(_, b) => add_in_stmt(blocks, alloc, boxed_stmt(b), Begin::OfStatement, outer),
        Stmt::Until(b, _) => add_in_stmt(blocks, alloc, boxed_stmt(b), Begin::OfStatement, outer),
        Stmt::For(_, _, _, _, b) => add_in_stmt(
            blocks,
            alloc,
            boxed_stmt(b),
            Begin::OfStatement,
            outer,
        ),
        Stmt::Thru(_, b) => add_in_stmt(blocks, alloc, boxed_stmt(b), Begin::OfStatement, outer),
        Stmt::Case(_, ss) => add_in_stmts(blocks, alloc, stmts_in(ss), outer),
        _ => Ok(()),
    }
}

/// The blocks in statements, after others.
#[cycle(statements)]
fn add_in_stmts<'p>(
    blocks: &mut Vec<Block<'p>>,
    alloc: Global,
    ss: &'p [Stmt],
    outer: &[Spot],
) -> Result<(), AllocError>
    ensures { OnOk result (map block blocks.new.items ≡ map block blocks.old.items ++ plain.blocks_in_stmts (stmts ss.now) outer.now) }
{
    'statements: for s in ss {
        add_in_stmt(blocks, alloc, s, Begin::OfStatement, outer)?;
    }
    Ok(())
}

/// The blocks in declarations, after others.
#[cycle(statements)]
fn add_in_decls<'p>(
    blocks: &mut Vec<Block<'p>>,
    alloc: Global,
    ds: &'p [Decl],
    outer: &[Spot],
) -> Result<(), AllocError>
    ensures { OnOk result (map block blocks.new.items ≡ map block blocks.old.items ++ plain.blocks_in_decls (decls ds.now) outer.now) }
{
    'declarations: for d in ds {
        add_in_decl(blocks, alloc, d, outer)?;
    }
    Ok(())
}

/// The blocks of a BEGIN, its own among them, after others.
#[cycle(statements)]
fn add_in_begin<'p>(
    blocks: &mut Vec<Block<'p>>,
    alloc: Global,
    b: &'p Body,
    begin: Begin,
    outer: &[Spot],
) -> Result<(), AllocError>
    ensures { OnOk result (map block blocks.new.items ≡ map block blocks.old.items ++ seen.begin_blocks (seen.begin begin) (body b.now) outer.now) }
{
    if is_block(b, begin) {
        let own = begin_block(alloc, b, outer)?;
        push(blocks, own)?;
        let within = with_first(alloc, b.spot, outer)?;
        add_in_body(blocks, alloc, b, within.as_slice())
    } else {
        add_in_body(blocks, alloc, b, outer)
    }
}

/// The blocks in a BEGIN, after others.
#[cycle(statements)]
fn add_in_body<'p>(
    blocks: &mut Vec<Block<'p>>,
    alloc: Global,
    b: &'p Body,
    outer: &[Spot],
) -> Result<(), AllocError>
    ensures { OnOk result (map block blocks.new.items ≡ map block blocks.old.items ++ plain.blocks_in_body (body b.now) outer.now) }
{
    add_in_decls(blocks, alloc, decls_in(&b.decls), outer)?;
    add_in_stmts(blocks, alloc, stmts_in(&b.stmts), outer)
}

/// The blocks in a declaration, after others.
#[cycle(statements)]
fn add_in_decl<'p>(
    blocks: &mut Vec<Block<'p>>,
    alloc: Global,
    d: &'p Decl,
    outer: &[Spot],
) -> Result<(), AllocError>
    ensures { OnOk result (map block blocks.new.items ≡ map block blocks.old.items ++ plain.blocks_in_decl (decl d.now) outer.now) }
{
    match d {
        Decl::Procedure(h, s) => {
            let body = boxed_stmt(s);
            let own = procedure_block(alloc, h, body, outer)?;
            push(blocks, own)?;
            let within = with_first(alloc, h.name.spot, outer)?;
            add_in_stmt(blocks, alloc, body, Begin::OfProcedure, within.as_slice())
        }
        _ => Ok(()),
    }
}

/// The blocks of a program, in the order of the text.
#[tactic(auto, using(crate::proofs::Trees::tree_laws), unfolding(algol_tree::specs::Blocks::blocks_of_program))]
pub fn blocks_of<'p>(alloc: Global, p: &'p Program) -> Result<Vec<Block<'p>>, AllocError>
    ensures { IfOk result (λ blocks. map block blocks.items ≡ plain.blocks_of_program (program p.now)) }
{
    let mut blocks = Vec::new(alloc);
    let outermost = begin_block(alloc, &p.body, &[])?;
    push(&mut blocks, outermost)?;
    let within = with_first(alloc, p.body.spot, &[])?;
    add_in_body(&mut blocks, alloc, &p.body, within.as_slice())?;
    Ok(blocks)
}
