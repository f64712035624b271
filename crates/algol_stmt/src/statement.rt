//! Statements, and declarations in which they stand.

ghost use Rattle.std.specs.Prelude.{◌≡◌, [], ◌∷◌, IfOk, IfErr};
ghost use Rattle.algol_tree.specs.Ended.{EndsOnce};
ghost use Rattle.algol_tree.specs.Plain as trees;
ghost use Rattle.algol_tree.specs.Plain.{no_decls};
ghost use Rattle.algol_tree.specs.declared.token.Symbol.TheVariants as symbols;
ghost use Rattle.algol_tree.specs.Due as due;
ghost use Rattle.algol_tree.specs.Due.{stmt, list, declared, one, statement, else_part};
ghost use Rattle.algol_tree.specs.DueStmt.{decl_behind, procedure_in};
ghost use Rattle.algol_tree.specs.Image as image;
ghost use Rattle.algol_tree.specs.Image.{stmt as plain, stmts as stmts_of, decls as decls_of};
ghost use Rattle.algol_tree.specs.Found.{Completes, Extends, Lists, TokenPasses, ReaderRefuses};
ghost use Rattle.algol_part.specs.Brings.{Brings, PartAdds, AddsNone};
ghost use Rattle.algol_part.specs.declared.opening.Opening.TheVariants as openings;
ghost use Rattle.algol_part.specs.Openings.{still_due, so_far, ReaderComesTo};
ghost use Rattle.algol_part.specs.Phrases.{statements_in};
ghost use Rattle.algol_stmt.specs.Begun.{opening_of};

use crate::begun::{Begun, Opened, read_begun};
use crate::make::{add, block, choosing, forward, led, one_armed, procedure, repeating, two_armed};
use algol_expr::{expect_symbol, expect_word, first_of, is_symbol, is_word, opened};
use algol_part::{
    Lead, begins_body, lists_names, read_arrays, read_heading, read_listed, read_simples,
    read_until, type_of, unexpected,
};
use algol_tree::{Decl, Expr, Heading, Kind, List, Refusal, Reserved, Spot, Stmt, Symbol, Token};
use std::alloc::Global;

/// A statement, or nothing, which is the empty one
#[cycle(statements)]
pub(crate) fn read_statement(
    alloc: Global,
    tokens: &[Token],
    depth: u32,
) -> Result<(Box<Stmt>, &[Token]), Refusal>
    requires ended { EndsOnce tokens.now }
    ensures found { IfOk result (λ r. Completes (due.statement depth) tokens.now (stmt (plain r.0.value)) r.1.now) }
    ensures refused { IfErr result (λ e. ReaderRefuses (due.statement depth ∷ []) [] tokens.now e) }
{
    let (begun, rest) = read_begun(alloc, tokens, depth)?;
    match begun {
        Begun::Whole(statement) => Ok((statement, rest)),
        Begun::Open(opened, inner) => read_opened(alloc, opened, rest, inner),
    }
}

/// What follows in a statement that is opened so, where `depth` levels are open
#[cycle(statements)]
fn read_opened(
    alloc: Global,
    opened: Opened,
    tokens: &[Token],
    depth: u32,
) -> Result<(Box<Stmt>, &[Token]), Refusal>
    requires ended { EndsOnce tokens.now }
    ensures found { IfOk result (λ r. ReaderComesTo (still_due (opening_of opened) depth) (so_far (opening_of opened)) tokens.now [] (stmt (plain r.0.value) ∷ []) r.1.now) }
    ensures refused { IfErr result (λ e. ReaderRefuses (still_due (opening_of opened) depth) (so_far (opening_of opened)) tokens.now e) }
{
    match opened {
        Opened::Led(lead) => read_led(alloc, lead, tokens, depth),
        Opened::Begin(spot) => read_block(alloc, spot, tokens, depth),
        Opened::If(condition) => read_arms(alloc, condition, tokens, depth),
        Opened::Do => read_repeated(alloc, tokens, depth),
        Opened::Case(choice) => read_cases(alloc, choice, tokens, depth),
    }
}

/// The statement that stands after a lead
#[cycle(statements)]
fn read_led(
    alloc: Global,
    lead: Box<Lead>,
    tokens: &[Token],
    depth: u32,
) -> Result<(Box<Stmt>, &[Token]), Refusal>
    requires ended { EndsOnce tokens.now }
    ensures found { IfOk result (λ r. ReaderComesTo (still_due (openings.Led lead.value) depth) (so_far (openings.Led lead.value)) tokens.now [] (stmt (plain r.0.value) ∷ []) r.1.now) }
    ensures refused { IfErr result (λ e. ReaderRefuses (still_due (openings.Led lead.value) depth) (so_far (openings.Led lead.value)) tokens.now e) }
{
    let (statement, rest) = read_statement(alloc, tokens, depth)?;
    Ok((led(alloc, lead, statement)?, rest))
}

/// { declaration ";" } statement { ";" statement } END, after the BEGIN at that place
#[cycle(statements)]
fn read_block(
    alloc: Global,
    spot: Spot,
    tokens: &[Token],
    depth: u32,
) -> Result<(Box<Stmt>, &[Token]), Refusal>
    requires ended { EndsOnce tokens.now }
    ensures found { IfOk result (λ r. ReaderComesTo (still_due (openings.Begin spot) depth) (so_far (openings.Begin spot)) tokens.now [] (stmt (plain r.0.value) ∷ []) r.1.now) }
    ensures refused { IfErr result (λ e. ReaderRefuses (still_due (openings.Begin spot) depth) (so_far (openings.Begin spot)) tokens.now e) }
{
    let (decls, rest) = read_declarations(alloc, tokens, depth)?;
    let (stmts, rest) = read_statements(alloc, rest, depth)?;
    Ok((block(alloc, spot, decls, stmts)?, rest))
}

/// statement UNTIL expr, after DO
#[cycle(statements)]
fn read_repeated(
    alloc: Global,
    tokens: &[Token],
    depth: u32,
) -> Result<(Box<Stmt>, &[Token]), Refusal>
    requires ended { EndsOnce tokens.now }
    ensures found { IfOk result (λ r. ReaderComesTo (still_due openings.Do depth) (so_far openings.Do) tokens.now [] (stmt (plain r.0.value) ∷ []) r.1.now) }
    ensures refused { IfErr result (λ e. ReaderRefuses (still_due openings.Do depth) (so_far openings.Do) tokens.now e) }
{
    let (body, rest) = read_statement(alloc, tokens, depth)?;
    let (end, rest) = read_until(alloc, rest)?;
    Ok((repeating(alloc, body, end)?, rest))
}

/// statement { ";" statement } END, after CASE, this choice, OF and BEGIN
#[cycle(statements)]
fn read_cases(
    alloc: Global,
    choice: Box<Expr>,
    tokens: &[Token],
    depth: u32,
) -> Result<(Box<Stmt>, &[Token]), Refusal>
    requires ended { EndsOnce tokens.now }
    ensures found { IfOk result (λ r. ReaderComesTo (still_due (openings.Case choice.value) depth) (so_far (openings.Case choice.value)) tokens.now [] (stmt (plain r.0.value) ∷ []) r.1.now) }
    ensures refused { IfErr result (λ e. ReaderRefuses (still_due (openings.Case choice.value) depth) (so_far (openings.Case choice.value)) tokens.now e) }
{
    let (cases, rest) = read_statements(alloc, tokens, depth)?;
    Ok((choosing(alloc, choice, cases)?, rest))
}

/// statement [ ELSE statement ], after IF, this condition and THEN
#[cycle(statements)]
fn read_arms(
    alloc: Global,
    condition: Box<Expr>,
    tokens: &[Token],
    depth: u32,
) -> Result<(Box<Stmt>, &[Token]), Refusal>
    requires ended { EndsOnce tokens.now }
    ensures found { IfOk result (λ r. ReaderComesTo (statement depth ∷ else_part depth ∷ []) (one (image.expr condition.value) ∷ []) tokens.now [] (stmt (plain r.0.value) ∷ []) r.1.now) }
    ensures refused { IfErr result (λ e. ReaderRefuses (statement depth ∷ else_part depth ∷ []) (one (image.expr condition.value) ∷ []) tokens.now e) }
{
    let (yes, rest) = read_statement(alloc, tokens, depth)?;
    let (next, after) = first_of(rest);
    if is_word(next, Reserved::Else) {
        let (otherwise, rest) = read_statement(alloc, after, depth)?;
        Ok((two_armed(alloc, condition, yes, otherwise)?, rest))
    } else {
        Ok((one_armed(alloc, condition, yes)?, rest))
    }
}

/// statement { ";" statement } END
#[cycle(statements)]
pub(crate) fn read_statements(
    alloc: Global,
    tokens: &[Token],
    depth: u32,
) -> Result<(List<Stmt>, &[Token]), Refusal>
    requires ended { EndsOnce tokens.now }
    ensures found { IfOk result (λ r. Brings (statements_in depth) tokens.now (list (stmts_of r.0)) r.1.now) }
    ensures refused { IfErr result (λ e. ReaderRefuses (statements_in depth) [] tokens.now e) }
{
    let mut stmts = Vec::new(alloc);
    let mut rest = tokens;
    'statements: loop {
        let (statement, after) = read_statement(alloc, rest, depth)?;
        add(&mut stmts, statement)?;
        let (first, behind) = first_of(after);
        if is_symbol(first, Symbol::Semicolon) {
            rest = behind;
        } else {
            let rest = expect_word(after, Reserved::End)?;
            return Ok((List::of(stmts), rest));
        }
    }
}

/// { declaration ";" }
#[cycle(statements)]
pub(crate) fn read_declarations(
    alloc: Global,
    tokens: &[Token],
    depth: u32,
) -> Result<(List<Decl>, &[Token]), Refusal>
    requires ended { EndsOnce tokens.now }
    ensures found { IfOk result (λ r. Extends (due.declarations depth) tokens.now (declared no_decls) (declared (decls_of r.0)) r.1.now) }
    ensures refused { IfErr result (λ e. ReaderRefuses (due.declarations depth ∷ []) (declared no_decls ∷ []) tokens.now e) }
{
    let mut decls = Vec::new(alloc);
    let mut rest = tokens;
    'declarations: loop {
        let (first, behind) = first_of(rest);
        if is_word(first, Reserved::Procedure) {
            let (procedure, after) = read_procedure(alloc, None, behind, depth)?;
            decls.push(procedure)?;
            rest = after;
        } else if let Some(kind) = type_of(first) {
            let typed = read_typed(alloc, kind, &mut decls, behind, depth)?;
            rest = typed;
        } else if lists_names(first) {
            let listed = read_listed(alloc, &mut decls, first, behind)?;
            rest = listed;
        } else {
            return Ok((List::of(decls), rest));
        }
    }
}

/// names ";" | ARRAY segment { "," segment } ";" | a procedure, after a type
#[cycle(statements)]
fn read_typed<'a>(
    alloc: Global,
    kind: Kind,
    decls: &mut Vec<Decl>,
    tokens: &'a [Token],
    depth: u32,
) -> Result<&'a [Token], Refusal>
    requires ended { EndsOnce tokens.now }
    ensures found { IfOk result (λ rest. Lists (due.typed kind depth ∷ []) tokens.now (declared (decls_of decls.old.items)) (declared (decls_of decls.new.items)) rest.now) }
    ensures refused { IfErr result (λ e. ReaderRefuses (due.typed kind depth ∷ []) (declared (decls_of decls.old.items) ∷ []) tokens.now e) }
{
    let (first, behind) = first_of(tokens);
    if is_word(first, Reserved::Procedure) {
        let (procedure, rest) = read_procedure(alloc, Some(kind), behind, depth)?;
        decls.push(procedure)?;
        Ok(rest)
    } else if is_word(first, Reserved::Array) {
        read_arrays(alloc, kind, decls, behind)
    } else {
        read_simples(alloc, kind, decls, tokens)
    }
}

/// A procedure after its word: its heading, and ( FORWARD | statement ) ";"
#[cycle(statements)]
fn read_procedure(
    alloc: Global,
    kind: Option<Kind>,
    tokens: &[Token],
    depth: u32,
) -> Result<(Decl, &[Token]), Refusal>
    requires ended { EndsOnce tokens.now }
    ensures found { IfOk result (λ r. PartAdds (procedure_in kind depth) declared tokens.now (λ ds. decl_behind ds (image.decl r.0)) r.1.now) }
    ensures refused { IfErr result (λ e. AddsNone (procedure_in kind depth) declared tokens.now e) }
{
    let (heading, rest) = read_heading(alloc, kind, tokens)?;
    let (first, behind) = first_of(rest);
    if is_word(first, Reserved::Forward) {
        closed_forward(heading, behind)
    } else if begins_body(first) {
        let inner = opened(first, behind, depth)?;
        let (statement, rest) = read_statement(alloc, rest, inner)?;
        closed_procedure(heading, statement, rest)
    } else {
        Err(unexpected(first))
    }
}

/// The heading that the word FORWARD stands after, where a semicolon follows
fn closed_forward(heading: Heading, tokens: &[Token]) -> Result<(Decl, &[Token]), Refusal>
    requires ended { EndsOnce tokens.now }
    ensures passes { IfOk result (λ r. TokenPasses (due.symbol symbols.Semicolon) tokens.now r.1.now) }
    ensures built { IfOk result (λ r. image.decl r.0 ≡ trees.forward heading) }
    ensures refused { IfErr result (λ e. ReaderRefuses (due.symbol symbols.Semicolon ∷ []) [] tokens.now e) }
{
    let rest = expect_symbol(tokens, Symbol::Semicolon)?;
    Ok((forward(heading), rest))
}

/// The procedure of that heading and statement, where a semicolon follows
fn closed_procedure(
    heading: Heading,
    statement: Box<Stmt>,
    tokens: &[Token],
) -> Result<(Decl, &[Token]), Refusal>
    requires ended { EndsOnce tokens.now }
    ensures passes { IfOk result (λ r. TokenPasses (due.symbol symbols.Semicolon) tokens.now r.1.now) }
    ensures built { IfOk result (λ r. image.decl r.0 ≡ trees.procedure heading (plain statement.value)) }
    ensures refused { IfErr result (λ e. ReaderRefuses (due.symbol symbols.Semicolon ∷ []) [] tokens.now e) }
{
    let rest = expect_symbol(tokens, Symbol::Semicolon)?;
    Ok((procedure(heading, statement), rest))
}
