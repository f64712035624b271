//! Expressions from tokens.
//!
//! A bracket passes through few functions with small frames, so that the levels of an expression need little of the C stack: the operators
//! are read in loops, what is read stands in boxes, and what a bracket does not pass through stands out of line.

ghost use Rattle.std.specs.Prelude.{◌≡◌, [], ◌∷◌, true, false, Some, None, IfOk, IfErr};
ghost use Rattle.algol_tree.specs.Ended.{EndsOnce};
ghost use Rattle.algol_tree.specs.declared.token.Reserved.TheVariants as reserved;
ghost use Rattle.algol_tree.specs.Operators as grammar;
ghost use Rattle.algol_tree.specs.Operators.{expr, not_part, primary, operand};
ghost use Rattle.algol_tree.specs.Image.{expr as plain, exprs as plain_list};
ghost use Rattle.algol_tree.specs.declared.level.Level.TheVariants as levels;
ghost use Rattle.algol_tree.specs.declared.token.TokenKind.TheVariants as kinds;
ghost use Rattle.algol_tree.specs.declared.token.Symbol.TheVariants as symbols;
ghost use Rattle.algol_tree.specs.Tokens.{is_word, is_symbol};
ghost use Rattle.algol_tree.specs.Due.{part, more_of, behind_name, one, many, make, word};
ghost use Rattle.algol_tree.specs.DueExpr.{list_in, expr_chosen, is_sign};
ghost use Rattle.algol_tree.specs.Due as dues;
ghost use Rattle.algol_tree.specs.Found.{ReaderFinds, Extends, Completes, Fails, Lists};
ghost use Rattle.algol_tree.specs.Plain.{none};
ghost use Rattle.algol_expr.specs.Steps.{IsStart, ExprBegins, begins_with, part_of_step, due_of};
ghost use Rattle.algol_expr.specs.declared.step.Start.TheVariants as starts;

use crate::event::{read_asked, read_waited, test_in};
use crate::make::{
    add, boxed, call, choice, grouped, literal, named, negated, signed, two, variable,
};
use crate::operator::{operator, relation};
use crate::step::{Start, Step, start_of, steps};
use crate::stop::Stop;
use crate::take::{
    expect_symbol, expect_word, first_of, is_symbol, is_word, name_in, opened, refused,
};
use algol_tree::{Code, Expr, Level, List, Named, Reserved, Spot, Symbol, Token};
use std::alloc::Global;

/// expr = IF expr THEN eqv ELSE expr | eqv
#[inline(always)]
#[cycle(expressions)]
pub(crate) fn read_expression(
    alloc: Global,
    tokens: &[Token],
    depth: u32,
) -> Result<(Box<Expr>, &[Token]), Stop>
    requires ended { EndsOnce tokens.now }
    ensures found { IfOk result (λ r. ReaderFinds (part expr depth) tokens.now (one (plain r.0.value)) r.1.now) }
    ensures refused { IfErr result (λ e. Fails (part expr depth ∷ []) [] tokens.now e.left e.refusal) }
{
    let (first, rest) = first_of(tokens);
    if is_word(first, Reserved::If) {
        read_choice(alloc, first, rest, depth)
    } else {
        read_up_to(alloc, tokens, Step::Operators(Level::Eqv), depth)
    }
}

/// IF expr THEN eqv ELSE expr, after the IF
#[inline(never)]
#[cycle(expressions)]
fn read_choice<'a>(
    alloc: Global,
    first: &Token,
    rest: &'a [Token],
    depth: u32,
) -> Result<(Box<Expr>, &'a [Token]), Stop>
    requires ended { EndsOnce (first.now ∷ rest.now) }
    requires word { is_word reserved.If first.now.kind ≡ true }
    ensures found { IfOk result (λ r. ReaderFinds (part expr depth) (first.now ∷ rest.now) (one (plain r.0.value)) r.1.now) }
    ensures refused { IfErr result (λ e. Fails (part expr depth ∷ []) [] (first.now ∷ rest.now) e.left e.refusal) }
{
    let inner = opened(first, rest, depth)?;
    let (condition, rest) = read_expression(alloc, rest, inner)?;
    let rest = expect_word(rest, Reserved::Then)?;
    let (whole, rest) = read_arms(alloc, condition, first.spot, rest, inner)?;
    Ok((whole, rest))
}

/// eqv ELSE expr, after the IF at that place, this condition and THEN
#[cycle(expressions)]
fn read_arms(
    alloc: Global,
    condition: Box<Expr>,
    spot: Spot,
    tokens: &[Token],
    depth: u32,
) -> Result<(Box<Expr>, &[Token]), Stop>
    requires ended { EndsOnce tokens.now }
    ensures found { IfOk result (λ r. Lists (part (grammar.level levels.Eqv) depth ∷ word reserved.Else ∷ part expr depth ∷ make (expr_chosen spot) ∷ []) tokens.now (one (plain condition.value)) (one (plain r.0.value)) r.1.now) }
    ensures refused { IfErr result (λ e. Fails (part (grammar.level levels.Eqv) depth ∷ word reserved.Else ∷ part expr depth ∷ make (expr_chosen spot) ∷ []) (one (plain condition.value) ∷ []) tokens.now e.left e.refusal) }
{
    let (yes, rest) = read_up_to(alloc, tokens, Step::Operators(Level::Eqv), depth)?;
    let rest = expect_word(rest, Reserved::Else)?;
    let (otherwise, rest) = read_expression(alloc, rest, depth)?;
    Ok((choice(alloc, condition, yes, otherwise, spot)?, rest))
}

/// An expression up to that step: what it begins with, and what follows step by step
#[cycle(expressions)]
fn read_up_to(
    alloc: Global,
    tokens: &[Token],
    last: Step,
    depth: u32,
) -> Result<(Box<Expr>, &[Token]), Stop>
    requires ended { EndsOnce tokens.now }
    ensures found { IfOk result (λ r. ReaderFinds (part (part_of_step last) depth) tokens.now (one (plain r.0.value)) r.1.now) }
    ensures refused { IfErr result (λ e. Fails (part (part_of_step last) depth ∷ []) [] tokens.now e.left e.refusal) }
{
    let (first, _behind) = first_of(tokens);
    let start = start_of(last, first);
    let (mut left, mut rest) = read_beginning(alloc, tokens, start, depth)?;
    'steps: for step in steps(start, last) {
        let (whole, after) = read_step(alloc, left, rest, *step, depth)?;
        left = whole;
        rest = after;
    }
    Ok((left, rest))
}

/// What an expression begins with
#[cycle(expressions)]
fn read_beginning(
    alloc: Global,
    tokens: &[Token],
    start: Start,
    depth: u32,
) -> Result<(Box<Expr>, &[Token]), Stop>
    requires ended { EndsOnce tokens.now }
    requires start { IsStart start tokens.now }
    ensures found { IfOk result (λ r. ExprBegins start depth tokens.now (one (plain r.0.value)) r.1.now) }
    ensures refused { IfErr result (λ e. Fails (part (begins_with start) depth ∷ []) [] tokens.now e.left e.refusal) }
{
    let (first, behind) = first_of(tokens);
    match start {
        Start::Not => read_not(alloc, first, behind, depth),
        Start::Sign => read_signed(alloc, first, behind, depth),
        Start::Primary => read_primary(alloc, tokens, depth),
    }
}

/// NOT not, after the NOT
#[inline(never)]
#[cycle(expressions)]
fn read_not<'a>(
    alloc: Global,
    first: &Token,
    behind: &'a [Token],
    depth: u32,
) -> Result<(Box<Expr>, &'a [Token]), Stop>
    requires ended { EndsOnce (first.now ∷ behind.now) }
    requires word { is_word reserved.Not first.now.kind ≡ true }
    ensures found { IfOk result (λ r. ReaderFinds (part not_part depth) (first.now ∷ behind.now) (one (plain r.0.value)) r.1.now) }
    ensures refused { IfErr result (λ e. Fails (part not_part depth ∷ []) [] (first.now ∷ behind.now) e.left e.refusal) }
{
    let inner = opened(first, behind, depth)?;
    let (operand, rest) = read_up_to(alloc, behind, Step::Relation, inner)?;
    Ok((negated(alloc, operand, first.spot)?, rest))
}

/// The first operand of a sum with a sign before it, after the sign
#[inline(never)]
#[cycle(expressions)]
fn read_signed<'a>(
    alloc: Global,
    sign: &Token,
    behind: &'a [Token],
    depth: u32,
) -> Result<(Box<Expr>, &'a [Token]), Stop>
    requires ended { EndsOnce (sign.now ∷ behind.now) }
    requires sign { is_sign sign.now.kind ≡ true }
    ensures found { IfOk result (λ r. ExprBegins starts.Sign depth (sign.now ∷ behind.now) (one (plain r.0.value)) r.1.now) }
    ensures refused { IfErr result (λ e. Fails (part (grammar.level levels.Sum) depth ∷ []) [] (sign.now ∷ behind.now) e.left e.refusal) }
{
    let (operand, rest) = read_up_to(alloc, behind, Step::Operators(Level::Term), depth)?;
    Ok((signed(alloc, sign, operand)?, rest))
}

/// What is due of a step, after the expression `left`
#[cycle(expressions)]
fn read_step(
    alloc: Global,
    left: Box<Expr>,
    tokens: &[Token],
    step: Step,
    depth: u32,
) -> Result<(Box<Expr>, &[Token]), Stop>
    requires ended { EndsOnce tokens.now }
    ensures found { IfOk result (λ r. Extends (due_of depth step) tokens.now (one (plain left.value)) (one (plain r.0.value)) r.1.now) }
    ensures refused { IfErr result (λ e. Fails (due_of depth step ∷ []) (one (plain left.value) ∷ []) tokens.now e.left e.refusal) }
{
    match step {
        Step::Operators(level) => read_more(alloc, left, tokens, level, depth),
        Step::Relation => read_relation(alloc, left, tokens, depth),
    }
}

/// What the operators of a level stand between
#[cycle(expressions)]
fn read_operand(
    alloc: Global,
    tokens: &[Token],
    level: Level,
    depth: u32,
) -> Result<(Box<Expr>, &[Token]), Stop>
    requires ended { EndsOnce tokens.now }
    ensures found { IfOk result (λ r. ReaderFinds (part (operand level) depth) tokens.now (one (plain r.0.value)) r.1.now) }
    ensures refused { IfErr result (λ e. Fails (part (operand level) depth ∷ []) [] tokens.now e.left e.refusal) }
{
    match level {
        Level::Eqv => read_up_to(alloc, tokens, Step::Operators(Level::Imp), depth),
        Level::Imp => read_up_to(alloc, tokens, Step::Operators(Level::Or), depth),
        Level::Or => read_up_to(alloc, tokens, Step::Operators(Level::And), depth),
        Level::And => read_up_to(alloc, tokens, Step::Relation, depth),
        Level::Sum => read_up_to(alloc, tokens, Step::Operators(Level::Term), depth),
        Level::Term => read_primary(alloc, tokens, depth),
    }
}

/// { operator operand }, after the expression `left`
#[cycle(expressions)]
fn read_more(
    alloc: Global,
    mut left: Box<Expr>,
    tokens: &[Token],
    level: Level,
    depth: u32,
) -> Result<(Box<Expr>, &[Token]), Stop>
    requires ended { EndsOnce tokens.now }
    ensures found { IfOk result (λ r. Extends (more_of level depth) tokens.now (one (plain left.value)) (one (plain r.0.value)) r.1.now) }
    ensures refused { IfErr result (λ e. Fails (more_of level depth ∷ []) (one (plain left.value) ∷ []) tokens.now e.left e.refusal) }
{
    let mut rest = tokens;
    'operands: loop {
        let (first, behind) = first_of(rest);
        match operator(level, first) {
            Some(op) => {
                let (right, after) = read_operand(alloc, behind, level, depth)?;
                left = two(alloc, op, left, right)?;
                rest = after;
            }
            None => return Ok((left, rest)),
        }
    }
}

/// [ relop sum ], after the sum `left`
#[cycle(expressions)]
fn read_relation(
    alloc: Global,
    left: Box<Expr>,
    tokens: &[Token],
    depth: u32,
) -> Result<(Box<Expr>, &[Token]), Stop>
    requires ended { EndsOnce tokens.now }
    ensures found { IfOk result (λ r. Extends (dues.relation depth) tokens.now (one (plain left.value)) (one (plain r.0.value)) r.1.now) }
    ensures refused { IfErr result (λ e. Fails (dues.relation depth ∷ []) (one (plain left.value) ∷ []) tokens.now e.left e.refusal) }
{
    let (first, behind) = first_of(tokens);
    match relation(first) {
        Some(op) => {
            let (right, rest) = read_up_to(alloc, behind, Step::Operators(Level::Sum), depth)?;
            Ok((two(alloc, op, left, right)?, rest))
        }
        None => Ok((left, tokens)),
    }
}

/// primary = number | TRUE | FALSE | variable | name "(" expr { "," expr } ")" | ( HAPPENED | AVAILABLE | FIX ) "(" event ")" |
/// WAIT "(" event { "," event } ")" | "(" expr ")"
#[cycle(expressions)]
fn read_primary(alloc: Global, tokens: &[Token], depth: u32) -> Result<(Box<Expr>, &[Token]), Stop>
    requires ended { EndsOnce tokens.now }
    ensures found { IfOk result (λ r. ReaderFinds (part primary depth) tokens.now (one (plain r.0.value)) r.1.now) }
    ensures refused { IfErr result (λ e. Fails (part primary depth ∷ []) [] tokens.now e.left e.refusal) }
{
    let (first, behind) = first_of(tokens);
    if let Some(value) = literal(first) {
        return Ok((boxed(alloc, value)?, behind));
    }
    if let Some(name) = name_in(first) {
        let name = named(alloc, name, first.spot)?;
        return read_behind_name(alloc, name, behind, depth);
    }
    if let Some(test) = test_in(first) {
        return read_asked(alloc, test, first, behind, depth);
    }
    if is_word(first, Reserved::Wait) {
        return read_waited(alloc, first, behind, depth);
    }
    if is_symbol(first, Symbol::OpenRound) {
        read_group(alloc, first, behind, depth)
    } else {
        Err(refused(first, behind, Code::Unexpected))
    }
}

/// "(" expr ")", after the "("
#[cycle(expressions)]
fn read_group<'a>(
    alloc: Global,
    first: &Token,
    rest: &'a [Token],
    depth: u32,
) -> Result<(Box<Expr>, &'a [Token]), Stop>
    requires ended { EndsOnce (first.now ∷ rest.now) }
    requires symbol { is_symbol symbols.OpenRound first.now.kind ≡ true }
    ensures found { IfOk result (λ r. ReaderFinds (part primary depth) (first.now ∷ rest.now) (one (plain r.0.value)) r.1.now) }
    ensures refused { IfErr result (λ e. Fails (part primary depth ∷ []) [] (first.now ∷ rest.now) e.left e.refusal) }
{
    let inner = opened(first, rest, depth)?;
    let (inside, rest) = read_expression(alloc, rest, inner)?;
    let rest = expect_symbol(rest, Symbol::CloseRound)?;
    Ok((grouped(alloc, inside, first.spot)?, rest))
}

/// A variable or a call, after its name: [ "[" expr { "," expr } "]" | "(" expr { "," expr } ")" ]
#[inline(never)]
#[cycle(expressions)]
fn read_behind_name(
    alloc: Global,
    name: Named,
    tokens: &[Token],
    depth: u32,
) -> Result<(Box<Expr>, &[Token]), Stop>
    requires ended { EndsOnce tokens.now }
    ensures found { IfOk result (λ r. Completes (behind_name name depth) tokens.now (one (plain r.0.value)) r.1.now) }
    ensures refused { IfErr result (λ e. Fails (behind_name name depth ∷ []) [] tokens.now e.left e.refusal) }
{
    let (first, behind) = first_of(tokens);
    if is_symbol(first, Symbol::OpenSquare) {
        let inner = opened(first, behind, depth)?;
        let (subs, rest) = read_list(alloc, behind, inner, Symbol::CloseSquare)?;
        Ok((variable(alloc, name, subs)?, rest))
    } else if is_symbol(first, Symbol::OpenRound) {
        let inner = opened(first, behind, depth)?;
        let (actuals, rest) = read_list(alloc, behind, inner, Symbol::CloseRound)?;
        Ok((call(alloc, name, actuals)?, rest))
    } else {
        Ok((variable(alloc, name, List::of(Vec::new(alloc)))?, tokens))
    }
}

/// expr { "," expr }, and the symbol that closes them
#[cycle(expressions)]
fn read_list(
    alloc: Global,
    tokens: &[Token],
    depth: u32,
    closing: Symbol,
) -> Result<(List<Expr>, &[Token]), Stop>
    requires ended { EndsOnce tokens.now }
    requires closing { is_symbol symbols.Comma (kinds.Symbol closing) ≡ false }
    ensures found { IfOk result (λ r. Lists (list_in depth closing) tokens.now (many none) (many (plain_list r.0)) r.1.now) }
    ensures refused { IfErr result (λ e. Fails (list_in depth closing) (many none ∷ []) tokens.now e.left e.refusal) }
{
    let mut items = Vec::new(alloc);
    let mut rest = tokens;
    'items: loop {
        let (item, after) = read_expression(alloc, rest, depth)?;
        add(&mut items, item)?;
        let (first, behind) = first_of(after);
        if is_symbol(first, Symbol::Comma) {
            rest = behind;
        } else {
            let rest = expect_symbol(after, closing)?;
            return Ok((List::of(items), rest));
        }
    }
}
