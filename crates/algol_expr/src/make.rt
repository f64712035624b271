//! Expressions of smaller ones. They are in boxes, and each is made by a call of its own, so that the frames of the reader's levels have no room
//! for a whole one.

ghost use Rattle.std.specs.Prelude.{◌≡◌, false, [], ◌∷◌, ◌++◌, IfOk, IfErr, OnOk, IfSome, IfNone, Some, None};
ghost use Rattle.b67_deeds.specs.declared.EventTest.TheVariants as test;
ghost use Rattle.b67_deeds.specs.Deeds.{tests, is_of_several};
ghost use Rattle.algol_tree.specs.declared.refusal.Refusal.TheVariants.{NoMemory};
ghost use Rattle.algol_tree.specs.Plain as plain_trees;
ghost use Rattle.algol_tree.specs.Image.{expr as plain, exprs as plain_list};
ghost use Rattle.algol_tree.specs.DueExpr.{token_sign_of, literal};

use crate::stop::Stop;
use algol_tree::{
    Call, EventName, Expr, Line, List, Named, Op, Reserved, Spot, Symbol, Token, TokenKind,
    Variable,
};
use b67_deeds::EventTest;
use std::alloc::Global;

/// That expression, in a box.
#[inline(never)]
pub(crate) fn boxed(alloc: Global, expr: Expr) -> Result<Box<Expr>, Stop>
    ensures built { IfOk result (λ e. plain e.value ≡ plain expr) }
    ensures memory { IfErr result (λ e. e.refusal ≡ NoMemory) }
{
    let whole = Box::new(alloc, expr)?;
    Ok(whole)
}

#[inline(never)]
pub(crate) fn two(
    alloc: Global,
    op: Op,
    left: Box<Expr>,
    right: Box<Expr>,
) -> Result<Box<Expr>, Stop>
    ensures built { IfOk result (λ e. plain e.value ≡ plain_trees.two op (plain left.value) (plain right.value)) }
    ensures memory { IfErr result (λ e. e.refusal ≡ NoMemory) }
{
    let whole = Box::new(alloc, Expr::Two(op, left, right))?;
    Ok(whole)
}

#[inline(never)]
pub(crate) fn choice(
    alloc: Global,
    condition: Box<Expr>,
    yes: Box<Expr>,
    otherwise: Box<Expr>,
    spot: Spot,
) -> Result<Box<Expr>, Stop>
    ensures built { IfOk result (λ e. plain e.value ≡ plain_trees.if (plain condition.value) (plain yes.value) (plain otherwise.value) spot) }
    ensures memory { IfErr result (λ e. e.refusal ≡ NoMemory) }
{
    let whole = Box::new(alloc, Expr::If(condition, yes, otherwise, spot))?;
    Ok(whole)
}

#[inline(never)]
pub(crate) fn negated(alloc: Global, operand: Box<Expr>, spot: Spot) -> Result<Box<Expr>, Stop>
    ensures built { IfOk result (λ e. plain e.value ≡ plain_trees.not (plain operand.value) spot) }
    ensures memory { IfErr result (λ e. e.refusal ≡ NoMemory) }
{
    let whole = Box::new(alloc, Expr::Not(operand, spot))?;
    Ok(whole)
}

#[inline(never)]
pub(crate) fn grouped(alloc: Global, inner: Box<Expr>, spot: Spot) -> Result<Box<Expr>, Stop>
    ensures built { IfOk result (λ e. plain e.value ≡ plain_trees.paren (plain inner.value) spot) }
    ensures memory { IfErr result (λ e. e.refusal ≡ NoMemory) }
{
    let whole = Box::new(alloc, Expr::Paren(inner, spot))?;
    Ok(whole)
}

/// A term with the sign before it, `+` or `-`.
fn with_sign(sign: &Token, term: Box<Expr>) -> Expr
    ensures { plain result ≡ token_sign_of sign.now.kind (plain term.value) sign.now.spot }
{
    match sign.kind {
        TokenKind::Symbol(Symbol::Minus) => Expr::Neg(term, sign.spot),
        _ => Expr::Plus(term, sign.spot),
    }
}

#[inline(never)]
pub(crate) fn signed(alloc: Global, sign: &Token, term: Box<Expr>) -> Result<Box<Expr>, Stop>
    ensures built { IfOk result (λ e. plain e.value ≡ token_sign_of sign.now.kind (plain term.value) sign.now.spot) }
    ensures memory { IfErr result (λ e. e.refusal ≡ NoMemory) }
{
    let whole = Box::new(alloc, with_sign(sign, term))?;
    Ok(whole)
}

/// The number or the truth value that the token is.
pub(crate) fn literal(token: &Token) -> Option<Expr>
    ensures some { IfSome result (λ e. literal token.now.spot token.now.kind ≡ Some (plain e)) }
    ensures none { IfNone result (literal token.now.spot token.now.kind ≡ None) }
{
    let spot = token.spot;
    match token.kind {
        TokenKind::Number(value) => Some(Expr::Number(value, spot)),
        TokenKind::Word(Reserved::True) => Some(Expr::Truth(true, spot)),
        TokenKind::Word(Reserved::False) => Some(Expr::Truth(false, spot)),
        _ => None,
    }
}

fn variable_of(name: Named, subs: List<Expr>) -> Expr
    ensures { plain result ≡ plain_trees.variable (plain_trees.subscripted name (plain_list subs)) }
{
    Expr::Variable(Variable { name, subs })
}

#[inline(never)]
pub(crate) fn variable(alloc: Global, name: Named, subs: List<Expr>) -> Result<Box<Expr>, Stop>
    ensures built { IfOk result (λ e. plain e.value ≡ plain_trees.variable (plain_trees.subscripted name (plain_list subs))) }
    ensures memory { IfErr result (λ e. e.refusal ≡ NoMemory) }
{
    let whole = Box::new(alloc, variable_of(name, subs))?;
    Ok(whole)
}

fn call_of(name: Named, actuals: List<Expr>) -> Expr
    ensures { plain result ≡ plain_trees.call (plain_trees.called name (plain_list actuals)) }
{
    Expr::Call(Call { name, actuals })
}

#[inline(never)]
pub(crate) fn call(alloc: Global, name: Named, actuals: List<Expr>) -> Result<Box<Expr>, Stop>
    ensures built { IfOk result (λ e. plain e.value ≡ plain_trees.call (plain_trees.called name (plain_list actuals))) }
    ensures memory { IfErr result (λ e. e.refusal ≡ NoMemory) }
{
    let whole = Box::new(alloc, call_of(name, actuals))?;
    Ok(whole)
}

/// One item more, after those before.
#[inline(never)]
pub(crate) fn add(items: &mut Vec<Expr>, item: Box<Expr>) -> Result<(), Stop>
    ensures added { OnOk result (items.new.items ≡ items.old.items ++ item.value ∷ []) }
    ensures memory { IfErr result (λ e. e.refusal ≡ NoMemory) }
{
    items.push(Box::into_inner(item))?;
    Ok(())
}

/// That name, at that place.
pub fn named(alloc: Global, name: &Line, spot: Spot) -> Result<Named, Stop>
    ensures built { IfOk result (λ n. (n.name ≡ name.now) × (n.spot ≡ spot)) }
    ensures memory { IfErr result (λ e. e.refusal ≡ NoMemory) }
{
    let name = Line::of(Vec::from_slice(alloc, name.bytes())?);
    Ok(Named { name, spot })
}

/// What is asked of that one event.
pub(crate) fn asked(test: EventTest, event: EventName, spot: Spot) -> Expr
    requires of_one { is_of_several (tests test) ≡ false }
    ensures { plain result ≡ plain_trees.tested test (event ∷ []) spot }
{
    match test {
        EventTest::Happened => Expr::Happened(event, spot),
        EventTest::Available => Expr::Available(event, spot),
        EventTest::Fix => Expr::Fix(event, spot),
        EventTest::WaitAny => unreachable!(),
    }
}

/// The wait for these events.
pub(crate) fn waited(events: List<EventName>, spot: Spot) -> Expr
    ensures { plain result ≡ plain_trees.tested test.WaitAny events spot }
{
    Expr::WaitAny(events, spot)
}
