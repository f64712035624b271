//! Expressions that stand in no other: their tokens are counted.

ghost use Rattle.std.specs.Prelude.{◌≡◌, ◌<◌, ◌≤◌, ◌+◌, [], ◌∷◌, List, length, drop, IfOk, IfErr, IfSome, IfNone};
ghost use Rattle.algol_tree.specs.Ended.{EndsOnce};
ghost use Rattle.algol_tree.specs.Ends.{Ends};
ghost use Rattle.algol_tree.specs.Plain.{PExpr};
ghost use Rattle.algol_tree.specs.Image.{expr as plain};
ghost use Rattle.algol_tree.specs.Operators.{expr};
ghost use Rattle.algol_tree.specs.Expressions.{IsWholeExpression};
ghost use Rattle.algol_tree.specs.Refused.{RefusedExpression, IsLongest};
ghost use Rattle.algol_tree.specs.Due.{part, whole, one};
ghost use Rattle.algol_tree.specs.Found.{ReaderFinds, Fails, ReaderRefuses};
ghost use Rattle.algol_tree.specs.declared.token.Token as token;
ghost use Rattle.algol_expr.specs.Long.{IsLong};

use crate::reader::read_expression;
use crate::stop::Stop;
use algol_tree::{Code, Expr, MOST_EXPRESSION_TOKENS, Refusal, Token};
use std::alloc::Global;

/// The refusal of the token after as many as an expression may have, where it stands before the last `left` ones.
fn overlong(tokens: &[Token], left: usize) -> Option<Refusal>
    ensures some { IfSome result (λ e. IsLong tokens.now left e) }
    ensures none { IfNone result (length tokens.now ≤ left + MOST_EXPRESSION_TOKENS) }
{
    if tokens.len().saturating_sub(left) <= MOST_EXPRESSION_TOKENS {
        return None;
    }
    let (_, behind) = tokens.split_at(MOST_EXPRESSION_TOKENS);
    let (first, _) = behind.split_first().unwrap();
    Some(Refusal::At {
        spot: first.spot,
        code: Code::TooDeep,
    })
}

/// The longest expression that the tokens begin with, out of its box, and what follows it
#[inline(never)]
fn read_out(alloc: Global, tokens: &[Token], depth: u32) -> Result<(Expr, &[Token]), Stop>
    requires ended { EndsOnce tokens.now }
    ensures found { IfOk result (λ r. ReaderFinds (part expr depth) tokens.now (one (plain r.0)) r.1.now) }
    ensures refused { IfErr result (λ e. Fails (part expr depth ∷ []) [] tokens.now e.left e.refusal) }
{
    let (expr, rest) = read_expression(alloc, tokens, depth)?;
    Ok((Box::into_inner(expr), rest))
}

/// The longest expression that the tokens begin with, and what follows it. It stands in no other expression, so that
/// its tokens are counted, and `depth` levels are open before it.
///
/// It ends before the first token such that no expression begins with the tokens up to it. It is refused as `Unexpected`
/// at that token where the tokens before it are no expression, and as `TooDeep` at the first token that opens a level
/// beyond [`MOST_NESTING`](algol_tree::MOST_NESTING) or is one more than
/// [`MOST_EXPRESSION_TOKENS`](algol_tree::MOST_EXPRESSION_TOKENS). `found` and `fails` are for the readers of what
/// expressions stand in.
pub fn read_whole(alloc: Global, tokens: &[Token], depth: u32) -> Result<(Expr, &[Token]), Refusal>
    requires ended { EndsOnce tokens.now }
    ensures reads { IfOk result (λ r. IsWholeExpression 0 depth tokens.now (plain r.0) r.1.now) }
    ensures only { IfOk result (λ r. (e : PExpr) (rest : List token.Token) →
        IsWholeExpression 0 depth tokens.now e rest → Ends expr rest → (e ≡ plain r.0) × (rest ≡ r.1.now)) }
    ensures longest { IfOk result (λ r. IsLongest depth tokens.now r.1.now) }
    ensures refused { IfErr result (λ e. RefusedExpression depth tokens.now e) }
    ensures found { IfOk result (λ r. ReaderFinds (whole depth) tokens.now (one (plain r.0)) r.1.now) }
    ensures fails { IfErr result (λ e. ReaderRefuses (whole depth ∷ []) [] tokens.now e) }
{
    match read_out(alloc, tokens, depth) {
        Ok((expr, rest)) => match overlong(tokens, rest.len()) {
            Some(refusal) => Err(refusal),
            None => Ok((expr, rest)),
        },
        Err(stop) => match stop.refusal {
            Refusal::NoMemory => Err(Refusal::NoMemory),
            Refusal::At { spot: _, code: _ } => match overlong(tokens, stop.left) {
                Some(refusal) => Err(refusal),
                None => Err(stop.refusal),
            },
        },
    }
}

/// The same from the token `at` on, with the place where the expression ends.
pub fn read_expr(
    alloc: Global,
    tokens: &[Token],
    at: usize,
    depth: u32,
) -> Result<(Expr, usize), Refusal>
    requires ended { EndsOnce tokens.now }
    requires within { at < length tokens.now }
    ensures reads { IfOk result (λ r. IsWholeExpression 0 depth (drop at tokens.now) (plain r.0) (drop r.1 tokens.now)) }
    ensures only { IfOk result (λ r. (e : PExpr) (rest : List token.Token) →
        IsWholeExpression 0 depth (drop at tokens.now) e rest → Ends expr rest → (e ≡ plain r.0) × (rest ≡ drop r.1 tokens.now)) }
    ensures longest { IfOk result (λ r. IsLongest depth (drop at tokens.now) (drop r.1 tokens.now)) }
    ensures behind { IfOk result (λ r. (at < r.1) × (r.1 < length tokens.now)) }
    ensures refused { IfErr result (λ e. RefusedExpression depth (drop at tokens.now) e) }
{
    let (_, from) = tokens.split_at(at);
    let (expr, rest) = read_whole(alloc, from, depth)?;
    Ok((expr, tokens.len() - rest.len()))
}
