//! Single tokens, and numbers.

ghost use Rattle.std.specs.Prelude.{◌≡◌, ◌-ℤ◌, [], ◌∷◌, ℤ, pos, IfOk, IfErr, IfSome, IfNone};
ghost use Rattle.algol_tree.specs.Ended.{EndsOnce};
ghost use Rattle.algol_tree.specs.declared.refusal.Code.TheVariants as codes;
ghost use Rattle.algol_tree.specs.declared.refusal.Refusal.TheVariants as refusals;
ghost use Rattle.algol_tree.specs.declared.token.TokenKind.TheVariants as kinds;
ghost use Rattle.algol_tree.specs.Headings as grammar;
ghost use Rattle.algol_tree.specs.Due as due;
ghost use Rattle.algol_tree.specs.Due.{low};
ghost use Rattle.algol_tree.specs.Found.{ReaderFinds, ReaderRefuses};

use algol_expr::{first_of, is_symbol};
use algol_tree::{Code, Kind, Refusal, Reserved, Symbol, Token, TokenKind, Whole};

/// The refusal at that place of what nothing goes through.
pub fn unexpected(first: &Token) -> Refusal
    ensures { result ≡ refusals.At first.now.spot codes.Unexpected }
{
    Refusal::At {
        spot: first.spot,
        code: Code::Unexpected,
    }
}

/// The type that the token is: INTEGER | REAL | BOOLEAN
pub fn type_of(token: &Token) -> Option<Kind>
    ensures { result ≡ grammar.type_of token.now.kind }
{
    match token.kind {
        TokenKind::Word(Reserved::Integer) => Some(Kind::Number),
        TokenKind::Word(Reserved::Real) => Some(Kind::Number),
        TokenKind::Word(Reserved::Boolean) => Some(Kind::Truth),
        _ => None,
    }
}

/// The number that the token is.
pub(crate) fn number_in(token: &Token) -> Option<Whole>
    ensures some { IfSome result (λ z. token.now.kind ≡ kinds.Number z) }
    ensures none { IfNone result ((z : ℤ) → token.now.kind ≡ kinds.Number z → ⊥) }
{
    match token.kind {
        TokenKind::Number(value) => Some(value),
        _ => None,
    }
}

/// literal = [ "-" ] number
pub(crate) fn read_literal(tokens: &[Token]) -> Result<(i64, &[Token]), Refusal>
    requires ended { EndsOnce tokens.now }
    ensures found { IfOk result (λ r. ReaderFinds due.literal tokens.now (low r.0) r.1.now) }
    ensures refused { IfErr result (λ e. ReaderRefuses (due.literal ∷ []) [] tokens.now e) }
{
    let (first, behind) = first_of(tokens);
    if is_symbol(first, Symbol::Minus) {
        return read_negated(behind);
    }
    match number_in(first) {
        Some(value) => Ok((value.number(), behind)),
        None => Err(unexpected(first)),
    }
}

/// The number after a "-", negated
fn read_negated(tokens: &[Token]) -> Result<(i64, &[Token]), Refusal>
    requires ended { EndsOnce tokens.now }
    ensures found { IfOk result (λ r. ReaderFinds due.number_negated tokens.now (low r.0) r.1.now) }
    ensures refused { IfErr result (λ e. ReaderRefuses (due.number_negated ∷ []) [] tokens.now e) }
{
    let (first, behind) = first_of(tokens);
    match number_in(first) {
        Some(value) => Ok((negated(value), behind)),
        None => Err(unexpected(first)),
    }
}

fn negated(value: Whole) -> i64
    ensures { result ≡ pos 0 -ℤ value }
{
    -value.number()
}
