//! Lists of expressions, each of which stands in no other.

ghost use Rattle.std.specs.Prelude.{◌≡◌, [], ◌∷◌, IfOk, IfErr};
ghost use Rattle.algol_tree.specs.Ended.{EndsOnce};
ghost use Rattle.algol_tree.specs.Due as due;
ghost use Rattle.algol_tree.specs.Due.{many};
ghost use Rattle.algol_tree.specs.DueStmt.{wholes_in};
ghost use Rattle.algol_tree.specs.Image.{exprs as plain_list};
ghost use Rattle.algol_tree.specs.Found.{Completes, ReaderRefuses};
ghost use Rattle.algol_part.specs.Brings.{Brings};
ghost use Rattle.algol_part.specs.Phrases.{closed_wholes};

use algol_expr::{expect_symbol, first_of, is_symbol, read_whole};
use algol_tree::{Expr, List, Refusal, Symbol, Token};
use std::alloc::Global;

/// expr { "," expr }
pub(crate) fn read_exprs(alloc: Global, tokens: &[Token]) -> Result<(List<Expr>, &[Token]), Refusal>
    requires ended { EndsOnce tokens.now }
    ensures found { IfOk result (λ r. Brings wholes_in tokens.now (many (plain_list r.0)) r.1.now) }
    ensures refused { IfErr result (λ e. ReaderRefuses wholes_in [] tokens.now e) }
{
    let mut exprs = Vec::new(alloc);
    let mut rest = tokens;
    'exprs: loop {
        let (expr, after) = read_whole(alloc, rest, 0)?;
        exprs.push(expr)?;
        let (first, behind) = first_of(after);
        if is_symbol(first, Symbol::Comma) {
            rest = behind;
        } else {
            return Ok((List::of(exprs), after));
        }
    }
}

/// expr { "," expr }, and the symbol that closes them
pub(crate) fn read_closed_exprs(
    alloc: Global,
    tokens: &[Token],
    closing: Symbol,
) -> Result<(List<Expr>, &[Token]), Refusal>
    requires ended { EndsOnce tokens.now }
    ensures found { IfOk result (λ r. Brings (closed_wholes closing) tokens.now (many (plain_list r.0)) r.1.now) }
    ensures refused { IfErr result (λ e. ReaderRefuses (closed_wholes closing) [] tokens.now e) }
{
    let (exprs, rest) = read_exprs(alloc, tokens)?;
    let rest = expect_symbol(rest, closing)?;
    Ok((exprs, rest))
}

/// [ "(" expr { "," expr } ")" ]
pub(crate) fn read_actuals(
    alloc: Global,
    tokens: &[Token],
) -> Result<(List<Expr>, &[Token]), Refusal>
    requires ended { EndsOnce tokens.now }
    ensures found { IfOk result (λ r. Completes due.actuals_part tokens.now (many (plain_list r.0)) r.1.now) }
    ensures refused { IfErr result (λ e. ReaderRefuses (due.actuals_part ∷ []) [] tokens.now e) }
{
    let (first, behind) = first_of(tokens);
    if is_symbol(first, Symbol::OpenRound) {
        read_closed_exprs(alloc, behind, Symbol::CloseRound)
    } else {
        Ok((List::of(Vec::new(alloc)), tokens))
    }
}

/// [ "," expr { "," expr } ]
pub(crate) fn read_items(alloc: Global, tokens: &[Token]) -> Result<(List<Expr>, &[Token]), Refusal>
    requires ended { EndsOnce tokens.now }
    ensures found { IfOk result (λ r. Completes due.items_part tokens.now (many (plain_list r.0)) r.1.now) }
    ensures refused { IfErr result (λ e. ReaderRefuses (due.items_part ∷ []) [] tokens.now e) }
{
    let (first, behind) = first_of(tokens);
    if is_symbol(first, Symbol::Comma) {
        read_exprs(alloc, behind)
    } else {
        Ok((List::of(Vec::new(alloc)), tokens))
    }
}
