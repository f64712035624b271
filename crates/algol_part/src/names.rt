//! Names, and lists of them.

ghost use Rattle.std.specs.Prelude.{[], ◌∷◌, IfOk, IfErr};
ghost use Rattle.algol_tree.specs.Ended.{EndsOnce};
ghost use Rattle.algol_tree.specs.Due as due;
ghost use Rattle.algol_tree.specs.Due.{name_is, names};
ghost use Rattle.algol_tree.specs.DueDecl.{names_in_list, files_in};
ghost use Rattle.algol_tree.specs.Found.{ReaderFinds, ReaderRefuses};
ghost use Rattle.algol_part.specs.Brings.{Brings, Skips};
ghost use Rattle.algol_part.specs.Phrases.{name_before, names_before};

use crate::take::unexpected;
use algol_expr::{expect_spelled, expect_symbol, first_of, is_symbol, name_in, named};
use algol_tree::{List, Named, Refusal, Symbol, Token};
use std::alloc::Global;

/// The name that is due.
pub(crate) fn read_name(alloc: Global, tokens: &[Token]) -> Result<(Named, &[Token]), Refusal>
    requires ended { EndsOnce tokens.now }
    ensures found { IfOk result (λ r. ReaderFinds due.named tokens.now (name_is r.0) r.1.now) }
    ensures refused { IfErr result (λ e. ReaderRefuses (due.named ∷ []) [] tokens.now e) }
{
    let (first, behind) = first_of(tokens);
    match name_in(first) {
        Some(name) => Ok((named(alloc, name, first.spot)?, behind)),
        None => Err(unexpected(first)),
    }
}

/// The name that is due, and the symbol after it
pub(crate) fn read_name_before(
    alloc: Global,
    tokens: &[Token],
    symbol: Symbol,
) -> Result<(Named, &[Token]), Refusal>
    requires ended { EndsOnce tokens.now }
    ensures found { IfOk result (λ r. Brings (name_before symbol) tokens.now (name_is r.0) r.1.now) }
    ensures refused { IfErr result (λ e. ReaderRefuses (name_before symbol) [] tokens.now e) }
{
    let (name, rest) = read_name(alloc, tokens)?;
    let rest = expect_symbol(rest, symbol)?;
    Ok((name, rest))
}

/// names = name { "," name }
pub(crate) fn read_names(
    alloc: Global,
    tokens: &[Token],
) -> Result<(List<Named>, &[Token]), Refusal>
    requires ended { EndsOnce tokens.now }
    ensures found { IfOk result (λ r. Brings names_in_list tokens.now (names r.0) r.1.now) }
    ensures refused { IfErr result (λ e. ReaderRefuses names_in_list [] tokens.now e) }
{
    let mut names = Vec::new(alloc);
    let mut rest = tokens;
    'names: loop {
        let (name, after) = read_name(alloc, rest)?;
        names.push(name)?;
        let (first, behind) = first_of(after);
        if is_symbol(first, Symbol::Comma) {
            rest = behind;
        } else {
            return Ok((List::of(names), after));
        }
    }
}

/// names, and the symbol after them
pub(crate) fn read_names_before(
    alloc: Global,
    tokens: &[Token],
    symbol: Symbol,
) -> Result<(List<Named>, &[Token]), Refusal>
    requires ended { EndsOnce tokens.now }
    ensures found { IfOk result (λ r. Brings (names_before symbol) tokens.now (names r.0) r.1.now) }
    ensures refused { IfErr result (λ e. ReaderRefuses (names_before symbol) [] tokens.now e) }
{
    let (names, rest) = read_names(alloc, tokens)?;
    let rest = expect_symbol(rest, symbol)?;
    Ok((names, rest))
}

/// file { "," file }, where file = name [ "(" KIND "=" PRINTER ")" ]
pub(crate) fn read_files(
    alloc: Global,
    tokens: &[Token],
) -> Result<(List<Named>, &[Token]), Refusal>
    requires ended { EndsOnce tokens.now }
    ensures found { IfOk result (λ r. Brings files_in tokens.now (names r.0) r.1.now) }
    ensures refused { IfErr result (λ e. ReaderRefuses files_in [] tokens.now e) }
{
    let mut files = Vec::new(alloc);
    let mut rest = tokens;
    'files: loop {
        let (name, behind_name) = read_name(alloc, rest)?;
        files.push(name)?;
        let after = read_printer(behind_name)?;
        let (first, behind) = first_of(after);
        if is_symbol(first, Symbol::Comma) {
            rest = behind;
        } else {
            return Ok((List::of(files), after));
        }
    }
}

/// What follows [ "(" KIND "=" PRINTER ")" ]
fn read_printer(tokens: &[Token]) -> Result<&[Token], Refusal>
    requires ended { EndsOnce tokens.now }
    ensures found { IfOk result (λ rest. Skips due.printer_part tokens.now rest.now) }
    ensures refused { IfErr result (λ e. ReaderRefuses (due.printer_part ∷ []) [] tokens.now e) }
{
    let (first, behind) = first_of(tokens);
    if is_symbol(first, Symbol::OpenRound) {
        let rest = expect_spelled(behind, b"KIND")?;
        let rest = expect_symbol(rest, Symbol::Equal)?;
        let rest = expect_spelled(rest, b"PRINTER")?;
        Ok(expect_symbol(rest, Symbol::CloseRound)?)
    } else {
        Ok(tokens)
    }
}
