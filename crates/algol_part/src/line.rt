//! Lines that are written.

ghost use Rattle.std.specs.Prelude.{◌≡◌, [], ◌∷◌, ◌++◌, IfOk, IfErr};
ghost use Rattle.algol_tree.specs.Ended.{EndsOnce};
ghost use Rattle.algol_tree.specs.Due as due;
ghost use Rattle.algol_tree.specs.Due.{many, name_is, phrases, place, stmt};
ghost use Rattle.algol_tree.specs.DueStmt.{write_due};
ghost use Rattle.algol_tree.specs.Statements.{phrase_of};
ghost use Rattle.algol_tree.specs.Image.{stmt as plain, exprs as plain_list};
ghost use Rattle.algol_tree.specs.Found.{ReaderFinds, Lists, ReaderRefuses};
ghost use Rattle.algol_part.specs.Brings.{Brings, PartAdds, AddsNone};
ghost use Rattle.algol_part.specs.Phrases.{phrases_in, format_in, closed_phrases, closed_items};

use crate::exprs::read_items;
use crate::make::writing;
use crate::names::read_name_before;
use crate::take::unexpected;
use algol_expr::{expect_symbol, first_of, is_symbol};
use algol_tree::{
    Expr, Line, List, Named, PhraseText, Refusal, Spot, Stmt, Symbol, Token, TokenKind,
};
use std::alloc::{AllocError, Global};

/// WRITE "(" name "," "<" phrase { "," phrase } ">" [ "," expr { "," expr } ] ")", after the WRITE
pub(crate) fn read_write(alloc: Global, tokens: &[Token]) -> Result<(Stmt, &[Token]), Refusal>
    requires ended { EndsOnce tokens.now }
    ensures found { IfOk result (λ r. Brings write_due tokens.now (stmt (plain r.0)) r.1.now) }
    ensures refused { IfErr result (λ e. ReaderRefuses write_due [] tokens.now e) }
{
    let rest = expect_symbol(tokens, Symbol::OpenRound)?;
    let (file, rest) = read_name_before(alloc, rest, Symbol::Comma)?;
    read_format(alloc, file, rest)
}

/// "<" phrase { "," phrase } ">" [ "," expr { "," expr } ] ")", after the name of the file
fn read_format(alloc: Global, file: Named, tokens: &[Token]) -> Result<(Stmt, &[Token]), Refusal>
    requires ended { EndsOnce tokens.now }
    ensures found { IfOk result (λ r. Lists format_in tokens.now (name_is file) (stmt (plain r.0)) r.1.now) }
    ensures refused { IfErr result (λ e. ReaderRefuses format_in (name_is file ∷ []) tokens.now e) }
{
    let (spot, rest) = read_angle(tokens)?;
    let (phrases, rest) = read_closed_phrases(alloc, rest)?;
    let (items, rest) = read_closed_items(alloc, rest)?;
    Ok((writing(file, spot, phrases, items), rest))
}

/// phrase { "," phrase } ">"
fn read_closed_phrases(
    alloc: Global,
    tokens: &[Token],
) -> Result<(List<PhraseText>, &[Token]), Refusal>
    requires ended { EndsOnce tokens.now }
    ensures found { IfOk result (λ r. Brings closed_phrases tokens.now (phrases r.0) r.1.now) }
    ensures refused { IfErr result (λ e. ReaderRefuses closed_phrases [] tokens.now e) }
{
    let (phrases, rest) = read_phrases(alloc, tokens)?;
    let rest = expect_symbol(rest, Symbol::Greater)?;
    Ok((phrases, rest))
}

/// [ "," expr { "," expr } ] ")"
fn read_closed_items(alloc: Global, tokens: &[Token]) -> Result<(List<Expr>, &[Token]), Refusal>
    requires ended { EndsOnce tokens.now }
    ensures found { IfOk result (λ r. Brings closed_items tokens.now (many (plain_list r.0)) r.1.now) }
    ensures refused { IfErr result (λ e. ReaderRefuses closed_items [] tokens.now e) }
{
    let (items, rest) = read_items(alloc, tokens)?;
    let rest = expect_symbol(rest, Symbol::CloseRound)?;
    Ok((items, rest))
}

/// "<", and its place
fn read_angle(tokens: &[Token]) -> Result<(Spot, &[Token]), Refusal>
    requires ended { EndsOnce tokens.now }
    ensures found { IfOk result (λ r. ReaderFinds due.angle tokens.now (place r.0) r.1.now) }
    ensures refused { IfErr result (λ e. ReaderRefuses (due.angle ∷ []) [] tokens.now e) }
{
    let (first, behind) = first_of(tokens);
    if is_symbol(first, Symbol::Less) {
        Ok((first.spot, behind))
    } else {
        Err(unexpected(first))
    }
}

/// phrase { "," phrase }
fn read_phrases(alloc: Global, tokens: &[Token]) -> Result<(List<PhraseText>, &[Token]), Refusal>
    requires ended { EndsOnce tokens.now }
    ensures found { IfOk result (λ r. Brings phrases_in tokens.now (phrases r.0) r.1.now) }
    ensures refused { IfErr result (λ e. ReaderRefuses phrases_in [] tokens.now e) }
{
    let mut phrases = Vec::new(alloc);
    let mut rest = tokens;
    'phrases: loop {
        let (phrase, after) = read_phrase(alloc, rest)?;
        phrases.push(phrase)?;
        let (first, behind) = first_of(after);
        if is_symbol(first, Symbol::Comma) {
            rest = behind;
        } else {
            return Ok((List::of(phrases), after));
        }
    }
}

/// phrase = string | name
fn read_phrase(alloc: Global, tokens: &[Token]) -> Result<(PhraseText, &[Token]), Refusal>
    requires ended { EndsOnce tokens.now }
    ensures found { IfOk result (λ r. PartAdds (due.phrase ∷ []) phrases tokens.now (λ ps. ps ++ r.0 ∷ []) r.1.now) }
    ensures refused { IfErr result (λ e. AddsNone (due.phrase ∷ []) phrases tokens.now e) }
{
    let (first, behind) = first_of(tokens);
    match phrase_in(alloc, first)? {
        Some(phrase) => Ok((phrase, behind)),
        None => Err(unexpected(first)),
    }
}

/// The phrase that the token is: a string or a name
fn phrase_in(alloc: Global, token: &Token) -> Result<Option<PhraseText>, AllocError>
    ensures { IfOk result (λ phrase. phrase ≡ phrase_of token.now.kind) }
{
    match &token.kind {
        TokenKind::Text(text) => Ok(Some(PhraseText::Text(copied(alloc, text)?))),
        TokenKind::Name(name) => Ok(Some(PhraseText::Word(copied(alloc, name)?))),
        _ => Ok(None),
    }
}

fn copied(alloc: Global, line: &Line) -> Result<Line, AllocError>
    ensures { IfOk result (λ new. new ≡ line.now) }
{
    Ok(Line::of(Vec::from_slice(alloc, line.bytes())?))
}
