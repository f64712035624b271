//! Headings of procedures.

ghost use Rattle.std.specs.Prelude.{◌≡◌, [], ◌∷◌, ◌++◌, IfOk, IfErr};
ghost use Rattle.algol_tree.specs.Ended.{EndsOnce};
ghost use Rattle.algol_tree.specs.Due as due;
ghost use Rattle.algol_tree.specs.Due.{name_is, names, heading, specified, lows};
ghost use Rattle.algol_tree.specs.DueDecl.{rows_specified};
ghost use Rattle.algol_tree.specs.Found.{Lists, Completes, ReaderRefuses};
ghost use Rattle.algol_part.specs.Brings.{Brings, PartAdds, AddsNone};
ghost use Rattle.algol_part.specs.Openings.{ReaderComesTo};
ghost use Rattle.algol_part.specs.Phrases.{parameters_in_phrase, specified_in, closed_names, specs_in, lows_in_phrase, begins_spec};

use crate::names::{read_name, read_names_before};
use crate::take::{read_literal, type_of, unexpected};
use algol_expr::{expect_symbol, first_of, is_symbol, is_word};
use algol_tree::{Heading, Kind, List, Named, Refusal, Reserved, Spec, Symbol, Token};
use std::alloc::Global;

/// A heading after its word PROCEDURE:
/// name ";" | name "(" names ")" ";" [ VALUE names ";" ] spec { spec }
pub fn read_heading(
    alloc: Global,
    kind: Option<Kind>,
    tokens: &[Token],
) -> Result<(Heading, &[Token]), Refusal>
    requires ended { EndsOnce tokens.now }
    ensures found { IfOk result (λ r. Brings (due.named ∷ due.behind_procedure kind ∷ []) tokens.now (heading r.0) r.1.now) }
    ensures refused { IfErr result (λ e. ReaderRefuses (due.named ∷ due.behind_procedure kind ∷ []) [] tokens.now e) }
{
    let (name, rest) = read_name(alloc, tokens)?;
    let (first, behind) = first_of(rest);
    if is_symbol(first, Symbol::Semicolon) {
        Ok((bare(alloc, kind, name), behind))
    } else if is_symbol(first, Symbol::OpenRound) {
        read_parameters(alloc, kind, name, behind)
    } else {
        Err(unexpected(first))
    }
}

/// The heading of a procedure without parameters.
fn bare(alloc: Global, kind: Option<Kind>, name: Named) -> Heading
    ensures { result ≡ record { kind = kind; name = name; params = []; values = []; specs = [] } }
{
    Heading {
        kind,
        name,
        params: List::of(Vec::new(alloc)),
        values: List::of(Vec::new(alloc)),
        specs: List::of(Vec::new(alloc)),
    }
}

/// names ")" ";" [ VALUE names ";" ] spec { spec }, after the "("
fn read_parameters(
    alloc: Global,
    kind: Option<Kind>,
    name: Named,
    tokens: &[Token],
) -> Result<(Heading, &[Token]), Refusal>
    requires ended { EndsOnce tokens.now }
    ensures found { IfOk result (λ r. Lists (parameters_in_phrase kind) tokens.now (name_is name) (heading r.0) r.1.now) }
    ensures refused { IfErr result (λ e. ReaderRefuses (parameters_in_phrase kind) (name_is name ∷ []) tokens.now e) }
{
    let (params, rest) = read_names_before(alloc, tokens, Symbol::CloseRound)?;
    let rest = expect_symbol(rest, Symbol::Semicolon)?;
    let (parts, rest) = read_specified(alloc, rest)?;
    let (values, specs) = parts;
    let heading = Heading {
        kind,
        name,
        params,
        values,
        specs,
    };
    Ok((heading, rest))
}

/// [ VALUE names ";" ] spec { spec }
fn read_specified(
    alloc: Global,
    tokens: &[Token],
) -> Result<((List<Named>, List<Spec>), &[Token]), Refusal>
    requires ended { EndsOnce tokens.now }
    ensures found { IfOk result (λ r. ReaderComesTo specified_in [] tokens.now [] (specified r.0.1 ∷ names r.0.0 ∷ []) r.1.now) }
    ensures refused { IfErr result (λ e. ReaderRefuses specified_in [] tokens.now e) }
{
    let (values, rest) = read_values(alloc, tokens)?;
    let (specs, rest) = read_specs(alloc, rest)?;
    Ok(((values, specs), rest))
}

/// [ VALUE names ";" ]
fn read_values(alloc: Global, tokens: &[Token]) -> Result<(List<Named>, &[Token]), Refusal>
    requires ended { EndsOnce tokens.now }
    ensures found { IfOk result (λ r. Completes due.values_part tokens.now (names r.0) r.1.now) }
    ensures refused { IfErr result (λ e. ReaderRefuses (due.values_part ∷ []) [] tokens.now e) }
{
    let (first, behind) = first_of(tokens);
    if is_word(first, Reserved::Value) {
        read_closed_names(alloc, behind)
    } else {
        Ok((List::of(Vec::new(alloc)), tokens))
    }
}

/// names ";"
pub(crate) fn read_closed_names(
    alloc: Global,
    tokens: &[Token],
) -> Result<(List<Named>, &[Token]), Refusal>
    requires ended { EndsOnce tokens.now }
    ensures found { IfOk result (λ r. Brings closed_names tokens.now (names r.0) r.1.now) }
    ensures refused { IfErr result (λ e. ReaderRefuses closed_names [] tokens.now e) }
{
    read_names_before(alloc, tokens, Symbol::Semicolon)
}

/// spec { spec }
fn read_specs(alloc: Global, tokens: &[Token]) -> Result<(List<Spec>, &[Token]), Refusal>
    requires ended { EndsOnce tokens.now }
    ensures found { IfOk result (λ r. Brings specs_in tokens.now (specified r.0) r.1.now) }
    ensures refused { IfErr result (λ e. ReaderRefuses specs_in [] tokens.now e) }
{
    let mut specs = Vec::new(alloc);
    let mut rest = tokens;
    'specs: loop {
        let (spec, after) = read_spec(alloc, rest)?;
        specs.push(spec)?;
        let (first, _) = first_of(after);
        if begins_spec(first) {
            rest = after;
        } else {
            return Ok((List::of(specs), after));
        }
    }
}

/// A specification begins with the token.
fn begins_spec(token: &Token) -> bool
    ensures { result ≡ begins_spec token.now.kind }
{
    match type_of(token) {
        Some(_) => true,
        None => is_word(token, Reserved::Event) || is_word(token, Reserved::Array),
    }
}

/// spec = type names ";" | EVENT names ";" | [ type ] ARRAY names "[" literal [ "," literal ] "]" ";"
fn read_spec(alloc: Global, tokens: &[Token]) -> Result<(Spec, &[Token]), Refusal>
    requires ended { EndsOnce tokens.now }
    ensures found { IfOk result (λ r. PartAdds (due.spec ∷ []) specified tokens.now (λ ss. ss ++ r.0 ∷ []) r.1.now) }
    ensures refused { IfErr result (λ e. AddsNone (due.spec ∷ []) specified tokens.now e) }
{
    let (first, behind) = first_of(tokens);
    if let Some(kind) = type_of(first) {
        return read_typed_spec(alloc, kind, behind);
    }
    if is_word(first, Reserved::Event) {
        let (names, rest) = read_closed_names(alloc, behind)?;
        Ok((Spec::Events(names), rest))
    } else if is_word(first, Reserved::Array) {
        read_array_spec(alloc, Kind::Number, behind)
    } else {
        Err(unexpected(first))
    }
}

/// names ";" | ARRAY names "[" literal [ "," literal ] "]" ";", after a type
fn read_typed_spec(alloc: Global, kind: Kind, tokens: &[Token]) -> Result<(Spec, &[Token]), Refusal>
    requires ended { EndsOnce tokens.now }
    ensures found { IfOk result (λ r. PartAdds (due.spec_typed kind ∷ []) specified tokens.now (λ ss. ss ++ r.0 ∷ []) r.1.now) }
    ensures refused { IfErr result (λ e. AddsNone (due.spec_typed kind ∷ []) specified tokens.now e) }
{
    let (first, behind) = first_of(tokens);
    if is_word(first, Reserved::Array) {
        read_array_spec(alloc, kind, behind)
    } else {
        let (names, rest) = read_closed_names(alloc, tokens)?;
        Ok((Spec::Simple(kind, names), rest))
    }
}

/// names "[" literal [ "," literal ] "]" ";", after ARRAY
fn read_array_spec(alloc: Global, kind: Kind, tokens: &[Token]) -> Result<(Spec, &[Token]), Refusal>
    requires ended { EndsOnce tokens.now }
    ensures found { IfOk result (λ r. PartAdds (rows_specified kind) specified tokens.now (λ ss. ss ++ r.0 ∷ []) r.1.now) }
    ensures refused { IfErr result (λ e. AddsNone (rows_specified kind) specified tokens.now e) }
{
    let (names, rest) = read_names_before(alloc, tokens, Symbol::OpenSquare)?;
    let (lows, rest) = read_lows(alloc, rest)?;
    let rest = expect_symbol(rest, Symbol::CloseSquare)?;
    let rest = expect_symbol(rest, Symbol::Semicolon)?;
    Ok((Spec::Arrays(kind, names, lows), rest))
}

/// literal [ "," literal ]
fn read_lows(alloc: Global, tokens: &[Token]) -> Result<(List<i64>, &[Token]), Refusal>
    requires ended { EndsOnce tokens.now }
    ensures found { IfOk result (λ r. Brings lows_in_phrase tokens.now (lows r.0) r.1.now) }
    ensures refused { IfErr result (λ e. ReaderRefuses lows_in_phrase [] tokens.now e) }
{
    let mut lows = Vec::new(alloc);
    let (low, rest) = read_literal(tokens)?;
    lows.push(low)?;
    let (first, behind) = first_of(rest);
    if is_symbol(first, Symbol::Comma) {
        let (low, rest) = read_literal(behind)?;
        lows.push(low)?;
        Ok((List::of(lows), rest))
    } else {
        Ok((List::of(lows), rest))
    }
}
