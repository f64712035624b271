//! Declarations in which no statement stands.

ghost use Rattle.std.specs.Prelude.{◌≡◌, [], ◌∷◌, ◌++◌, ℕ, true, IfOk, IfErr};
ghost use Rattle.algol_tree.specs.Ended.{EndsOnce};
ghost use Rattle.algol_tree.specs.Due.{pairs, names, declared, declarations};
ghost use Rattle.algol_tree.specs.DueStmt.{pair_in, decl_behind};
ghost use Rattle.algol_tree.specs.Image as image;
ghost use Rattle.algol_tree.specs.Image.{decls as decls_of};
ghost use Rattle.algol_tree.specs.Found.{Lists, ReaderRefuses};
ghost use Rattle.algol_part.specs.Brings.{Brings, PartAdds, AddsNone, Repeats};
ghost use Rattle.algol_part.specs.Phrases.{pairs_in, one_segment, arrays_in, lists_names, listed_by, listed_in, names_of_phrase, are_files, declares, simples_in};

use crate::make::{arrays, pair};
use crate::names::{read_files, read_names, read_names_before};
use crate::take::read_literal;
use algol_expr::{expect_symbol, first_of, is_symbol, read_whole};
use algol_tree::{Decl, Kind, List, Named, Pair, Refusal, Reserved, Symbol, Token, TokenKind};
use std::alloc::Global;

/// What names are declared as, where nothing else is told of them.
#[derive(Clone, Copy)]
pub(crate) enum Listed {
    Simple(Kind),
    Files,
    Events,
    Tasks,
    Labels,
}

/// segment { "," segment } ";", after ARRAY
pub fn read_arrays<'a>(
    alloc: Global,
    kind: Kind,
    decls: &mut Vec<Decl>,
    tokens: &'a [Token],
) -> Result<&'a [Token], Refusal>
    requires ended { EndsOnce tokens.now }
    ensures found { IfOk result (λ rest. Lists (arrays_in kind) tokens.now (declared (decls_of decls.old.items)) (declared (decls_of decls.new.items)) rest.now) }
    ensures refused { IfErr result (λ e. ReaderRefuses (arrays_in kind) (declared (decls_of decls.old.items) ∷ []) tokens.now e) }
{
    let mut rest = tokens;
    'segments: loop {
        let (segment, after) = read_segment(alloc, kind, rest)?;
        decls.push(segment)?;
        let (first, behind) = first_of(after);
        if is_symbol(first, Symbol::Comma) {
            rest = behind;
        } else {
            return Ok(expect_symbol(after, Symbol::Semicolon)?);
        }
    }
}

/// segment = names "[" pair [ "," pair ] "]"
fn read_segment(alloc: Global, kind: Kind, tokens: &[Token]) -> Result<(Decl, &[Token]), Refusal>
    requires ended { EndsOnce tokens.now }
    ensures found { IfOk result (λ r. PartAdds (one_segment kind) declared tokens.now (λ ds. decl_behind ds (image.decl r.0)) r.1.now) }
    ensures refused { IfErr result (λ e. AddsNone (one_segment kind) declared tokens.now e) }
{
    let (names, rest) = read_names_before(alloc, tokens, Symbol::OpenSquare)?;
    let (pairs, rest) = read_pairs(alloc, rest)?;
    let rest = expect_symbol(rest, Symbol::CloseSquare)?;
    Ok((arrays(kind, names, pairs), rest))
}

/// pair [ "," pair ]
fn read_pairs(alloc: Global, tokens: &[Token]) -> Result<(List<Pair>, &[Token]), Refusal>
    requires ended { EndsOnce tokens.now }
    ensures found { IfOk result (λ r. Brings pairs_in tokens.now (pairs (image.pairs r.0)) r.1.now) }
    ensures refused { IfErr result (λ e. ReaderRefuses pairs_in [] tokens.now e) }
{
    let mut pairs = Vec::new(alloc);
    let (pair, rest) = read_pair(alloc, tokens)?;
    pairs.push(pair)?;
    let (first, behind) = first_of(rest);
    if is_symbol(first, Symbol::Comma) {
        let (pair, rest) = read_pair(alloc, behind)?;
        pairs.push(pair)?;
        Ok((List::of(pairs), rest))
    } else {
        Ok((List::of(pairs), rest))
    }
}

/// pair = literal ":" expr
fn read_pair(alloc: Global, tokens: &[Token]) -> Result<(Pair, &[Token]), Refusal>
    requires ended { EndsOnce tokens.now }
    ensures found { IfOk result (λ r. PartAdds pair_in pairs tokens.now (λ ps. ps ++ image.pair r.0 ∷ []) r.1.now) }
    ensures refused { IfErr result (λ e. AddsNone pair_in pairs tokens.now e) }
{
    let (low, rest) = read_literal(tokens)?;
    let rest = expect_symbol(rest, Symbol::Colon)?;
    let (high, rest) = read_whole(alloc, rest, 0)?;
    Ok((pair(low, high), rest))
}

/// FILE | EVENT | TASK | LABEL | ARRAY
pub fn lists_names(token: &Token) -> bool
    ensures { result ≡ lists_names token.now.kind }
{
    match token.kind {
        TokenKind::Word(Reserved::File) => true,
        TokenKind::Word(Reserved::Event) => true,
        TokenKind::Word(Reserved::Task) => true,
        TokenKind::Word(Reserved::Label) => true,
        TokenKind::Word(Reserved::Array) => true,
        _ => false,
    }
}

/// A declaration that begins with such a word, with its semicolon. Each segment of arrays is one of the tree.
pub fn read_listed<'a>(
    alloc: Global,
    decls: &mut Vec<Decl>,
    first: &Token,
    behind: &'a [Token],
) -> Result<&'a [Token], Refusal>
    requires ended { EndsOnce (first.now ∷ behind.now) }
    requires word { lists_names first.now.kind ≡ true }
    ensures found { IfOk result (λ rest. (d : ℕ) → Repeats (declarations d) (first.now ∷ behind.now) (declared (decls_of decls.old.items)) (declared (decls_of decls.new.items)) rest.now) }
    ensures refused { IfErr result (λ e. (d : ℕ) → ReaderRefuses (declarations d ∷ []) (declared (decls_of decls.old.items) ∷ []) (first.now ∷ behind.now) e) }
{
    match listed_by(first) {
        Some(listed) => read_declared(alloc, listed, decls, behind),
        None => read_arrays(alloc, Kind::Number, decls, behind),
    }
}

/// names ";", after a type
pub fn read_simples<'a>(
    alloc: Global,
    kind: Kind,
    decls: &mut Vec<Decl>,
    tokens: &'a [Token],
) -> Result<&'a [Token], Refusal>
    requires ended { EndsOnce tokens.now }
    ensures found { IfOk result (λ rest. Lists (simples_in kind) tokens.now (declared (decls_of decls.old.items)) (declared (decls_of decls.new.items)) rest.now) }
    ensures refused { IfErr result (λ e. ReaderRefuses (simples_in kind) (declared (decls_of decls.old.items) ∷ []) tokens.now e) }
{
    read_declared(alloc, Listed::Simple(kind), decls, tokens)
}

/// names ";", or files ";", which are declared so
fn read_declared<'a>(
    alloc: Global,
    listed: Listed,
    decls: &mut Vec<Decl>,
    tokens: &'a [Token],
) -> Result<&'a [Token], Refusal>
    requires ended { EndsOnce tokens.now }
    ensures found { IfOk result (λ rest. Lists (listed_in listed) tokens.now (declared (decls_of decls.old.items)) (declared (decls_of decls.new.items)) rest.now) }
    ensures refused { IfErr result (λ e. ReaderRefuses (listed_in listed) (declared (decls_of decls.old.items) ∷ []) tokens.now e) }
{
    let (names, rest) = read_listed_names(alloc, listed, tokens)?;
    let rest = expect_symbol(rest, Symbol::Semicolon)?;
    decls.push(listing(listed, names))?;
    Ok(rest)
}

/// names, or files
fn read_listed_names(
    alloc: Global,
    listed: Listed,
    tokens: &[Token],
) -> Result<(List<Named>, &[Token]), Refusal>
    requires ended { EndsOnce tokens.now }
    ensures found { IfOk result (λ r. Brings (names_of_phrase (are_files listed)) tokens.now (names r.0) r.1.now) }
    ensures refused { IfErr result (λ e. ReaderRefuses (names_of_phrase (are_files listed)) [] tokens.now e) }
{
    if are_files(listed) {
        read_files(alloc, tokens)
    } else {
        read_names(alloc, tokens)
    }
}

fn are_files(listed: Listed) -> bool
    ensures { result ≡ are_files listed }
{
    match listed {
        Listed::Files => true,
        _ => false,
    }
}

/// What the names after the token are declared as, where nothing else is told of them.
fn listed_by(token: &Token) -> Option<Listed>
    ensures { result ≡ listed_by token.now.kind }
{
    match token.kind {
        TokenKind::Word(Reserved::File) => Some(Listed::Files),
        TokenKind::Word(Reserved::Event) => Some(Listed::Events),
        TokenKind::Word(Reserved::Task) => Some(Listed::Tasks),
        TokenKind::Word(Reserved::Label) => Some(Listed::Labels),
        _ => None,
    }
}

/// The declaration of names as that
fn listing(listed: Listed, names: List<Named>) -> Decl
    ensures { image.decl result ≡ declares listed names }
{
    match listed {
        Listed::Simple(kind) => Decl::Simple(kind, names),
        Listed::Files => Decl::Files(names),
        Listed::Events => Decl::Events(names),
        Listed::Tasks => Decl::Tasks(names),
        Listed::Labels => Decl::Labels(names),
    }
}
