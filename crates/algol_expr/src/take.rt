//! Single tokens.

ghost use Rattle.std.specs.Prelude.{◌≡◌, ◌<◌, ◌≤◌, ◌+◌, [], ◌∷◌, ◌↔◌, IsTrue, IfOk, IfErr, IfSome, IfNone, Some, None, length};
ghost use Rattle.algol_tree.specs.Ended.{EndsOnce};
ghost use Rattle.algol_tree.specs.declared.refusal.Code.TheVariants as codes;
ghost use Rattle.algol_tree.specs.declared.refusal.Refusal.TheVariants as refusals;
ghost use Rattle.algol_tree.specs.Due as due;
ghost use Rattle.algol_tree.specs.Tokens.{IsSpelled, name_in, is_word, is_symbol};
ghost use Rattle.algol_tree.specs.Found.{TokenPasses, Fails};

use crate::stop::Stop;
use algol_tree::{Code, Line, MOST_NESTING, Refusal, Reserved, Symbol, Token, TokenKind};

/// The first token, and those after it.
pub fn first_of(tokens: &[Token]) -> (&Token, &[Token])
    requires ended { EndsOnce tokens.now }
    ensures { tokens.now ≡ result.0.now ∷ result.1.now }
{
    tokens.split_first().unwrap()
}

/// The token is that word.
pub fn is_word(token: &Token, word: Reserved) -> bool
    ensures { result ≡ is_word word token.now.kind }
{
    match token.kind {
        TokenKind::Word(found) => found == word,
        _ => false,
    }
}

/// The token is that symbol.
pub fn is_symbol(token: &Token, symbol: Symbol) -> bool
    ensures { result ≡ is_symbol symbol token.now.kind }
{
    match token.kind {
        TokenKind::Symbol(found) => found == symbol,
        _ => false,
    }
}

/// The name that the token is.
pub fn name_in(token: &Token) -> Option<&Line>
    ensures some { IfSome result (λ name. name_in token.now.kind ≡ Some name.now) }
    ensures none { IfNone result (name_in token.now.kind ≡ None) }
{
    match &token.kind {
        TokenKind::Name(name) => Some(name),
        _ => None,
    }
}

/// The refusal of the first token for that reason.
pub(crate) fn refused(first: &Token, behind: &[Token], code: Code) -> Stop
    ensures left { result.left ≡ length (first.now ∷ behind.now) }
    ensures refusal { result.refusal ≡ refusals.At first.now.spot code }
{
    let refusal = Refusal::At {
        spot: first.spot,
        code,
    };
    Stop {
        left: behind.len() + 1,
        refusal,
    }
}

/// How many levels are open after a first token that opens one, where `depth` are open before it. It is refused as
/// `TooDeep` at that token where those are as many as may be.
pub fn opened(first: &Token, behind: &[Token], depth: u32) -> Result<u32, Stop>
    ensures opens { IfOk result (λ inner. (depth < MOST_NESTING) × (inner ≡ depth + 1)) }
    ensures deep { IfErr result (λ e. (MOST_NESTING ≤ depth) × (e.left ≡ length (first.now ∷ behind.now)) × (e.refusal ≡ refusals.At first.now.spot codes.TooDeep)) }
{
    if depth < MOST_NESTING {
        Ok(depth + 1)
    } else {
        Err(refused(first, behind, Code::TooDeep))
    }
}

/// What follows the word that is due. Another token is refused as `Unexpected`.
#[tactic(auto, using(crate::proofs::Taken::word_passes, crate::proofs::Taken::word_fails))]
pub fn expect_word(tokens: &[Token], word: Reserved) -> Result<&[Token], Stop>
    requires ended { EndsOnce tokens.now }
    ensures passes { IfOk result (λ rest. TokenPasses (due.word word) tokens.now rest.now) }
    ensures fails { IfErr result (λ e. Fails (due.word word ∷ []) [] tokens.now e.left e.refusal) }
{
    let (first, rest) = first_of(tokens);
    if is_word(first, word) {
        Ok(rest)
    } else {
        Err(refused(first, rest, Code::Unexpected))
    }
}

/// What follows the symbol that is due. Another token is refused as `Unexpected`.
#[tactic(auto, using(crate::proofs::Taken::symbol_passes, crate::proofs::Taken::symbol_fails))]
pub fn expect_symbol(tokens: &[Token], symbol: Symbol) -> Result<&[Token], Stop>
    requires ended { EndsOnce tokens.now }
    ensures passes { IfOk result (λ rest. TokenPasses (due.symbol symbol) tokens.now rest.now) }
    ensures fails { IfErr result (λ e. Fails (due.symbol symbol ∷ []) [] tokens.now e.left e.refusal) }
{
    let (first, rest) = first_of(tokens);
    if is_symbol(first, symbol) {
        Ok(rest)
    } else {
        Err(refused(first, rest, Code::Unexpected))
    }
}

/// The token is that name, as it stands.
pub(crate) fn is_spelled(token: &Token, name: &[u8]) -> bool
    ensures { IsTrue result ↔ IsSpelled name.now token.now }
{
    match &token.kind {
        TokenKind::Name(found) => found.bytes() == name,
        _ => false,
    }
}

/// What follows the name that has to stand there as it is. Another token is refused as `Unexpected`.
pub fn expect_spelled<'a>(tokens: &'a [Token], name: &[u8]) -> Result<&'a [Token], Stop>
    requires ended { EndsOnce tokens.now }
    ensures passes { IfOk result (λ rest. TokenPasses (due.spelled name.now) tokens.now rest.now) }
    ensures fails { IfErr result (λ e. Fails (due.spelled name.now ∷ []) [] tokens.now e.left e.refusal) }
{
    let (first, rest) = first_of(tokens);
    if is_spelled(first, name) {
        Ok(rest)
    } else {
        Err(refused(first, rest, Code::Unexpected))
    }
}

/// What follows the symbol that is due and opens a level.
pub(crate) fn expect_opening(tokens: &[Token], symbol: Symbol, depth: u32) -> Result<&[Token], Stop>
    requires ended { EndsOnce tokens.now }
    ensures passes { IfOk result (λ rest. TokenPasses (due.opening symbol depth) tokens.now rest.now) }
    ensures fails { IfErr result (λ e. Fails (due.opening symbol depth ∷ []) [] tokens.now e.left e.refusal) }
{
    let (first, rest) = first_of(tokens);
    if is_symbol(first, symbol) {
        let _inner = opened(first, rest, depth)?;
        Ok(rest)
    } else {
        Err(refused(first, rest, Code::Unexpected))
    }
}
