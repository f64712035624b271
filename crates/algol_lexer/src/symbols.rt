//! The symbols.

ghost use Rattle.std.specs.Prelude.{◌≡◌, ℕ, ◌<◌, List, [], ◌∷◌, ◌++◌, length, IfSome, IfNone};
ghost use Rattle.algol_tree.specs.Spelling.{drawn};
ghost use Rattle.algol_tree.specs.declared.token.Symbol.{Symbol};
ghost use Rattle.algol_lexer.specs.Symbols.{BeginsWithSymbol};

use algol_tree::Symbol;

/// The symbol of one byte.
fn short_symbol(byte: u8) -> Option<Symbol>
    ensures found { IfSome result (λ symbol. drawn symbol ≡ byte ∷ []) }
    ensures other { IfNone result ((symbol : Symbol) → drawn symbol ≡ byte ∷ [] → ⊥) }
{
    match byte {
        b'+' => Some(Symbol::Plus),
        b'-' => Some(Symbol::Minus),
        b'*' => Some(Symbol::Times),
        b'/' => Some(Symbol::Over),
        b';' => Some(Symbol::Semicolon),
        b',' => Some(Symbol::Comma),
        b'(' => Some(Symbol::OpenRound),
        b')' => Some(Symbol::CloseRound),
        b'[' => Some(Symbol::OpenSquare),
        b']' => Some(Symbol::CloseSquare),
        b':' => Some(Symbol::Colon),
        b'.' => Some(Symbol::Period),
        b'<' => Some(Symbol::Less),
        b'>' => Some(Symbol::Greater),
        b'=' => Some(Symbol::Equal),
        _ => None,
    }
}

/// The symbol of two bytes.
fn long_symbol(first: u8, second: u8) -> Option<Symbol>
    ensures found { IfSome result (λ symbol. drawn symbol ≡ first ∷ second ∷ []) }
    ensures other { IfNone result ((symbol : Symbol) → drawn symbol ≡ first ∷ second ∷ [] → ⊥) }
{
    match (first, second) {
        (b':', b'=') => Some(Symbol::Becomes),
        (b'<', b'=') => Some(Symbol::LessOrEqual),
        (b'>', b'=') => Some(Symbol::GreaterOrEqual),
        (b'^', b'=') => Some(Symbol::NotEqual),
        _ => None,
    }
}

/// The symbol that a text begins with, and how many bytes it has.
pub(crate) fn symbol(text: &[u8]) -> Option<(Symbol, usize)>
    requires { 0 < length text.now }
    ensures found { IfSome result (λ found.
        BeginsWithSymbol text.now found.0 × (found.1 ≡ length (drawn found.0))) }
    ensures other { IfNone result ((symbol : Symbol) (rest : List ℕ) →
        text.now ≡ drawn symbol ++ rest → ⊥) }
{
    if text.len() >= 2 {
        if let Some(symbol) = long_symbol(text[0], text[1]) {
            return Some((symbol, 2));
        }
    }
    let symbol = short_symbol(text[0])?;
    Some((symbol, 1))
}
