//! What stands at a place of a text.

use algol_tree::{Code, Reserved, Symbol, TokenKind};

/// What a place of a text stands in: the program, a comment that a semicolon ends, or the remark after END.
#[derive(Clone, Copy)]
pub(crate) enum Mode {
    Program,
    Comment,
    EndRemark,
}

/// What stands at the front of a record's columns: so many bytes, which are a token or none, and what the bytes
/// after them stand in; or what cannot be read, so many bytes further on.
#[derive(Drop)]
pub(crate) enum Front {
    Piece {
        size: usize,
        kind: Option<TokenKind>,
        mode: Mode,
    },
    Wrong {
        skipped: usize,
        code: Code,
    },
}

impl Front {
    ghost use Rattle.std.specs.Prelude.{◌≡◌, None};
    ghost use Rattle.algol_tree.specs.declared.token.TokenKind.TheVariants as kinds;
    ghost use Rattle.algol_tree.specs.Lexes.{Piece, Wrong, token_of, word_front};
    ghost use Rattle.algol_lexer.specs.Shown.{mode_of, front_shown};

    /// So many bytes that are no token.
    pub(crate) fn passed(size: usize, mode: Mode) -> Front
        ensures { front_shown result ≡ Piece size None (mode_of mode) }
    {
        Front::Piece {
            size,
            kind: None,
            mode,
        }
    }

    /// A token of the program.
    pub(crate) fn token(kind: TokenKind, size: usize) -> Front
        ensures { front_shown result ≡ token_of kind size }
    {
        Front::Piece {
            size,
            kind: Some(kind),
            mode: Mode::Program,
        }
    }

    /// A symbol.
    pub(crate) fn symbol(symbol: Symbol, size: usize) -> Front
        ensures { front_shown result ≡ token_of (kinds.Symbol symbol) size }
    {
        Front::token(TokenKind::Symbol(symbol), size)
    }

    /// A reserved word: COMMENT begins a comment, and after END there is a remark.
    pub(crate) fn word(word: Reserved, size: usize) -> Front
        ensures { front_shown result ≡ word_front word size }
    {
        match word {
            Reserved::Comment => Front::passed(size, Mode::Comment),
            Reserved::End => Front::Piece {
                size,
                kind: Some(TokenKind::Word(word)),
                mode: Mode::EndRemark,
            },
            _ => Front::token(TokenKind::Word(word), size),
        }
    }

    /// What cannot be read here.
    pub(crate) fn wrong(code: Code) -> Front
        ensures { front_shown result ≡ Wrong 0 code }
    {
        Front::Wrong { skipped: 0, code }
    }
}
