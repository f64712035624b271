//! The operators.

ghost use Rattle.std.specs.Prelude.{◌≡◌};
ghost use Rattle.algol_tree.specs.Operators as grammar;

use algol_tree::{Level, Op, Reserved, Symbol, Token, TokenKind};

/// The operator of that level that the token is.
pub(crate) fn operator(level: Level, token: &Token) -> Option<Op>
    ensures { result ≡ grammar.operator level token.now.kind }
{
    match (level, &token.kind) {
        (Level::Eqv, TokenKind::Word(Reserved::Eqv)) => Some(Op::Eqv),
        (Level::Imp, TokenKind::Word(Reserved::Imp)) => Some(Op::Imp),
        (Level::Or, TokenKind::Word(Reserved::Or)) => Some(Op::Or),
        (Level::And, TokenKind::Word(Reserved::And)) => Some(Op::And),
        (Level::Sum, TokenKind::Symbol(Symbol::Plus)) => Some(Op::Add),
        (Level::Sum, TokenKind::Symbol(Symbol::Minus)) => Some(Op::Sub),
        (Level::Term, TokenKind::Symbol(Symbol::Times)) => Some(Op::Mul),
        (Level::Term, TokenKind::Symbol(Symbol::Over)) => Some(Op::Over),
        (Level::Term, TokenKind::Word(Reserved::Div)) => Some(Op::Div),
        (Level::Term, TokenKind::Word(Reserved::Mod)) => Some(Op::Mod),
        _ => None,
    }
}

/// The relation that the token is.
pub(crate) fn relation(token: &Token) -> Option<Op>
    ensures { result ≡ grammar.relop token.now.kind }
{
    match &token.kind {
        TokenKind::Word(Reserved::Lss) => Some(Op::Lss),
        TokenKind::Word(Reserved::Leq) => Some(Op::Leq),
        TokenKind::Word(Reserved::Eql) => Some(Op::Eql),
        TokenKind::Word(Reserved::Neq) => Some(Op::Neq),
        TokenKind::Word(Reserved::Geq) => Some(Op::Geq),
        TokenKind::Word(Reserved::Gtr) => Some(Op::Gtr),
        TokenKind::Symbol(Symbol::Less) => Some(Op::Lss),
        TokenKind::Symbol(Symbol::LessOrEqual) => Some(Op::Leq),
        TokenKind::Symbol(Symbol::Equal) => Some(Op::Eql),
        TokenKind::Symbol(Symbol::NotEqual) => Some(Op::Neq),
        TokenKind::Symbol(Symbol::GreaterOrEqual) => Some(Op::Geq),
        TokenKind::Symbol(Symbol::Greater) => Some(Op::Gtr),
        _ => None,
    }
}
