//! The lexer: the tokens of a text, or the first spot at which it cannot be read.
//!
//! A text is read record by record, and a record piece by piece: a blank, a comment, a token.
#![tactic(auto)]

mod fronts;
mod lexer;
mod pieces;
mod record;
mod runs;
mod symbols;
mod words;

ghost use Rattle.algol_lexer.specs.Order.{TokensAscend};

pub use lexer::lex;

/// Law: the tokens of a text stand in its order.
pub fn tokens_ascend()
    ensures { TokensAscend }
{}
