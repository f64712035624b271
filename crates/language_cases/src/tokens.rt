//! The tokens of a text.

use algol_lexer::lex;
use algol_tree::{Refusal, Spot, Token, TokenKind};
use b67_list::push_number;
use case_sheet::{number, say};
use std::alloc::{AllocError, Global};

/// Appends a line and a column.
pub(crate) fn push_spot(told: &mut Vec<u8>, spot: Spot) {
    number(told, b"", u64::from(spot.line));
    number(told, b":", u64::from(spot.column));
}

/// Appends what a token is.
fn push_kind(told: &mut Vec<u8>, kind: &TokenKind) {
    match kind {
        TokenKind::Word(_) => say(told, b" WORD"),
        TokenKind::Symbol(_) => say(told, b" SYMBOL"),
        TokenKind::Number(value) => {
            let _ = push_number(told, b" NUMBER ", value.number());
        }
        TokenKind::Name(name) => {
            say(told, b" NAME ");
            say(told, name.bytes());
        }
        TokenKind::Text(text) => {
            say(told, b" TEXT ");
            say(told, text.bytes());
        }
        TokenKind::End => say(told, b" END"),
    }
}

/// Appends the line of a token: its spot, its first byte and the first after it, and what it is.
fn push_token(told: &mut Vec<u8>, token: &Token) {
    push_spot(told, token.spot);
    number(told, b" ", u64::from(token.from));
    number(told, b" ", u64::from(token.to));
    push_kind(told, &token.kind);
    say(told, b"\n");
}

/// The tokens of a text, none where it has none.
pub(crate) fn tokens_of(alloc: Global, text: &[u8]) -> Result<Option<Vec<Token>>, AllocError> {
    if text.len() > 1_000_000 {
        return Ok(None);
    }
    match lex(alloc, text) {
        Ok(tokens) => Ok(Some(tokens)),
        Err(Refusal::At { .. }) => Ok(None),
        Err(Refusal::NoMemory) => Err(AllocError),
    }
}

/// The lines of a text's tokens.
pub(crate) fn tokens_text(alloc: Global, text: &[u8]) -> Result<Vec<u8>, AllocError> {
    let mut told = Vec::new(alloc);
    if let Some(tokens) = tokens_of(alloc, text)? {
        for token in &tokens {
            push_token(&mut told, token);
        }
    }
    Ok(told)
}
