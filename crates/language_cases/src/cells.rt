//! What the names of a source mean, and where cells lie.

use crate::tokens::push_spot;
use algol_scope::{Couple, Scopes};
use algol_tree::{Spot, Token};
use case_sheet::{number, say};

/// Appends a word and the couple of a cell, nothing where there is no cell.
fn push_couple(told: &mut Vec<u8>, word: &[u8], couple: Option<Couple>) {
    if let Some(couple) = couple {
        say(told, word);
        number(told, b" ", u64::from(couple.level));
        number(told, b",", u64::from(couple.index));
    }
}

/// Appends the spot and the level of the declaration that a name means, and the couple of its cell.
fn push_declared(told: &mut Vec<u8>, scopes: &Scopes, spot: Spot) {
    if let Some(declared) = scopes.declaration(spot) {
        say(told, b" IS ");
        push_spot(told, declared.spot);
        number(told, b" LEVEL ", u64::from(declared.level));
        push_couple(told, b" CELL", declared.couple);
    }
}

/// Appends the line of a token, if there is something to say of it.
fn push_name(told: &mut Vec<u8>, scopes: &Scopes, spot: Spot) {
    let actual = scopes.actual(spot);
    let result = scopes.result(spot);
    if scopes.declaration(spot).is_none() && actual.is_none() && result.is_none() {
        return;
    }
    push_spot(told, spot);
    push_declared(told, scopes, spot);
    push_couple(told, b" RESULT", result);
    push_couple(told, b" ACTUAL", actual);
    say(told, b"\n");
}

/// Appends the levels of the blocks, in the order of their numbers.
fn push_levels(told: &mut Vec<u8>, scopes: &Scopes) {
    say(told, b"LEVELS");
    for block in 0..2_000u32 {
        match scopes.level_of(block) {
            Some(level) => number(told, b" ", u64::from(level)),
            None => break,
        }
    }
    say(told, b"\n");
}

/// Appends the lines of the tokens that are names, or actuals with a cell, and the levels of the blocks.
pub(crate) fn push_names(told: &mut Vec<u8>, scopes: &Scopes, tokens: &[Token]) {
    for token in tokens {
        push_name(told, scopes, token.spot);
    }
    push_levels(told, scopes);
}
