//! What stands at the front of a text, in the program, in a comment and in a remark.

ghost use Rattle.std.specs.Prelude.{◌≡◌, ◌<◌, ◌≤◌, ◌↔◌, length, slice_index, IfOk, IfSome, IfNone, IsTrue};
ghost use Rattle.std.specs.Char.{to_ascii_uppercase};
ghost use Rattle.std.specs.List.{list_all};
ghost use Rattle.b67_num.specs.Whole.{most};
ghost use Rattle.algol_tree.specs.Spelling.{is_letter, is_digit, value_of};
ghost use Rattle.algol_tree.specs.Lexes.{Program, Comment, EndRemark, TokenStands, capitals};
ghost use Rattle.algol_lexer.specs.Runs.{IsNoOther};
ghost use Rattle.algol_lexer.specs.Shown.{mode_of, front_shown};

use crate::pieces::{Front, Mode};
use crate::runs::{
    digits, first_quote, first_unprintable, is_blank, is_digit, is_letter, letters_and_digits,
};
use crate::symbols::symbol;
use crate::words::reserved;
use algol_tree::{Code, Line, MOST_NAME_BYTES, Reserved, Symbol, TokenKind, Whole};
use b67_num::MOST;
use std::alloc::{AllocError, Global};

/// The greatest number.
const NUMBER_LIMIT: u64 = MOST as u64;

/// The value of a run of digits, where it is within the limit.
fn value(digits: &[u8]) -> Option<u64>
    requires { IsTrue (list_all is_digit digits.now) }
    ensures within { IfSome result (λ value. (value ≡ value_of digits.now) × (value ≤ most)) }
    ensures above { IfNone result (most < value_of digits.now) }
{
    let mut value = 0;
    for digit in digits {
        value = value * 10 + u64::from(*digit - b'0');
        if value > NUMBER_LIMIT {
            return None;
        }
    }
    Some(value)
}

/// The number that a text begins with, which may be too large.
fn number_front(text: &[u8]) -> Front
    requires some { 0 < length text.now }
    requires digit { IsTrue (is_digit (slice_index text.now 0)) }
    ensures { TokenStands Program text.now (front_shown result) }
{
    let size = digits(text);
    match value(&text[..size]) {
        Some(value) => Front::token(TokenKind::Number(Whole::fitting(value as i64)), size),
        None => Front::wrong(Code::NumberTooWide),
    }
}

/// The letters and digits of a word, in capitals.
fn capitals(alloc: Global, word: &[u8]) -> Result<Vec<u8>, AllocError>
    ensures { IfOk result (λ letters. letters.items ≡ capitals word.now) }
{
    word.iter()
        .map(|byte| byte.to_ascii_uppercase())
        .collect(alloc)
}

/// The word or the name that a text begins with. A name may be too long.
fn word_front(alloc: Global, text: &[u8]) -> Result<Front, AllocError>
    requires some { 0 < length text.now }
    requires letter { IsTrue (is_letter (to_ascii_uppercase (slice_index text.now 0))) }
    ensures { IfOk result (λ front. TokenStands Program text.now (front_shown front)) }
{
    let size = letters_and_digits(text);
    if size > MOST_NAME_BYTES {
        return Ok(Front::wrong(Code::NameTooLong));
    }
    let letters = capitals(alloc, &text[..size])?;
    match reserved(letters.as_slice()) {
        Some(word) => Ok(Front::word(word, size)),
        None => Ok(Front::token(TokenKind::Name(Line::of(letters)), size)),
    }
}

/// The string that a text begins with.
fn string_front(alloc: Global, text: &[u8]) -> Result<Front, AllocError>
    requires some { 0 < length text.now }
    requires quote { slice_index text.now 0 ≡ 34 }
    ensures { IfOk result (λ front. TokenStands Program text.now (front_shown front)) }
{
    let (_, after) = text.split_at(1);
    let Some(length) = first_quote(after) else {
        return Ok(Front::wrong(Code::OpenString));
    };
    let inside = &after[..length];
    match first_unprintable(inside) {
        Some(place) => Ok(Front::Wrong {
            skipped: place + 1,
            code: Code::BadCharacter,
        }),
        None => {
            let string = Line::of(Vec::from_slice(alloc, inside)?);
            Ok(Front::token(TokenKind::Text(string), length + 2))
        }
    }
}

/// The symbol that a text begins with, if any.
fn symbol_front(text: &[u8]) -> Front
    requires some { 0 < length text.now }
    requires plain { IsNoOther (slice_index text.now 0) }
    ensures { TokenStands Program text.now (front_shown result) }
{
    match symbol(text) {
        Some((symbol, size)) => Front::symbol(symbol, size),
        None => Front::wrong(Code::BadCharacter),
    }
}

/// What a program's text begins with.
fn program_front(alloc: Global, text: &[u8]) -> Result<Front, AllocError>
    requires { 0 < length text.now }
    ensures { IfOk result (λ front. TokenStands Program text.now (front_shown front)) }
{
    let first = text[0];
    if is_blank(first) {
        return Ok(Front::passed(1, Mode::Program));
    }
    if is_letter(first) {
        return word_front(alloc, text);
    }
    if is_digit(first) {
        return Ok(number_front(text));
    }
    match first {
        b'"' => string_front(alloc, text),
        b'%' => Ok(Front::passed(text.len(), Mode::Program)),
        _ => Ok(symbol_front(text)),
    }
}

/// What a comment's text begins with.
fn comment_front(text: &[u8]) -> Front
    requires { 0 < length text.now }
    ensures { TokenStands Comment text.now (front_shown result) }
{
    match text[0] {
        b';' => Front::passed(1, Mode::Program),
        _ => Front::passed(1, Mode::Comment),
    }
}

/// Whether these letters are that word, which is in capitals.
fn is_word(bytes: &[u8], word: &[u8]) -> bool
    requires { capitals word.now ≡ word.now }
    ensures { IsTrue result ↔ (capitals bytes.now ≡ word.now) }
{
    bytes.eq_ignore_ascii_case(word)
}

/// The word that a remark's text begins with.
fn remark_word(text: &[u8]) -> Front
    requires some { 0 < length text.now }
    requires letter { IsTrue (is_letter (to_ascii_uppercase (slice_index text.now 0))) }
    ensures { TokenStands EndRemark text.now (front_shown result) }
{
    let size = letters_and_digits(text);
    let word = &text[..size];
    if is_word(word, b"END") {
        return Front::word(Reserved::End, size);
    }
    if is_word(word, b"ELSE") {
        return Front::word(Reserved::Else, size);
    }
    if is_word(word, b"UNTIL") {
        return Front::word(Reserved::Until, size);
    }
    Front::passed(size, Mode::EndRemark)
}

/// What a remark's text begins with.
fn remark_front(text: &[u8]) -> Front
    requires { 0 < length text.now }
    ensures { TokenStands EndRemark text.now (front_shown result) }
{
    let first = text[0];
    if is_letter(first) {
        return remark_word(text);
    }
    match first {
        b';' => Front::symbol(Symbol::Semicolon, 1),
        b'.' => Front::symbol(Symbol::Period, 1),
        _ => Front::passed(1, Mode::EndRemark),
    }
}

/// What a text begins with.
pub(crate) fn front(alloc: Global, mode: Mode, text: &[u8]) -> Result<Front, AllocError>
    requires { 0 < length text.now }
    ensures { IfOk result (λ front. TokenStands (mode_of mode) text.now (front_shown front)) }
{
    match mode {
        Mode::Program => program_front(alloc, text),
        Mode::Comment => Ok(comment_front(text)),
        Mode::EndRemark => Ok(remark_front(text)),
    }
}
