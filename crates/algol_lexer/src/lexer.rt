//! A text and its tokens.

ghost use Rattle.std.specs.Prelude.{◌≡◌, ◌+◌, ◌-◌, ◌^◌, ◌<◌, ◌≤◌, length, IfOk, OnOk, Err};
ghost use Rattle.algol_tree.specs.declared.refusal.Code.{Code};
ghost use Rattle.algol_tree.specs.declared.refusal.Refusal.TheVariants.{At};
ghost use Rattle.algol_tree.specs.declared.token.Spot.{Spot};
ghost use Rattle.algol_tree.specs.Ended.{EndsOnce};
ghost use Rattle.algol_tree.specs.Lexes.{Fails};
ghost use Rattle.algol_lexer.specs.Outcome.{RecordReads, LexesOnly, RefusedOnly};
ghost use Rattle.algol_lexer.specs.Records.{record_of};
ghost use Rattle.algol_lexer.specs.Shown.{mode_of};

use crate::fronts::front;
use crate::pieces::{Front, Mode};
use crate::record::{Record, columns, without_return};
use crate::runs::first_line_feed;
use algol_tree::{Code, MOST_RECORD_BYTES, Refusal, Token, TokenKind};
use std::alloc::Global;

/// Appends the tokens of a record, and says what its end stands in.
fn read_record(
    alloc: Global,
    card: &Record,
    mut mode: Mode,
    tokens: &mut Vec<Token>,
) -> Result<Mode, Refusal>
    requires room { card.now.from + length card.now.bytes.now < 2 ^ 32 - 1 }
    // The tokens of the record are put after those before.
    ensures read { IfOk result (λ next. RecordReads (record_of card.now) (mode_of mode) (mode_of next) tokens.old.items tokens.new.items) }
    // There are at most as many as bytes.
    ensures many { OnOk result (length tokens.new.items ≤ length tokens.old.items + length card.now.bytes.now) }
    // What is refused first.
    ensures refused { (spot : Spot) (code : Code) → result ≡ Err (At spot code) → Fails (record_of card.now) (mode_of mode) spot code }
{
    let columns = columns(card.bytes);
    let mut at = 0;
    'reading: while at < columns.len() {
        let (_, text) = columns.split_at(at);
        match front(alloc, mode, text)? {
            Front::Piece {
                size,
                kind,
                mode: next,
            } => {
                card.put(kind, at, size, tokens)?;
                mode = next;
                at += size;
            }
            Front::Wrong { skipped, code } => {
                return Err(Refusal::At {
                    spot: card.spot(at + skipped),
                    code,
                });
            }
        }
    }
    if card.bytes.len() > MOST_RECORD_BYTES {
        return Err(Refusal::At {
            spot: card.spot(MOST_RECORD_BYTES),
            code: Code::LineTooLong,
        });
    }
    Ok(mode)
}

/// The tokens of a text, the last of them the end of the text.
///
/// A text is records, each of which an LF ends, and a CR before it. Columns 1 to 72 of a record are read, and none
/// of a record that has a dollar sign in column 1. A token stands in one record; comments, which COMMENT, a percent
/// sign and END begin, are passed over. These are the rules of Extended ALGOL on cards.
///
/// A text is refused at the first spot at which it cannot be read: at a byte that begins no token, or that is not
/// printable and stands in a string (`BadCharacter`), at the quote of a string that no quote closes (`OpenString`),
/// at a number above [`MOST`](b67_num::MOST) (`NumberTooWide`), at a name of more than
/// [`MOST_NAME_BYTES`](algol_tree::MOST_NAME_BYTES) (`NameTooLong`) and at the byte after
/// [`MOST_RECORD_BYTES`] (`LineTooLong`). `NoMemory` is want of memory.
pub fn lex(alloc: Global, bytes: &[u8]) -> Result<Vec<Token>, Refusal>
    requires { length bytes.now < 2 ^ 32 - 1 }
    // The text is these tokens, and no others.
    ensures lexes { IfOk result (λ tokens. LexesOnly bytes.now tokens.items) }
    // The last of them, and no other, is the end of the text.
    ensures ended { IfOk result (λ tokens. EndsOnce tokens.items) }
    // There are at most as many as bytes, and the end.
    ensures many { IfOk result (λ tokens. length tokens.items ≤ length bytes.now + 1) }
    // A refusal is the first of the text, and no tokens are the text.
    ensures refused { (spot : Spot) (code : Code) → result ≡ Err (At spot code) →
        RefusedOnly bytes.now spot code }
{
    let mut tokens = Vec::new(alloc);
    let mut mode = Mode::Program;
    let mut line = 1;
    let mut from = 0;
    let mut rest = bytes;
    'records: while let Some(length) = first_line_feed(rest) {
        let (line_bytes, after) = rest.split_at(length);
        let card = Record {
            line,
            from,
            bytes: without_return(line_bytes),
        };
        mode = read_record(alloc, &card, mode, &mut tokens)?;
        line += 1;
        from += length + 1;
        (_, rest) = after.split_at(1);
    }
    let card = Record {
        line,
        from,
        bytes: rest,
    };
    read_record(alloc, &card, mode, &mut tokens)?;
    tokens.push(card.token(TokenKind::End, rest.len(), 0))?;
    Ok(tokens)
}
