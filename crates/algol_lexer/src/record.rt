//! Records, which are cards.

ghost use Rattle.std.specs.Prelude.{◌≡◌, ◌≤◌, length};
ghost use Rattle.std.specs.Str.Lines.{strip_carriage_return};
ghost use Rattle.algol_tree.specs.Records.{has_dollar, columns_of};

use algol_tree::{LAST_COLUMN, Spot, Token, TokenKind};
use std::alloc::AllocError;

/// A record: its line, the place of its first byte in the text, and its bytes without the end of the record.
#[derive(Clone, Copy)]
pub(crate) struct Record<'a> {
    pub(crate) line: u32,
    pub(crate) from: usize,
    pub(crate) bytes: &'a [u8],
}

/// The number of columns that are read.
const USED_COLUMNS: usize = LAST_COLUMN as usize;

/// Whether a dollar sign is in column 1.
fn has_dollar(bytes: &[u8]) -> bool
    ensures { result ≡ has_dollar bytes.now }
{
    matches!(bytes, [b'$', ..])
}

/// The bytes that are read: columns 1 to [`LAST_COLUMN`], and none where a dollar sign is in column 1.
pub(crate) fn columns(bytes: &[u8]) -> &[u8]
    ensures value { result.now ≡ columns_of bytes.now }
    ensures within { length result.now ≤ length bytes.now }
{
    if has_dollar(bytes) {
        &[]
    } else if bytes.len() > USED_COLUMNS {
        &bytes[..USED_COLUMNS]
    } else {
        bytes
    }
}

/// A record without the CR at its end, if it has one.
pub(crate) fn without_return(bytes: &[u8]) -> &[u8]
    ensures value { result.now ≡ strip_carriage_return bytes.now }
    ensures within { length result.now ≤ length bytes.now }
{
    bytes.strip_suffix(b"\r").unwrap_or(bytes)
}

impl Record<'_> {
    ghost use Rattle.std.specs.Prelude.{◌≡◌, ◌+◌, ◌-◌, ◌^◌, ◌<◌, [], ◌∷◌, ◌++◌, Some, OnOk};
    ghost use Rattle.algol_tree.specs.Records.{spot_in};
    ghost use Rattle.algol_tree.specs.Lexes.{token_at};
    ghost use Rattle.algol_lexer.specs.Records.{record_of};

    /// The spot of the byte that so many bytes of the record stand before.
    pub(crate) fn spot(&self, at: usize) -> Spot
        requires { at < 2 ^ 32 - 1 }
        ensures { result ≡ spot_in (record_of self.now) at }
    {
        Spot {
            line: self.line,
            column: at as u32 + 1,
        }
    }

    /// The token of that kind, of so many bytes.
    pub(crate) fn token(&self, kind: TokenKind, at: usize, size: usize) -> Token
        requires { self.now.from + (at + size) < 2 ^ 32 - 1 }
        ensures { result ∷ [] ≡ token_at (record_of self.now) at size (Some kind) }
    {
        Token {
            kind,
            spot: self.spot(at),
            from: (self.from + at) as u32,
            to: (self.from + (at + size)) as u32,
        }
    }

    /// Appends the token of that kind, if any, of so many bytes.
    pub(crate) fn put(
        &self,
        kind: Option<TokenKind>,
        at: usize,
        size: usize,
        tokens: &mut Vec<Token>,
    ) -> Result<(), AllocError>
        requires { self.now.from + (at + size) < 2 ^ 32 - 1 }
        ensures { OnOk result (tokens.new.items ≡ tokens.old.items ++ token_at (record_of self.now) at size kind) }
    {
        if let Some(kind) = kind {
            tokens.push(self.token(kind, at, size))?;
        }
        Ok(())
    }
}
