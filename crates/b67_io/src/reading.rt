// Reads a source to its end.
ghost use Rattle.std.specs.Prelude.{◌≡◌, ◌<◌, ◌≤◌, ◌+◌, ◌^◌, length, IfOk, OnOk, IfSome, IsErrOf, vec_len};
ghost use Rattle.std.specs.Io.KnownBytes.{IsAtEnd};
ghost use Rattle.b67_io.specs.Faults.{Rose};
ghost use Rattle.b67_io.specs.Reading.{TakesBetween, TakesFront};
ghost use Rattle.b67_io.specs.declared.reading.ReadAll.TheVariants.{Failed as ReadFailed, NoMemory};

use crate::{Failed, Source};
use std::alloc::{AllocError, Global};
use thiserror::Error;

/// How many bytes `read_all` asks for at a time.
pub const PIECE_BYTES: usize = 4096;

/// Why the bytes of a source could not be read to their end.
#[derive(Clone, Copy, Debug, PartialEq, Eq, Error)]
pub enum ReadAll {
    #[error("a read failed")]
    Failed,
    #[error("there are too many bytes")]
    TooLong,
    #[error("out of memory")]
    NoMemory,
}

impl From<Failed> for ReadAll {
    ghost from_gives = { λ _ error. error ≡ ReadFailed };

    fn from(_: Failed) -> Self {
        ReadAll::Failed
    }
}

impl From<AllocError> for ReadAll {
    ghost from_gives = { λ _ error. error ≡ NoMemory };

    fn from(_: AllocError) -> Self {
        ReadAll::NoMemory
    }
}

/// Reads all the bytes that a source has left, if they are at most `most`. It always returns: each turn takes at least
/// one byte, or is the last. The first read that fails ends it as `Failed`, and reading ends as `TooLong` once more
/// than `most` bytes were read. It holds at most `most` bytes, and one piece on the stack. After any answer the bytes
/// that were read are gone from the source.
pub fn read_all<S: Source>(alloc: Global, source: &mut S, most: usize) -> Result<Vec<u8>, ReadAll>
    // The answer is all that was left, and nothing is left after it.
    ensures all { IfOk result (λ bytes. IfSome (S.left source.old) (λ left. bytes.items ≡ left)) }
    ensures end { OnOk result (IsAtEnd (S.left source.new)) }
    ensures within { IfOk result (λ bytes. vec_len bytes ≤ most) }

    ensures too_long { IsErrOf result ReadAll.TooLong → IfSome (S.left source.old) (λ left. most < length left) }
    ensures taken { IsErrOf result ReadAll.TooLong
        → TakesBetween most (most + PIECE_BYTES) (S.left source.old) (S.left source.new) }
    ensures failed { IsErrOf result ReadAll.Failed → Rose (S.faults source.old) (S.faults source.new) }

    // What is left is the rest of what was left, whatever the answer.
    ensures front { TakesFront (S.left source.old) (S.left source.new) }
    ensures later { S.faults source.old ≤ S.faults source.new }
    ensures bounded { S.faults source.new < 2 ^ 64 }
{
    let mut bytes = Vec::new(alloc);
    let mut piece = [0u8; PIECE_BYTES];
    'reading: loop {
        let count = source.read(&mut piece)?;
        if count == 0 {
            return Ok(bytes);
        }
        if most - bytes.len() < count {
            return Err(ReadAll::TooLong);
        }
        bytes.extend_from_slice(&piece[..count])?;
    }
}
