// Writes all of some bytes to a sink.
ghost use Rattle.std.specs.Prelude.{◌<◌, ◌≤◌, ◌^◌, OnOk, OnErr, IfErr};
ghost use Rattle.std.specs.Io.KnownBytes.{Appends};
ghost use Rattle.b67_io.specs.Faults.{Rose};
ghost use Rattle.b67_io.specs.Writing.{WroteFront};

use crate::Sink;
use thiserror::Error;

/// Why not all bytes could be written.
#[derive(Clone, Copy, Debug, PartialEq, Eq, Error)]
pub enum WriteAll {
    /// A write failed when this many bytes were written.
    #[error("a write failed after {written} bytes")]
    Failed { written: usize },
}

/// Writes all the bytes to a sink. It always returns: each turn takes at least one byte, or is the last. The first
/// write that fails ends it as `Failed`, with the number of bytes that were written before.
#[tactic(auto, using(crate::proofs::Known::appends_next))]
pub fn write_all<K: Sink>(sink: &mut K, bytes: &[u8]) -> Result<(), WriteAll>
    ensures all { OnOk result (Appends (K.written sink.old) (K.written sink.new) bytes.now) }
    ensures front { IfErr result (WroteFront (K.written sink.old) (K.written sink.new) bytes.now) }
    ensures failed { OnErr result (Rose (K.faults sink.old) (K.faults sink.new)) }
    ensures later { K.faults sink.old ≤ K.faults sink.new }

    // Of no bytes nothing is written, and the sink isn't called.
    ensures bounded { K.faults sink.old < 2 ^ 64 → K.faults sink.new < 2 ^ 64 }
{
    let mut written = 0;
    'writing: while written < bytes.len() {
        let (_, rest) = bytes.split_at(written);
        let Ok(count) = sink.write(rest) else {
            return Err(WriteAll::Failed { written });
        };
        written += count;
    }
    Ok(())
}
