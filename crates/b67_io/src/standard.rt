// Sources and sinks over the readers and writers of std. They tell no bytes: no contract can say which bytes reach or
// leave the system, so this is the edge that is trusted.
ghost use Rattle.std.specs.Prelude.{◌≡◌};

use crate::calls::after_fault;
use crate::{Failed, Sink, Source};
use std::io::{Read, Write};
use std::marker::Model;

/// A source over a reader, as `StdinSource::new(rt.stdin())`. Each error of the reader is a fault, an interrupted read
/// too. It keeps no bytes of its own. Contracts see it as its count of faults.
#[derive(Drop)]
pub struct StdinSource<R> {
    reader: R,
    faults: u64,
}

impl<R> Model for StdinSource<R> {
    ghost use Rattle.std.specs.Prelude.{ℕ, ◌<◌, ◌^◌};

    ghost Value = { ℕ };

    ghost view = { λ s. s.faults };

    ghost invariant = { λ s. s.faults < 2 ^ 64 };
}

impl<R: Read> StdinSource<R> {
    /// A source over this reader, that has not failed yet.
    pub fn new(reader: R) -> Self
        ensures { result ≡ 0 }
    {
        StdinSource { reader, faults: 0 }
    }

    /// How often a read failed.
    pub fn fault_count(&self) -> u64
        ensures { result ≡ self.now }
    {
        self.faults
    }
}

impl<R: Read> Source for StdinSource<R> {
    ghost use Rattle.std.specs.Prelude.{◌≡◌, None};
    ghost use Rattle.std.specs.Io.{ReadsAtMost};
    ghost use Rattle.b67_io.specs.Faults.{HasCause, count_after};

    ghost left = { λ _. None };

    ghost faults = { λ count. count };

    fn read(&mut self, piece: &mut [u8]) -> Result<usize, Failed>
        ensures within { ReadsAtMost result piece.new }
        ensures cause { HasCause self.old self.new result }

        // Each fault is counted, and nothing else.
        ensures faults { self.new ≡ count_after self.old result }
    {
        match self.reader.read(piece) {
            Ok(count) => Ok(count),
            Err(_) => {
                self.faults = after_fault(self.faults);
                Err(Failed)
            }
        }
    }
}

/// A sink over a writer, as `StdoutSink::new(rt.stdout())`. Each error of the writer is a fault, an interrupted write
/// too, and so is a write that takes no byte of a piece that isn't empty. It keeps no bytes of its own, and flushes
/// nothing: hand it a writer that passes its bytes on at once. Contracts see it as its count of faults.
#[derive(Drop)]
pub struct StdoutSink<W> {
    writer: W,
    faults: u64,
}

impl<W> Model for StdoutSink<W> {
    ghost use Rattle.std.specs.Prelude.{ℕ, ◌<◌, ◌^◌};

    ghost Value = { ℕ };

    ghost view = { λ s. s.faults };

    ghost invariant = { λ s. s.faults < 2 ^ 64 };
}

impl<W: Write> StdoutSink<W> {
    /// A sink over this writer, that has not failed yet.
    pub fn new(writer: W) -> Self
        ensures { result ≡ 0 }
    {
        StdoutSink { writer, faults: 0 }
    }

    /// How often a write failed.
    pub fn fault_count(&self) -> u64
        ensures { result ≡ self.now }
    {
        self.faults
    }
}

impl<W: Write> Sink for StdoutSink<W> {
    ghost use Rattle.std.specs.Prelude.{◌≡◌, ◌<◌, length, IfOk, None};
    ghost use Rattle.std.specs.Io.{WritesAtMost};
    ghost use Rattle.b67_io.specs.Faults.{HasCause, count_after};

    ghost written = { λ _. None };

    ghost faults = { λ count. count };

    fn write(&mut self, piece: &[u8]) -> Result<usize, Failed>
        ensures within { WritesAtMost result piece.now }
        ensures progress { IfOk result (λ count. 0 < length piece.now → 0 < count) }
        ensures cause { HasCause self.old self.new result }

        // Each fault is counted, and nothing else.
        ensures faults { self.new ≡ count_after self.old result }
    {
        match self.writer.write(piece) {
            Ok(count) if count > 0 || piece.is_empty() => Ok(count),
            _ => {
                self.faults = after_fault(self.faults);
                Err(Failed)
            }
        }
    }
}
