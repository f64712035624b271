// What the machine needs of the outside: where bytes come from, and where they go.
ghost use Rattle.std.specs.Prelude.{◌<◌, List, ℕ, Option, length, IfOk};
ghost use Rattle.std.specs.Io.{ReadsAtMost, WritesAtMost};
ghost use Rattle.std.specs.Io.KnownBytes.{ReadConsumes, WriteAppends};
ghost use Rattle.b67_io.specs.Faults.{HasCause};
ghost use Rattle.b67_io.specs.Reading.{EndsExactly};

/// A read or a write failed. The count of faults of its source or sink rose.
#[derive(Clone, Copy)]
pub struct Failed;

/// Gives bytes, in pieces of its own choice, until none is left.
pub trait Source {
    /// The bytes left, where the source tells them.
    ghost left: { Self → Option (List ℕ) };

    /// How often the source has failed, up to 18,446,744,073,709,551,615, where the count stays.
    ghost faults: { Self → ℕ };

    /// Fills the front of a piece with the first of the bytes left, and says how many it gave. No byte for a piece
    /// that isn't empty is the end of the input. `Failed` comes only where the count of faults rose in the call; the
    /// bytes left stay.
    fn read(&mut self, piece: &mut [u8]) -> Result<usize, Failed>
        ensures within { ReadsAtMost result piece.new }
        ensures given { ReadConsumes (left self.old) (left self.new) result piece.new }
        ensures end { IfOk result (EndsExactly (left self.old) piece.new) }
        ensures cause { HasCause (faults self.old) (faults self.new) result };
}

/// Takes bytes, as many at a time as it likes.
pub trait Sink {
    /// The bytes written, where the sink tells them.
    ghost written: { Self → Option (List ℕ) };

    /// How often the sink has failed, up to 18,446,744,073,709,551,615, where the count stays.
    ghost faults: { Self → ℕ };

    /// Appends the front of a piece to the bytes written, at least one byte of a piece that isn't empty, and says how
    /// many. `Failed` comes only where the count of faults rose in the call; nothing was appended.
    fn write(&mut self, piece: &[u8]) -> Result<usize, Failed>
        ensures within { WritesAtMost result piece.now }
        ensures appended { WriteAppends (written self.old) (written self.new) result piece.now }
        ensures progress { IfOk result (λ count. 0 < length piece.now → 0 < count) }
        ensures cause { HasCause (faults self.old) (faults self.new) result };
}
