// Sources and sinks in memory, whose calls fail where they are told to.
ghost use Rattle.std.specs.Prelude.{◌≡◌, ◌<◌, ◌≤◌, ◌↔◌, ℕ, [], Some, length, min, take, IfOk, IsErr, Contains};

use crate::calls::{Calls, after_fault};
use crate::{Failed, Sink, Source};
use std::alloc::{AllocError, Global};
use std::marker::Model;

/// A source in memory. Contracts see it as a `SourceState` of `specs/Memory.antt`.
#[derive(Drop)]
pub struct MemorySource {
    bytes: Vec<u8>,
    place: usize,
    most: usize,
    calls: Calls,
    faults: u64,
}

impl Model for MemorySource {
    ghost use Rattle.std.specs.Prelude.{◌≤◌, ◌<◌, ◌^◌, drop, length};
    ghost use Rattle.b67_io.specs.Memory.{SourceState};

    ghost Value = { SourceState };

    ghost view = { λ s. record {
      left = drop s.place s.bytes.items;
      most = s.most;
      next_call = s.calls.next;
      failing_calls = s.calls.failing.items;
      faults = s.faults;
    } };

    ghost invariant = { λ s. (s.place ≤ length s.bytes.items) × (0 < s.most) × (s.faults < 2 ^ 64) };
}

impl MemorySource {
    /// A source of these bytes that gives at most `most` of them in a call, and fails at the calls that are numbered,
    /// from 0, in `fails`, in any order. Calls past the greatest u32 have no number.
    pub fn new(bytes: Vec<u8>, most: usize, fails: Vec<u32>) -> Self
        requires { 0 < most }
        ensures left { result.left ≡ bytes.items }
        ensures most { result.most ≡ most }
        ensures next_call { result.next_call ≡ Some 0 }
        ensures failing { (number : ℕ) → Contains result.failing_calls number ↔ Contains fails.items number }
        ensures faults { result.faults ≡ 0 }
    {
        MemorySource {
            bytes,
            place: 0,
            most,
            calls: Calls::new(fails),
            faults: 0,
        }
    }

    /// The bytes that are left.
    pub fn bytes_left(&self) -> &[u8]
        ensures { result.now ≡ self.now.left }
    {
        let (_, left) = self.bytes.split_at(self.place);
        left
    }

    /// How often a read failed.
    pub fn fault_count(&self) -> u64
        ensures { result ≡ self.now.faults }
    {
        self.faults
    }
}

impl Source for MemorySource {
    ghost use Rattle.std.specs.Prelude.{◌≡◌, ◌↔◌, min, Some, IfOk, IsErr, length};
    ghost use Rattle.std.specs.Io.{ReadsAtMost};
    ghost use Rattle.std.specs.Io.KnownBytes.{ReadConsumes};
    ghost use Rattle.b67_io.specs.Faults.{HasCause, count_after};
    ghost use Rattle.b67_io.specs.Reading.{EndsExactly};
    ghost use Rattle.b67_io.specs.Memory.{IsFailing, call_after};

    ghost left = { λ s. Some s.left };

    ghost faults = { λ s. s.faults };

    fn read(&mut self, piece: &mut [u8]) -> Result<usize, Failed>
        ensures within { ReadsAtMost result piece.new }
        ensures given { ReadConsumes (Some self.old.left) (Some self.new.left) result piece.new }
        ensures end { IfOk result (EndsExactly (Some self.old.left) piece.new) }
        ensures cause { HasCause self.old.faults self.new.faults result }

        // Exactly the calls that are numbered fail, and each other call gives as much as it can.
        ensures failing { IsErr result ↔ IsFailing self.old.next_call self.old.failing_calls }
        ensures count { IfOk result (λ count.
            count ≡ min self.old.most (min (length self.old.left) (length piece.new))) }
        ensures next_call { self.new.next_call ≡ call_after self.old.next_call }
        ensures failing_calls { self.new.failing_calls ≡ self.old.failing_calls }
        ensures most { self.new.most ≡ self.old.most }
        ensures faults { self.new.faults ≡ count_after self.old.faults result }
    {
        if self.calls.fails_now() {
            self.faults = after_fault(self.faults);
            return Err(Failed);
        }
        let (_, left) = self.bytes.split_at(self.place);
        let count = copy_front(left, self.most, piece);
        self.place += count;
        Ok(count)
    }
}

// Copies the front of `bytes` over the front of `piece`, at most `most` bytes, and says how many.
fn copy_front(bytes: &[u8], most: usize, piece: &mut [u8]) -> usize
    ensures count { result ≡ min most (min (length bytes.now) (length piece.new)) }
    ensures copied { take result piece.new ≡ take result bytes.now }
{
    let count = most.min(bytes.len().min(piece.len()));
    piece[..count].copy_from_slice(&bytes[..count]);
    count
}

/// A sink in memory with a fixed room. Contracts see it as a `SinkState` of `specs/Memory.antt`.
#[derive(Drop)]
pub struct MemorySink {
    bytes: Vec<u8>,
    room: usize,
    calls: Calls,
    faults: u64,
}

impl Model for MemorySink {
    ghost use Rattle.std.specs.Prelude.{◌≤◌, ◌<◌, ◌^◌, vec_len, vec_capacity};
    ghost use Rattle.b67_io.specs.Memory.{SinkState};

    ghost Value = { SinkState };

    ghost view = { λ s. record {
      bytes = s.bytes.items;
      room = s.room;
      next_call = s.calls.next;
      failing_calls = s.calls.failing.items;
      faults = s.faults;
    } };

    ghost invariant = { λ s. (vec_len s.bytes ≤ s.room) × (s.room ≤ vec_capacity s.bytes) × (s.faults < 2 ^ 64) };
}

impl MemorySink {
    /// A sink that holds at most `room` bytes, for which it takes the memory here. A write fails where it holds that
    /// many, and at the calls that are numbered, from 0, in `fails`, in any order. Calls past the greatest u32 have no
    /// number.
    pub fn new(alloc: Global, room: usize, fails: Vec<u32>) -> Result<Self, AllocError>
        ensures bytes { IfOk result (λ sink. sink.bytes ≡ []) }
        ensures room { IfOk result (λ sink. sink.room ≡ room) }
        ensures next_call { IfOk result (λ sink. sink.next_call ≡ Some 0) }
        ensures failing { IfOk result (λ sink.
            (number : ℕ) → Contains sink.failing_calls number ↔ Contains fails.items number) }
        ensures faults { IfOk result (λ sink. sink.faults ≡ 0) }
    {
        Ok(MemorySink {
            bytes: Vec::with_capacity(alloc, room)?,
            room,
            calls: Calls::new(fails),
            faults: 0,
        })
    }

    /// The bytes that were written.
    pub fn bytes(&self) -> &[u8]
        ensures { result.now ≡ self.now.bytes }
    {
        &self.bytes
    }

    /// How often a write failed.
    pub fn fault_count(&self) -> u64
        ensures { result ≡ self.now.faults }
    {
        self.faults
    }
}

impl Sink for MemorySink {
    ghost use Rattle.std.specs.Prelude.{◌≡◌, ◌↔◌, ◌⊎◌, ◌-◌, ◌<◌, min, Some, IfOk, IsErr, length};
    ghost use Rattle.std.specs.Io.{WritesAtMost};
    ghost use Rattle.std.specs.Io.KnownBytes.{WriteAppends};
    ghost use Rattle.b67_io.specs.Faults.{HasCause, count_after};
    ghost use Rattle.b67_io.specs.Memory.{IsFailing, call_after};

    ghost written = { λ s. Some s.bytes };

    ghost faults = { λ s. s.faults };

    fn write(&mut self, piece: &[u8]) -> Result<usize, Failed>
        ensures within { WritesAtMost result piece.now }
        ensures appended { WriteAppends (Some self.old.bytes) (Some self.new.bytes) result piece.now }
        ensures progress { IfOk result (λ count. 0 < length piece.now → 0 < count) }
        ensures cause { HasCause self.old.faults self.new.faults result }

        // Exactly the calls that are numbered fail, and those at a full sink; each other call takes as much as it can.
        ensures failing { IsErr result
            ↔ (IsFailing self.old.next_call self.old.failing_calls ⊎ (length self.old.bytes ≡ self.old.room)) }
        ensures count { IfOk result (λ count.
            count ≡ min (length piece.now) (self.old.room - length self.old.bytes)) }
        ensures next_call { self.new.next_call ≡ call_after self.old.next_call }
        ensures failing_calls { self.new.failing_calls ≡ self.old.failing_calls }
        ensures room { self.new.room ≡ self.old.room }
        ensures faults { self.new.faults ≡ count_after self.old.faults result }
    {
        let room = self.room - self.bytes.len();
        if self.calls.fails_now() || room == 0 {
            self.faults = after_fault(self.faults);
            return Err(Failed);
        }
        let (front, _) = piece.split_at(piece.len().min(room));
        self.bytes.extend_from_slice(front).unwrap();
        Ok(front.len())
    }
}
