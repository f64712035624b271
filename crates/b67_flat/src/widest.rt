// How wide the gaps before spans are at most, for each chunk of spans and for each group of chunks.
ghost use Rattle.std.specs.Prelude.{◌≡◌, ℕ, ◌+◌, ◌*◌, ◌^◌, ◌<◌, ◌≤◌, [], ◌∷◌, ◌++◌, length, OnOk, slice_index_or, slice_set, is_ok, if◌then◌else◌};
ghost use Rattle.std.specs.Vec.{vec_len};

use crate::spans::CHUNK;
use std::alloc::{AllocError, Global};
use std::marker::Model;

// So many chunks that follow one another are one group.
pub const GROUP: usize = 64;

// A bound for each chunk, one for each group of them that is the widest of theirs, and one that none of them passes.
#[derive(Drop)]
pub struct Widest {
    chunks: Vec<u64>,
    groups: Vec<u64>,
    most: u64,
}

impl Model for Widest {
    ghost use Rattle.std.specs.Prelude.{ℕ, List, ◌*◌, ◌≤◌};
    ghost use Rattle.std.specs.Vec.{vec_len};
    ghost use Rattle.b67_flat.specs.Widest.{AreOver, AreWithin};
    ghost use Rattle.b67_flat.specs.declared.widest.TheConstants.{GROUP};

    ghost Value = { List ℕ };

    ghost view = { λ w. w.chunks.items };

    ghost invariant = { λ w. AreOver w.chunks.items w.groups.items × (vec_len w.chunks ≤ vec_len w.groups * GROUP) × AreWithin w.chunks.items w.most };
}

// The widest of the bounds of the group that begins with this chunk.
fn widest_of(chunks: &Vec<u64>, first: usize) -> u64
    requires { first < vec_len chunks.now }
    ensures { (k : ℕ) → first ≤ k → k < first + GROUP → slice_index_or chunks.now.items k 0 ≤ result }
{
    let mut widest = 0;
    let mut chunk = first;
    'widening: while chunk < chunks.len() && chunk - first < GROUP {
        widest = widest.max(chunks[chunk]);
        chunk += 1;
    }
    widest
}

impl Widest {
    pub fn new(alloc: Global) -> Widest
        ensures { result ≡ [] }
    {
        Widest {
            chunks: Vec::new(alloc),
            groups: Vec::new(alloc),
            most: 0,
        }
    }

    pub fn len(&self) -> usize
        ensures { result ≡ length self.now }
    {
        self.chunks.len()
    }

    // One chunk more, in which there is no gap yet. Nothing is changed where there is no memory.
    fn grow(&mut self) -> Result<(), AllocError>
        ensures { self.new ≡ (if is_ok result then self.old ++ 0 ∷ [] else self.old) }
    {
        self.groups.reserve(1)?;
        self.chunks.reserve(1)?;
        let group = self.chunks.len() / GROUP;
        self.chunks.push_reserved(0);
        if self.groups.len() <= group {
            self.groups.push_reserved(0);
        }
        Ok(())
    }

    // As many chunks as so many spans are in, of which one may be missing. Nothing is changed where there is no memory.
    pub fn cover(&mut self, spans: usize) -> Result<(), AllocError>
        requires few { length self.old ≤ 2 ^ 42 }
        requires within { spans ≤ 2 ^ 48 }
        requires next { spans ≤ length self.old * CHUNK + CHUNK }
        ensures all { OnOk result (spans ≤ length self.new * CHUNK) }
        ensures same { (k : ℕ) → slice_index_or self.new k 0 ≡ slice_index_or self.old k 0 }
        ensures more { length self.old ≤ length self.new }
        ensures few { length self.new ≤ 2 ^ 42 }
    {
        if spans <= self.chunks.len() * CHUNK {
            return Ok(());
        }
        self.grow()
    }

    // A gap of this width comes into a chunk.
    pub fn raise(&mut self, chunk: usize, width: u64)
        requires { chunk < length self.old }
        ensures raised { width ≤ slice_index_or self.new chunk 0 }
        ensures others { (k : ℕ) → slice_index_or self.old k 0 ≤ slice_index_or self.new k 0 }
        ensures size { length self.new ≡ length self.old }
    {
        if self.chunks[chunk] < width {
            let group = chunk / GROUP;
            self.chunks[chunk] = width;
            self.groups[group] = self.groups[group].max(width);
            self.most = self.most.max(width);
        }
    }

    // No gap of a chunk is wider than this. Work for a step for each chunk of its group.
    pub fn narrow(&mut self, chunk: usize, width: u64)
        requires { chunk < length self.old }
        ensures { self.new ≡ slice_set self.old chunk width }
    {
        self.chunks[chunk] = width;
        let group = chunk / GROUP;
        self.groups[group] = widest_of(&self.chunks, group * GROUP);
        self.most = self.most.max(width);
    }

    // How many chunks from this one on are passed over, since no bound of theirs is so wide: those of the group that begins
    // with it, or it only, or none.
    fn passed(&self, chunk: usize, width: u64) -> usize
        requires { chunk < length self.now }
        ensures { (k : ℕ) → chunk ≤ k → k < chunk + result → slice_index_or self.now k 0 < width }
    {
        if chunk % GROUP == 0 && self.groups[chunk / GROUP] < width {
            return GROUP;
        }
        if self.chunks[chunk] < width { 1 } else { 0 }
    }

    // The first chunk from one on whose bound is so wide; the number of all where there is none. Work for a step for each
    // group before it, and for each chunk of its own group.
    pub fn next_wide(&self, from: usize, width: u64) -> usize
        requires { from ≤ length self.now }
        ensures after { from ≤ result }
        ensures within { result ≤ length self.now }
        ensures narrow { (k : ℕ) → from ≤ k → k < result → slice_index_or self.now k 0 < width }
    {
        let mut chunk = from;
        'passing: while chunk < self.chunks.len() {
            let passed = self.passed(chunk, width);
            if passed == 0 {
                return chunk;
            }
            chunk += passed.min(self.chunks.len() - chunk);
        }
        chunk
    }

    // The first chunk whose bound is so wide; the number of all where there is none. One step where a search for less found
    // none, and no bound was raised so far since; else work as for the next one from the first on.
    pub fn first_wide(&mut self, width: u64) -> usize
        requires { 1 ≤ width }
        ensures within { result ≤ length self.new }
        ensures narrow { (k : ℕ) → k < result → slice_index_or self.new k 0 < width }
        ensures same { self.new ≡ self.old }
    {
        if self.most < width {
            return self.chunks.len();
        }
        let chunk = self.next_wide(0, width);
        if chunk == self.chunks.len() {
            self.most = width - 1;
        }
        chunk
    }
}
