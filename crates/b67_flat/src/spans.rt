// The spans of a memory in ascending order, and where there is room for another one.
ghost use Rattle.std.specs.Prelude.{◌≡◌, ◌≢◌, ℕ, ◌+◌, ◌*◌, ◌/◌, ◌%◌, ◌^◌, ◌<◌, ◌≤◌, [], length, take, IfSome, IfNone, slice_index_or, is_ok, if◌then◌else◌};
ghost use Rattle.std.specs.List.{insert, remove};
ghost use Rattle.std.specs.Vec.{vec_len};
ghost use Rattle.b67_flat.specs.Spans.{Ascend, end_after, gap_before, first_fit, spans_below, closed};
ghost use Rattle.b67_flat.specs.Widest.{AreWidest};
ghost use Rattle.b67_flat.specs.declared.Span.{Span as Seen};

use crate::Span;
use crate::widest::Widest;
use std::alloc::{AllocError, Global};
use std::marker::Model;

// So many spans that follow one another are one chunk.
pub const CHUNK: usize = 64;

#[derive(Drop)]
pub struct Spans {
    spans: Vec<Span>,
    // How wide a gap before a span of each chunk is at most.
    widest: Widest,
}

impl Model for Spans {
    ghost use Rattle.std.specs.Prelude.{List, length, ◌*◌, ◌^◌, ◌<◌, ◌≤◌};
    ghost use Rattle.std.specs.Vec.{vec_len};
    ghost use Rattle.b67_flat.specs.declared.Span.{Span as Seen};
    ghost use Rattle.b67_flat.specs.Spans.{Ascend, end_after};
    ghost use Rattle.b67_flat.specs.Widest.{AreWidest};
    ghost use Rattle.b67_flat.specs.declared.spans.TheConstants.{CHUNK};

    ghost Value = { List Seen };

    ghost view = { λ s. s.spans.items };

    ghost invariant = { λ s. Ascend 0 s.spans.items × (end_after 0 s.spans.items < 2 ^ 48) × AreWidest s.spans.items s.widest × (vec_len s.spans ≤ length s.widest * CHUNK) × (length s.widest ≤ 2 ^ 42) };
}

// Where the spans before this one end.
fn end_before(spans: &Vec<Span>, at: usize) -> u64
    requires ascending { Ascend 0 spans.now.items }
    requires within { end_after 0 spans.now.items < 2 ^ 48 }
    requires there { at ≤ vec_len spans.now }
    ensures { result ≡ end_after 0 (take at spans.now.items) }
{
    if at == 0 {
        return 0;
    }
    let span = spans[at - 1];
    span.place + u64::from(span.length)
}

// How many words there are between a span and the one before it.
fn gap(spans: &Vec<Span>, at: usize) -> u64
    requires ascending { Ascend 0 spans.now.items }
    requires within { end_after 0 spans.now.items < 2 ^ 48 }
    requires there { at < vec_len spans.now }
    ensures { result ≡ gap_before 0 spans.now.items at }
{
    spans[at].place - end_before(spans, at)
}

// The widest gap before a span of the chunk that begins with this one.
fn widest_from(spans: &Vec<Span>, first: usize) -> u64
    requires ascending { Ascend 0 spans.now.items }
    requires within { end_after 0 spans.now.items < 2 ^ 48 }
    requires there { first < vec_len spans.now }
    ensures { (k : ℕ) → first ≤ k → k < first + CHUNK → gap_before 0 spans.now.items k ≤ result }
{
    let mut widest = 0;
    let mut at = first;
    'widening: while at < spans.len() && at - first < CHUNK {
        widest = widest.max(gap(spans, at));
        at += 1;
    }
    widest
}

// The first span of the chunk that begins with this one before which there is room for so many words.
fn fit_in(spans: &Vec<Span>, first: usize, count: u64) -> Option<usize>
    requires ascending { Ascend 0 spans.now.items }
    requires within { end_after 0 spans.now.items < 2 ^ 48 }
    requires there { first < vec_len spans.now }
    requires some { 1 ≤ count }
    ensures fits { IfSome result (λ at. (at < vec_len spans.now) × (count ≤ gap_before 0 spans.now.items at)) }
    ensures before { IfSome result (λ at. (k : ℕ) → first ≤ k → k < at → gap_before 0 spans.now.items k < count) }
    ensures none { IfNone result ((k : ℕ) → first ≤ k → k < first + CHUNK → gap_before 0 spans.now.items k < count) }
{
    let mut at = first;
    'fitting: while at < spans.len() && at - first < CHUNK {
        if count <= gap(spans, at) {
            return Some(at);
        }
        at += 1;
    }
    None
}

// The index of the first span before which there is room for so many words; how many there are where there is none.
fn fit_among(spans: &Vec<Span>, widest: &mut Widest, count: u64) -> usize
    requires ascending { Ascend 0 spans.now.items }
    requires within { end_after 0 spans.now.items < 2 ^ 48 }
    requires widest { AreWidest spans.now.items widest.old }
    requires all { vec_len spans.now ≤ length widest.old * CHUNK }
    requires few { length widest.old ≤ 2 ^ 42 }
    requires some { 1 ≤ count }
    ensures at { result ≡ first_fit 0 count spans.now.items }
    ensures widest { AreWidest spans.now.items widest.new }
    ensures size { length widest.new ≡ length widest.old }
{
    let mut chunk = widest.first_wide(count);
    'chunks: while chunk * CHUNK < spans.len() {
        if let Some(at) = fit_in(spans, chunk * CHUNK, count) {
            return at;
        }
        let width = widest_from(spans, chunk * CHUNK);
        widest.narrow(chunk, width);
        chunk = widest.next_wide(chunk + 1, count);
    }
    spans.len()
}

// So many spans begin below a place, from the first one on: all but the last where the one before it does, else none.
fn surely_below(spans: &Vec<Span>, place: u64) -> usize
    requires { Ascend 0 spans.now.items }
    ensures within { result ≤ vec_len spans.now }
    ensures below { (k : ℕ) (other : Seen) → k < result → (slice_index_or spans.now.items k other).place < place }
{
    let count = spans.len();
    if 2 <= count && spans[count - 2].place < place {
        return count - 1;
    }
    0
}

impl Spans {
    pub fn new(alloc: Global) -> Spans
        ensures { result ≡ [] }
    {
        Spans {
            spans: Vec::new(alloc),
            widest: Widest::new(alloc),
        }
    }

    pub fn as_slice(&self) -> &[Span]
        ensures { result.now ≡ self.now }
    {
        self.spans.as_slice()
    }

    // The index of the first span before which there is room for so many words; how many there are where there is none.
    // Work for a step for each group of chunks before it, for each chunk of its group and for each span of its chunk. Where
    // no gap of a chunk is so wide, though its bound is, the bound becomes the width of the widest.
    pub fn first_fit(&mut self, count: u64) -> usize
        requires { 1 ≤ count }
        ensures at { result ≡ first_fit 0 count self.old }
        ensures same { self.new ≡ self.old }
    {
        fit_among(&self.spans, &mut self.widest, count)
    }

    // Where the spans before this one end.
    pub fn end_before(&self, at: usize) -> u64
        requires { at ≤ length self.now }
        ensures { result ≡ end_after 0 (take at self.now) }
    {
        end_before(&self.spans, at)
    }

    // Puts a span before the one of this index. Nothing is changed where there is no memory. The spans after it are moved
    // by one, and one gap of each chunk of them is looked at.
    pub fn insert(&mut self, at: usize, span: Span) -> Result<(), AllocError>
        requires there { at ≤ length self.old }
        requires ascending { Ascend 0 (insert self.old at span) }
        requires within { end_after 0 (insert self.old at span) < 2 ^ 48 }
        ensures { self.new ≡ (if is_ok result then insert self.old at span else self.old) }
    {
        self.spans.reserve(1)?;
        self.widest.cover(self.spans.len() + 1)?;
        self.spans.insert(at, span).unwrap();
        renew(&self.spans, &mut self.widest, at, (at / CHUNK + 1) * CHUNK);
        Ok(())
    }

    // Takes a span away, and takes no memory. The spans after it are moved by one, and one gap of each chunk of them is
    // looked at.
    pub fn remove(&mut self, at: usize)
        requires { at < length self.old }
        ensures { self.new ≡ remove self.old at }
    {
        let _span = self.spans.remove(at);
        renew(
            &self.spans,
            &mut self.widest,
            at,
            at / CHUNK * CHUNK + (CHUNK - 1),
        );
    }

    // How many spans begin below a place. A few steps where only the last one does not; else work that grows with the logarithm of
    // their number.
    pub fn below(&self, place: u64) -> usize
        ensures { result ≡ spans_below place self.now }
    {
        let mut low = surely_below(&self.spans, place);
        let mut high = self.spans.len();
        'halving: while low < high {
            let middle = low + (high - low) / 2;
            if self.spans[middle].place < place {
                low = middle + 1;
            } else {
                high = middle;
            }
        }
        low
    }

    // Takes the span away that begins at a place, and takes no memory.
    pub fn close(&mut self, place: u32)
        requires { spans_below place self.old < length self.old }
        ensures { self.new ≡ closed place self.old }
    {
        let at = self.below(u64::from(place));
        self.remove(at);
    }
}

// The bound of its chunk is raised by the gap before a span, where there is one of this index.
fn raise_by(spans: &Vec<Span>, widest: &mut Widest, at: usize)
    requires ascending { Ascend 0 spans.now.items }
    requires within { end_after 0 spans.now.items < 2 ^ 48 }
    requires all { vec_len spans.now ≤ length widest.old * CHUNK }
    ensures raised { gap_before 0 spans.now.items at ≤ slice_index_or widest.new (at / CHUNK) 0 }
    ensures others { (k : ℕ) → slice_index_or widest.old k 0 ≤ slice_index_or widest.new k 0 }
    ensures size { length widest.new ≡ length widest.old }
{
    if at < spans.len() {
        widest.raise(at / CHUNK, gap(spans, at));
    }
}

// The bounds of the chunks are raised by the gaps that came into them: that before one span, and, from another on, that
// before each span as many after it as a chunk has.
fn renew(spans: &Vec<Span>, widest: &mut Widest, at: usize, from: usize)
    requires ascending { Ascend 0 spans.now.items }
    requires within { end_after 0 spans.now.items < 2 ^ 48 }
    requires all { vec_len spans.now ≤ length widest.old * CHUNK }
    requires kept { (k : ℕ) → k ≢ at → (from ≤ k → k % CHUNK ≢ from % CHUNK) → gap_before 0 spans.now.items k ≤ slice_index_or widest.old (k / CHUNK) 0 }
    ensures widest { AreWidest spans.now.items widest.new }
    ensures size { length widest.new ≡ length widest.old }
{
    raise_by(spans, widest, at);
    let mut next = from;
    'raising: while next < spans.len() {
        widest.raise(next / CHUNK, gap(spans, next));
        next += CHUNK;
    }
}
