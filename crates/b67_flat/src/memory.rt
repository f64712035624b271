// The words of all rows in one list, and the spans of it that belong to one of them.
ghost use Rattle.std.specs.Prelude.{◌≡◌, ℕ, ◌+◌, ◌-◌, ◌^◌, ◌<◌, ◌≤◌, Option, Some, List, length, pos, OnOk, IfOk, is_ok, slice_get, slice_set, if◌then◌else◌};
ghost use Rattle.std.specs.Vec.{vec_len};
ghost use Rattle.b67_word.specs.Word.{Word, operand};
ghost use Rattle.b67_flat.specs.Spans.{place_for, span_opened};
ghost use Rattle.b67_flat.specs.Flat.{memory_of, IsMemory, lengthened, zeroed};

use crate::Span;
use crate::spans::Spans;
use b67_word::{Word, operand};
use std::alloc::AllocError;

// The most words of a memory that belong to spans, so that a place has 32 bits.
const MOST_WORDS: u64 = 4_294_967_296;

// The word so many after a place, which the memory has.
#[inline(always)]
pub fn read_at(words: &Vec<Word>, place: u32, at: u32) -> Word
    requires { place + at < vec_len words.now }
    ensures { Some result ≡ slice_get words.now.items (place + at) }
{
    words[place as usize + at as usize]
}

// Puts a word in place of the one so many after a place, which the memory has.
#[inline(always)]
pub fn write_at(words: &mut Vec<Word>, place: u32, at: u32, word: Word)
    requires { place + at < vec_len words.old }
    ensures { words.new.items ≡ slice_set words.old.items (place + at) word }
{
    words[place as usize + at as usize] = word;
}

// Puts operands 0 in place of so many words from a place on.
pub fn zero(words: &mut Vec<Word>, place: u32, count: u32)
    requires { place + count ≤ vec_len words.old }
    ensures { words.new.items ≡ zeroed words.old.items place count }
{
    let zero = operand(0);
    let mut at = place as usize;
    let end = at + count as usize;
    'zeroing: while at < end {
        words[at] = zero;
        at += 1;
    }
}

// Opens a span of so many words at the least place at which they belong to none, and answers the place. The words are
// lengthened where they do not reach so far. No span is opened where there is no memory.
pub fn open_span(
    words: &mut Vec<Word>,
    spans: &mut Spans,
    count: u32,
    row: u32,
) -> Result<u32, AllocError>
    requires some { 1 ≤ count }
    requires memory { IsMemory (memory_of words.old.items spans.old) }
    ensures place { IfOk result (λ place. place ≡ place_for count spans.old) }
    ensures spans { spans.new ≡ (if is_ok result then span_opened count row spans.old else spans.old) }
    ensures words { (more : ℕ) × (words.new.items ≡ lengthened words.old.items more) }
    ensures memory { IsMemory (memory_of words.new.items spans.new) }
{
    let at = spans.first_fit(u64::from(count));
    let place = spans.end_before(at);
    reach(words, place + u64::from(count))?;
    let span = Span {
        place,
        length: count,
        row,
    };
    spans.insert(at, span)?;
    Ok(place as u32)
}

// Lengthens the words with operands 0, where they do not reach so far. Their list grows as lists do, twice as long at
// least; what of it was never reached takes no memory from the system, which lengthens a large block without copying it.
fn reach(words: &mut Vec<Word>, end: u64) -> Result<(), AllocError>
    ensures reaches { OnOk result ((end ≤ vec_len words.new) × (end ≤ MOST_WORDS)) }
    ensures words { (more : ℕ) × (words.new.items ≡ lengthened words.old.items more) }
{
    if MOST_WORDS < end {
        return Err(AllocError);
    }
    if (words.len() as u64) < end {
        words.resize(end as usize, operand(0))?;
    }
    Ok(())
}
