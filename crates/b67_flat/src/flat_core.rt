// The store that keeps all rows in one list of words, and each stack in one of its own.
ghost use Rattle.std.specs.Prelude.{◌≡◌, ℕ, ◌≤◌, ◌<◌, [], is_ok, OnOk, OnErr, IfOk, IfErr, false, is_some, if◌then◌else◌};
ghost use Rattle.b67_store.specs.Store.{Held, at_number, with_stack, left_in, closed_at, row_at, row_limit, count_limit, least_free, opened_at, zero_row, exceeds, RowFails};
ghost use Rattle.b67_flat.specs.Spans.{place_for, span_opened, closed};
ghost use Rattle.b67_flat.specs.Flat.{IsMemory, AreSpans, rows_in, lengthened, rows_of, zeroed, place_of_row};

mod again;

use crate::Span;
use crate::memory::{open_span, read_at, write_at, zero};
use crate::row_table::{HeldRow, RowTable};
use crate::spans::Spans;
use b67_store::{Core, NoSuchPlace, OpenFault, PushFault, RowFault, StackTable};
use b67_word::{Place, Word};
use std::alloc::Global;
use std::marker::Model;

/// A store that keeps all rows in one list of words, and each stack in one of its own.
///
/// Reading, writing, pushing, popping and cutting are constant work, and so is lending, but that it writes the words of a stack
/// that were never reached: twice as many as are asked for. The memory for all words that a stack may have is taken when it is
/// opened, and not written. To open a row finds its place by one step for each
/// 4,096 spans before it, one for each 64 of the 4,096 in which it is, and one for each of the 64: for n spans by
/// n / 4,096 + 128 steps. For each 64 spans it is kept how wide the gaps before them are at most. A bound may be wider than
/// all of them where spans below others were opened or closed; the first search that comes to such a bound in vain
/// makes it exact, by 192 steps. Where no bound was so wide at the last search, and none was raised so far since, one step finds
/// the end: rows that are opened one after another cost the same each, however many there are. Closing finds the span by a step
/// for each halving of n, and the last one at once. The spans after one that is opened
/// or closed are moved by one in their list, and one gap is looked at for each 64 of them, which may come into the bound
/// of these; at the end, where a program closes first what it opened last, there are none. A row's words are zeroed. No word is
/// moved.
#[derive(Drop)]
pub struct FlatCore {
    alloc: Global,
    words: Vec<Word>,
    spans: Spans,
    stacks: StackTable,
    rows: RowTable,
}

impl Model for FlatCore {
    ghost use Rattle.b67_flat.specs.Flat.{Flat, memory_of, IsMemory, AreSpans};

    ghost Value = { Flat };

    ghost view = { λ c. record { memory = memory_of c.words.items c.spans; stacks = c.stacks; rows = c.rows } };

    ghost invariant = { λ c. IsMemory (memory_of c.words.items c.spans) × AreSpans c.spans c.rows };
}

impl FlatCore {
    /// A store in which nothing is open. It takes no memory yet.
    pub fn new(alloc: Global) -> FlatCore
        ensures words { result.memory.words ≡ [] }
        ensures spans { result.memory.spans ≡ [] }
        ensures stacks { result.stacks ≡ [] }
        ensures rows { rows_in result.memory.words result.rows ≡ [] }
    {
        FlatCore {
            alloc,
            words: Vec::new(alloc),
            spans: Spans::new(alloc),
            stacks: StackTable::new(alloc),
            rows: RowTable::new(alloc),
        }
    }

    /// All words of rows, those that belong to no span among them.
    pub fn words(&self) -> &[Word]
        ensures { result.now ≡ self.now.memory.words }
    {
        self.words.as_slice()
    }

    /// The spans of all open rows, in ascending order of their places.
    pub fn spans(&self) -> &[Span]
        ensures spans { result.now ≡ self.now.memory.spans }
        ensures memory { IsMemory self.now.memory }
        ensures held { AreSpans result.now self.now.rows }
    {
        self.spans.as_slice()
    }
}

impl Core for FlatCore {
    ghost use Rattle.b67_store.specs.Store.{with_stack, left_in};
    ghost use Rattle.b67_flat.specs.Flat.{rows_of};

    ghost stacks = { λ c. c.stacks };

    ghost rows = { λ c. rows_of c };

    ghost lent = { λ c n lent left. record c { stacks = with_stack c.stacks n (left_in lent left) } };

    #[inline(always)]
    fn read(&self, at: Place) -> Option<Word> {
        self.stacks.read(at)
    }

    #[inline(always)]
    fn write(&mut self, at: Place, word: Word) -> Result<(), NoSuchPlace> {
        self.stacks.write(at, word)
    }

    #[inline(always)]
    fn length(&self, stack: u16) -> Option<u32> {
        self.stacks.length(stack)
    }

    #[inline(always)]
    fn push(&mut self, stack: u16, word: Word) -> Result<(), PushFault> {
        self.stacks.push(stack, word)
    }

    #[inline(always)]
    fn pop(&mut self, stack: u16) -> Option<Word> {
        self.stacks.pop(stack)
    }

    #[inline(always)]
    fn cut(&mut self, stack: u16, length: u32) -> Result<(), NoSuchPlace> {
        self.stacks.cut(stack, length)
    }

    #[inline(always)]
    fn room(&mut self, stack: u16, least: u32) -> &mut [Word] {
        self.stacks.room(stack, least)
    }

    fn open_stack(&mut self, stack: u16) -> Result<(), OpenFault> {
        self.stacks.open(self.alloc, stack)
    }

    fn close_stack(&mut self, stack: u16) -> Result<(), NoSuchPlace> {
        self.stacks.close(stack)
    }

    // Its span is opened at the least place at which there is room, and its words there become operands 0. No other span
    // is moved, and no word.
    fn open_row(&mut self, length: u32, counted: bool) -> Result<u32, RowFault>
        requires some { 1 ≤ length }
        requires most { length ≤ count_limit }
        ensures number { IfOk result (λ row. (row ≡ least_free (rows_of self.old)) × (row < row_limit)) }
        ensures room { OnOk result (exceeds (rows_of self.old) length counted ≡ false) }
        ensures fault { IfErr result (RowFails (rows_of self.old) length counted) }
        ensures rows { IfOk result (λ row. rows_of self.new ≡ opened_at (rows_of self.old) row (zero_row length counted)) }
        ensures unchanged { OnErr result (rows_of self.new ≡ rows_of self.old) }
        ensures stacks { self.new.stacks ≡ self.old.stacks }
        ensures spans { IfOk result (λ row. self.new.memory.spans ≡ span_opened length row self.old.memory.spans) }
        ensures kept { OnErr result (self.new.memory.spans ≡ self.old.memory.spans) }
        ensures words { OnOk result ((more : ℕ) × (self.new.memory.words ≡ zeroed (lengthened self.old.memory.words more) (place_for length self.old.memory.spans) length)) }
    {
        if self.rows.exceeds(length, counted) {
            return Err(RowFault::CoreFull);
        }
        let Some(number) = self.rows.next() else {
            return Err(RowFault::NoMemory);
        };
        let Ok(place) = open_span(&mut self.words, &mut self.spans, length, number) else {
            return Err(RowFault::NoMemory);
        };
        zero(&mut self.words, place, length);
        let row = HeldRow {
            place,
            length,
            counted,
        };
        let Ok(opened) = self.rows.open(row) else {
            self.spans.close(place);
            return Err(RowFault::NoMemory);
        };
        Ok(opened)
    }

    #[inline(always)]
    fn has_row(&self, row: u32) -> bool {
        self.rows.get(row).is_some()
    }

    #[inline(always)]
    fn read_row(&self, row: u32, at: u32) -> Option<Word> {
        let held = self.rows.get(row)?;
        if held.length <= at {
            return None;
        }
        Some(read_at(&self.words, held.place, at))
    }

    #[inline(always)]
    fn write_row(&mut self, row: u32, at: u32, word: Word) -> Result<(), NoSuchPlace> {
        let Some(held) = self.rows.get(row) else {
            return Err(NoSuchPlace);
        };
        if held.length <= at {
            return Err(NoSuchPlace);
        }
        write_at(&mut self.words, held.place, at, word);
        Ok(())
    }

    // Its span is taken away, and nothing is moved.
    fn close_row(&mut self, row: u32) -> Result<(), NoSuchPlace>
        ensures found { is_ok result ≡ is_some (row_at (rows_of self.old) row) }
        ensures rows { rows_of self.new ≡ (if is_ok result then closed_at (rows_of self.old) row else rows_of self.old) }
        ensures stacks { self.new.stacks ≡ self.old.stacks }
        ensures spans { self.new.memory.spans ≡ (if is_ok result then closed (place_of_row (at_number self.old.rows row)) self.old.memory.spans else self.old.memory.spans) }
        ensures words { self.new.memory.words ≡ self.old.memory.words }
    {
        let Some(held) = self.rows.close(row) else {
            return Err(NoSuchPlace);
        };
        self.spans.close(held.place);
        Ok(())
    }

    fn counted(&self) -> u32 {
        self.rows.counted()
    }
}
