//! The store of the machine: stacks of words, and rows of words for arrays.
//!
//! `Core` is what the rest of the machine sees of a store, as lists by number; it is the bound of every part
//! that reads or writes words, so that each is proved once for every store. `ListCore` is a store that keeps
//! each stack and each row in a list of its own.
#![tactic(auto)]

ghost use Rattle.std.specs.Prelude.{◌≡◌, ℕ, ◌+◌, ◌-◌, ◌<◌, ◌≤◌, Bool, true, false, List, [], ◌∷◌, ◌++◌, length, reverse, take, Option, Some, None, slice_get, is_some, IfSome, is_ok, IfOk, IfErr, OnOk, OnErr, option_map, if◌then◌else◌, IsSome};
ghost use Rattle.b67_store.specs.Laws.{IsByNumber, CountsOpenRows};
ghost use Rattle.b67_word.specs.Word.{Word};
ghost use Rattle.b67_store.specs.declared.TheConstants.{MOST_STACK_WORDS, MOST_COUNTED_WORDS, MOST_ROWS};
ghost use Rattle.b67_store.specs.Store.{Row, Stacks, Rows, stack_at, words_of, word_at, with_stack, with_word, with_push, with_cut, opened_at, closed_at, least_free, stack_limit, PushFails, OpenFails, row_at, row_words, with_row_word, zero_row, counted_words, count_limit, row_limit, exceeds, RowFails};

mod free_numbers;
mod list_core;
mod row;
mod row_table;
mod slots;
mod stack;
mod stack_table;
mod words;

use b67_word::{Place, Word};
pub use free_numbers::FreeNumbers;
pub use list_core::ListCore;
pub use slots::open_at;
pub use stack_table::StackTable;
use std::alloc::AllocError;
pub use words::Words;

/// The most words of a stack, by this project's profile.
pub const MOST_STACK_WORDS: usize = 65_536;

/// The most words of all rows that count as live elements of arrays, by this project's profile.
pub const MOST_COUNTED_WORDS: u32 = b67_limits::MOST_ELEMENTS;

/// The most rows; their numbers are below this one, by this project's profile.
pub const MOST_ROWS: usize = 4_194_304;

/// There is no such stack, row or place.
#[derive(Clone, Copy)]
pub struct NoSuchPlace;

/// Why a word was not pushed.
#[derive(Clone, Copy)]
pub enum PushFault {
    /// The stack is not open.
    NoSuchPlace,
    /// The stack has [`MOST_STACK_WORDS`].
    StackLimit,
}

/// Why a stack was not opened.
#[derive(Clone, Copy)]
pub enum OpenFault {
    /// A stack of this number is open.
    InUse,
    /// There is no memory for its words.
    NoMemory,
}

/// Why a row was not opened.
#[derive(Clone, Copy)]
pub enum RowFault {
    /// The counted words and the request exceed [`MOST_COUNTED_WORDS`].
    CoreFull,
    /// There is no memory for its words, or all of [`MOST_ROWS`] numbers are in use.
    NoMemory,
}

/// A store of stacks and rows, seen as lists by number.
///
/// A number of the lists has none where no stack, or no row, of that number is open. Each call leaves every
/// other stack and every other row as it is, and a call that answers None or an error leaves all as it is.
pub trait Core: Drop {
    ghost use Rattle.std.specs.Borrow.{sem, Lends, Array};
    ghost use Rattle.b67_word.specs.Word.{Word};
    ghost use Rattle.b67_word.specs.contracts.Word.{the_row as word_row};
    ghost use Rattle.b67_store.specs.Store.{Stacks, Rows, IsRoom};

    ghost stacks: { Self → Stacks };

    ghost rows: { Self → Rows };

    // What the store is after a loan of a stack's room, from the words as they were lent and as they were left.
    ghost lent: { Self → ℕ → List Word → List Word → Self };

    /// The word at a place. None comes exactly where the stack is not open or has no such word.
    fn read(&self, at: Place) -> Option<Word>
        ensures { result ≡ word_at (stacks self.now) at };

    /// Puts a word in place of the one at a place. An error comes exactly where there is no word.
    fn write(&mut self, at: Place, word: Word) -> Result<(), NoSuchPlace>
        ensures found { is_ok result ≡ is_some (word_at (stacks self.old) at) }
        ensures stacks { stacks self.new ≡ (if is_ok result then with_word (stacks self.old) at word else stacks self.old) }
        ensures rows { rows self.new ≡ rows self.old };

    /// The number of words of a stack, at most [`MOST_STACK_WORDS`]. None comes exactly where the stack is not open.
    fn length(&self, stack: u16) -> Option<u32>
        ensures value { result ≡ option_map length (stack_at (stacks self.now) stack) }
        ensures bound { IfSome result (λ n. n ≤ stack_limit) };

    /// Adds a word on top of a stack, and takes no memory. StackLimit comes exactly where the stack has
    /// [`MOST_STACK_WORDS`], NoSuchPlace exactly where it is not open.
    fn push(&mut self, stack: u16, word: Word) -> Result<(), PushFault>
        ensures room { OnOk result (IsSome (stack_at (stacks self.old) stack) × (length (words_of (stacks self.old) stack) < stack_limit)) }
        ensures fault { IfErr result (PushFails (stacks self.old) stack) }
        ensures stacks { stacks self.new ≡ (if is_ok result then with_push (stacks self.old) stack word else stacks self.old) }
        ensures rows { rows self.new ≡ rows self.old };

    /// Takes the word on top of a stack off it. None comes exactly where the stack is not open or empty.
    fn pop(&mut self, stack: u16) -> Option<Word>
        ensures value { result ≡ slice_get (words_of (stacks self.old) stack) (length (words_of (stacks self.old) stack) - 1) }
        ensures stacks { stacks self.new ≡ (if is_some result then with_cut (stacks self.old) stack (length (words_of (stacks self.old) stack) - 1) else stacks self.old) }
        ensures rows { rows self.new ≡ rows self.old };

    /// Leaves the lowest words of a stack, so many of them; one that has fewer words stays as it is. An error
    /// comes exactly where the stack is not open.
    fn cut(&mut self, stack: u16, length: u32) -> Result<(), NoSuchPlace>
        ensures found { is_ok result ≡ is_some (stack_at (stacks self.old) stack) }
        ensures stacks { stacks self.new ≡ (if is_ok result then with_cut (stacks self.old) stack length else stacks self.old) }
        ensures rows { rows self.new ≡ rows self.old };

    /// Lends words that a stack has room for, at least so many and at most [`MOST_STACK_WORDS`]: its own, the bottom first, and
    /// above them whatever stands there. After the loan all of them are the stack's, until it is cut. Takes no memory.
    fn room(&mut self, stack: u16, least: u32) -> &mut [Word]
        requires open { IsSome (stack_at (stacks self.old) stack) }
        requires least { least ≤ stack_limit }
        ensures words { IsRoom (words_of (stacks self.old) stack) least result.now }
        ensures stacks { (w : List Word) → length w ≡ length result.now → stacks (lent self.old stack result.now w) ≡ with_stack (stacks self.old) stack w }
        ensures rows { (w : List Word) → length w ≡ length result.now → rows (lent self.old stack result.now w) ≡ rows self.old }
        ensures* writes_back { sem 𝓛 (Lends Self.row (Array word_row 0) self.entry result (lent self.old stack result.now)) };

    /// Opens a stack without words, and takes the memory for [`MOST_STACK_WORDS`]. InUse comes exactly where
    /// it is open.
    fn open_stack(&mut self, stack: u16) -> Result<(), OpenFault>
        ensures free { OnOk result (stack_at (stacks self.old) stack ≡ None) }
        ensures fault { IfErr result (OpenFails (stacks self.old) stack) }
        ensures stacks { stacks self.new ≡ (if is_ok result then opened_at (stacks self.old) stack [] else stacks self.old) }
        ensures rows { rows self.new ≡ rows self.old };

    /// Closes a stack with all its words. An error comes exactly where it is not open.
    fn close_stack(&mut self, stack: u16) -> Result<(), NoSuchPlace>
        ensures found { is_ok result ≡ is_some (stack_at (stacks self.old) stack) }
        ensures stacks { stacks self.new ≡ (if is_ok result then closed_at (stacks self.old) stack else stacks self.old) }
        ensures rows { rows self.new ≡ rows self.old };

    /// Opens a row of operands 0, of 1 to [`MOST_COUNTED_WORDS`], and gives its number: the least that is free,
    /// below [`MOST_ROWS`], so that it fits a descriptor. The words of a counted row count. CoreFull comes
    /// exactly where the counted words and a counted request exceed [`MOST_COUNTED_WORDS`]. Where no number is
    /// free, or no memory, it is NoMemory.
    fn open_row(&mut self, length: u32, counted: bool) -> Result<u32, RowFault>
        requires some { 1 ≤ length }
        requires most { length ≤ count_limit }
        ensures number { IfOk result (λ row. (row ≡ least_free (rows self.old)) × (row < row_limit)) }
        ensures room { OnOk result (exceeds (rows self.old) length counted ≡ false) }
        ensures fault { IfErr result (RowFails (rows self.old) length counted) }
        ensures rows { IfOk result (λ row. rows self.new ≡ opened_at (rows self.old) row (zero_row length counted)) }
        ensures unchanged { OnErr result (rows self.new ≡ rows self.old) }
        ensures stacks { stacks self.new ≡ stacks self.old };

    /// Tests that a row is open.
    fn has_row(&self, row: u32) -> bool
        ensures { result ≡ is_some (row_at (rows self.now) row) };

    /// The word at a place of a row. None comes exactly where the row is not open or has no such word.
    fn read_row(&self, row: u32, at: u32) -> Option<Word>
        ensures { result ≡ slice_get (row_words (rows self.now) row) at };

    /// Puts a word in place of the one at a place of a row. An error comes exactly where there is no word.
    fn write_row(&mut self, row: u32, at: u32, word: Word) -> Result<(), NoSuchPlace>
        ensures found { is_ok result ≡ is_some (slice_get (row_words (rows self.old) row) at) }
        ensures rows { rows self.new ≡ (if is_ok result then with_row_word (rows self.old) row at word else rows self.old) }
        ensures stacks { stacks self.new ≡ stacks self.old };

    /// Closes a row, and takes no memory; its number is free, and its words count no more. An error comes
    /// exactly where it is not open.
    fn close_row(&mut self, row: u32) -> Result<(), NoSuchPlace>
        ensures found { is_ok result ≡ is_some (row_at (rows self.old) row) }
        ensures rows { rows self.new ≡ (if is_ok result then closed_at (rows self.old) row else rows self.old) }
        ensures stacks { stacks self.new ≡ stacks self.old };

    /// The number of words in all counted rows, at most [`MOST_COUNTED_WORDS`]. No row has a number of [`MOST_ROWS`] or
    /// above.
    fn counted(&self) -> u32
        ensures value { result ≡ counted_words (rows self.now) }
        ensures bound { result ≤ count_limit }
        ensures few { length (rows self.now) ≤ row_limit };
}

impl From<AllocError> for OpenFault {
    ghost use Rattle.std.specs.Prelude.{◌≡◌};
    ghost use Rattle.b67_store.specs.declared.OpenFault.TheVariants.{NoMemory};

    ghost from_gives = { λ _ fault. fault ≡ NoMemory };

    fn from(_: AllocError) -> OpenFault {
        OpenFault::NoMemory
    }
}

impl From<AllocError> for RowFault {
    ghost use Rattle.std.specs.Prelude.{◌≡◌};
    ghost use Rattle.b67_store.specs.declared.RowFault.TheVariants.{NoMemory};

    ghost from_gives = { λ _ fault. fault ≡ NoMemory };

    fn from(_: AllocError) -> RowFault {
        RowFault::NoMemory
    }
}

/// Law: opening, changing or closing at a number leaves every other number as it is. The least free number is
/// free, and every number below it is open.
pub fn numbers_stand_alone()
    ensures stacks { IsByNumber (List Word) }
    ensures rows { IsByNumber Row }
{}

/// Law: the words of a counted row count from its opening to its closing, whatever is written into it.
pub fn open_rows_are_counted()
    ensures { CountsOpenRows }
{}

/// Law: the numbers of this crate, which stores are defined with: the most words of a stack and of all counted rows, and the most rows, by
/// this project's profile, as docs/MACHINE.md has them.
pub fn numbers_are_told()
    ensures stack { MOST_STACK_WORDS ≡ 65536 }
    ensures counted { MOST_COUNTED_WORDS ≡ 1048576 }
    ensures rows { MOST_ROWS ≡ 4194304 }
{}
