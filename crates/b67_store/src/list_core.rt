// The store that keeps each stack and each row in a list of its own.
ghost use Rattle.std.specs.Prelude.{◌≡◌, []};
ghost use Rattle.b67_store.specs.Store.{Held, with_stack, left_in};

use crate::row_table::RowTable;
use crate::stack_table::StackTable;
use crate::{Core, NoSuchPlace, OpenFault, PushFault, RowFault};
use b67_word::{Place, Word};
use std::alloc::Global;
use std::marker::Model;

/// A store that keeps each stack and each row in a list of its own. Reading, writing, pushing and popping are
/// constant work. To open and to close a row is work that grows with the logarithm of the number of closed
/// rows, beside that of its words.
#[derive(Drop)]
pub struct ListCore {
    alloc: Global,
    stacks: StackTable,
    rows: RowTable,
}

impl Model for ListCore {
    ghost use Rattle.b67_store.specs.Store.{Held};

    ghost Value = { Held };

    ghost view = { λ c. record { stacks = c.stacks; rows = c.rows } };
}

impl ListCore {
    /// A store in which nothing is open. It takes no memory yet.
    pub fn new(alloc: Global) -> ListCore
        ensures stacks { result.stacks ≡ [] }
        ensures rows { result.rows ≡ [] }
    {
        ListCore {
            alloc,
            stacks: StackTable::new(alloc),
            rows: RowTable::new(alloc),
        }
    }
}

impl Core for ListCore {
    ghost stacks = { λ c. c.stacks };

    ghost rows = { λ c. c.rows };

    ghost lent = { λ c n lent left. record c { stacks = with_stack c.stacks n (left_in lent left) } };

    fn read(&self, at: Place) -> Option<Word> {
        self.stacks.read(at)
    }

    fn write(&mut self, at: Place, word: Word) -> Result<(), NoSuchPlace> {
        self.stacks.write(at, word)
    }

    fn length(&self, stack: u16) -> Option<u32> {
        self.stacks.length(stack)
    }

    fn push(&mut self, stack: u16, word: Word) -> Result<(), PushFault> {
        self.stacks.push(stack, word)
    }

    fn pop(&mut self, stack: u16) -> Option<Word> {
        self.stacks.pop(stack)
    }

    fn cut(&mut self, stack: u16, length: u32) -> Result<(), NoSuchPlace> {
        self.stacks.cut(stack, length)
    }

    fn room(&mut self, stack: u16, least: u32) -> &mut [Word] {
        self.stacks.room(stack, least)
    }

    fn open_stack(&mut self, stack: u16) -> Result<(), OpenFault> {
        self.stacks.open(self.alloc, stack)
    }

    fn close_stack(&mut self, stack: u16) -> Result<(), NoSuchPlace> {
        self.stacks.close(stack)
    }

    fn open_row(&mut self, length: u32, counted: bool) -> Result<u32, RowFault> {
        self.rows.open(self.alloc, length, counted)
    }

    fn has_row(&self, row: u32) -> bool {
        self.rows.has(row)
    }

    fn read_row(&self, row: u32, at: u32) -> Option<Word> {
        self.rows.read(row, at)
    }

    fn write_row(&mut self, row: u32, at: u32, word: Word) -> Result<(), NoSuchPlace> {
        self.rows.write(row, at, word)
    }

    fn close_row(&mut self, row: u32) -> Result<(), NoSuchPlace> {
        self.rows.close(row)
    }

    fn counted(&self) -> u32 {
        self.rows.counted()
    }
}
