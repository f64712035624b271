// The rows by their numbers.
ghost use Rattle.std.specs.Prelude.{◌≡◌, ℕ, ◌+◌, ◌-◌, ◌<◌, ◌≤◌, Bool, true, false, List, [], ◌∷◌, ◌++◌, length, Option, Some, None, slice_get, slice_set, is_some, IfSome, is_ok, IfOk, IfErr, OnOk, OnErr, if◌then◌else◌};
ghost use Rattle.std.specs.Vec.{vec_len};
ghost use Rattle.b67_store.specs.Store.{row_at, row_words, with_row_word, opened_at, closed_at, least_free, zero_row, counted_words, count_limit, row_limit, live_words, exceeds, RowFails};

use crate::free_numbers::FreeNumbers;
use crate::row::{HeldRow, write_row_word};
use crate::slots::open_at;
use crate::{MOST_COUNTED_WORDS, MOST_ROWS, NoSuchPlace, RowFault};
use b67_word::Word;
use std::alloc::{AllocError, Global};
use std::marker::Model;

#[derive(Drop)]
pub struct RowTable {
    rows: Vec<Option<HeldRow>>,
    free: FreeNumbers,
    counted: u32,
}

impl Model for RowTable {
    ghost use Rattle.b67_store.specs.Store.{Rows};
    ghost use Rattle.b67_store.specs.Table.{IsTable};

    ghost Value = { Rows };

    ghost view = { λ t. t.rows.items };

    ghost invariant = { λ t. IsTable t.rows.items t.free t.counted };
}

impl RowTable {
    #[tactic(auto, using(crate::proofs::Tables::empty_table))]
    pub fn new(alloc: Global) -> RowTable
        ensures { result ≡ [] }
    {
        RowTable {
            rows: Vec::new(alloc),
            free: FreeNumbers::new(alloc),
            counted: 0,
        }
    }

    pub fn read(&self, row: u32, at: u32) -> Option<Word>
        ensures { result ≡ slice_get (row_words self.now row) at }
    {
        open_at(&self.rows, row as usize)?.get(at)
    }

    pub fn has(&self, row: u32) -> bool
        ensures { result ≡ is_some (row_at self.now row) }
    {
        open_at(&self.rows, row as usize).is_some()
    }

    pub fn counted(&self) -> u32
        ensures value { result ≡ counted_words self.now }
        ensures bound { result ≤ count_limit }
        ensures few { length self.now ≤ row_limit }
    {
        self.counted
    }

    #[tactic(auto, using(crate::proofs::Lists::slots))]
    pub fn write(&mut self, row: u32, at: u32, word: Word) -> Result<(), NoSuchPlace>
        ensures found { is_ok result ≡ is_some (slice_get (row_words self.old row) at) }
        ensures rows { self.new ≡ (if is_ok result then with_row_word self.old row at word else self.old) }
    {
        let Some(slot) = self.rows.get_mut(row as usize) else {
            return Err(NoSuchPlace);
        };
        write_row_word(slot, at, word)
    }

    #[tactic(auto, using(crate::proofs::Lists::slots))]
    pub fn close(&mut self, row: u32) -> Result<(), NoSuchPlace>
        ensures found { is_ok result ≡ is_some (row_at self.old row) }
        ensures rows { self.new ≡ (if is_ok result then closed_at self.old row else self.old) }
    {
        let Some(slot) = self.rows.get_mut(row as usize) else {
            return Err(NoSuchPlace);
        };
        let Some(closed) = slot.take() else {
            return Err(NoSuchPlace);
        };
        self.counted -= closed.live();
        self.free.put(row);
        Ok(())
    }

    // Whether the counted words and a counted request exceed the limit.
    fn exceeds(&self, length: u32, counted: bool) -> bool
        requires { length ≤ count_limit }
        ensures value { result ≡ exceeds self.now length counted }
        ensures few { counted_words self.now ≤ count_limit }
    {
        counted && MOST_COUNTED_WORDS < self.counted + length
    }

    #[tactic(auto, using(crate::proofs::Tables::requests))]
    pub fn open(&mut self, alloc: Global, length: u32, counted: bool) -> Result<u32, RowFault>
        requires { length ≤ count_limit }
        ensures number { IfOk result (λ row. (row ≡ least_free self.old) × (row < row_limit)) }
        ensures room { OnOk result (exceeds self.old length counted ≡ false) }
        ensures fault { IfErr result (RowFails self.old length counted) }
        ensures rows { IfOk result (λ row. self.new ≡ opened_at self.old row (zero_row length counted)) }
        ensures unchanged { OnErr result (self.new ≡ self.old) }
    {
        if self.exceeds(length, counted) {
            return Err(RowFault::CoreFull);
        }
        let row = HeldRow::zeros(alloc, length, counted)?;
        let number = self.place(row)?;
        Ok(number)
    }

    // Opens a row at the least number that is free.
    #[tactic(auto, using(crate::proofs::Tables::placing))]
    fn place(&mut self, row: HeldRow) -> Result<u32, AllocError>
        requires { counted_words self.old + live_words (Some row) ≤ count_limit }
        ensures number { IfOk result (λ n. (n ≡ least_free self.old) × (n < row_limit)) }
        ensures rows { IfOk result (λ n. self.new ≡ opened_at self.old n row) }
        ensures unchanged { OnErr result (self.new ≡ self.old) }
    {
        let more = row.live();
        if let Some(number) = self.free.take_least() {
            fill(&mut self.rows, number, row);
            self.counted += more;
            return Ok(number);
        }
        let number = self.rows.len();
        if number == MOST_ROWS {
            return Err(AllocError);
        }
        self.free.reserve(number + 1)?;
        append(&mut self.rows, row)?;
        self.counted += more;
        Ok(number as u32)
    }
}

// Puts a row at a number that the table reaches.
fn fill(rows: &mut Vec<Option<HeldRow>>, number: u32, row: HeldRow)
    requires { number < vec_len rows.old }
    ensures { rows.new.items ≡ slice_set rows.old.items number (Some row) }
{
    rows[number as usize] = Some(row);
}

// Appends a row. Nothing is changed where there is no memory.
fn append(rows: &mut Vec<Option<HeldRow>>, row: HeldRow) -> Result<(), AllocError>
    ensures appended { OnOk result (rows.new.items ≡ rows.old.items ++ Some row ∷ []) }
    ensures unchanged { OnErr result (rows.new.items ≡ rows.old.items) }
{
    rows.reserve(1)?;
    rows.push_reserved(Some(row));
    Ok(())
}
