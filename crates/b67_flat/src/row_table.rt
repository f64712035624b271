// Where the rows have their words, by their numbers.
ghost use Rattle.std.specs.Prelude.{◌≡◌, ℕ, ◌+◌, ◌-◌, ◌<◌, ◌≤◌, ◌^◌, Bool, false, List, [], ◌++◌, length, replicate, map, Option, Some, None, is_some, IfSome, OnSome, is_ok, IfOk, OnOk, OnErr, option_map, if◌then◌else◌};
ghost use Rattle.b67_store.specs.Store.{at_number, opened_at, closed_at, least_free, counted_words, count_limit, row_limit, exceeds};
ghost use Rattle.b67_flat.specs.Flat.{bare_rows, live_in};

use b67_store::{FreeNumbers, MOST_COUNTED_WORDS, MOST_ROWS, open_at};
use std::alloc::{AllocError, Global};
use std::marker::Model;

// The span of a row: where it begins, and how many words it has; and whether they count.
#[derive(Clone, Copy)]
pub struct HeldRow {
    pub place: u32,
    pub length: u32,
    pub counted: bool,
}

impl HeldRow {
    // How many of its words count.
    fn live(&self) -> u32
        ensures { result ≡ live_in (Some self.now) }
    {
        if self.counted { self.length } else { 0 }
    }
}

// Takes all numbers out.
fn take_all(free: &mut FreeNumbers)
    ensures { free.new.numbers ≡ [] }
{
    'taking: while let Some(_) = free.take_least() {}
}

// Opens at a number that is not open, with none between. Nothing is changed where there is no memory.
#[tactic(auto, using(b67_store::proofs::Lists::openings))]
fn hold_at(rows: &mut Vec<Option<HeldRow>>, number: usize, held: HeldRow) -> Result<(), AllocError>
    requires { number < 2 ^ 32 }
    ensures { rows.new.items ≡ (if is_ok result then opened_at rows.old.items number held else rows.old.items) }
{
    if number < rows.len() {
        rows[number] = Some(held);
        return Ok(());
    }
    rows.reserve(number + 1 - rows.len())?;
    'filling: while rows.len() < number {
        rows.push_reserved(None);
    }
    rows.push_reserved(Some(held));
    Ok(())
}

#[derive(Drop)]
pub struct RowTable {
    rows: Vec<Option<HeldRow>>,
    free: FreeNumbers,
    counted: u32,
}

impl Model for RowTable {
    ghost use Rattle.std.specs.Prelude.{List, Option};
    ghost use Rattle.b67_flat.specs.declared.row_table.HeldRow.{HeldRow as Seen};
    ghost use Rattle.b67_flat.specs.Flat.{bare_rows};
    ghost use Rattle.b67_store.specs.Table.{IsTable};

    ghost Value = { List (Option Seen) };

    ghost view = { λ t. t.rows.items };

    ghost invariant = { λ t. IsTable (bare_rows t.rows.items) t.free t.counted };
}

impl RowTable {
    pub fn new(alloc: Global) -> RowTable
        ensures { result ≡ [] }
    {
        RowTable {
            rows: Vec::new(alloc),
            free: FreeNumbers::new(alloc),
            counted: 0,
        }
    }

    // How many numbers there are, of open rows and of closed ones.
    pub fn len(&self) -> u32
        ensures { result ≡ length self.now }
    {
        self.rows.len() as u32
    }

    // No number is in use or was. It keeps its memory.
    pub fn clear(&mut self)
        ensures { self.new ≡ [] }
    {
        self.rows.clear();
        take_all(&mut self.free);
        self.counted = 0;
    }

    #[inline(always)]
    pub fn get(&self, row: u32) -> Option<HeldRow>
        ensures { result ≡ at_number self.now row }
    {
        Some(*open_at(&self.rows, row as usize)?)
    }

    pub fn counted(&self) -> u32
        ensures value { result ≡ counted_words (bare_rows self.now) }
        ensures bound { result ≤ count_limit }
        ensures few { length self.now ≤ row_limit }
    {
        self.counted
    }

    // Whether the counted words and a counted request exceed the limit.
    pub fn exceeds(&self, length: u32, counted: bool) -> bool
        requires { length ≤ count_limit }
        ensures value { result ≡ exceeds (bare_rows self.now) length counted }
        ensures few { counted_words (bare_rows self.now) ≤ count_limit }
    {
        counted && MOST_COUNTED_WORDS < self.counted + length
    }

    // The least number that is free. None comes where all are in use.
    pub fn next(&self) -> Option<u32>
        ensures { IfSome result (λ row. (row ≡ least_free self.now) × (row < row_limit)) }
    {
        if let Some(least) = self.free.least() {
            return Some(least);
        }
        let number = self.rows.len();
        if number == MOST_ROWS {
            return None;
        }
        Some(number as u32)
    }

    // Opens a row at the least number that is free. Nothing is changed where there is no memory.
    pub fn open(&mut self, row: HeldRow) -> Result<u32, AllocError>
        requires { counted_words (bare_rows self.old) + live_in (Some row) ≤ count_limit }
        ensures number { IfOk result (λ n. (n ≡ least_free self.old) × (n < row_limit)) }
        ensures rows { IfOk result (λ n. self.new ≡ opened_at self.old n row) }
        ensures unchanged { OnErr result (self.new ≡ self.old) }
    {
        let more = row.live();
        if let Some(number) = self.free.take_least() {
            self.rows[number as usize] = Some(row);
            self.counted += more;
            return Ok(number);
        }
        let number = self.rows.len();
        if number == MOST_ROWS {
            return Err(AllocError);
        }
        self.free.reserve(number + 1)?;
        hold_at(&mut self.rows, number, row)?;
        self.counted += more;
        Ok(number as u32)
    }

    // Closes a row, and answers what it had.
    pub fn close(&mut self, row: u32) -> Option<HeldRow>
        ensures value { result ≡ at_number self.old row }
        ensures rows { self.new ≡ (if is_some result then closed_at self.old row else self.old) }
    {
        let closed = self.get(row)?;
        self.rows[row as usize] = None;
        self.counted -= closed.live();
        self.free.put(row);
        Some(closed)
    }
}
