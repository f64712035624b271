// The words of one row.
ghost use Rattle.std.specs.Prelude.{◌≡◌, ℕ, ◌+◌, ◌<◌, ◌≤◌, length, Some, slice_get, is_some, is_ok, IfOk, if◌then◌else◌};
ghost use Rattle.b67_store.specs.Store.{count_limit, row_with, row_words_or, zero_row, live_words};

use crate::NoSuchPlace;
use b67_word::{Word, operand};
use std::alloc::{AllocError, Global};
use std::marker::Model;

#[derive(Drop)]
pub struct HeldRow {
    words: Vec<Word>,
    counted: bool,
}

impl Model for HeldRow {
    ghost use Rattle.std.specs.Prelude.{◌≤◌, length};
    ghost use Rattle.std.specs.Vec.{vec_len};
    ghost use Rattle.b67_store.specs.Store.{Row, count_limit};

    ghost Value = { Row };

    ghost view = { λ r. record { words = r.words.items; counted = r.counted } };

    ghost invariant = { λ r. vec_len r.words ≤ count_limit };
}

impl HeldRow {
    // A row of operands 0.
    pub fn zeros(alloc: Global, length: u32, counted: bool) -> Result<HeldRow, AllocError>
        requires { length ≤ count_limit }
        ensures { IfOk result (λ row. row ≡ zero_row length counted) }
    {
        let mut words = Vec::with_capacity(alloc, length as usize)?;
        words.resize(length as usize, operand(0))?;
        Ok(HeldRow { words, counted })
    }

    pub fn get(&self, at: u32) -> Option<Word>
        ensures { result ≡ slice_get self.now.words at }
    {
        self.words.get(at as usize).copied()
    }

    // How many of its words count.
    pub fn live(&self) -> u32
        ensures { result ≡ live_words (Some self.now) }
    {
        if self.counted {
            self.words.len() as u32
        } else {
            0
        }
    }

    // False, and nothing is changed, where the row has no such word.
    fn set(&mut self, at: u32, word: Word) -> bool
        ensures found { result ≡ is_some (slice_get self.old.words at) }
        ensures row { Some self.new ≡ (if result then row_with (Some self.old) at word else Some self.old) }
    {
        match self.words.get_mut(at as usize) {
            Some(place) => {
                *place = word;
                true
            }
            None => false,
        }
    }
}

// Works on a row that may be open, by its place in the table.
pub fn write_row_word(slot: &mut Option<HeldRow>, at: u32, word: Word) -> Result<(), NoSuchPlace>
    ensures found { is_ok result ≡ is_some (slice_get (row_words_or slot.old) at) }
    ensures row { slot.new ≡ (if is_ok result then row_with slot.old at word else slot.old) }
{
    let Some(row) = slot else {
        return Err(NoSuchPlace);
    };
    if row.set(at, word) {
        Ok(())
    } else {
        Err(NoSuchPlace)
    }
}
