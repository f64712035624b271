// A flat store that is begun again, and compared with another one.
ghost use Rattle.std.specs.Prelude.{◌≡◌, ℕ, ◌+◌, ◌-◌, ◌≤◌, None, true, [], length, take, option_copied};
ghost use Rattle.b67_store.specs.Store.{at_number};
ghost use Rattle.b67_flat.specs.Flat.{words_at, rows_of};

use crate::FlatCore;
use b67_again::{Again, mix};
use b67_store::Core;
use b67_word::Word;

// Tests that two words are the same.
#[inline(always)]
fn is_same(ours: Word, theirs: Word) -> bool
    ensures { result ≡ true → ours ≡ theirs }
{
    ours == theirs
}

// Tests that two lists have the same words.
fn same_words(ours: &[Word], theirs: &[Word]) -> bool
    ensures { result ≡ true → ours.now ≡ theirs.now }
{
    if ours.len() != theirs.len() {
        return false;
    }
    'words: for index in 0..ours.len() {
        if !is_same(ours[index], theirs[index]) {
            return false;
        }
    }
    true
}

// A number made of another one and of words.
fn mix_words(hash: u64, words: &[Word]) -> u64 {
    let mut mixed = mix(hash, words.len() as u64);
    'words: for index in 0..words.len() {
        let word = words[index];
        mixed = mix(mixed, (u64::from(word.tag()) << 48) | word.bits());
    }
    mixed
}

impl FlatCore {
    // So many words of the memory from a place on.
    fn words_from(&self, place: u32, count: u32) -> &[Word]
        requires { place + count ≤ length self.now.memory.words }
        ensures { result.now ≡ words_at self.now.memory.words place count }
    {
        let first = place as usize;
        &self.words.as_slice()[first..first + count as usize]
    }

    // How many places for stacks there are.
    fn stack_places(&self) -> usize
        ensures { result ≡ length self.now.stacks }
    {
        self.stacks.places()
    }

    // How many places for rows there are.
    fn row_places(&self) -> u32
        ensures { result ≡ length self.now.rows }
    {
        self.rows.len()
    }

    // The words of a stack that is open.
    fn stack_words(&self, number: usize) -> Option<&[Word]>
        ensures { option_copied result ≡ at_number self.now.stacks number }
    {
        self.stacks.words(number)
    }

    // Tests that the same stack is open at a number, or none.
    fn same_stack(&self, other: &FlatCore, number: usize) -> bool
        ensures { result ≡ true → at_number self.now.stacks number ≡ at_number other.now.stacks number }
    {
        let Some(ours) = self.stack_words(number) else {
            return other.stack_words(number).is_none();
        };
        let Some(theirs) = other.stack_words(number) else {
            return false;
        };
        same_words(ours, theirs)
    }

    // Tests that the same stacks are open.
    fn same_stacks(&self, other: &FlatCore) -> bool
        ensures { result ≡ true → self.now.stacks ≡ other.now.stacks }
    {
        let places = self.stack_places();
        if places != other.stack_places() {
            return false;
        }
        'stacks: for number in 0..places {
            if !self.same_stack(other, number) {
                return false;
            }
        }
        true
    }

    // Tests that the same row is open at a number, or none.
    fn same_row(&self, other: &FlatCore, number: u32) -> bool
        ensures { result ≡ true → at_number (rows_of self.now) number ≡ at_number (rows_of other.now) number }
    {
        let Some(ours) = self.rows.get(number) else {
            return other.rows.get(number).is_none();
        };
        let Some(theirs) = other.rows.get(number) else {
            return false;
        };
        ours.counted == theirs.counted
            && same_words(
                self.words_from(ours.place, ours.length),
                other.words_from(theirs.place, theirs.length),
            )
    }

    // Tests that the same rows are open.
    fn same_rows(&self, other: &FlatCore) -> bool
        ensures { result ≡ true → rows_of self.now ≡ rows_of other.now }
    {
        let places = self.row_places();
        if places != other.row_places() {
            return false;
        }
        'rows: for number in 0..places {
            if !self.same_row(other, number) {
                return false;
            }
        }
        true
    }

    // A number made of another one and of a row, where one is open at a number.
    fn mixed_row(&self, hash: u64, number: u32) -> u64 {
        match self.rows.get(number) {
            Some(held) => mix_words(hash, self.words_from(held.place, held.length)),
            None => hash,
        }
    }

    // Leaves no places for rows, of which none is open.
    fn forget_rows(&mut self)
        requires { (k : ℕ) → at_number self.old.rows k ≡ None }
        ensures { self.new ≡ record self.old { rows = [] } }
    {
        self.rows.clear();
    }

    // Closes all rows, the last one first, so that no span is moved, and leaves no places for them.
    fn clear_rows(&mut self)
        ensures stacks { self.new.stacks ≡ self.old.stacks }
        ensures rows { rows_of self.new ≡ [] }
    {
        let mut left = self.row_places();
        'rows: while 0 < left {
            left -= 1;
            let _ = self.close_row(left);
        }
        self.forget_rows();
    }

    // Closes the last stack, where it is open, and leaves no place for it.
    fn forget_stack(&mut self)
        ensures stacks { self.new.stacks ≡ take (length self.old.stacks - 1) self.old.stacks }
        ensures rows { rows_of self.new ≡ rows_of self.old }
    {
        self.stacks.forget_last();
    }
}

impl Again for FlatCore {
    fn clear_from(&mut self, stack: u16) {
        self.clear_rows();
        'stacks: while usize::from(stack) < self.stack_places() {
            self.forget_stack();
        }
    }

    fn same(&self, other: &FlatCore) -> bool {
        self.same_stacks(other) && self.same_rows(other)
    }

    // Stack 0 is left out: a machine's never changes.
    fn mixed(&self, hash: u64) -> u64 {
        let mut mixed = hash;
        'stacks: for number in 1..self.stack_places() {
            if let Some(words) = self.stack_words(number) {
                mixed = mix_words(mixed, words);
            }
        }
        'rows: for number in 0..self.row_places() {
            mixed = self.mixed_row(mixed, number);
        }
        mixed
    }
}
