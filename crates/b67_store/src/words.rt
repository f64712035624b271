// Words that stand apart from the stacks, with room for all that a stack may have.
ghost use Rattle.std.specs.Prelude.{◌≡◌, ◌+◌, ◌-◌, ◌<◌, ◌≤◌, [], ◌∷◌, ◌++◌, length, take, drop, reverse, replicate, max, pos, IfOk, slice_get};
ghost use Rattle.std.specs.Vec.{vec_len, vec_capacity};
ghost use Rattle.b67_word.specs.Word.{operand};
ghost use Rattle.b67_store.specs.Store.{stack_limit};

use crate::MOST_STACK_WORDS;
use b67_word::{Word, operand};
use std::alloc::{AllocError, Global};
use std::marker::Model;

/// Words, with room for as many as a stack can have. Contracts see the top word first.
///
/// They stand at their places in a stack: the lowest of them at a base, so that what works on a stack's room works
/// on theirs. The memory for all is taken at once, and written only as far as words come to stand in it: all of it when
/// it is lent for the first time.
#[derive(Drop)]
pub struct Words {
    room: Vec<Word>,
    base: usize,
    used: usize,
}

impl Model for Words {
    ghost use Rattle.std.specs.Prelude.{List, reverse, take, drop, ◌≤◌};
    ghost use Rattle.std.specs.Vec.{vec_len, vec_capacity};
    ghost use Rattle.b67_word.specs.Word.{Word};
    ghost use Rattle.b67_store.specs.Store.{stack_limit};

    ghost Value = { List Word };

    ghost view = { λ w. reverse (drop w.base (take w.used w.room.items)) };

    ghost invariant = { λ w. (w.base ≤ w.used) × (w.used ≤ vec_len w.room) × (vec_len w.room ≤ stack_limit) × (stack_limit ≤ vec_capacity w.room) };
}

impl Words {
    ghost use Rattle.std.specs.Borrow.{sem, Lends, Array};
    ghost use Rattle.b67_store.specs.Store.{left_in};
    ghost use Rattle.b67_store.specs.contracts.words.Words.{the_row};
    ghost use Rattle.b67_word.specs.contracts.Word.{the_row as word_row};

    /// No words, with the memory for as many as a stack can have, of which none is written yet.
    pub fn new(alloc: Global) -> Result<Words, AllocError>
        ensures { IfOk result (λ words. words ≡ []) }
    {
        let room = Vec::with_capacity(alloc, MOST_STACK_WORDS)?;
        Ok(Words {
            room,
            base: 0,
            used: 0,
        })
    }

    /// How many words there are.
    #[inline(always)]
    pub fn len(&self) -> u32
        ensures value { result ≡ length self.now }
        ensures bound { result ≤ stack_limit }
    {
        (self.used - self.base) as u32
    }

    /// The word so many below the top one, and the top one itself for 0.
    #[inline(always)]
    pub fn from_top(&self, count: u32) -> Option<Word>
        ensures { result ≡ slice_get self.now count }
    {
        let count = count as usize;
        if count < self.used - self.base {
            Some(self.room[self.used - 1 - count])
        } else {
            None
        }
    }

    /// No words; the next one is to stand at this place. Constant work, but where no word stood so high before.
    pub fn begin(&mut self, base: u32)
        requires { base ≤ stack_limit }
        ensures { self.new ≡ [] }
    {
        fill(&mut self.room, base as usize);
        self.base = base as usize;
        self.used = base as usize;
    }

    /// Puts a word on top, and takes no memory.
    #[inline(always)]
    pub fn push(&mut self, word: Word)
        requires { length self.old < stack_limit }
        ensures { self.new ≡ word ∷ self.old }
    {
        if self.used == MOST_STACK_WORDS {
            move_words(&mut self.room, self.base, self.used, 0);
            self.used -= self.base;
            self.base = 0;
        }
        put_word(&mut self.room, self.used, word);
        self.used += 1;
    }

    /// Takes words off the top, so many of them.
    #[inline(always)]
    pub fn cut(&mut self, count: u32)
        requires { count ≤ length self.old }
        ensures { self.new ≡ drop count self.old }
    {
        self.used -= count as usize;
    }

    /// Lends all their room, with them in it from a base on. After the loan all that stands from the base on are
    /// their own. Constant work where they stand there already, but that the first loan writes all of the room.
    pub fn room(&mut self, base: u32) -> &mut [Word]
        requires { base + length self.old ≤ stack_limit }
        ensures size { length result.now ≡ stack_limit }
        ensures words { reverse (drop base (take (base + length self.old) result.now)) ≡ self.old }
        ensures* writes_back { sem 𝓛 (Lends the_row (Array word_row 0) self.entry result (λ w. reverse (drop base (left_in result.now w)))) }
    {
        let base = base as usize;
        fill(&mut self.room, MOST_STACK_WORDS);
        move_words(&mut self.room, self.base, self.used, base);
        self.base = base;
        self.used = MOST_STACK_WORDS;
        self.room.as_mut_slice()
    }
}

// Moves the words between two places, so that the first of them stands at a third.
fn move_words(room: &mut Vec<Word>, from: usize, end: usize, to: usize)
    requires order { from ≤ end }
    requires within { end ≤ vec_len room.old }
    requires fits { to + (end - from) ≤ vec_len room.old }
    ensures words { drop to (take (to + (end - from)) room.new.items) ≡ drop from (take end room.old.items) }
    ensures size { vec_len room.new ≡ vec_len room.old }
{
    if from != to {
        room.copy_within(from..end, to);
    }
}

// Puts a word in place of the one at a place, or after all that were reached so far.
#[inline(always)]
pub fn put_word(room: &mut Vec<Word>, at: usize, word: Word)
    requires reached { at ≤ vec_len room.old }
    requires room { at < vec_capacity room.old }
    ensures words { take (at + 1) room.new.items ≡ take at room.old.items ++ word ∷ [] }
    ensures size { vec_len room.new ≡ max (vec_len room.old) (at + 1) }
    ensures room { vec_capacity room.new ≡ vec_capacity room.old }
{
    if at < room.len() {
        room[at] = word;
    } else {
        room.push_reserved(word);
    }
}

// Reaches so many words, with operands 0 where none was reached so far. Takes no memory.
pub fn fill(room: &mut Vec<Word>, count: usize)
    requires { count ≤ vec_capacity room.old }
    ensures words { room.new.items ≡ room.old.items ++ replicate (count - vec_len room.old) (operand (pos 0)) }
    ensures size { vec_len room.new ≡ max (vec_len room.old) count }
    ensures room { vec_capacity room.old ≤ vec_capacity room.new }
{
    if room.len() < count {
        room.resize(count, operand(0)).unwrap();
    }
}
