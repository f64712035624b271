// The words of one stack, with room for all that it may have.
ghost use Rattle.std.specs.Prelude.{◌≡◌, ℕ, ◌+◌, ◌-◌, ◌<◌, ◌≤◌, nat_lt, false, List, [], ◌∷◌, ◌++◌, length, reverse, replicate, pos, take, Some, slice_get, slice_set, IsSome, is_some, is_ok, IfOk, IfErr, OnOk, if◌then◌else◌};
ghost use Rattle.std.specs.Vec.{vec_len, vec_capacity};
ghost use Rattle.b67_word.specs.Word.{operand};
ghost use Rattle.std.specs.Borrow.{sem, Lends, Array};
ghost use Rattle.std.specs.contracts.option.Option.{the_row as option_row};
ghost use Rattle.b67_word.specs.contracts.Word.{the_row as word_row};
ghost use Rattle.b67_store.specs.Store.{stack_limit, words_or, SlotFails, IsRoom, left_in};
ghost use Rattle.b67_store.specs.contracts.stack.Stack.{the_row as stack_row};

use crate::words::{fill, put_word};
use crate::{MOST_STACK_WORDS, NoSuchPlace, PushFault};
use b67_word::Word;
use std::alloc::{AllocError, Global};
use std::marker::Model;

// The fewest words that are lent of a stack that has fewer.
const FEWEST_WORDS: usize = 64;

/// The words of a stack. The memory for all that it may have is taken at once, and written only as far as words come to stand
/// in it or are lent.
#[derive(Drop)]
pub struct Stack {
    words: Vec<Word>,
    used: usize,
}

impl Model for Stack {
    ghost use Rattle.std.specs.Prelude.{List, take, ◌≡◌, ◌≤◌};
    ghost use Rattle.std.specs.Vec.{vec_len, vec_capacity};
    ghost use Rattle.b67_word.specs.Word.{Word};
    ghost use Rattle.b67_store.specs.Store.{stack_limit};

    ghost Value = { List Word };

    ghost view = { λ s. take s.used s.words.items };

    ghost invariant = { λ s. (s.used ≤ vec_len s.words) × (vec_len s.words ≤ stack_limit) × (stack_limit ≤ vec_capacity s.words) };
}

impl Stack {
    ghost use Rattle.std.specs.Borrow.{sem, Lends, Array};
    ghost use Rattle.b67_store.specs.Store.{IsRoom, left_in};
    ghost use Rattle.b67_store.specs.contracts.stack.Stack.{the_row};
    ghost use Rattle.b67_word.specs.contracts.Word.{the_row as word_row};

    // An empty stack. No push takes memory.
    pub fn open(alloc: Global) -> Result<Stack, AllocError>
        ensures { IfOk result (λ stack. stack ≡ []) }
    {
        let words = Vec::with_capacity(alloc, MOST_STACK_WORDS)?;
        Ok(Stack { words, used: 0 })
    }

    #[inline(always)]
    pub fn len(&self) -> u32
        ensures value { result ≡ length self.now }
        ensures bound { result ≤ stack_limit }
    {
        self.used as u32
    }

    // All of them, the bottom first.
    pub fn words(&self) -> &[Word]
        ensures { result.now ≡ self.now }
    {
        &self.words.as_slice()[..self.used]
    }

    #[inline(always)]
    pub fn get(&self, at: u16) -> Option<Word>
        ensures { result ≡ slice_get self.now at }
    {
        let at = usize::from(at);
        if at < self.used {
            Some(self.words[at])
        } else {
            None
        }
    }

    // False, and nothing is changed, where the stack has no such word.
    #[inline(always)]
    pub fn set(&mut self, at: u16, word: Word) -> bool
        ensures found { result ≡ nat_lt at (length self.old) }
        ensures words { self.new ≡ slice_set self.old at word }
    {
        let at = usize::from(at);
        if at < self.used {
            self.words[at] = word;
            true
        } else {
            false
        }
    }

    // False, and nothing is changed, where the stack is full. Takes no memory.
    #[inline(always)]
    pub fn push(&mut self, word: Word) -> bool
        ensures room { result ≡ nat_lt (length self.old) stack_limit }
        ensures full { result ≡ false → length self.old ≡ stack_limit }
        ensures words { self.new ≡ (if result then self.old ++ word ∷ [] else self.old) }
    {
        if self.used == MOST_STACK_WORDS {
            return false;
        }
        put_word(&mut self.words, self.used, word);
        self.used += 1;
        true
    }

    #[inline(always)]
    pub fn pop(&mut self) -> Option<Word>
        ensures value { result ≡ slice_get self.old (length self.old - 1) }
        ensures words { self.new ≡ take (length self.old - 1) self.old }
    {
        if self.used == 0 {
            return None;
        }
        self.used -= 1;
        Some(self.words[self.used])
    }

    // Longer than this it is not.
    #[inline(always)]
    pub fn cut(&mut self, length: u32)
        ensures { self.new ≡ take length self.old }
    {
        self.used = self.used.min(length as usize);
    }

    // At least so many words of its room, its own among them. After the loan all of them are its own. Takes no memory.
    #[inline(always)]
    pub fn room(&mut self, least: u32) -> &mut [Word]
        requires { least ≤ stack_limit }
        ensures words { IsRoom self.old least result.now }
        ensures* writes_back { sem 𝓛 (Lends the_row (Array word_row 0) self.entry result (left_in result.now)) }
    {
        reach(&mut self.words, least as usize);
        self.used = self.words.len();
        self.words.as_mut_slice()
    }
}

// Reaches so many words at least. Where fewer were reached so far, it reaches twice as many, so that what is written grows with
// the words that come to be used, and no faster.
#[inline(always)]
fn reach(words: &mut Vec<Word>, least: usize)
    requires least { least ≤ stack_limit }
    requires size { vec_len words.old ≤ stack_limit }
    requires room { stack_limit ≤ vec_capacity words.old }
    ensures words { (more : ℕ) × (words.new.items ≡ words.old.items ++ replicate more (operand (pos 0))) }
    ensures long { least ≤ vec_len words.new }
    ensures size { vec_len words.new ≤ stack_limit }
    ensures room { stack_limit ≤ vec_capacity words.new }
{
    if words.len() < least {
        fill(words, (2 * least).max(FEWEST_WORDS).min(MOST_STACK_WORDS));
    }
}

// The functions below work on a stack that may be open, by its place in the table.

#[inline(always)]
pub fn write_word(slot: &mut Option<Stack>, at: u16, word: Word) -> Result<(), NoSuchPlace>
    ensures found { is_ok result ≡ is_some (slice_get (words_or slot.old) at) }
    ensures stack { slot.new ≡ (if is_ok result then Some (slice_set (words_or slot.old) at word) else slot.old) }
{
    let Some(stack) = slot else {
        return Err(NoSuchPlace);
    };
    if stack.set(at, word) {
        Ok(())
    } else {
        Err(NoSuchPlace)
    }
}

#[inline(always)]
pub fn push_word(slot: &mut Option<Stack>, word: Word) -> Result<(), PushFault>
    ensures room { OnOk result (IsSome slot.old × (length (words_or slot.old) < stack_limit)) }
    ensures fault { IfErr result (SlotFails slot.old) }
    ensures stack { slot.new ≡ (if is_ok result then Some (words_or slot.old ++ word ∷ []) else slot.old) }
{
    let Some(stack) = slot else {
        return Err(PushFault::NoSuchPlace);
    };
    if stack.push(word) {
        Ok(())
    } else {
        Err(PushFault::StackLimit)
    }
}

#[inline(always)]
pub fn pop_word(slot: &mut Option<Stack>) -> Option<Word>
    ensures value { result ≡ slice_get (words_or slot.old) (length (words_or slot.old) - 1) }
    ensures stack { slot.new ≡ (if is_some result then Some (take (length (words_or slot.old) - 1) (words_or slot.old)) else slot.old) }
{
    let Some(stack) = slot else {
        return None;
    };
    stack.pop()
}

#[inline(always)]
pub fn cut_words(slot: &mut Option<Stack>, length: u32) -> Result<(), NoSuchPlace>
    ensures found { is_ok result ≡ is_some slot.old }
    ensures stack { slot.new ≡ (if is_ok result then Some (take length (words_or slot.old)) else slot.old) }
{
    let Some(stack) = slot else {
        return Err(NoSuchPlace);
    };
    stack.cut(length);
    Ok(())
}

#[inline(always)]
pub fn open_room(slot: &mut Option<Stack>, least: u32) -> &mut [Word]
    requires open { IsSome slot.old }
    requires least { least ≤ stack_limit }
    ensures words { IsRoom (words_or slot.old) least result.now }
    ensures* writes_back { sem 𝓛 (Lends (option_row stack_row) (Array word_row 0) slot.entry result (λ w. Some (left_in result.now w))) }
{
    match slot {
        Some(stack) => stack.room(least),
        None => unreachable!(),
    }
}
