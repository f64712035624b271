// The stacks by their numbers.
ghost use Rattle.std.specs.Prelude.{◌^◌, ◌≡◌, ℕ, ◌+◌, ◌-◌, ◌<◌, ◌≤◌, Bool, true, false, List, [], ◌∷◌, ◌++◌, length, replicate, reverse, take, Option, Some, None, slice_get, option_copied, is_some, IsSome, IfSome, is_ok, IfOk, IfErr, OnOk, OnErr, option_map, if◌then◌else◌};
ghost use Rattle.std.specs.Vec.{vec_len, vec_capacity};
ghost use Rattle.b67_store.specs.Store.{stack_at, words_of, word_at, with_stack, with_word, with_push, with_cut, opened_at, closed_at, stack_limit, PushFails, OpenFails};

use crate::slots::open_at;
use crate::stack::{Stack, cut_words, open_room, pop_word, push_word, write_word};
use crate::{NoSuchPlace, OpenFault, PushFault};
use b67_word::{Place, Word};
use std::alloc::{AllocError, Global};
use std::marker::Model;

/// Stacks by their numbers, each with words of its own. Each call does what that of [`crate::Core`] does.
#[derive(Drop)]
pub struct StackTable {
    stacks: Vec<Option<Stack>>,
}

impl Model for StackTable {
    ghost use Rattle.b67_store.specs.Store.{Stacks};

    ghost Value = { Stacks };

    ghost view = { λ t. t.stacks.items };
}

impl StackTable {
    ghost use Rattle.std.specs.Borrow.{sem, Lends, Array};
    ghost use Rattle.b67_store.specs.Store.{IsRoom, left_in};
    ghost use Rattle.b67_store.specs.contracts.stack_table.StackTable.{the_row};
    ghost use Rattle.b67_word.specs.contracts.Word.{the_row as word_row};

    /// No stack is open. It takes no memory yet.
    pub fn new(alloc: Global) -> StackTable
        ensures { result ≡ [] }
    {
        StackTable {
            stacks: Vec::new(alloc),
        }
    }

    /// The word at a place: [`crate::Core::read`].
    #[inline(always)]
    pub fn read(&self, at: Place) -> Option<Word>
        ensures { result ≡ word_at self.now at }
    {
        open_at(&self.stacks, usize::from(at.stack))?.get(at.at)
    }

    /// The number of words of a stack: [`crate::Core::length`].
    #[inline(always)]
    pub fn length(&self, stack: u16) -> Option<u32>
        ensures value { result ≡ option_map length (stack_at self.now stack) }
        ensures bound { IfSome result (λ n. n ≤ stack_limit) }
    {
        Some(open_at(&self.stacks, usize::from(stack))?.len())
    }

    /// Puts a word in place of the one at a place: [`crate::Core::write`].
    #[tactic(auto, using(crate::proofs::Lists::slots))]
    #[inline(always)]
    pub fn write(&mut self, at: Place, word: Word) -> Result<(), NoSuchPlace>
        ensures found { is_ok result ≡ is_some (word_at self.old at) }
        ensures stacks { self.new ≡ (if is_ok result then with_word self.old at word else self.old) }
    {
        let Some(slot) = self.stacks.get_mut(usize::from(at.stack)) else {
            return Err(NoSuchPlace);
        };
        write_word(slot, at.at, word)
    }

    /// Adds a word on top of a stack: [`crate::Core::push`].
    #[tactic(auto, using(crate::proofs::Lists::slots))]
    #[inline(always)]
    pub fn push(&mut self, stack: u16, word: Word) -> Result<(), PushFault>
        ensures room { OnOk result (IsSome (stack_at self.old stack) × (length (words_of self.old stack) < stack_limit)) }
        ensures fault { IfErr result (PushFails self.old stack) }
        ensures stacks { self.new ≡ (if is_ok result then with_push self.old stack word else self.old) }
    {
        let Some(slot) = self.stacks.get_mut(usize::from(stack)) else {
            return Err(PushFault::NoSuchPlace);
        };
        push_word(slot, word)
    }

    /// Takes the word on top of a stack off it: [`crate::Core::pop`].
    #[tactic(auto, using(crate::proofs::Lists::slots))]
    #[inline(always)]
    pub fn pop(&mut self, stack: u16) -> Option<Word>
        ensures value { result ≡ slice_get (words_of self.old stack) (length (words_of self.old stack) - 1) }
        ensures stacks { self.new ≡ (if is_some result then with_cut self.old stack (length (words_of self.old stack) - 1) else self.old) }
    {
        let Some(slot) = self.stacks.get_mut(usize::from(stack)) else {
            return None;
        };
        pop_word(slot)
    }

    /// Leaves the lowest words of a stack: [`crate::Core::cut`].
    #[tactic(auto, using(crate::proofs::Lists::slots))]
    #[inline(always)]
    pub fn cut(&mut self, stack: u16, length: u32) -> Result<(), NoSuchPlace>
        ensures found { is_ok result ≡ is_some (stack_at self.old stack) }
        ensures stacks { self.new ≡ (if is_ok result then with_cut self.old stack length else self.old) }
    {
        let Some(slot) = self.stacks.get_mut(usize::from(stack)) else {
            return Err(NoSuchPlace);
        };
        cut_words(slot, length)
    }

    /// Lends words that a stack has room for, at least so many: [`crate::Core::room`].
    #[inline(always)]
    pub fn room(&mut self, stack: u16, least: u32) -> &mut [Word]
        requires open { IsSome (stack_at self.old stack) }
        requires least { least ≤ stack_limit }
        ensures words { IsRoom (words_of self.old stack) least result.now }
        ensures* writes_back { sem 𝓛 (Lends the_row (Array word_row 0) self.entry result (λ w. with_stack self.old stack (left_in result.now w))) }
    {
        open_room(&mut self.stacks[usize::from(stack)], least)
    }

    /// How many places for stacks there are: their numbers are below it.
    pub fn places(&self) -> usize
        ensures { result ≡ length self.now }
    {
        self.stacks.len()
    }

    /// All words of a stack, the bottom first. None comes exactly where it is not open.
    pub fn words(&self, stack: usize) -> Option<&[Word]>
        ensures { option_copied result ≡ stack_at self.now stack }
    {
        Some(open_at(&self.stacks, stack)?.words())
    }

    /// Closes the last stack, where it is open, and leaves no place for it.
    pub fn forget_last(&mut self)
        ensures { self.new ≡ take (length self.old - 1) self.old }
    {
        let _ = self.stacks.pop();
    }

    /// Closes a stack: [`crate::Core::close_stack`].
    pub fn close(&mut self, stack: u16) -> Result<(), NoSuchPlace>
        ensures found { is_ok result ≡ is_some (stack_at self.old stack) }
        ensures stacks { self.new ≡ (if is_ok result then closed_at self.old stack else self.old) }
    {
        match self.stacks.get_mut(usize::from(stack)) {
            Some(slot) if slot.is_some() => {
                *slot = None;
                Ok(())
            }
            _ => Err(NoSuchPlace),
        }
    }

    /// Opens a stack without words: [`crate::Core::open_stack`].
    #[tactic(auto, using(crate::proofs::Lists::openings))]
    pub fn open(&mut self, alloc: Global, stack: u16) -> Result<(), OpenFault>
        ensures free { OnOk result (stack_at self.old stack ≡ None) }
        ensures fault { IfErr result (OpenFails self.old stack) }
        ensures stacks { self.new ≡ (if is_ok result then opened_at self.old stack [] else self.old) }
    {
        let number = usize::from(stack);
        if self.length(stack).is_some() {
            return Err(OpenFault::InUse);
        }
        let opened = Stack::open(alloc)?;
        if number < self.stacks.len() {
            self.stacks[number] = Some(opened);
            return Ok(());
        }
        append_at(&mut self.stacks, number, opened)?;
        Ok(())
    }
}

// Appends the stack at its number, with none between. Nothing is changed where there is no memory.
#[tactic(auto, using(crate::proofs::Lists::openings))]
fn append_at(stacks: &mut Vec<Option<Stack>>, number: usize, stack: Stack) -> Result<(), AllocError>
    requires beyond { vec_len stacks.old ≤ number }
    requires small { number < 2 ^ 16 }
    ensures { stacks.new.items ≡ (if is_ok result then opened_at stacks.old.items number stack else stacks.old.items) }
{
    stacks.reserve(number + 1 - stacks.len())?;
    'filling: while stacks.len() < number {
        stacks.push_reserved(None);
    }
    stacks.push_reserved(Some(stack));
    Ok(())
}
