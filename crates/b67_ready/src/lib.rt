//! Who waits for a processor: a queue under a rule.
//!
//! Processes are put at the rear. A take removes the one at the place that the rule picks, and the others close up.
#![tactic(auto)]

ghost use Rattle.std.specs.Prelude.{◌≡◌, ℕ, ◌+◌, ◌<◌, ◌≤◌, ◌^◌, [], ◌∷◌, ◌++◌, IfOk, length, Option, Some, List, slice_get, remove};
ghost use Rattle.std.specs.VecDeque.{deque_capacity};
ghost use Rattle.b67_ready.specs.Ready.{ReadyPuts, ReadyTakes, TakesAgain, counted_times};
ghost use Rattle.b67_ready.specs.Turning.{Move, taken, takes_in};

mod order;

pub use order::{Order, numbers_are_told};
use std::alloc::{AllocError, Global};
use std::collections::VecDeque;
use std::marker::Model;

/// A rule of dispatch: which place of the queue the next take is of, by how many wait and how many takes there have been. It has no
/// memory of its own, so that a schedule can be made again.
pub trait Rule: Drop {
    ghost pick: { Self → ℕ → ℕ → ℕ };

    /// The place, counted from 0 at the earliest. The takes are counted up to the greatest number of 64 bits.
    fn pick(&self, length: u32, takes: u64) -> u32
        requires { 0 < length }
        ensures value { result ≡ pick self.now length takes }
        ensures below { result < length };

    // The place is one of the queue, at each number of takes.
    ghost within: { (rule : Self) (length takes : ℕ) → 0 < length → pick rule length takes < length };
}

/// A queue of processes under a rule.
#[derive(Drop)]
pub struct Dispatcher<P: Rule> {
    rule: P,
    waiting: VecDeque<u32>,
    takes: u64,
}

impl<P: Rule> Model for Dispatcher<P> {
    ghost use Rattle.std.specs.Prelude.{◌<◌, ◌^◌, length};
    ghost use Rattle.std.specs.VecDeque.{deque_capacity};
    ghost use Rattle.b67_ready.specs.Ready.{Ready, ready_code};

    ghost Value = { Ready P };

    ghost coded = { ready_code P.code };

    ghost view = { λ d. record { rule = d.rule; waiting = d.waiting.items; takes = d.takes; room = deque_capacity d.waiting } };

    ghost invariant = { λ d. length d.waiting.items < 2 ^ 32 };
}

// Removes the process at a place, and the others close up from the nearer end.
fn take_at(waiting: &mut VecDeque<u32>, at: usize) -> u32
    requires { at < length waiting.old.items }
    ensures value { slice_get waiting.old.items at ≡ Some result }
    ensures items { waiting.new.items ≡ remove waiting.old.items at }
    ensures capacity { deque_capacity waiting.new ≡ deque_capacity waiting.old }
{
    if at == 0 {
        return waiting.pop_front().unwrap();
    }
    waiting.remove(at).unwrap()
}

impl<P: Rule> Dispatcher<P> {
    /// A queue in which nobody waits, with room for so many. Where memory lacks, the rule is let go.
    pub fn new(alloc: Global, rule: P, room: u32) -> Result<Dispatcher<P>, AllocError>
        ensures rule { IfOk result (λ d. d.rule ≡ rule) }
        ensures empty { IfOk result (λ d. (d.waiting ≡ []) × (d.takes ≡ 0)) }
        ensures room { IfOk result (λ d. room ≤ d.room) }
    {
        Ok(Dispatcher {
            rule,
            waiting: VecDeque::with_capacity(alloc, room as usize)?,
            takes: 0,
        })
    }

    /// Adds a process at the rear, for which there has to be room. Takes no memory.
    pub fn put(&mut self, process: u32)
        requires room { length self.old.waiting < self.old.room }
        requires few { length self.old.waiting + 1 < 2 ^ 32 }
        ensures { ReadyPuts self.old process self.new }
    {
        self.waiting.push_back(process).unwrap();
    }

    /// Removes the process at the place that the rule picks, and the others close up. None comes exactly where nobody waits, and then
    /// no take is counted.
    pub fn take(&mut self) -> Option<u32>
        ensures { ReadyTakes P.pick self.old self.new result }
    {
        if self.waiting.is_empty() {
            return None;
        }
        let at = self.rule.pick(self.waiting.len() as u32, self.takes);
        self.takes = self.takes.saturating_add(1);
        Some(take_at(&mut self.waiting, at as usize))
    }

    /// As if a process, whichever, were put and then taken, so many times: where nobody else waits, it is the one that the rule picks.
    pub fn take_again(&mut self, times: u32)
        requires { 0 < times → self.old.waiting ≡ [] }
        ensures again { (process : ℕ) → TakesAgain P.pick process self.old times self.new }
        ensures counted { self.new ≡ record self.old { takes = counted_times times self.old.takes } }
    {
        self.takes = self.takes.saturating_add(u64::from(times));
    }

    /// How many wait.
    pub fn len(&self) -> u32
        ensures { result ≡ length self.now.waiting }
    {
        self.waiting.len() as u32
    }
}

/// Law: where the earliest is always picked, who waits at place k is taken by the take after k others.
pub fn earliest_come_in_order()
    ensures { (waiting : List ℕ) (k p n : ℕ) (moves : List Move) → slice_get waiting k ≡ Some p → k < takes_in moves → slice_get (taken (λ length takes. 0) waiting n moves) k ≡ Some p }
{}
