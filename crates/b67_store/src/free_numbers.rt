// The numbers of closed rows, of which the least is found first. Taking numbers and putting them back takes no
// memory, as long as there is room.
ghost use Rattle.std.specs.Prelude.{◌≡◌, ℕ, ◌+◌, ◌<◌, ◌≤◌, nat_lt, List, [], ◌∷◌, length, IfSome, IfNone, OnOk, OnErr};
ghost use Rattle.std.specs.List.{count_by};
ghost use Rattle.std.specs.List.Sorted.{IsPermutation};
ghost use Rattle.b67_store.specs.Numbers.{Numbers};

use std::alloc::{AllocError, Global};
use std::cmp::Reverse;
use std::collections::BinaryHeap;
use std::marker::Model;

/// Numbers, of which the least is found first.
#[derive(Drop)]
pub struct FreeNumbers {
    heap: BinaryHeap<Reverse<u32>>,
}

impl Model for FreeNumbers {
    ghost use Rattle.std.specs.Prelude.{◌≡◌, length};
    ghost use Rattle.std.specs.BinaryHeap.{IsHeap, heap_items, heap_len, heap_capacity};
    ghost use Rattle.b67_store.specs.Numbers.{Numbers, numbers_of, least_first};

    ghost Value = { Numbers };

    ghost view = { λ f. record { numbers = numbers_of (heap_items f.heap); room = heap_capacity f.heap } };

    ghost invariant = { λ f. IsHeap least_first (heap_items f.heap) × (heap_len f.heap ≡ length (heap_items f.heap)) };
}

impl FreeNumbers {
    /// No numbers, and no room yet.
    pub fn new(alloc: Global) -> FreeNumbers
        ensures { result.numbers ≡ [] }
    {
        FreeNumbers {
            heap: BinaryHeap::new(alloc),
        }
    }

    /// Makes room for so many numbers in all, where none is kept.
    pub fn reserve(&mut self, room: usize) -> Result<(), AllocError>
        requires { self.old.numbers ≡ [] }
        ensures numbers { self.new.numbers ≡ [] }
        ensures room { OnOk result (room ≤ self.new.room) }
        ensures grows { self.old.room ≤ self.new.room }
    {
        self.heap.reserve(room)
    }

    /// Adds a number, where there is room.
    #[tactic(auto, using(crate::proofs::Heaps::heaps))]
    pub fn put(&mut self, number: u32)
        requires { length self.old.numbers < self.old.room }
        ensures numbers { IsPermutation (number ∷ self.old.numbers) self.new.numbers }
        ensures room { self.old.room ≤ self.new.room }
    {
        let _ = self.heap.push(Reverse(number));
    }

    /// The least number, which stays. None comes exactly where there is none.
    #[tactic(auto, using(crate::proofs::Heaps::heaps))]
    pub fn least(&self) -> Option<u32>
        ensures none { IfNone result (self.now.numbers ≡ []) }
        ensures first { IfSome result (λ n. (rest : List ℕ) × (self.now.numbers ≡ n ∷ rest)) }
        ensures least { IfSome result (λ n. count_by (λ k. nat_lt k n) self.now.numbers ≡ 0) }
    {
        let Reverse(number) = *self.heap.peek()?;
        Some(number)
    }

    /// Takes the least number out. None comes exactly where there is none.
    #[tactic(auto, using(crate::proofs::Heaps::heaps))]
    pub fn take_least(&mut self) -> Option<u32>
        ensures none { IfNone result (self.old.numbers ≡ []) }
        ensures none_after { IfNone result (self.new.numbers ≡ []) }
        ensures numbers { IfSome result (λ n. IsPermutation self.old.numbers (n ∷ self.new.numbers)) }
        ensures least { IfSome result (λ n. count_by (λ k. nat_lt k n) self.old.numbers ≡ 0) }
        ensures room { self.new.room ≡ self.old.room }
    {
        let Reverse(number) = self.heap.pop()?;
        Some(number)
    }
}
