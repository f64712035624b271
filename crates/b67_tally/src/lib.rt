//! A list of numbers in one place, and for each of them a mark elsewhere that knows it. Both take no bytes: only clauses read them.
//!
//! A tally lies under a lock, and each of its marks in a thread. It is a token as a ledger of `std` is: what it says rests on what it owns, which
//! the logic lets nobody copy or make up. A number of the tally changes only beside its mark, and with it. So whenever both are at hand,
//! the mark's number is the one that the tally has at the mark's place.
#![tactic(auto)]

ghost use Rattle.std.specs.Prelude.{◌≡◌, ℕ, ◌+◌, List, [], ◌∷◌, ◌++◌, Some, length, slice_get, slice_set};
ghost use Rattle.b67_tally.specs.Owned.{tally_owns, mark_owns};

use std::marker::{Model, PhantomData};

/// The numbers, by their places from 0.
pub struct Tally {
    marker: PhantomData<()>,
    pub ghost name: { ℕ },
    pub ghost numbers: { List ℕ },
}

impl Model for Tally {
    ghost also_owns = { λ t. tally_owns t.name t.numbers };
}

/// The right to raise the number at a place of a tally. There is one for each place.
pub struct Mark {
    marker: PhantomData<()>,
    pub ghost name: { ℕ },
    pub ghost place: { ℕ },
    pub ghost number: { ℕ },
}

impl Model for Mark {
    ghost also_owns = { λ m. mark_owns m.name m.place m.number };
}

impl Tally {
    /// A tally with no place.
    pub fn new() -> Tally
        ensures { result.numbers ≡ [] }
    {
        Tally {
            marker: PhantomData,
        }
    }

    /// One place more, whose number is 0.
    pub fn mark(&mut self) -> Mark
        ensures name { (self.new.name ≡ self.old.name) × (result.name ≡ self.old.name) }
        ensures numbers { self.new.numbers ≡ self.old.numbers ++ 0 ∷ [] }
        ensures mark { (result.place ≡ length self.old.numbers) × (result.number ≡ 0) }
    {
        Mark {
            marker: PhantomData,
        }
    }

    /// The number at the mark's place is raised, in both.
    pub fn add(&mut self, mark: &mut Mark, more: u64)
        requires { mark.old.name ≡ self.old.name }
        ensures found { slice_get self.old.numbers mark.old.place ≡ Some mark.old.number }
        ensures tally { self.new ≡ record self.old { numbers = slice_set self.old.numbers mark.old.place (mark.old.number + more) } }
        ensures mark { mark.new ≡ record mark.old { number = mark.old.number + more } }
    {}

    /// Changes nothing. The mark knows the tally's number at its place.
    pub fn look(&mut self, mark: &mut Mark)
        requires { mark.old.name ≡ self.old.name }
        ensures found { slice_get self.old.numbers mark.old.place ≡ Some mark.old.number }
        ensures same { (self.new ≡ self.old) × (mark.new ≡ mark.old) }
    {
        self.add(mark, 0)
    }
}

impl Drop for Tally {
    fn drop(self) {
        let Self { marker: _ } = self;
    }
}

impl Drop for Mark {
    fn drop(self) {
        let Self { marker: _ } = self;
    }
}

unsafe impl Send for Tally {}

unsafe impl Send for Mark {}
