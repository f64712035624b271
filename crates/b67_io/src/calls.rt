// Which calls of a source or a sink in memory are to fail.
ghost use Rattle.std.specs.Prelude.{◌≡◌, ◌+◌, ◌↔◌, ℕ, min, Some, IsTrue, Contains};
ghost use Rattle.std.specs.Ordering.{nat_cmp};
ghost use Rattle.std.specs.List.Sorted.{IsSorted};
ghost use Rattle.b67_io.specs.Memory.{IsFailing, call_after};

/// The number of the next call, none past the greatest u32, and the numbers of the calls that are to fail. These are
/// sorted once, so that each call finds its own by a binary search.
#[derive(Drop)]
pub(crate) struct Calls {
    pub(crate) next: Option<u32>,
    pub(crate) failing: Vec<u32>,
    pub(crate) ghost ordered: { IsSorted nat_cmp failing.items },
}

impl Calls {
    /// No call was made yet.
    pub(crate) fn new(mut fails: Vec<u32>) -> Self
        ensures next { result.next ≡ Some 0 }
        ensures failing { (number : ℕ) → Contains result.failing.items number ↔ Contains fails.items number }
    {
        fails.sort_unstable();
        Calls {
            next: Some(0),
            failing: fails,
        }
    }

    /// Counts a call, and says whether it is to fail.
    pub(crate) fn fails_now(&mut self) -> bool
        ensures fails { IsTrue result ↔ IsFailing self.old.next self.old.failing.items }
        ensures next { self.new.next ≡ call_after self.old.next }
        ensures failing { self.new.failing.items ≡ self.old.failing.items }
    {
        let Some(number) = self.next else {
            return false;
        };
        self.next = number.checked_add(1);
        is_listed(&self.failing, number)
    }
}

// Whether a number stands in an ascending list.
fn is_listed(numbers: &[u32], number: u32) -> bool
    requires { IsSorted nat_cmp numbers.now }
    ensures { IsTrue result ↔ Contains numbers.now number }
{
    numbers.binary_search(&number).is_ok()
}

/// The count after one more fault.
pub(crate) fn after_fault(faults: u64) -> u64
    ensures { result ≡ min (faults + 1) 18446744073709551615 }
{
    faults.saturating_add(1)
}
