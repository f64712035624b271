// What the search wants of a machine.
use std::alloc::AllocError;

/// A machine that performs entries of a schedule and can be begun again.
pub trait Walker: Drop {
    ghost use Rattle.std.specs.Prelude.{◌≡◌, ℕ, suc, ◌+◌, ◌^◌, ◌<◌, ◌≤◌, true, IfOk};
    ghost use Rattle.b67_segment.specs.declared.code.Code.{Code};
    ghost use Rattle.b67_table.specs.Image.{Image};
    ghost use Rattle.b67_table.specs.Beginning.{first_image};
    ghost use Rattle.b67_table.specs.Ending.{may_act};
    ghost use Rattle.b67_outcomes.specs.declared.found.TheConstants.{MOST_ENTRIES};
    ghost use Rattle.b67_outcomes.specs.Entering.{ProcessEnters, IsProcessNumber, IsReached, Repeats};

    ghost code: { Self → Code };

    ghost image: { Self → Image };

    /// What is known of the code.
    ghost Known: { Code → Type 0 };

    /// The next entry of a process may be performed at once.
    ghost Local: { Code → Image → ℕ → Type 0 };

    /// So many more entries can be performed, but for want of memory.
    ghost Room: { Self → ℕ → Type 0 };

    /// The machine before its first operator.
    fn restart(&mut self) -> Result<(), AllocError>
        requires known { Known (code self.old) }
        ensures code { code self.new ≡ code self.old }
        ensures first { IfOk result (λ u. image self.new ≡ first_image) }
        ensures room { IfOk result (λ u. Room self.new MOST_ENTRIES) };

    /// The greatest number of a process that may act.
    fn processes(&self) -> u32
        ensures few { result < 2 ^ 16 }
        ensures all { (p : ℕ) → may_act (image self.now) p ≡ true → (1 ≤ p) × (p ≤ result) };

    /// Tests that the process may act.
    fn may_act(&self, process: u32) -> bool
        ensures { result ≡ may_act (image self.now) process };

    /// Performs an entry of the process, in an image to which a run leads. It answers whether the entry was performed; it is not where the
    /// process comes to the stack limit before its action, and then no more entries can be performed.
    fn enter(&mut self, process: u32) -> Result<bool, AllocError>
        requires may { may_act (image self.old) process ≡ true }
        requires known { Known (code self.old) }
        requires reached { IsReached (code self.old) (image self.old) }
        requires room { (k : ℕ) × Room self.old (suc k) }
        ensures code { code self.new ≡ code self.old }
        ensures number { IsProcessNumber process }
        ensures entered { IfOk result (λ entered. ProcessEnters (code self.old) process (image self.old) entered (image self.new)) }
        ensures room { IfOk result (λ entered. entered ≡ true → (k : ℕ) → Room self.old (suc k) → Room self.new k) };

    /// Performs so many entries of the process, one after another, from an image to which a run leads, where it has so many.
    fn enter_run(&mut self, process: u32, count: usize) -> Result<(), AllocError>
        requires some { 1 ≤ count }
        requires has { (img : Image) × Repeats (code self.old) process count (image self.old) img }
        requires known { Known (code self.old) }
        requires reached { IsReached (code self.old) (image self.old) }
        requires room { (k : ℕ) × Room self.old (count + k) }
        ensures code { code self.new ≡ code self.old }
        ensures number { IsProcessNumber process }
        ensures entered { IfOk result (λ u. Repeats (code self.old) process count (image self.old) (image self.new)) }
        ensures room { IfOk result (λ u. (k : ℕ) → Room self.old (count + k) → Room self.new k) };

    /// Tests that the next entry of a process that may act is local, in an image to which a run leads. `false` says nothing.
    fn is_local(&mut self, process: u32) -> Result<bool, AllocError>
        requires may { may_act (image self.old) process ≡ true }
        requires reached { IsReached (code self.old) (image self.old) }
        requires room { (k : ℕ) × Room self.old k }
        ensures code { code self.new ≡ code self.old }
        ensures stays { image self.new ≡ image self.old }
        ensures room { (k : ℕ) → Room self.old k → Room self.new k }
        ensures is { IfOk result (λ is. is ≡ true → Local (code self.old) (image self.old) process) };

    /// Tests that the images are the same. `false` says nothing.
    fn same(&self, other: &Self) -> bool
        ensures { result ≡ true → image self.now ≡ image other.now };

    /// A number by which the image is looked for. It says nothing.
    fn hash(&self) -> u64;
}
