// What the telling of outcomes wants of a machine.
use b67_list::Line;
use b67_outcomes::Walker;
use b67_report::EndWords;
use b67_schedule::Given;
use b67_told::Outcome;
use std::alloc::{AllocError, Global};

/// A machine that performs entries, tells what was printed and how its run ended, and follows a schedule as a replay does.
pub trait Teller: Walker {
    ghost use Rattle.std.specs.Prelude.{◌≡◌, ℕ, suc, true, IfOk};
    ghost use Rattle.b67_list.specs.Numbered.{numbered};
    ghost use Rattle.b67_segment.specs.declared.code.Code.{Code};
    ghost use Rattle.b67_table.specs.Image.{Image};
    ghost use Rattle.b67_table.specs.Ending.{may_act};
    ghost use Rattle.b67_table.specs.Table.{length_in};
    ghost use Rattle.b67_schedule.specs.declared.reading.Given.{Given as TheGiven};
    ghost use Rattle.b67_schedule.specs.Giving.{HasRuns, given_entries};
    ghost use Rattle.b67_told.specs.declared.Outcome.{Outcome as TheOutcome};
    ghost use Rattle.b67_told.specs.Telling.{IsOfOne};
    ghost use Rattle.b67_outcomes.specs.Entering.{IsProcessNumber, IsReached, Stops};
    ghost use Rattle.b67_teller.specs.Following.{Followed, end_words_in};

    /// What a replay of a schedule says of its outcome.
    ghost Explained: { Code → TheGiven → TheOutcome → Type 0 };

    /// How the run ended, where the image has an end.
    fn end(&self) -> Option<EndWords>
        ensures { result ≡ end_words_in (Self.image self.now) };

    /// The lines that were written.
    fn output(&self) -> &[Line]
        ensures { result.now ≡ (Self.image self.now).output };

    /// Performs an entry of the process up to the stack limit, to which it comes before its action, and says how many words its stack has
    /// there.
    fn stop(&mut self, process: u32) -> Result<u32, AllocError>
        requires may { may_act (Self.image self.old) process ≡ true }
        requires reached { IsReached (Self.code self.old) (Self.image self.old) }
        requires known { Self.Known (Self.code self.old) }
        requires stops { (quiet : Image) × Stops (Self.code self.old) process (Self.image self.old) quiet }
        requires room { (k : ℕ) × Self.Room self.old (suc k) }
        ensures code { Self.code self.new ≡ Self.code self.old }
        ensures number { IsProcessNumber process }
        ensures words { IfOk result (λ words. (quiet : Image) → Stops (Self.code self.old) process (Self.image self.old) quiet → words ≡ length_in (numbered quiet.regs process)) };

    /// Follows a schedule from the beginning under the greatest budget, and says what was printed and how it ended.
    fn replay(&mut self, alloc: Global, given: &Given) -> Result<Outcome, AllocError>
        requires known { Self.Known (Self.code self.old) }
        requires version { IsOfOne given.now }
        requires runs { HasRuns given.now }
        ensures code { Self.code self.new ≡ Self.code self.old }
        ensures explained { IfOk result (Self.Explained (Self.code self.old) given.now) }
        ensures followed { IfOk result (Followed (Self.code self.old) (given_entries given.now)) };
}
