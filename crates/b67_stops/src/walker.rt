//! What walks over a schedule.

use b67_commands::Command;
use b67_list::Line;
use std::alloc::{AllocError, Global};

/// What walks over a schedule: it makes the entries, and answers commands where it stands.
pub trait Walker: Drop {
    ghost use Rattle.std.specs.Prelude.{◌≡◌, ℕ, List, ◌++◌, replicate, IfOk, OnOk};
    ghost use Rattle.b67_commands.specs.declared.command.Command as the_command;

    // the entries that are made
    ghost done: { Self → List ℕ };

    // it stands after these
    ghost stands: { Self → Type 0 };

    // these entries can be made from the first
    ghost goes: { Self → List ℕ → Type 0 };

    // that text answers a command after these entries
    ghost answers: { Self → List ℕ → the_command.Command → List ℕ → Type 0 };

    /// Makes so many entries of a process.
    fn go(&mut self, alloc: Global, process: u32, times: u32) -> Result<(), AllocError>
        requires stands { stands self.old }
        requires goes { (more : List ℕ) × goes self.old (done self.old ++ (replicate times process ++ more)) }
        ensures stands { OnOk result (stands self.new) }
        ensures done { OnOk result (done self.new ≡ done self.old ++ replicate times process) }
        ensures goes { OnOk result ((h : List ℕ) → goes self.old h → goes self.new h) }
        ensures kept { OnOk result ((h : List ℕ) (c : the_command.Command) (t : List ℕ) → answers self.old h c t → answers self.new h c t) }
        ensures back { OnOk result ((h : List ℕ) (c : the_command.Command) (t : List ℕ) → answers self.new h c t → answers self.old h c t) };

    /// The answer to a command where it stands.
    fn tell(&self, alloc: Global, command: &Command) -> Result<Line, AllocError>
        requires stands { stands self.now }
        ensures { IfOk result (λ text. answers self.now (done self.now) command.now text) };
}
