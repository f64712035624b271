//! The machine over the whole operator table, for any code.
//!
//! A [`Machine`] begins with the first image of a code ([`Machine::load`]). It performs operators of a process one by one
//! ([`Machine::step`]), entries of a schedule ([`Machine::perform_entry`]) and whole schedules ([`Machine::replay`]). The private part of a
//! process is copied ([`Machine::copy_private`]), compared ([`Machine::differs`]) and put back ([`Machine::put_private`]), so that its plain
//! operators can be performed elsewhere. So is the whole of a process ([`Machine::copy_whole`], [`Machine::put_run`]), on which entries of its
//! own are performed too ([`run_part`]). A word of a stack and the registers of a process are shown ([`Machine::word_at`],
//! [`Machine::registers`]).
#![tactic(auto)]

mod again;
mod comparing;
mod counting;
mod entries;
mod entry;
mod load;
mod onward;
mod parts;
mod reads;
mod replay;
mod running;
mod same;
mod step;
mod stretch;
mod tables;
mod words;

use b67_deeds::Letter;
use b67_events::Kernel;
use b67_num::FaultKind;
use b67_reach::Parts;
use b67_store::Core;
pub use entries::Entered;
pub use entry::Performed;
pub use reads::End;
pub use replay::{Replayed, within_entry};
pub use running::run_part;
use std::marker::Model;
pub use step::lacking_is_kept;
pub use tables::{Levels, decoded, prepare};

/// The fault that ended a run, and whose it was.
#[derive(Clone, Copy)]
pub struct Failure {
    pub kind: FaultKind,
    pub process: u32,
}

/// A machine with its code. Contracts see its code and its image, how many operators each process has performed, whom
/// the last operator released, what the last operator that was tried came to, and the letter of the last action.
pub struct Machine<C: Core> {
    core: C,
    kernel: Kernel,
    parts: Parts,
    // How many operators each process has performed.
    counts: Vec<u64>,
    // The operators of segments, by segment and level.
    tables: Vec<Levels>,
    failure: Option<Failure>,
    // The process whose operator came to the stack limit, where that was the last that was tried.
    limit: Option<u32>,
    // Whether an operator found no memory.
    lacked: bool,
    // The letter of the last action, where there was one.
    letter: Option<Letter>,
}

/// A machine is let go by a call, so that the proofs of the crates above do not go through its parts.
impl<C: Core> Drop for Machine<C> {
    fn drop(self) {
        let Machine {
            core: _core,
            kernel: _kernel,
            parts: _parts,
            counts: _counts,
            tables: _tables,
            failure: _,
            limit: _,
            lacked: _,
            letter: _,
        } = self;
    }
}

impl<C: Core> Model for Machine<C> {
    ghost use Rattle.b67_machine.specs.Kept.{MachineModel};

    ghost Value = { MachineModel };

    ghost use Rattle.std.specs.Prelude.{◌≡◌, length};
    ghost use Rattle.b67_reach.specs.Images.{image_of};
    ghost use Rattle.b67_action.specs.Done.{KernelHasRoom};
    ghost use Rattle.b67_table.specs.Limits.{most_processes};
    ghost use Rattle.b67_table.specs.Valid.{IsValid};
    ghost use Rattle.b67_machine.specs.Machines.{with_failure};
    ghost use Rattle.b67_machine.specs.Tables.{AreTables};

    ghost view = { λ m. record {
      code = m.parts.code;
      image = with_failure (image_of (C.Core.stacks m.core) (C.Core.rows m.core) m.kernel m.parts) m.failure;
      counts = m.counts.items;
      released = m.parts.woken.processes.items;
      limit = m.limit;
      lacked = m.lacked;
      letter = m.letter;
    } };

    ghost invariant = { λ m.
        IsValid m.parts.code (image_of (C.Core.stacks m.core) (C.Core.rows m.core) m.kernel m.parts)
        × KernelHasRoom m.kernel m.parts
        × (length m.counts.items ≡ most_processes)
        × AreTables m.parts.code m.tables.items };
}
