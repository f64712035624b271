//! The run of a code by several processors: a plant under a lock.
//!
//! A plant has the machine, the queue of who waits for a processor, with which processor each other process is out, and the schedule of
//! what was done. Whenever its lock is free it stands: what the machine holds is a run of the code under that schedule.
#![tactic(auto)]

mod entering;
mod fetching;
mod floor;
mod joins;
mod landings;
mod making;
mod placing;
mod running;
mod shared;
mod taking;

ghost use Rattle.std.specs.Prelude.{◌≡◌, ◌≤◌, length};

use b67_deeds::Letter;
use b67_machine::Machine;
pub use b67_parcel::{Ahead, Named, Parcel};
use b67_ready::{Dispatcher, Rule};
use b67_schedule::Schedule;
use b67_store::Core;
use b67_tally::Mark;
pub use floor::Floor;
pub use joins::{gather, run_all};
pub use running::{Ran, run_by_caller, run_by_processors};
pub use shared::{Pass, SharedPlant};
use std::marker::Model;
use std::sync::ledger::{Book, Ledger, Share};
pub use taking::{PlantLanding, Taken, lacking_is_kept};

// A processor performs an entry more, before others have the plant, for each so many that the schedule has.
const SHARE: u64 = 64;

/// A processor's shares of the books of acts and of leaves, its mark on the tally of acts, and the process that it has taken ahead. No more
/// acts are marked than were made.
#[derive(Drop)]
pub struct Seat<N: Named, L: Ledger> {
    count: u64,
    left: u64,
    ahead: Ahead<N>,
    acts: Share<N>,
    leaves: Share<L>,
    mark: Mark,
    ghost counted: { count ≡ acts.amount },
    ghost lefts: { left ≡ leaves.amount },
    ghost one: { acts.parts ≡ 1 },
    ghost one_leaf: { leaves.parts ≡ 1 },
    ghost marked: { mark.number ≤ count },
    ghost named: { mark.name ≡ N.tally },
}

impl<N: Named, L: Ledger> Seat<N, L> {
    /// How many acts the processor made.
    pub fn count(&self) -> u64
        ensures { result ≡ self.now.count }
    {
        self.count
    }
}

/// What a processor brings along.
#[derive(Drop)]
pub struct Post<N: Named, L: Ledger> {
    pub parcel: Parcel<N>,
    pub seat: Seat<N, L>,
}

/// The run under the lock.
#[derive(Drop)]
pub struct Plant<N: Named, L: Ledger, C: Core, P: Rule> {
    machine: Machine<C>,
    ready: Dispatcher<P>,
    // By the processes' numbers from 1: the processor with which each is out, or 0.
    out: Vec<u32>,
    schedule: Schedule,
    // The letters of the entries of an act, before they are put on the schedule.
    notes: Vec<Letter>,
    budget: u32,
    spent: u32,
    lacked: bool,
    // Whether the last action went on, so that the run does: where it did not, an end is looked for.
    going: bool,
    acts: Book<N>,
    leaves: Book<L>,
    left: u64,
}

impl<N: Named, L: Ledger, C: Core, P: Rule> Model for Plant<N, L, C, P> {
    ghost use Rattle.b67_stands.specs.Running.{Running};
    ghost use Rattle.std.specs.Prelude.{◌≡◌, ◌≤◌, ◌<◌, ◌+◌, ℕ, true, None, length};
    ghost use Rattle.b67_limits.specs.declared.TheConstants.{MOST_LETTERS};
    ghost use Rattle.b67_table.specs.Limits.{most_processes};
    ghost use Rattle.b67_table.specs.Sound.{Sound};
    ghost use Rattle.b67_limits.specs.declared.TheConstants.{MOST_BUDGET};
    ghost use Rattle.b67_machine.specs.Reads.{machine_end};
    ghost use Rattle.b67_stands.specs.Stands.{Stands};

    ghost Value = { Running };

    ghost view = { λ p. record {
      machine = p.machine;
      waiting = p.ready.waiting;
      takes = p.ready.takes;
      out = p.out.items;
      schedule = p.schedule;
      spent = p.spent;
      acts = p.acts.total;
      leaves = p.leaves.total;
    } };

    ghost invariant = { λ p.
        Stands N.code N.budget (record {
          machine = p.machine;
          waiting = p.ready.waiting;
          takes = p.ready.takes;
          out = p.out.items;
          schedule = p.schedule;
          spent = p.spent;
          acts = p.acts.total;
          leaves = p.leaves.total;
        })
        × Sound N.code
        × (p.budget ≡ N.budget)
        × (p.budget ≤ MOST_BUDGET)
        × ((n takes : ℕ) → P.pick p.ready.rule n takes ≡ N.pick n takes)
        × (most_processes + 2 ≤ p.ready.room)
        × (p.budget ≤ p.schedule.room)
        × (length p.notes.items ≡ MOST_LETTERS)
        × (p.lacked ≡ p.machine.lacked)
        × (p.left ≡ p.leaves.total)
        × (p.going ≡ true → machine_end p.machine ≡ None) };
}
