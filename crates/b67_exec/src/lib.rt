//! The run of any code on a machine by turns.
//!
//! A turn is one operator: [`exec`] takes the process at the front of a queue and performs its next operator, whatever code that is.
#![tactic(auto)]

mod queue;
mod report;
mod turns;

ghost use Rattle.std.specs.Prelude.{◌≡◌, IfOk, IfErr};
ghost use Rattle.b67_machine.specs.Beginning.{IsFresh};
ghost use Rattle.b67_exec.specs.Exec.{ExecRun, Lacks};
ghost use Rattle.b67_exec.specs.Worked.{TurnsAtWork};

use b67_joining::ROOM;
use b67_machine::Machine;
use b67_num::FaultKind;
use b67_ready::{Dispatcher, Order};
use b67_store::Core;
use b67_table::InterruptKind;
pub use report::{Told, exec_told};
use std::alloc::{AllocError, Global};
use turns::{end_of, turn};

/// Why a run by turns stopped.
#[derive(Clone, Copy)]
pub enum Stopped {
    /// Process 1 has ended.
    Finished,
    /// A process came to a fault.
    Fault { kind: FaultKind, process: u32 },
    /// A process lives, and none is able.
    AllWaiting,
    /// The next operator of a process can not be performed.
    Interrupt { kind: InterruptKind, process: u32 },
    /// The stack of a process would have too many words. It has `words` of them.
    StackLimit { process: u32, words: u32 },
    /// As many operators were performed as were allowed.
    BudgetSpent,
}

/// Runs the code of a machine by turns, at most so many operators, and answers why it stopped. The queue is at first process 1. A turn
/// takes the process at the front and performs its next operator; then those whom it released in their order, the one that it
/// started, and the process itself where it is able go to the rear. Before a turn it looks at the end of the run, then at the budget.
/// An operator that interrupts or comes to the stack limit is not counted, and changes nothing. Where memory lacks for the queue
/// nothing is performed; else it may lack only for what an operator makes.
pub fn exec<C: Core>(
    alloc: Global,
    machine: &mut Machine<C>,
    budget: u32,
) -> Result<Stopped, AllocError>
    requires fresh { IsFresh machine.old }
    ensures ran { IfOk result (λ why. ExecRun machine.old.code budget machine.new why) }
    ensures lacks { IfErr result (λ lack. Lacks budget machine.old machine.new) }
{
    let mut ready = Dispatcher::new(alloc, Order::Fifo, ROOM)?;
    ready.put(1);
    let mut left = budget;
    'turns: loop {
        if let Some(why) = end_of(machine) {
            return Ok(why);
        }
        if left == 0 {
            return Ok(Stopped::BudgetSpent);
        }
        if let Some(why) = turn(machine, &mut ready)? {
            return Ok(why);
        }
        left -= 1;
    }
}

/// Law: what some codes come to by turns.
pub fn turns_at_work()
    ensures { TurnsAtWork }
{}
