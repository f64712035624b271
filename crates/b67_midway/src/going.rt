//! A part of a schedule that is gone through.

ghost use Rattle.std.specs.Prelude.{◌≡◌, ◌+◌, ◌≤◌, ℕ, List, ◌++◌, length, replicate, OnOk};
ghost use Rattle.b67_schedule.specs.Schedules.{entries, most_in_schedule};
ghost use Rattle.b67_table.specs.Sound.{Sound};
ghost use Rattle.b67_machine.specs.Replaying.{Between, is_lacking};
ghost use Rattle.b67_fronts.specs.Fronts.{GoesThrough};

use b67_machine::{Machine, Replayed};
use b67_schedule::{Run, Schedule};
use b67_store::Core;
use std::alloc::AllocError;

/// Performs so many entries of a process on a machine whose code goes through them, and through what comes after them, with at most so many
/// operators.
///
/// # Errors
///
/// Memory ran out; nothing else ends what is gone through.
pub fn go_through<C: Core>(
    machine: &mut Machine<C>,
    budget: u32,
    spent: &mut u32,
    done: &mut Schedule,
    process: u32,
    times: u32,
) -> Result<(), AllocError>
    requires sound { Sound machine.old.code }
    requires between { Between machine.old.code (entries done.old.runs) done.old.letters spent.old machine.old }
    requires within { spent.old ≤ budget }
    requires goes { (more : List ℕ) × GoesThrough machine.old.code (entries done.old.runs ++ (replicate times process ++ more)) budget }
    requires room { length (entries done.old.runs) + times ≤ done.old.room }
    requires few { budget ≤ most_in_schedule }
    ensures done { OnOk result (entries done.new.runs ≡ entries done.old.runs ++ replicate times process) }
    ensures between { OnOk result (Between machine.old.code (entries done.new.runs) done.new.letters spent.new machine.new) }
    ensures within { OnOk result (spent.new ≤ budget) }
    ensures room { done.old.room ≤ done.new.room }
{
    match machine.advance(&Run { process, times }, budget, spent, done) {
        None => Ok(()),
        Some(answer) => {
            if is_lacking(answer) {
                Err(AllocError)
            } else {
                unreachable!()
            }
        }
    }
}

/// Tests that memory lacks.
fn is_lacking(answer: Replayed) -> bool
    ensures { result ≡ is_lacking answer }
{
    matches!(answer, Replayed::NoMemory)
}
