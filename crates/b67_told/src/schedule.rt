//! The schedule of a history.

ghost use Rattle.std.specs.Prelude.{◌≡◌, ◌+◌, ◌<◌, ◌≤◌, ◌∷◌, ◌++◌, [], ◌↔◌, IfOk, IsTrue, length, reverse};
ghost use Rattle.std.specs.List.{All};
ghost use Rattle.b67_schedule.specs.Schedules.{most_in_schedule, entries, AreRuns, IsLastRun};
ghost use Rattle.b67_schedule.specs.Giving.{HasRuns, given_entries};
ghost use Rattle.b67_told.specs.Telling.{IsToldNumber, IsOfOne};

use b67_list::List;
use b67_schedule::{Given, OldSchedule, Run};
use std::alloc::{AllocError, Global};

// Tests that the last run is of this process.
fn is_last(runs: &[Run], process: u32) -> bool
    ensures { IsTrue result ↔ IsLastRun runs.now process }
{
    runs.last().is_some_and(|last| last.process == process)
}

// Adds an entry of this process after those of the runs.
fn add(runs: &mut Vec<Run>, process: u32) -> Result<(), AllocError>
    requires are { AreRuns runs.old.items }
    requires number { IsToldNumber process }
    requires few { length (entries runs.old.items) + 1 ≤ most_in_schedule }
    ensures are { IfOk result (λ u. AreRuns runs.new.items) }
    ensures added { IfOk result (λ u. entries runs.new.items ≡ entries runs.old.items ++ process ∷ []) }
{
    if is_last(runs.as_slice(), process) {
        let last = runs.len() - 1;
        runs[last].times += 1;
    } else {
        runs.push(Run { process, times: 1 })?;
    }
    Ok(())
}

/// The schedule, in version 1, of a history, whose last entry stands first.
pub fn schedule_of(alloc: Global, history: &[u32]) -> Result<Given, AllocError>
    requires numbers { All IsToldNumber history.now }
    requires few { length history.now ≤ most_in_schedule }
    ensures version { IfOk result IsOfOne }
    ensures runs { IfOk result HasRuns }
    ensures entries { IfOk result (λ given. given_entries given ≡ reverse history.now) }
{
    let mut runs = Vec::new(alloc);
    let mut left = history.len();
    'entries: while left > 0 {
        left -= 1;
        add(&mut runs, history[left])?;
    }
    Ok(Given::One(OldSchedule {
        runs: List::of(runs),
    }))
}
