//! Version 1 of the text, which has no letters.

ghost use Rattle.std.specs.Prelude.{◌≡◌, ℕ, ◌≤◌, None, length, IfOk, IfErr};
ghost use Rattle.std.specs.List.{flat_map};
ghost use Rattle.b67_text.specs.Texts.{PartStands, StopsAt};
ghost use Rattle.b67_schedule.specs.Schedules.{entries, AreRuns, run_line};
ghost use Rattle.b67_schedule.specs.Reading.{CanFollow, IsRunLine, Follow, AreRunLines, RefusesAt, numbers_of_schedule};

use crate::reading::numbers;
use crate::{ReadSchedule, Run};
use b67_list::List;
use b67_text::{BadText, read_number};
use std::alloc::Global;

/// Which process did each action of a run, and not what the action was: what a text of version 1 tells.
#[derive(Drop)]
pub struct OldSchedule {
    pub runs: List<Run>,
}

/// So many runs whose lines stand at a place, and the place after them.
pub fn read_runs(
    alloc: Global,
    bytes: &[u8],
    at: usize,
    count: u64,
) -> Result<(Vec<Run>, usize), ReadSchedule>
    requires { at ≤ length bytes.now }
    ensures read { IfOk result (λ found. Follow None found.0.items × (length found.0.items ≡ count)
        × PartStands (flat_map run_line found.0.items) bytes.now at found.1) }
    ensures refused { IfErr result (λ e. RefusesAt e (AreRunLines None count) bytes.now at) }
{
    let mut runs = Vec::new(alloc);
    let mut before = None;
    let mut next = at;
    'runs: while (runs.len() as u64) < count {
        let (run, after) = read_run(bytes, next, before)?;
        runs.push(run)?;
        before = Some(u64::from(run.process));
        next = after;
    }
    Ok((runs, next))
}

/// The run whose line stands at a place, of another process than the one before, and the place after it.
fn read_run(bytes: &[u8], at: usize, before: Option<u64>) -> Result<(Run, usize), BadText>
    requires { at ≤ length bytes.now }
    ensures read { IfOk result (λ found. CanFollow before found.0 × PartStands (run_line found.0) bytes.now at found.1) }
    ensures refused { IfErr result (λ bad. StopsAt (IsRunLine before) bytes.now at bad.byte) }
{
    let (process, next) = read_number(bytes, at, &numbers(1, before), b'*')?;
    let (times, next) = read_number(bytes, next, &numbers(1, None), b'\n')?;
    let run = Run {
        process: process as u32,
        times: times as u32,
    };
    Ok((run, next))
}

/// How many actions the runs are.
pub fn actions_of(runs: &[Run]) -> u64
    requires { AreRuns runs.now }
    ensures { result ≡ length (entries runs.now) }
{
    let mut actions = 0;
    'runs: for run in runs {
        actions += u64::from(run.times);
    }
    actions
}
