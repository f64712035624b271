//! The report of a machine after a run.

ghost use Rattle.std.specs.Prelude.{◌≡◌, ◌<◌, ◌≤◌, ◌^◌, IfOk, length, sum};
ghost use Rattle.b67_schedule.specs.Schedules.{entries};
ghost use Rattle.b67_report.specs.Reading.{ReportCounts};
ghost use Rattle.b67_machine.specs.Reads.{machine_end};
ghost use Rattle.b67_explain.specs.Telling.{CanBeTold, MachineCounts, AreActs, AreOfFirst, IsReportOf};

use crate::ends::words_of;
use b67_list::{Line, List, discard};
use b67_machine::{Machine, Replayed};
use b67_report::Report;
use b67_schedule::Schedule;
use b67_store::Core;
use std::alloc::{AllocError, Global};

/// The same lines once more.
fn copied(alloc: Global, lines: &[Line]) -> Result<List<Line>, AllocError>
    ensures value { IfOk result (λ copy. copy ≡ lines.now) }
    ensures few { IfOk result (λ copy. length copy < 2 ^ 64) }
{
    let mut copy = Vec::with_capacity(alloc, lines.len())?;
    'lines: for line in lines {
        copy.push(Line::of(Vec::from_slice(alloc, line.bytes())?))?;
    }
    Ok(List::of(copy))
}

/// How many operators each process performed, from process 1 on.
fn operators_of<C: Core>(alloc: Global, machine: &Machine<C>) -> Result<List<u64>, AllocError>
    ensures counts { IfOk result (MachineCounts machine.now) }
    ensures numbers { IfOk result ReportCounts }
{
    let mut operators = Vec::new(alloc);
    'processes: for before in 0..machine.started() {
        operators.push(machine.count(before + 1))?;
    }
    Ok(List::of(operators))
}

/// The acts of so many processors, where the first one made so many and the others none.
pub fn acts_of(alloc: Global, processors: u32, count: u64) -> Result<List<u64>, AllocError>
    requires { 1 ≤ processors }
    ensures first { IfOk result (AreOfFirst processors count) }
    ensures acts { IfOk result (AreActs processors count) }
    ensures numbers { IfOk result ReportCounts }
{
    let mut acts = Vec::new(alloc);
    acts.push(count)?;
    'others: for _ in 1..processors {
        acts.push(0)?;
    }
    Ok(List::of(acts))
}

/// What a machine tells of its run: its output, and how many operators each process performed.
fn told_of<C: Core>(
    alloc: Global,
    machine: &Machine<C>,
) -> Result<(List<Line>, List<u64>), AllocError>
    ensures output { IfOk result (λ told. told.0 ≡ machine.now.image.output) }
    ensures few { IfOk result (λ told. length told.0 < 2 ^ 64) }
    ensures counts { IfOk result (λ told. MachineCounts machine.now told.1) }
    ensures numbers { IfOk result (λ told. ReportCounts told.1) }
{
    let output = copied(alloc, machine.output())?;
    match operators_of(alloc, machine) {
        Ok(operators) => Ok((output, operators)),
        Err(lack) => {
            discard(output);
            Err(lack)
        }
    }
}

/// The report of a machine after a run in which each processor made so many acts, and whose code has these lines. The schedule is what
/// was performed.
pub fn report_of<C: Core>(
    alloc: Global,
    acts: List<u64>,
    machine: &Machine<C>,
    answer: Replayed,
    lines: List<Line>,
    schedule: Schedule,
) -> Result<Report, AllocError>
    requires all { sum acts ≡ length (entries schedule.runs) }
    requires numbers { ReportCounts acts }
    requires told { CanBeTold answer (machine_end machine.now) }
    ensures report { IfOk result (IsReportOf machine.now answer lines (length acts) schedule) }
    ensures acts { IfOk result (λ report. report.acts ≡ acts) }
{
    // The number of the lines is read once, so that it is known to have 64 bits.
    let _count = lines.items().len();
    match told_of(alloc, machine) {
        Ok((output, operators)) => Ok(Report {
            output,
            end: words_of(answer, machine.end()),
            operators,
            acts,
            listing: lines,
            schedule,
        }),
        Err(lack) => {
            discard(acts);
            discard(lines);
            discard(schedule);
            Err(lack)
        }
    }
}
