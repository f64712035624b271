//! Runs of a code, and their reports.

ghost use Rattle.std.specs.Prelude.{◌≡◌, ◌≢◌, ◌≤◌, IfOk, length, sum};
ghost use Rattle.algol_tree.specs.Plain.{PProgram};
ghost use Rattle.b67_limits.specs.declared.TheConstants.{MOST_BUDGET};
ghost use Rattle.b67_ready.specs.Orders.{order_place_of};
ghost use Rattle.b67_schedule.specs.Giving.{HasRuns};
ghost use Rattle.b67_schedule.specs.Schedules.{entries};
ghost use Rattle.b67_report.specs.Reading.{ReportCounts};
ghost use Rattle.b67_machine.specs.Reads.{machine_end};
ghost use Rattle.b67_faithful.specs.Faithful.{Faithful};
ghost use Rattle.b67_explain.specs.Explaining.{ExplainsReplay};
ghost use Rattle.b67_explain.specs.Shared.{ExplainsShared};
ghost use Rattle.b67_explain.specs.Telling.{CanBeTold};
ghost use Rattle.b67_desk.specs.Answers.{by_one, order_of};
ghost use Rattle.b67_desk.specs.Calls.{CanBeMade, ReportIsLeft, IsReported};
ghost use Rattle.b67_desk.specs.Commanded.{IsPerformed};
ghost use Rattle.b67_desk.specs.Consoling.{IsWholeSchedule};

use crate::asking::Job;
use b67_explain::{acts_of, report_of};
use b67_flat::FlatCore;
use b67_list::{Line, List};
use b67_listing::listing;
use b67_machine::{Machine, Replayed};
use b67_plant::{Ran, run_by_caller, run_by_processors};
use b67_processors::Gate;
use b67_ready::Order;
use b67_report::Report;
use b67_schedule::{Given, Schedule};
use b67_segment::Code;
use b67_words::Rule;
use std::alloc::{AllocError, Global};
use std::sync::Wait;
use std::thread::Threads;

/// The rule of a queue that is named.
fn order_of(rule: Rule) -> Order
    ensures { result ≡ order_of rule }
{
    match rule {
        Rule::Fifo => Order::Fifo,
        Rule::Lifo => Order::Lifo,
        Rule::Seed(seed) => Order::Seed(seed),
    }
}

/// The report of what a run has left, where memory did not lack: so many acts of each processor, and the lines of its code.
fn left_report(
    alloc: Global,
    ran: Ran<FlatCore>,
    acts: List<u64>,
    lines: List<Line>,
) -> Result<Report, AllocError>
    requires all { sum acts ≡ length (entries ran.schedule.runs) }
    requires numbers { ReportCounts acts }
    requires told { ran.answer ≢ Replayed.NoMemory → CanBeTold ran.answer (machine_end ran.machine) }
    ensures left { IfOk result (ReportIsLeft ran.machine ran.answer lines (length acts) ran.schedule) }
    ensures acts { IfOk result (λ report. report.acts ≡ acts) }
{
    let Ran {
        machine,
        schedule,
        answer,
    } = ran;
    if let Replayed::NoMemory = answer {
        return Err(AllocError);
    }
    report_of(alloc, acts, &machine, answer, lines, schedule)
}

/// Makes a run in the caller, as the first of its processors, and reports it.
pub fn run_report(alloc: Global, job: Job) -> Result<Report, AllocError>
    requires { CanBeMade job }
    ensures { IfOk result (IsReported by_one job) }
{
    let Job {
        processors,
        budget,
        rule,
        code,
    } = job;
    let lines = listing(alloc, &code)?;
    let machine = Machine::load(alloc, code, FlatCore::new(alloc))?;
    let ran = run_by_caller(alloc, machine, order_of(rule), budget as u32)?;
    let acts = acts_of(alloc, processors, ran.schedule.len())?;
    left_report(alloc, ran, acts, lines)
}

/// Makes a run by its processors, each in a thread of its own, and reports it.
pub fn share_report<R: Threads + Wait + Sync, G: Gate + Sync>(
    rt: &R,
    gate: &G,
    alloc: Global,
    job: Job,
) -> Result<Report, AllocError>
    requires { CanBeMade job }
    ensures { IfOk result (λ report. (tree : PProgram) → Faithful tree job.code → ExplainsShared tree (order_place_of (order_of job.rule)) job.processors job.budget report) }
{
    let Job {
        processors,
        budget,
        rule,
        code,
    } = job;
    let mut acts = Vec::with_capacity(alloc, processors as usize)?;
    let lines = listing(alloc, &code)?;
    let machine = Machine::load(alloc, code, FlatCore::new(alloc))?;
    let ran = run_by_processors(
        rt,
        alloc,
        gate,
        machine,
        order_of(rule),
        budget as u32,
        processors,
        &mut acts,
    )?;
    left_report(alloc, ran, List::of(acts), lines)
}

/// Follows a schedule with a code in the caller within the budget, and reports what was performed of it.
pub fn replay_report(
    alloc: Global,
    budget: u64,
    given: &Given,
    code: Code,
) -> Result<Report, AllocError>
    requires most { budget ≤ MOST_BUDGET }
    requires runs { HasRuns given.now }
    requires faithful { (tree : PProgram) × Faithful tree code }
    ensures explained { IfOk result (λ report. (tree : PProgram) → Faithful tree code → ExplainsReplay tree given.now budget report) }
    ensures whole { IfOk result (λ report. IsWholeSchedule report.end → IsPerformed code given.now report) }
{
    let lines = listing(alloc, &code)?;
    let mut machine = Machine::load(alloc, code, FlatCore::new(alloc))?;
    let entries = given.len().min(budget) as usize;
    let mut done = Schedule::with_room(alloc, entries)?;
    let answer = machine.replay(given, budget as u32, &mut done);
    let acts = acts_of(alloc, 1, done.len())?;
    let ran = Ran {
        machine,
        schedule: done,
        answer,
    };
    left_report(alloc, ran, acts, lines)
}
