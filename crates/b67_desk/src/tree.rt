//! The answers to the tree of an accepted source.

ghost use Rattle.std.specs.Prelude.{◌≡◌, ◌≤◌, IfOk, option_copied};
ghost use Rattle.algol_tree.specs.Image.{program as plain};
ghost use Rattle.b67_limits.specs.declared.TheConstants.{MOST_BUDGET, MOST_PROCESSORS};
ghost use Rattle.b67_desk.specs.Answers.{AnswersTree, SaysAccepted, DeskRuns, Lists, Tries};
ghost use Rattle.b67_desk.specs.Calls.{Asks, InRange, IsRefusal, IsReportAnswer, IsTrialAnswer};
ghost use Rattle.b67_desk.specs.Ends.{status_of};
ghost use Rattle.b67_desk.specs.Judged.{IsShortText};

use crate::asking::{Answer, Asked, Job, settled};
use crate::consoling::answer_console;
use crate::exploring::answer_outcomes;
use crate::following::{answer_dump, answer_replay};
use crate::judging::{answer_judge, answer_race};
use crate::running::run_report;
use crate::status::{Code, Status};
use crate::texts::{accepted_line, listing_lines, refused_line, trial_lines};
use algol_front::Checked;
use algol_tree::Spot;
use b67_compile::compile;
use b67_limits::MOST_BUDGET;
use b67_listing::listing;
use b67_report::{EndWords, Report, text as report_text};
use b67_words::{Rule, Task, Words};
use std::alloc::{AllocError, Global};

/// The status under which a run is reported.
fn status_of(end: EndWords) -> Status
    ensures { result ≡ status_of end }
{
    match end {
        EndWords::Finished => Status::Finished,
        EndWords::Fault { kind, process } => Status::Fault { kind, process },
        EndWords::AllWaiting => Status::AllWaiting,
        EndWords::BudgetSpent => Status::BudgetSpent,
        EndWords::StackLimit { process, words } => Status::StackLimit { process, words },
        EndWords::ScheduleEnded => Status::ScheduleEnded,
        EndWords::Illegal { entry } => Status::Illegal { entry },
        EndWords::Differs { entry } => Status::Differs { entry },
    }
}

/// The refusal of a text at a place.
pub fn refuse(alloc: Global, place: Spot, code: Code) -> Result<Answer, AllocError>
    ensures { IfOk result (IsRefusal place code) }
{
    Ok(Answer {
        text: refused_line(alloc, place, code)?,
        status: Status::Refused { place, code },
    })
}

/// The answer that is a report.
pub fn tell(alloc: Global, report: &Report) -> Result<Answer, AllocError>
    ensures { IfOk result (IsReportAnswer report.now) }
{
    Ok(Answer {
        text: report_text(alloc, report)?,
        status: status_of(report.end),
    })
}

/// The answer to a source that is accepted, which says no more.
fn accept_source(alloc: Global) -> Result<Answer, AllocError>
    ensures { IfOk result (λ answer. SaysAccepted answer.text.items answer.status) }
{
    Ok(Answer {
        text: accepted_line(alloc)?,
        status: Status::Finished,
    })
}

/// What an accepted source asks for that is to be run, on so many processors under a budget and a rule.
fn ask_run(
    alloc: Global,
    processors: u32,
    budget: u64,
    rule: Rule,
    checked: &Checked,
) -> Result<Asked, AllocError>
    requires some { (1 ≤ processors) × (processors ≤ MOST_PROCESSORS) }
    requires budget { (1 ≤ budget) × (budget ≤ MOST_BUDGET) }
    ensures { IfOk result (Asks (λ by. DeskRuns by processors budget rule (plain checked.now.program))) }
{
    let code = compile(alloc, checked)?;
    Ok(Asked::Run(Job {
        processors,
        budget,
        rule,
        code,
    }))
}

/// The answer to an accepted source whose code is listed.
fn answer_list(alloc: Global, checked: &Checked) -> Result<Answer, AllocError>
    ensures { IfOk result (λ answer. Lists (plain checked.now.program) answer.text.items answer.status) }
{
    let code = compile(alloc, checked)?;
    let lines = listing(alloc, &code)?;
    Ok(Answer {
        text: listing_lines(alloc, &lines)?,
        status: Status::Finished,
    })
}

/// The answer that tells the run of a source that was made, which has so many bytes.
fn tell_trial(alloc: Global, bytes: usize, report: &Report) -> Result<Answer, AllocError>
    ensures { IfOk result (IsTrialAnswer bytes report.now) }
{
    Ok(Answer {
        text: trial_lines(alloc, bytes, report)?,
        status: status_of(report.end),
    })
}

/// The answer to an accepted source that was made, which has so many bytes: it is run in the caller, first in, first out, under the
/// greatest budget.
pub fn answer_trial(alloc: Global, bytes: usize, checked: &Checked) -> Result<Answer, AllocError>
    ensures { IfOk result (λ answer. Tries bytes (plain checked.now.program) answer.text.items answer.status) }
{
    let code = compile(alloc, checked)?;
    let job = Job {
        processors: 1,
        budget: MOST_BUDGET,
        rule: Rule::Fifo,
        code,
    };
    tell_trial(alloc, bytes, &run_report(alloc, job)?)
}

/// What a task with an accepted source asks for, with the text beside it, in an input of so many bytes.
pub fn ask_tree(
    alloc: Global,
    task: Task,
    text: Option<&[u8]>,
    input: usize,
    checked: &Checked,
) -> Result<Asked, AllocError>
    requires range { InRange (Words.OnSource task) }
    requires short { IsShortText (option_copied text) }
    ensures { IfOk result (Asks (λ by. AnswersTree by (Words.OnSource task) (option_copied text.entry) input (plain checked.now.program))) }
{
    match task {
        Task::Run {
            processors,
            budget,
            rule,
        } => ask_run(alloc, processors, budget, rule, checked),
        Task::Check => settled(accept_source(alloc)),
        Task::List => settled(answer_list(alloc, checked)),
        Task::Replay { budget } => settled(answer_replay(alloc, budget, text, input, checked)),
        Task::Judge => settled(answer_judge(alloc, text, input, checked)),
        Task::Race => settled(answer_race(alloc, text, input, checked)),
        Task::Dump { entries } => settled(answer_dump(alloc, entries, text, input, checked)),
        Task::Console => settled(answer_console(alloc, text, input, checked)),
        Task::Outcomes { most } => settled(answer_outcomes(alloc, most, checked)),
    }
}
