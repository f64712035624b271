//! The answer to a schedule beside an accepted source and commands after the schedule: what the commands show.

ghost use Rattle.std.specs.Prelude.{◌≡◌, ◌↔◌, IfOk, IsTrue, option_copied};
ghost use Rattle.algol_tree.specs.Image.{program as plain};
ghost use Rattle.b67_schedule.specs.Giving.{HasRuns};
ghost use Rattle.b67_faithful.specs.Faithful.{Faithful};
ghost use Rattle.b67_desk.specs.Answers.{OrBadSchedule};
ghost use Rattle.b67_desk.specs.Commanded.{AreOrders, IsBadLineAt, IsReplay, IsToldBy};
ghost use Rattle.b67_desk.specs.Consoling.{TextsAreApart, Consoled, InTwo, IsWholeSchedule, OrBadConsole};

use crate::asking::Answer;
use crate::following::{Course, read_course};
use crate::running::replay_report;
use crate::status::Status;
use crate::texts::bad_console_line;
use crate::tree::tell;
use algol_front::Checked;
use b67_commands::{BadCommands, Command, read_commands};
use b67_compile::compile;
use b67_console::console;
use b67_limits::MOST_BUDGET;
use b67_list::List;
use b67_parts::divided;
use b67_report::{EndWords, Report};
use b67_schedule::Given;
use b67_segment::Code;
use std::alloc::{AllocError, Global};

/// The commands that a text is.
#[derive(Drop)]
enum Orders {
    /// These.
    Told(List<Command>),
    /// It is bad, or there is none, and this is the answer.
    Bad(Answer),
}

/// What the replay of all that is given came to.
#[derive(Drop)]
enum Replay {
    /// All of it is performed.
    Whole,
    /// Something else ended it, and its report is the answer.
    Other(Answer),
}

/// The schedule in the text beside a source, and the commands after it.
fn apart<'a>(beside: Option<&'a [u8]>) -> (Option<&'a [u8]>, Option<&'a [u8]>)
    ensures { TextsAreApart (option_copied beside.entry) (option_copied result.0) (option_copied result.1) }
{
    match beside {
        Some(text) => {
            let (schedule, commands) = divided(b"%%CONSOLE", text);
            (Some(schedule), commands)
        }
        None => (None, None),
    }
}

/// The refusal of a text of commands that is bad at a line.
fn refuse_line(alloc: Global, line: u32) -> Result<Answer, AllocError>
    ensures { IfOk result (IsBadLineAt line) }
{
    Ok(Answer {
        text: bad_console_line(alloc, line)?,
        status: Status::BadConsole { line },
    })
}

/// The commands that a text is, or the refusal of the text.
fn read_orders(alloc: Global, text: Option<&[u8]>) -> Result<Orders, AllocError>
    ensures { IfOk result (AreOrders (option_copied text.entry)) }
{
    let Some(bytes) = text else {
        return Ok(Orders::Bad(refuse_line(alloc, 1)?));
    };
    match read_commands(alloc, bytes) {
        Ok(commands) => Ok(Orders::Told(commands)),
        Err(BadCommands::BadLine { line }) => Ok(Orders::Bad(refuse_line(alloc, line)?)),
        Err(BadCommands::NoMemory) => Err(AllocError),
    }
}

/// Tests that all entries of a schedule are performed, and nothing else ends the run.
fn is_whole(end: EndWords) -> bool
    ensures { IsTrue result ↔ IsWholeSchedule end }
{
    matches!(
        end,
        EndWords::Finished | EndWords::Fault { .. } | EndWords::AllWaiting | EndWords::ScheduleEnded
    )
}

/// What a replay came to, by its report.
fn replay_of(alloc: Global, report: &Report) -> Result<Replay, AllocError>
    ensures { IfOk result (IsToldBy report.now) }
{
    if is_whole(report.end) {
        Ok(Replay::Whole)
    } else {
        Ok(Replay::Other(tell(alloc, report)?))
    }
}

/// What the replay of all that is given comes to, under the greatest budget.
fn replay_all(
    alloc: Global,
    given: &Given,
    checked: &Checked,
    code: &Code,
) -> Result<Replay, AllocError>
    requires runs { HasRuns given.now }
    requires faithful { Faithful (plain checked.now.program) code.now }
    ensures { IfOk result (IsReplay (plain checked.now.program) code.now given.now) }
{
    replay_of(
        alloc,
        &replay_report(alloc, MOST_BUDGET, given, code.copy()?)?,
    )
}

/// The answer to commands after a schedule that is given.
fn answer_orders(
    alloc: Global,
    given: &Given,
    commands: &List<Command>,
    checked: &Checked,
) -> Result<Answer, AllocError>
    requires { HasRuns given.now }
    ensures { IfOk result (λ answer. Consoled (plain checked.now.program) given.now commands.now answer.text.items answer.status) }
{
    let code = compile(alloc, checked)?;
    match replay_all(alloc, given, checked, &code)? {
        Replay::Whole => Ok(Answer {
            text: console(alloc, checked, code, given, commands)?,
            status: Status::Finished,
        }),
        Replay::Other(answer) => Ok(answer),
    }
}

/// The answer to a text of commands after a schedule that is given.
fn answer_given(
    alloc: Global,
    given: &Given,
    text: Option<&[u8]>,
    checked: &Checked,
) -> Result<Answer, AllocError>
    requires { HasRuns given.now }
    ensures { IfOk result (λ answer. OrBadConsole (option_copied text.entry) (Consoled (plain checked.now.program) given.now) answer.text.items answer.status) }
{
    match read_orders(alloc, text)? {
        Orders::Told(commands) => answer_orders(alloc, given, &commands, checked),
        Orders::Bad(answer) => Ok(answer),
    }
}

/// The answer to an accepted source and the text beside it, a schedule and commands after it, in an input of so many bytes.
pub fn answer_console(
    alloc: Global,
    beside: Option<&[u8]>,
    input: usize,
    checked: &Checked,
) -> Result<Answer, AllocError>
    ensures { IfOk result (λ answer. InTwo (option_copied beside.entry) (λ schedule commands. OrBadSchedule schedule input (λ given. OrBadConsole commands (Consoled (plain checked.now.program) given))) answer.text.items answer.status) }
{
    let (schedule, commands) = apart(beside);
    match read_course(alloc, schedule, input)? {
        Course::Told(given) => answer_given(alloc, &given, commands, checked),
        Course::Bad(answer) => Ok(answer),
    }
}
