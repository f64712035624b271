//! The answers to a schedule beside an accepted source: the run that follows it, and the cells after its first entries.

ghost use Rattle.std.specs.Prelude.{◌≡◌, ◌≤◌, IfOk, option_copied};
ghost use Rattle.algol_tree.specs.Image.{program as plain};
ghost use Rattle.b67_limits.specs.declared.TheConstants.{MOST_BUDGET};
ghost use Rattle.b67_schedule.specs.Giving.{HasRuns};
ghost use Rattle.b67_desk.specs.Answers.{OrBadSchedule, Replays};
ghost use Rattle.b67_desk.specs.Calls.{IsBadAt, IsCourse, IsSeenAnswer};
ghost use Rattle.b67_desk.specs.Showing.{Dumped, status_shown};

use crate::asking::Answer;
use crate::running::replay_report;
use crate::status::Status;
use crate::texts::bad_schedule_line;
use crate::tree::tell;
use algol_front::Checked;
use b67_compile::compile;
use b67_dump::{Answer as Seen, dump, dump_text};
use b67_schedule::{Given, ReadSchedule, read as read_schedule};
use std::alloc::{AllocError, Global};

/// What a text beside a source tells of a schedule.
#[derive(Drop)]
pub enum Course {
    /// This.
    Told(Given),
    /// It tells none, or there is no text at all, and this is the answer.
    Bad(Answer),
}

/// The refusal of a schedule text that is bad from a byte on.
fn refuse_schedule(alloc: Global, byte: u64) -> Result<Answer, AllocError>
    ensures { IfOk result (IsBadAt byte) }
{
    Ok(Answer {
        text: bad_schedule_line(alloc, byte)?,
        status: Status::BadSchedule { byte },
    })
}

/// What a text beside a source tells of a schedule, in an input of so many bytes, or the refusal of the text.
pub fn read_course(
    alloc: Global,
    schedule: Option<&[u8]>,
    input: usize,
) -> Result<Course, AllocError>
    ensures { IfOk result (IsCourse (option_copied schedule.entry) input) }
{
    let Some(text) = schedule else {
        return Ok(Course::Bad(refuse_schedule(alloc, input as u64)?));
    };
    match read_schedule(alloc, text) {
        Ok(given) => Ok(Course::Told(given)),
        Err(ReadSchedule::Bad(bad)) => { Ok(Course::Bad(refuse_schedule(alloc, bad.byte as u64)?)) }
        Err(ReadSchedule::NoMemory) => Err(AllocError),
    }
}

/// The answer that is the report of a source that follows what is given.
fn follow(
    alloc: Global,
    budget: u64,
    given: &Given,
    checked: &Checked,
) -> Result<Answer, AllocError>
    requires most { budget ≤ MOST_BUDGET }
    requires runs { HasRuns given.now }
    ensures { IfOk result (λ answer. Replays budget (plain checked.now.program) given.now answer.text.items answer.status) }
{
    let code = compile(alloc, checked)?;
    tell(alloc, &replay_report(alloc, budget, given, code)?)
}

/// The answer to an accepted source that follows the schedule of a text, in an input of so many bytes.
pub fn answer_replay(
    alloc: Global,
    budget: u64,
    schedule: Option<&[u8]>,
    input: usize,
    checked: &Checked,
) -> Result<Answer, AllocError>
    requires most { budget ≤ MOST_BUDGET }
    ensures { IfOk result (λ answer. OrBadSchedule (option_copied schedule.entry) input (Replays budget (plain checked.now.program)) answer.text.items answer.status) }
{
    match read_course(alloc, schedule, input)? {
        Course::Told(given) => follow(alloc, budget, &given, checked),
        Course::Bad(answer) => Ok(answer),
    }
}

/// The status under which what is seen of cells is shown.
fn status_shown(seen: &Seen) -> Status
    ensures { result ≡ status_shown seen.now }
{
    match seen {
        Seen::Shown(_) => Status::Finished,
        Seen::Illegal { entry } => Status::Illegal { entry: *entry },
    }
}

/// The answer that shows what is seen of cells.
fn show(alloc: Global, seen: &Seen) -> Result<Answer, AllocError>
    ensures { IfOk result (IsSeenAnswer seen.now) }
{
    Ok(Answer {
        text: dump_text(alloc, seen)?,
        status: status_shown(seen),
    })
}

/// The answer that shows the cells of a source after the first so many entries that are given.
fn show_after(
    alloc: Global,
    entries: u32,
    given: &Given,
    checked: &Checked,
) -> Result<Answer, AllocError>
    ensures { IfOk result (λ answer. Dumped entries (plain checked.now.program) given.now answer.text.items answer.status) }
{
    show(alloc, &dump(alloc, checked, given, u64::from(entries))?)
}

/// The answer to an accepted source whose cells are to be shown after the first so many entries of a text, in an input of so many bytes.
pub fn answer_dump(
    alloc: Global,
    entries: u32,
    schedule: Option<&[u8]>,
    input: usize,
    checked: &Checked,
) -> Result<Answer, AllocError>
    ensures { IfOk result (λ answer. OrBadSchedule (option_copied schedule.entry) input (Dumped entries (plain checked.now.program)) answer.text.items answer.status) }
{
    match read_course(alloc, schedule, input)? {
        Course::Told(given) => show_after(alloc, entries, &given, checked),
        Course::Bad(answer) => Ok(answer),
    }
}
