//! A schedule from its text.

ghost use Rattle.std.specs.Prelude.{◌≡◌, ℕ, ◌≤◌, List, IfOk, IfErr, MatchResult, length};
ghost use Rattle.b67_text.specs.Texts.{PartStands, StopsAt};
ghost use Rattle.b67_schedule.specs.declared.Run.{Run as TheRun};
ghost use Rattle.b67_deeds.specs.declared.Letter.{Letter as TheLetter};
ghost use Rattle.b67_schedule.specs.declared.reading.Given.{Given as TheGiven};
ghost use Rattle.b67_schedule.specs.Schedules.{AreRuns, IsSchedule, OldText, ScheduleText};
ghost use Rattle.b67_schedule.specs.Reading.{IsOldText, IsScheduleText, IsGivenText, ScheduleRefuses, RefusesAt, numbers_of_schedule};
ghost use Rattle.b67_schedule.specs.Giving.{HasRuns, IsTextOf, given_entries, SaySame};

use crate::lines::read_lines;
use crate::old::{actions_of, read_runs};
use crate::{MOST_NUMBER, OldSchedule, ReadSchedule, Schedule};
use b67_list::List;
use b67_text::{BadText, Numbers, read_number, read_word};
use std::alloc::Global;

/// What a text tells: which process did each action, in version 2 with what the action was.
#[derive(Drop)]
pub enum Given {
    One(OldSchedule),
    Two(Schedule),
}

impl Given {
    /// How many actions there are.
    pub fn len(&self) -> u64
        requires { HasRuns self.now }
        ensures { result ≡ length (given_entries self.now) }
    {
        match self {
            Given::One(old) => actions_of(old.runs.items().as_slice()),
            Given::Two(schedule) => schedule.len(),
        }
    }
}

/// What the text that the bytes are tells. Where they are no text of either version, the refusal has the length of their longest front
/// that some more bytes make such a text.
pub fn read(alloc: Global, bytes: &[u8]) -> Result<Given, ReadSchedule>
    ensures read { IfOk result (λ given. IsTextOf given bytes.now) }
    ensures again { (given : TheGiven) → IsTextOf given bytes.now → MatchResult result (λ found. SaySame found given) (λ e. e ≡ ReadSchedule.NoMemory) }
    ensures refused { IfErr result (λ e. ScheduleRefuses IsGivenText e bytes.now) }
{
    match read_word(bytes, 0, b"SCHEDULE 1 ") {
        Ok(_) => Ok(Given::One(read_old(alloc, bytes)?)),
        Err(old) => match read_new(alloc, bytes) {
            Ok(schedule) => Ok(Given::Two(schedule)),
            Err(ReadSchedule::Bad(new)) => Err(ReadSchedule::Bad(BadText {
                byte: old.byte.max(new.byte),
            })),
            Err(ReadSchedule::NoMemory) => Err(ReadSchedule::NoMemory),
        },
    }
}

/// The runs whose text of version 1 the bytes are.
fn read_old(alloc: Global, bytes: &[u8]) -> Result<OldSchedule, ReadSchedule>
    ensures read { IfOk result (λ old. AreRuns old.runs × (bytes.now ≡ OldText old.runs)) }
    ensures refused { IfErr result (λ e. ScheduleRefuses IsOldText e bytes.now) }
{
    let next = read_word(bytes, 0, b"SCHEDULE 1 ")?;
    let (count, next) = read_number(bytes, next, &numbers(0, None), b'\n')?;
    let (runs, next) = read_runs(alloc, bytes, next, count)?;
    if next < bytes.len() {
        return Err(ReadSchedule::Bad(BadText { byte: next }));
    }
    Ok(OldSchedule {
        runs: List::of(runs),
    })
}

/// The schedule whose text the bytes are.
fn read_new(alloc: Global, bytes: &[u8]) -> Result<Schedule, ReadSchedule>
    ensures read { IfOk result (λ schedule. IsSchedule schedule.runs schedule.letters × (bytes.now ≡ ScheduleText schedule.runs schedule.letters)) }
    ensures refused { IfErr result (λ e. ScheduleRefuses IsScheduleText e bytes.now) }
{
    let (schedule, next) = read_from(alloc, bytes, 0)?;
    if next < bytes.len() {
        return Err(ReadSchedule::Bad(BadText { byte: next }));
    }
    Ok(schedule)
}

/// The schedule whose text stands at a place, and the place after it. Where none stands there, the refusal has the
/// place where the longest beginning of such a text ends.
pub fn read_from(alloc: Global, bytes: &[u8], at: usize) -> Result<(Schedule, usize), ReadSchedule>
    requires { at ≤ length bytes.now }
    ensures read { IfOk result (λ found. IsSchedule found.0.runs found.0.letters × PartStands (ScheduleText found.0.runs found.0.letters) bytes.now at found.1) }
    ensures refused { IfErr result (λ e. RefusesAt e IsScheduleText bytes.now at) }
{
    let next = read_word(bytes, at, b"SCHEDULE 2 ")?;
    let (count, next) = read_number(bytes, next, &numbers(0, None), b'\n')?;
    let (runs, letters, next) = read_lines(alloc, bytes, next, count)?;
    Ok((Schedule { runs, letters }, next))
}

/// The numbers of a schedule's text from this one on, without the other.
pub fn numbers(least: u64, except: Option<u64>) -> Numbers
    ensures { result ≡ numbers_of_schedule least except }
{
    Numbers {
        least,
        most: u64::from(MOST_NUMBER),
        except,
    }
}

/// Different schedules have different texts, and so have different runs in version 1.
pub fn schedules_have_own_texts()
    ensures new { (runs others : List TheRun) (letters more : List TheLetter) → IsSchedule runs letters → IsSchedule others more
        → ScheduleText runs letters ≡ ScheduleText others more → (runs ≡ others) × (letters ≡ more) }
    ensures old { (runs others : List TheRun) → AreRuns runs → AreRuns others → OldText runs ≡ OldText others → runs ≡ others }
{}

/// No text is of both versions.
pub fn versions_have_own_texts()
    ensures { (runs others : List TheRun) (letters : List TheLetter) → OldText runs ≡ ScheduleText others letters → ⊥ }
{}
