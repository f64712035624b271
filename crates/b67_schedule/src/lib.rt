//! Schedules: which process did each action of a run and what the action was, in order, and the text of that.
#![tactic(auto)]

mod letter;
mod lines;
mod old;
mod reading;
mod refusal;

ghost use Rattle.std.specs.Prelude.{◌≡◌, ℕ, ◌+◌, ◌<◌, ◌≤◌, [], ◌∷◌, ◌++◌, ◌↔◌, length, replicate, IsTrue, IfOk, OnOk};
ghost use Rattle.std.specs.Vec.{vec_capacity};
ghost use Rattle.std.specs.List.{flat_map};
ghost use Rattle.b67_schedule.specs.Letters.{bytes_of};
ghost use Rattle.b67_schedule.specs.declared.TheConstants.{MOST_NUMBER};
ghost use Rattle.b67_schedule.specs.Schedules.{most_in_schedule, entries, AreRuns, IsSchedule, IsLastRun, letter_line, letter_lines, ScheduleText};

pub use b67_deeds::Letter;
use b67_list::push_number;
pub use b67_text::BadText;
pub use old::OldSchedule;
pub use reading::{Given, read, read_from, schedules_have_own_texts, versions_have_own_texts};
pub use refusal::ReadSchedule;
use std::alloc::{AllocError, Global};
use std::marker::Model;

/// The greatest number in the text of a schedule.
pub const MOST_NUMBER: u32 = 999_999_999;

/// So many actions of one process, one after another. Both numbers are from 1 to 999,999,999.
#[derive(Clone, Copy)]
pub struct Run {
    pub process: u32,
    pub times: u32,
}

/// Which process did each action of a run and what the action was, in order. Contracts see the runs of equal processes, as few as
/// they can be, the letter of each action, and for how many actions there is room.
#[derive(Drop)]
pub struct Schedule {
    runs: Vec<Run>,
    letters: Vec<Letter>,
}

impl Model for Schedule {
    ghost use Rattle.std.specs.Prelude.{◌≡◌, length, min};
    ghost use Rattle.std.specs.Vec.{vec_capacity};
    ghost use Rattle.b67_schedule.specs.Schedules.{ScheduleModel, entries, IsSchedule};

    ghost Value = { ScheduleModel };

    ghost view = { λ schedule. record {
      runs = schedule.runs.items;
      letters = schedule.letters.items;
      room = min (vec_capacity schedule.runs) (vec_capacity schedule.letters);
    } };

    ghost invariant = { λ schedule. IsSchedule schedule.runs.items schedule.letters.items };
}

impl Schedule {
    /// A schedule without actions, with room for so many: a run and a letter for each.
    pub fn with_room(alloc: Global, actions: usize) -> Result<Schedule, AllocError>
        ensures empty { IfOk result (λ schedule. (schedule.runs ≡ []) × (schedule.letters ≡ [])) }
        ensures valid { IfOk result (λ schedule. IsSchedule schedule.runs schedule.letters) }
        ensures room { IfOk result (λ schedule. schedule.room ≡ actions) }
    {
        let runs = Vec::with_capacity(alloc, actions)?;
        let letters = Vec::with_capacity(alloc, actions)?;
        Ok(Schedule { runs, letters })
    }

    /// Adds an action of this process after the others. Takes no memory.
    #[inline]
    pub fn push(&mut self, process: u32, letter: Letter)
        requires room { length self.old.letters < self.old.room }
        requires least { 1 ≤ process }
        requires greatest { process ≤ most_in_schedule }
        requires actions { length self.old.letters < most_in_schedule }
        ensures added { entries self.new.runs ≡ entries self.old.runs ++ process ∷ [] }
        ensures letters { self.new.letters ≡ self.old.letters ++ letter ∷ [] }
        ensures valid { IsSchedule self.new.runs self.new.letters }
        ensures room { self.old.room ≤ self.new.room }
    {
        add(&mut self.runs, process, 1);
        self.letters.push(letter).unwrap();
    }

    /// Adds an action of this process for each of these letters after the others; where there are none of them, all is as it was. Takes no
    /// memory.
    pub fn push_many(&mut self, process: u32, letters: &[Letter])
        requires room { length self.old.letters + length letters.now ≤ self.old.room }
        requires least { 1 ≤ process }
        requires greatest { process ≤ most_in_schedule }
        requires actions { length self.old.letters + length letters.now ≤ most_in_schedule }
        ensures added { entries self.new.runs ≡ entries self.old.runs ++ replicate (length letters.now) process }
        ensures letters { self.new.letters ≡ self.old.letters ++ letters.now }
        ensures none { letters.now ≡ [] → self.new ≡ self.old }
        ensures valid { IsSchedule self.new.runs self.new.letters }
        ensures room { self.old.room ≤ self.new.room }
    {
        let _used = self.letters.len();
        let times = letters.len() as u32;
        if times == 0 {
            return;
        }
        add(&mut self.runs, process, times);
        self.letters.extend_from_slice(letters).unwrap();
    }

    /// The runs, in order. Runs next to each other are of different processes.
    pub fn runs(&self) -> &[Run]
        ensures value { result.now ≡ self.now.runs }
        ensures valid { IsSchedule self.now.runs self.now.letters }
    {
        self.runs.as_slice()
    }

    /// The letter of each action, in order.
    pub fn letters(&self) -> &[Letter]
        ensures value { result.now ≡ self.now.letters }
        ensures valid { IsSchedule self.now.runs self.now.letters }
    {
        self.letters.as_slice()
    }

    /// How many actions there are.
    pub fn len(&self) -> u64
        ensures { result ≡ length (entries self.now.runs) }
    {
        self.letters.len() as u64
    }

    /// The schedule as a text: the line `SCHEDULE 2 r` with the number r of runs, and then for each run a line of its process and the
    /// letters of its actions.
    pub fn text(&self) -> Result<Vec<u8>, AllocError>
        ensures { IfOk result (λ text. text.items ≡ ScheduleText self.now.runs self.now.letters) }
    {
        let mut text = Vec::new(*self.runs.allocator());
        self.push_text(&mut text)?;
        Ok(text)
    }

    /// Appends the schedule as a text, or on `Err` no more than a part of it.
    pub fn push_text(&self, text: &mut Vec<u8>) -> Result<(), AllocError>
        ensures { OnOk result (text.new.items ≡ text.old.items ++ ScheduleText self.now.runs self.now.letters) }
    {
        push_number(text, b"SCHEDULE 2 ", self.runs.len())?;
        text.extend_from_slice(b"\n")?;
        let mut at = 0;
        'lines: for run in &self.runs {
            let after = at + run.times as usize;
            push_line(text, run.process, &self.letters[at..after])?;
            at = after;
        }
        Ok(())
    }
}

/// Adds so many actions of this process after those of the runs. Takes no memory.
#[inline(always)]
fn add(runs: &mut Vec<Run>, process: u32, times: u32)
    requires room { length runs.old.items < vec_capacity runs.old }
    requires are { AreRuns runs.old.items }
    requires least { 1 ≤ process }
    requires greatest { process ≤ most_in_schedule }
    requires some { 1 ≤ times }
    requires few { length (entries runs.old.items) + times ≤ most_in_schedule }
    ensures are { AreRuns runs.new.items }
    ensures added { entries runs.new.items ≡ entries runs.old.items ++ replicate times process }
    ensures room { vec_capacity runs.old ≤ vec_capacity runs.new }
{
    if is_last(runs.as_slice(), process) {
        let last = runs.len() - 1;
        runs[last].times += times;
    } else {
        runs.push(Run { process, times }).unwrap();
    }
}

/// Tests that the last run is of this process.
#[inline(always)]
fn is_last(runs: &[Run], process: u32) -> bool
    ensures { IsTrue result ↔ IsLastRun runs.now process }
{
    runs.last().is_some_and(|last| last.process == process)
}

/// Appends the line of actions of a process, or on `Err` no more than a part of it.
fn push_line(text: &mut Vec<u8>, process: u32, letters: &[Letter]) -> Result<(), AllocError>
    ensures { OnOk result (text.new.items ≡ text.old.items ++ letter_line process letters.now) }
{
    if process < 10 && letters.len() == 1 {
        return push_short_line(text, process, letters[0]);
    }
    push_number(text, b"", process)?;
    text.extend_from_slice(b" ")?;
    push_letters(text, letters)?;
    text.extend_from_slice(b"\n")
}

/// Appends the line of one action of a process whose number has one digit, at once, or on `Err` nothing.
fn push_short_line(text: &mut Vec<u8>, process: u32, letter: Letter) -> Result<(), AllocError>
    requires { process < 10 }
    ensures { OnOk result (text.new.items ≡ text.old.items ++ letter_line process (letter ∷ [])) }
{
    text.extend_from_slice(&[b'0' + process as u8, b' ', letter.byte(), b'\n'])
}

/// Appends the bytes of letters, or on `Err` nothing.
fn push_letters(text: &mut Vec<u8>, letters: &[Letter]) -> Result<(), AllocError>
    ensures { OnOk result (text.new.items ≡ text.old.items ++ bytes_of letters.now) }
{
    let from = text.len();
    text.resize(from + letters.len(), 0)?;
    'letters: for index in 0..letters.len() {
        text[from + index] = letters[index].byte();
    }
    Ok(())
}

/// Law: the number of this crate, which schedules and their texts are defined with: a number of a schedule has at most nine digits, by this
/// project's profile.
pub fn numbers_are_told()
    ensures { MOST_NUMBER ≡ 999999999 }
{}
