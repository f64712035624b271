//! The top call.

ghost use Rattle.std.specs.Prelude.{◌≡◌, ◌≤◌, ℕ, List, IfOk, length, map, string_bytes};
ghost use Rattle.b67_make.specs.Made.{made};
ghost use Rattle.b67_desk.specs.Answers.{AnswersBytes, most_bytes, HasAnswer, Reading, Workers, by_all, by_one, source_reading, writing};
ghost use Rattle.b67_desk.specs.Calls.{Asks, CallAnswered, CallAsked, CanBeMade, CommandAsked, InRange, InputRead, SourceIsFound, IsRunAnswer, IsTooLong, IsUsage, SourceAsked};

use crate::asking::{Answer, Asked, Found, Job, Unanswered, settled};
use crate::exec::answer_exec;
use crate::form::{divide, form_of};
use crate::running::{run_report, share_report};
use crate::status::{Code, Status};
use crate::texts::{too_long_line, usage_line};
use crate::tree::{answer_trial, ask_tree, refuse, tell};
use algol_front::front;
use algol_tree::{MOST_SOURCE_BYTES, Refusal};
use b67_io::{ReadAll, Sink, Source, WriteAll, read_all, write_all};
use b67_make::make;
use b67_processors::Gate;
use b67_words::{BadWords, Task, UsageKind, Words, read_words};
use std::alloc::{AllocError, Global};
use std::sync::Wait;
use std::thread::Threads;

// ---- what is asked for

/// The answer to a text that is too long.
fn refuse_length(alloc: Global) -> Result<Answer, AllocError>
    ensures { IfOk result IsTooLong }
{
    Ok(Answer {
        text: too_long_line(alloc)?,
        status: Status::TooLong,
    })
}

/// The tree of a source, or the answer to what is none.
fn find(alloc: Global, source: &[u8]) -> Result<Found, AllocError>
    ensures { IfOk result (SourceIsFound source.now) }
{
    if source.len() > MOST_SOURCE_BYTES {
        return Ok(Found::Refused(refuse_length(alloc)?));
    }
    match front(alloc, source) {
        Ok(checked) => Ok(Found::Accepted(checked)),
        Err(Refusal::At { spot, code }) => {
            Ok(Found::Refused(refuse(alloc, spot, Code::OfSource(code))?))
        }
        Err(Refusal::NoMemory) => Err(AllocError),
    }
}

/// What a task with the source in bytes that were read asks for.
fn ask_bytes(alloc: Global, task: Task, bytes: &[u8]) -> Result<Asked, AllocError>
    requires range { InRange (Words.OnSource task) }
    requires few { length bytes.now ≤ most_bytes (Words.OnSource task) }
    ensures { IfOk result (Asks (λ by. AnswersBytes by (Words.OnSource task) bytes.now)) }
{
    let (source, text) = divide(form_of(Words::OnSource(task)).mark, bytes);
    match find(alloc, source)? {
        Found::Accepted(checked) => ask_tree(alloc, task, text, bytes.len(), &checked),
        Found::Refused(answer) => Ok(Asked::Settled(answer)),
    }
}

/// Reads an input to its end: its bytes, or nothing where they are more than so many.
fn read_input<S: Source>(
    alloc: Global,
    most: usize,
    source: &mut S,
) -> Result<Option<Vec<u8>>, Unanswered>
    ensures { InputRead most (source_reading S.left S.faults source.old source.new) result }
{
    match read_all(alloc, source, most) {
        Ok(bytes) => Ok(Some(bytes)),
        Err(ReadAll::TooLong) => Ok(None),
        Err(ReadAll::Failed) => Err(Unanswered::ReadFault),
        Err(ReadAll::NoMemory) => Err(Unanswered::NoMemory),
    }
}

/// Reads a source, and finds what a task with it asks for.
fn ask_source<S: Source>(alloc: Global, task: Task, source: &mut S) -> Result<Asked, Unanswered>
    requires { InRange (Words.OnSource task) }
    ensures { SourceAsked (Words.OnSource task) (source_reading S.left S.faults source.old source.new) result }
{
    match read_input(alloc, form_of(Words::OnSource(task)).most, source)? {
        Some(bytes) => Ok(ask_bytes(alloc, task, bytes.as_slice())?),
        None => Ok(Asked::Settled(refuse_length(alloc)?)),
    }
}

/// Reads a text of code, and finds what answers it under a budget.
fn ask_code<S: Source>(alloc: Global, budget: u64, source: &mut S) -> Result<Asked, Unanswered>
    requires { InRange (Words.Exec budget) }
    ensures { SourceAsked (Words.Exec budget) (source_reading S.left S.faults source.old source.new) result }
{
    match read_input(alloc, form_of(Words::Exec { budget }).most, source)? {
        Some(bytes) => Ok(Asked::Settled(answer_exec(alloc, budget, bytes.as_slice())?)),
        None => Ok(Asked::Settled(refuse_length(alloc)?)),
    }
}

/// What the source that is made from a number asks for.
fn ask_trial(alloc: Global, n: u32) -> Result<Asked, AllocError>
    ensures { IfOk result (Asks (λ by. AnswersBytes by (Words.Trial n) (made n))) }
{
    let bytes = make(alloc, n)?;
    let source = bytes.as_slice();
    match find(alloc, source)? {
        Found::Accepted(checked) => settled(answer_trial(alloc, source.len(), &checked)),
        Found::Refused(answer) => Ok(Asked::Settled(answer)),
    }
}

/// What a command asks for, and where it reads its input the source.
fn ask_command<S: Source>(
    alloc: Global,
    command: Words,
    source: &mut S,
) -> Result<Asked, Unanswered>
    requires { InRange command }
    ensures { CommandAsked command (source_reading S.left S.faults source.old source.new) result }
{
    match command {
        Words::OnSource(task) => ask_source(alloc, task, source),
        Words::Exec { budget } => ask_code(alloc, budget, source),
        Words::Trial { n } => Ok(ask_trial(alloc, n)?),
    }
}

/// The word that breaks the grammar, and what is wrong with it.
fn usage_in(bad: BadWords) -> (u32, UsageKind)
    ensures { bad ≡ BadWords.Usage result.0 result.1 }
{
    match bad {
        BadWords::Usage { word, kind } => (word, kind),
    }
}

/// The refusal of words that are no command.
fn refuse_words(alloc: Global, bad: BadWords) -> Result<Asked, Unanswered>
    ensures { IsUsage bad result }
{
    let (word, kind) = usage_in(bad);
    Ok(Asked::Settled(Answer {
        text: usage_line(alloc, word, kind)?,
        status: Status::Usage { word, kind },
    }))
}

/// What the words ask for, and where they are a command the source.
fn ask_call<S: Source>(alloc: Global, words: &[String], source: &mut S) -> Result<Asked, Unanswered>
    ensures { CallAsked (map string_bytes words.now) (source_reading S.left S.faults source.old source.new) result }
{
    match read_words(words) {
        Ok(command) => ask_command(alloc, command, source),
        Err(bad) => refuse_words(alloc, bad),
    }
}

// ---- who does the work

/// The report of a run that is made in the caller.
fn do_alone(alloc: Global, job: Job) -> Result<Answer, AllocError>
    requires { CanBeMade job }
    ensures { IfOk result (IsRunAnswer by_one job) }
{
    tell(alloc, &run_report(alloc, job)?)
}

/// The report of a run that is made by its processors, each in a thread of its own. A single one has nobody to share with: the caller is it.
fn do_shared<R: Threads + Wait + Sync, G: Gate + Sync>(
    rt: &R,
    gate: &G,
    alloc: Global,
    job: Job,
) -> Result<Answer, AllocError>
    requires { CanBeMade job }
    ensures { IfOk result (IsRunAnswer by_all job) }
{
    if job.processors == 1 {
        return do_alone(alloc, job);
    }
    tell(alloc, &share_report(rt, gate, alloc, job)?)
}

/// Answers the words, and where they are a command the source, in the caller.
fn answer_alone<S: Source>(
    alloc: Global,
    words: &[String],
    source: &mut S,
) -> Result<Answer, Unanswered>
    ensures { CallAnswered by_one (map string_bytes words.now) (source_reading S.left S.faults source.old source.new) result }
{
    match ask_call(alloc, words, source) {
        Ok(Asked::Settled(answer)) => Ok(answer),
        Ok(Asked::Run(job)) => Ok(do_alone(alloc, job)?),
        Err(why) => Err(why),
    }
}

/// Answers the words, and where they are a command the source. Processors share a run.
fn answer_shared<S: Source, R: Threads + Wait + Sync, G: Gate + Sync>(
    rt: &R,
    gate: &G,
    alloc: Global,
    words: &[String],
    source: &mut S,
) -> Result<Answer, Unanswered>
    ensures { CallAnswered by_all (map string_bytes words.now) (source_reading S.left S.faults source.old source.new) result }
{
    match ask_call(alloc, words, source) {
        Ok(Asked::Settled(answer)) => Ok(answer),
        Ok(Asked::Run(job)) => Ok(do_shared(rt, gate, alloc, job)?),
        Err(why) => Err(why),
    }
}

/// Writes an answer, where there is one, and says how the call ended.
fn write_answer<K: Sink>(sink: &mut K, answer: Result<Answer, Unanswered>) -> Status
    ensures { (by : Workers) (words : List (List ℕ)) (r : Reading) → CallAnswered by words r answer → HasAnswer by words r
        (writing K.written K.faults sink.old sink.new)
        result }
{
    match answer {
        Ok(answer) => match write_all(sink, answer.text.as_slice()) {
            Ok(()) => answer.status,
            Err(WriteAll::Failed { .. }) => Status::WriteFault,
        },
        Err(why) => match why {
            Unanswered::ReadFault => Status::ReadFault,
            Unanswered::NoMemory => Status::NoMemory,
        },
    }
}

// ---- the call

/// The top call: reads the words of a command and a source, does what they ask for in the caller as processor 1, and
/// writes the answer.
///
/// `words` are the words after the program's name; the commands are `run P B`, `run P B --rule=R`, `replay B` and `exec B`
/// with P of 1 to [`MOST_PROCESSORS`](b67_limits::MOST_PROCESSORS) processors, a budget B of 1 to [`MOST_BUDGET`](b67_limits::MOST_BUDGET)
/// operators and a rule of dispatch R, `check`, `list`, `judge`, `race`, `dump K` with a number K of 0 to [`MOST_ENTRIES`](b67_words::MOST_ENTRIES)
/// entries, `console`, `outcomes N` with a number N of 1 to [`MOST_STATES`](b67_words::MOST_STATES) states, and `trial N` with a number N of 0
/// to [`MOST_TRIAL`](b67_words::MOST_TRIAL).
/// `source` gives the bytes of an ALGOL source, at most [`MOST_SOURCE_BYTES`] of them, and is read to its end. Under `replay`, `dump` and `console` it gives at
/// most [`MOST_INPUT_BYTES`](b67_parts::MOST_INPUT_BYTES): after the source a record that is exactly `%%SCHEDULE`, and after that the text of the schedule to be
/// followed; under `console` a record that is exactly `%%CONSOLE` ends that text, and lines of commands come after it. Under `judge` and `race` it
/// gives as many: after the source a record that is exactly `%%REPORT`, and after that the text of a report. Under `exec` it gives a text of code in place of a source. Under `trial` nothing is read, and the source is the one that is
/// made from the number. `sink` gets the answer whole: the report of the run, the listing of the code, the word ACCEPTED, what a run by
/// turns says, what a trial says, that a report is just or what is wrong with it, its races, the cells after the first entries of a schedule,
/// what the commands of a console show, the outcomes of the source, or one line of refusal. It returns on every input.
///
/// The first of these that holds is the answer. `Usage` comes exactly where the words break the grammar, names the first word
/// that does, and nothing is read. `ReadFault` comes only where the source's count of faults rose, and nothing is written.
/// `TooLong` comes exactly where there are too many bytes, or too many of the source part. `Refused` comes exactly where the
/// source is not accepted, with the first place that breaks a rule and the rule's code.
/// `BadSchedule` comes on `replay`, `dump` and `console` exactly where there is no such record, at the length of the input, or where the schedule text
/// is none, at the length of its longest front that begins one. Else `check` and `list` end with `Finished`, and `run` and
/// `replay` are reported: `Finished`, `Fault` or `AllWaiting` where the run has that end, and on `replay` no entry is left;
/// `BudgetSpent` where the operators came to the budget first, and `StackLimit` where a stack would have too many words; and on
/// `replay` `Illegal` where the next entry can not be performed, `ScheduleEnded` where none is left and the run goes on, and `Differs`
/// where an entry was performed with another letter than the given one, whatever the run comes to with it. A schedule of version 1
/// gives no letters.
/// On `dump` `Illegal` comes exactly where one of the first K entries can not be performed, and is told by itself; the entries after them are
/// not judged, and letters are passed over. Else it ends with `Finished`, and shows the cells after them, or after all where there are fewer.
/// On `console` `BadConsole` comes exactly where a line after the schedule is the first that is no command, or the first of too many, and names
/// it; the first line where there is no such record. Else the schedule is replayed under the greatest budget. Where not all of it is
/// performed, the answer is that report, and its status; else it ends with `Finished`, and shows what the commands ask for, of the code that this
/// report lists.
/// On `outcomes` the outcomes of the source are told: with `Finished` exactly where the text says that they are all, and with `Cut` where it says that
/// others may be missing, since N states are kept, a run is too long for a replay, or the text would be too long.
/// `BadReport` comes on `judge` and `race` as `BadSchedule` on `replay`, of the report's text. `Unjust` comes there exactly where what the
/// report says is not so of the source, with what is wrong with it. Else they end with `Finished`, and `race` tells each race of the source
/// under the report's schedule.
/// On `exec` `Refused` comes exactly where the text has no code, at the start of the first line that breaks a rule, with the code of the
/// lowest rule that it breaks. Else the run of its code by turns is told: `Finished`, `Fault` or `AllWaiting` where it comes to that end,
/// `Interrupt` and `StackLimit` exactly where the next operator of the process whose turn it is comes to that, and `BudgetSpent` where as
/// many operators were performed as the budget has, and nothing else stopped it.
/// On `trial` the length of the made source, and the output and the end of its run by one processor under the greatest budget are told, with
/// the status of that run. `Refused` comes exactly where the made source is not accepted.
/// `WriteFault` comes only where the sink's count of faults rose, and what was written is a front of the answer. `NoMemory` may
/// come instead of any of them, and then nothing is written.
///
/// Command, statuses and report are this project's profile.
pub fn desk_alone<S: Source, K: Sink>(
    alloc: Global,
    words: &[String],
    source: &mut S,
    sink: &mut K,
) -> Status
    ensures { HasAnswer by_one (map string_bytes words.now)
        (source_reading S.left S.faults source.old source.new)
        (writing K.written K.faults sink.old sink.new)
        result }
{
    let answer = answer_alone(alloc, words, source);
    write_answer(sink, answer)
}

/// The top call, where processors share the work of `run`, each in a thread of its own: they pass the gate before each landing. On one
/// processor, and on every other command, it does what [`desk_alone`] does. It may wait on `run`, and is not promised to return there.
pub fn desk<S: Source, K: Sink, G: Gate + Sync, R: Threads + Wait + Sync>(
    rt: &R,
    alloc: Global,
    words: &[String],
    source: &mut S,
    sink: &mut K,
    gate: &G,
) -> Status
    ensures { HasAnswer by_all (map string_bytes words.now)
        (source_reading S.left S.faults source.old source.new)
        (writing K.written K.faults sink.old sink.new)
        result }
{
    let answer = answer_shared(rt, gate, alloc, words, source);
    write_answer(sink, answer)
}
