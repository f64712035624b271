//! The answers to a report beside an accepted source: whether it is just, and the races of its schedule.

ghost use Rattle.std.specs.Prelude.{◌≡◌, IfOk, option_copied};
ghost use Rattle.algol_tree.specs.Image.{program as plain};
ghost use Rattle.b67_desk.specs.Judging.{OrBadReport, OrUnjust, SaysJust, TellsRaces, bad_report_text};
ghost use Rattle.b67_desk.specs.Judged.{IsShortText, IsFew, IsBadReportAt, IsBeside, IsVerdictAnswer, IsRacesAnswer, verdict_status};

use crate::asking::Answer;
use crate::status::Status;
use algol_front::Checked;
use b67_judge::{Verdict, judge, verdict_line};
use b67_list::push_number;
use b67_races::{races, races_lines};
use b67_report::{ReadReport, Report, read_report};
use std::alloc::{AllocError, Global};

/// What stands beside a source.
#[derive(Drop)]
enum Beside {
    /// This report.
    Told(Report),
    /// A text that tells none, or no text at all, and this is the answer.
    Bad(Answer),
}

/// The line of a report text that is bad from a byte on.
fn bad_report_line(alloc: Global, byte: u64) -> Result<Vec<u8>, AllocError>
    ensures { IfOk result (λ text. text.items ≡ bad_report_text byte) }
{
    let mut text = Vec::new(alloc);
    push_number(&mut text, b"BAD REPORT ", byte)?;
    text.extend_from_slice(b"\n")?;
    Ok(text)
}

/// The refusal of a report text that is bad from a byte on.
fn refuse_report(alloc: Global, byte: u64) -> Result<Answer, AllocError>
    ensures { IfOk result (IsBadReportAt byte) }
{
    Ok(Answer {
        text: bad_report_line(alloc, byte)?,
        status: Status::BadReport { byte },
    })
}

/// The report that a text beside a source tells, in an input of so many bytes, or the refusal of the text.
fn read_beside(alloc: Global, text: Option<&[u8]>, input: usize) -> Result<Beside, AllocError>
    requires { IsShortText (option_copied text) }
    ensures { IfOk result (IsBeside (option_copied text.entry) input) }
{
    let Some(text) = text else {
        return Ok(Beside::Bad(refuse_report(alloc, input as u64)?));
    };
    match read_report(alloc, text) {
        Ok(report) => Ok(Beside::Told(report)),
        Err(ReadReport::BadReport { byte }) => {
            Ok(Beside::Bad(refuse_report(alloc, byte as u64)?))
        }
        Err(ReadReport::NoMemory) => Err(AllocError),
    }
}

/// The status under which a verdict is told.
fn verdict_status(verdict: Verdict) -> Status
    ensures { result ≡ verdict_status verdict }
{
    match verdict {
        Verdict::Just => Status::Finished,
        Verdict::BadEntry { .. } | Verdict::BadLine { .. } | Verdict::BadEnd => {
            Status::Unjust { verdict }
        }
    }
}

/// The answer that tells a verdict.
fn tell_verdict(alloc: Global, verdict: Verdict) -> Result<Answer, AllocError>
    ensures { IfOk result (IsVerdictAnswer verdict) }
{
    Ok(Answer {
        text: verdict_line(alloc, verdict)?,
        status: verdict_status(verdict),
    })
}

/// The answer to a report that is judged.
fn judge_report(alloc: Global, checked: &Checked, report: &Report) -> Result<Answer, AllocError>
    requires { IsFew report.now }
    ensures { IfOk result (λ answer. OrUnjust (plain checked.now.program) report.now SaysJust answer.text.items answer.status) }
{
    tell_verdict(alloc, judge(alloc, checked, report)?)
}

/// The answer that tells the races of a source under the schedule of a report, which is legal.
fn tell_races(alloc: Global, checked: &Checked, report: &Report) -> Result<Answer, AllocError>
    requires { IsFew report.now }
    ensures { IfOk result (IsRacesAnswer (plain checked.now.program) report.now) }
{
    let found = races(alloc, checked, &report.schedule)?;
    Ok(Answer {
        text: races_lines(alloc, found.as_slice())?,
        status: Status::Finished,
    })
}

/// The answer to a report whose races are wanted.
fn race_report(alloc: Global, checked: &Checked, report: &Report) -> Result<Answer, AllocError>
    requires { IsFew report.now }
    ensures { IfOk result (λ answer. OrUnjust (plain checked.now.program) report.now (TellsRaces (plain checked.now.program) report.now) answer.text.items answer.status) }
{
    let verdict = judge(alloc, checked, report)?;
    match verdict {
        Verdict::Just => tell_races(alloc, checked, report),
        _ => tell_verdict(alloc, verdict),
    }
}

/// The answer to an accepted source and a text beside it that is judged, in an input of so many bytes.
pub fn answer_judge(
    alloc: Global,
    text: Option<&[u8]>,
    input: usize,
    checked: &Checked,
) -> Result<Answer, AllocError>
    requires { IsShortText (option_copied text) }
    ensures { IfOk result (λ answer. OrBadReport (option_copied text.entry) input (λ report. OrUnjust (plain checked.now.program) report SaysJust) answer.text.items answer.status) }
{
    match read_beside(alloc, text, input)? {
        Beside::Told(report) => judge_report(alloc, checked, &report),
        Beside::Bad(answer) => Ok(answer),
    }
}

/// The answer to an accepted source and a text beside it whose races are wanted, in an input of so many bytes.
pub fn answer_race(
    alloc: Global,
    text: Option<&[u8]>,
    input: usize,
    checked: &Checked,
) -> Result<Answer, AllocError>
    requires { IsShortText (option_copied text) }
    ensures { IfOk result (λ answer. OrBadReport (option_copied text.entry) input (λ report. OrUnjust (plain checked.now.program) report (TellsRaces (plain checked.now.program) report)) answer.text.items answer.status) }
{
    match read_beside(alloc, text, input)? {
        Beside::Told(report) => race_report(alloc, checked, &report),
        Beside::Bad(answer) => Ok(answer),
    }
}
