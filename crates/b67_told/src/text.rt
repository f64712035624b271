//! The text of outcomes.

ghost use Rattle.std.specs.Prelude.{◌≡◌, ◌++◌, IfOk, OnOk, codes};
ghost use Rattle.std.specs.Fmt.{decimal};
ghost use Rattle.b67_schedule.specs.Schedules.{OldText, run_line};
ghost use Rattle.b67_told.specs.Texts.{given_text, told_text, head_text, cut_words};

use crate::Told;
use b67_list::push_number;
use b67_report::{push_end, push_lines};
use b67_schedule::{Given, Run};
use std::alloc::{AllocError, Global};

// Appends the line of a run.
fn push_run(text: &mut Vec<u8>, run: Run) -> Result<(), AllocError>
    ensures { OnOk result (text.new.items ≡ text.old.items ++ run_line run) }
{
    push_number(text, b"", run.process)?;
    push_number(text, b"*", run.times)?;
    text.extend_from_slice(b"\n")
}

// Appends the head line of a schedule in version 1, with the number of its runs.
fn push_head(text: &mut Vec<u8>, runs: usize) -> Result<(), AllocError>
    ensures { OnOk result (text.new.items ≡ text.old.items ++ (codes "SCHEDULE 1 " ++ decimal runs ++ codes "\n")) }
{
    push_number(text, b"SCHEDULE 1 ", runs)?;
    text.extend_from_slice(b"\n")
}

// Appends the text of a schedule in version 1.
fn push_runs(text: &mut Vec<u8>, runs: &[Run]) -> Result<(), AllocError>
    ensures { OnOk result (text.new.items ≡ text.old.items ++ OldText runs.now) }
{
    push_head(text, runs.len())?;
    'runs: for run in runs {
        push_run(text, *run)?;
    }
    Ok(())
}

// Appends the text of a schedule.
fn push_given(text: &mut Vec<u8>, given: &Given) -> Result<(), AllocError>
    ensures { OnOk result (text.new.items ≡ text.old.items ++ given_text given.now) }
{
    match given {
        Given::One(old) => push_runs(text, old.runs.items().as_slice()),
        Given::Two(schedule) => schedule.push_text(text),
    }
}

/// The text of an outcome: its output, how the run ended, and a schedule.
pub fn text_of(alloc: Global, told: &Told) -> Result<Vec<u8>, AllocError>
    ensures { IfOk result (λ text. text.items ≡ told_text told.now) }
{
    let mut text = Vec::new(alloc);
    push_lines(
        &mut text,
        b"OUTPUT ",
        told.outcome.output.items().as_slice(),
    )?;
    push_end(&mut text, &told.outcome.end)?;
    text.extend_from_slice(b"\n")?;
    push_given(&mut text, &told.schedule)?;
    Ok(text)
}

// The word that says whether some outcomes may be missing.
fn cut_words(cut: bool) -> &'static [u8]
    ensures { result.now ≡ cut_words cut }
{
    if cut { b" CUT\n" } else { b" COMPLETE\n" }
}

/// The lines before the outcomes: how many they are, whether that is all, and how many states were kept.
pub fn head_of(
    alloc: Global,
    outcomes: usize,
    cut: bool,
    states: usize,
) -> Result<Vec<u8>, AllocError>
    ensures { IfOk result (λ text. text.items ≡ head_text outcomes cut states) }
{
    let mut text = Vec::new(alloc);
    push_number(&mut text, b"OUTCOMES ", outcomes)?;
    text.extend_from_slice(cut_words(cut))?;
    push_number(&mut text, b"STATES ", states)?;
    text.extend_from_slice(b"\n")?;
    Ok(text)
}
