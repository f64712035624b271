//! Runs, step by step and by a whole schedule.

ghost use Rattle.std.specs.Prelude.{◌≡◌, IfOk};
ghost use Rattle.algol_tree.specs.declared.token.Spot as token;
ghost use Rattle.algol_tree.specs.Blocks.{blocks_of_program};
ghost use Rattle.algol_tree.specs.Image.{program as plain};
ghost use Rattle.algol_paths.specs.Arrays.{lows_at};
ghost use Rattle.algol_lows.specs.Lows.{lows_found_under};

use algol_front::Checked;
use algol_lows::{LowsByPlace, lows_of_program};
use algol_names::scopes_of;
use algol_perform::start;
use algol_run::{End, Stepped, end_of, follow, step};
use algol_world::World;
use b67_list::discard;
use b67_report::{EndWords, push_end};
use case_sheet::{lines, number, say};
use std::alloc::{AllocError, Global};

/// The lower bounds of the arrays of an accepted source.
fn lows_of(alloc: Global, checked: &Checked) -> Result<LowsByPlace, AllocError>
    ensures { IfOk result (λ lows. (spot : token.Spot) → lows_found_under lows spot ≡ lows_at (blocks_of_program (plain checked.now.program)) spot) }
{
    lows_of_program(alloc, &checked.program, &checked.scopes)
}

/// The world in which the run of an accepted source begins.
fn first<'p>(
    alloc: Global,
    checked: &'p Checked,
    lows: &'p LowsByPlace,
) -> Result<World<'p>, AllocError>
    requires { (spot : token.Spot) → lows_found_under lows.now spot ≡ lows_at (blocks_of_program (plain checked.now.program)) spot }
{
    let scopes = scopes_of(alloc, &checked.program, &checked.scopes, lows)?;
    start(alloc, scopes)
}

/// Appends the letter of an action, a point after it where the world has an end; and `-` where the process is not able, or the world had an
/// end.
fn push_letter(text: &mut Vec<u8>, stepped: &Stepped) {
    match stepped {
        Stepped::Went(acted) => say(text, &[acted.action.byte()]),
        Stepped::NotAble => say(text, b"-"),
        Stepped::Ended(acted) => say(text, &[acted.action.byte(), b'.']),
    }
}

/// Appends what comes of a process's step.
fn push_step(
    text: &mut Vec<u8>,
    world: &mut World<'_>,
    alloc: Global,
    process: usize,
) -> Result<(), AllocError> {
    let stepped = step(world, alloc, process)?;
    push_letter(text, &stepped);
    discard(stepped);
    Ok(())
}

/// The words of an end.
fn words_of(end: End) -> EndWords {
    match end {
        End::Finished => EndWords::Finished,
        End::AllWaiting => EndWords::AllWaiting,
        End::Fault(kind, process) => EndWords::Fault {
            kind,
            process: u32::try_from(process).unwrap_or(0),
        },
    }
}

/// Appends the line of an end.
fn push_last(text: &mut Vec<u8>, end: Option<End>) {
    match end {
        Some(end) => {
            let _ = push_end(text, &words_of(end));
        }
        None => say(text, b"GOES ON"),
    }
    say(text, b"\n");
}

/// Appends the letters of the entries, each a step.
fn push_letters(
    text: &mut Vec<u8>,
    world: &mut World<'_>,
    alloc: Global,
    entries: &[usize],
) -> Result<(), AllocError> {
    for process in entries {
        push_step(text, world, alloc, *process)?;
    }
    Ok(())
}

/// Appends what comes of the entries step by step: their letters, the lines that were written, and the end.
fn push_run(
    text: &mut Vec<u8>,
    alloc: Global,
    checked: &Checked,
    lows: &LowsByPlace,
    entries: &[usize],
) -> Result<(), AllocError>
    requires { (spot : token.Spot) → lows_found_under lows.now spot ≡ lows_at (blocks_of_program (plain checked.now.program)) spot }
{
    let mut world = first(alloc, checked, lows)?;
    let pushed = push_letters(text, &mut world, alloc, entries);
    say(text, b"\n");
    lines(text, world.output.items());
    push_last(text, end_of(&world));
    discard(world);
    pushed
}

/// Appends how many of the entries are followed.
fn push_followed(
    text: &mut Vec<u8>,
    alloc: Global,
    checked: &Checked,
    lows: &LowsByPlace,
    entries: &[usize],
) -> Result<(), AllocError>
    requires { (spot : token.Spot) → lows_found_under lows.now spot ≡ lows_at (blocks_of_program (plain checked.now.program)) spot }
{
    let mut world = first(alloc, checked, lows)?;
    let went = follow(&mut world, alloc, entries);
    discard(world);
    number(text, b"LEGAL ", went? as u64);
    say(text, b"\n");
    Ok(())
}

/// What comes of an accepted source under a schedule, step by step and as a whole.
pub(crate) fn run_text(
    alloc: Global,
    checked: &Checked,
    entries: &[usize],
) -> Result<Vec<u8>, AllocError> {
    let mut text = Vec::new(alloc);
    let lows = lows_of(alloc, checked)?;
    push_run(&mut text, alloc, checked, &lows, entries)?;
    push_followed(&mut text, alloc, checked, &lows, entries)?;
    Ok(text)
}
