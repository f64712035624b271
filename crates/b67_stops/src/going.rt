//! The walk from stop to stop.

ghost use Rattle.std.specs.Prelude.{◌≡◌, ◌-◌, ◌<◌, ◌≤◌, ◌^◌, ℕ, List, [], ◌++◌, length, replicate, Some, slice_get, IfOk, OnOk};
ghost use Rattle.b67_schedule.specs.Schedules.{entries};
ghost use Rattle.b67_commands.specs.declared.command.Command as the_command;
ghost use Rattle.b67_stops.specs.Answering.{AreAnswers, IsAt};

use crate::Walker;
use crate::stopping::{Stop, lesser, next_stop, tell_here};
use b67_commands::Command;
use b67_list::Line;
use b67_schedule::Run;
use std::alloc::{AllocError, Global};

/// Makes the entries of a run, and answers the commands that are given within it or at its end.
fn go_run<W: Walker>(
    walker: &mut W,
    alloc: Global,
    run: &Run,
    commands: &[Command],
    at: &[u64],
    stop: &mut Stop,
    texts: &mut Vec<Line>,
) -> Result<(), AllocError>
    requires places { length at.now ≡ length commands.now }
    requires here { (given left : List ℕ) × IsAt (W.stands walker.old) (W.goes walker.old) (W.answers walker.old) (W.done walker.old) given
        (replicate run.now.times run.now.process ++ left) commands.now at.now stop.old.k stop.old.next texts.old.items }
    ensures there { OnOk result ((given left : List ℕ) → IsAt (W.stands walker.old) (W.goes walker.old) (W.answers walker.old) (W.done walker.old) given
        (replicate run.now.times run.now.process ++ left) commands.now at.now stop.old.k stop.old.next texts.old.items
        → IsAt (W.stands walker.new) (W.goes walker.new) (W.answers walker.new) (W.done walker.new) given
        left commands.now at.now stop.new.k stop.new.next texts.new.items) }
    ensures back { OnOk result ((h : List ℕ) (c : the_command.Command) (t : List ℕ) → W.answers walker.new h c t → W.answers walker.old h c t) }
{
    let mut left = run.times;
    'stops: while left > 0 {
        let times = lesser(stop.next - stop.k, left);
        walker.go(alloc, run.process, times)?;
        stop.k += u64::from(times);
        left -= times;
        if stop.k == stop.next {
            tell_here(walker, alloc, commands, at, stop.k, texts)?;
            stop.next = next_stop(at, stop.k);
        }
    }
    Ok(())
}

/// A text for each command, and nothing in it.
fn no_texts(alloc: Global, commands: &[Command]) -> Result<Vec<Line>, AllocError>
    ensures { IfOk result (λ texts. length texts.items ≡ length commands.now) }
{
    let mut texts = Vec::with_capacity(alloc, commands.len())?;
    'commands: for _ in commands {
        texts.push(Line::of(Vec::new(alloc)))?;
    }
    Ok(texts)
}

/// The answers to commands that are given at these positions of a schedule, by a walk over it from the first entry on.
pub fn answers_of<W: Walker>(
    walker: &mut W,
    alloc: Global,
    runs: &[Run],
    commands: &[Command],
    at: &[u64],
) -> Result<Vec<Line>, AllocError>
    requires stands { W.stands walker.old }
    requires none { W.done walker.old ≡ [] }
    requires goes { W.goes walker.old (entries runs.now) }
    requires few { length (entries runs.now) < 2 ^ 64 - 1 }
    requires places { length at.now ≡ length commands.now }
    requires within { (place here : ℕ) → slice_get at.now place ≡ Some here → here ≤ length (entries runs.now) }
    ensures { IfOk result (λ texts. AreAnswers (W.answers walker.old) (entries runs.now) commands.now at.now texts.items) }
{
    let mut texts = no_texts(alloc, commands)?;
    tell_here(walker, alloc, commands, at, 0, &mut texts)?;
    let mut stop = Stop {
        k: 0,
        next: next_stop(at, 0),
    };
    'runs: for run in runs {
        go_run(walker, alloc, run, commands, at, &mut stop, &mut texts)?;
    }
    Ok(texts)
}
