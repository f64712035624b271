//! A stop on a walk: the commands that are given there are answered, and the next stop is looked for.

ghost use Rattle.std.specs.Prelude.{◌≡◌, ◌-◌, ◌<◌, ◌^◌, length, min, IfOk, OnOk};
ghost use Rattle.b67_stops.specs.Answering.{AnswersHere, IsNextStop};

use crate::Walker;
use b67_commands::Command;
use b67_list::Line;
use std::alloc::{AllocError, Global};

/// Where a walk stands, after the first `k` entries, and where it stops next.
#[derive(Clone, Copy)]
pub struct Stop {
    pub k: u64,
    pub next: u64,
}

/// The least position above k; the greatest number where there is none.
pub fn next_stop(at: &[u64], k: u64) -> u64
    requires { k < 2 ^ 64 - 1 }
    ensures { IsNextStop at.now k result }
{
    let mut next = u64::MAX;
    'at: for position in at {
        if k < *position && *position < next {
            next = *position;
        }
    }
    next
}

/// The lesser of two numbers of entries.
pub fn lesser(room: u64, left: u32) -> u32
    ensures { result ≡ min room left }
{
    if room < u64::from(left) {
        room as u32
    } else {
        left
    }
}

/// Answers the commands that are given at k, where the walker stands.
pub fn tell_here<W: Walker>(
    walker: &W,
    alloc: Global,
    commands: &[Command],
    at: &[u64],
    k: u64,
    texts: &mut Vec<Line>,
) -> Result<(), AllocError>
    requires stands { W.stands walker.now }
    requires places { length at.now ≡ length commands.now }
    requires texts { length texts.old.items ≡ length commands.now }
    ensures { OnOk result (AnswersHere (W.answers walker.now) (W.done walker.now) commands.now at.now k texts.old.items texts.new.items) }
{
    'commands: for place in 0..commands.len() {
        if at[place] == k {
            texts[place] = walker.tell(alloc, &commands[place])?;
        }
    }
    Ok(())
}
