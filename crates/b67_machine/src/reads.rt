// What a machine tells of itself.
ghost use Rattle.std.specs.Prelude.{◌≡◌, ℕ, ◌<◌, ◌≤◌, ◌^◌, true};
ghost use Rattle.std.specs.List.{list_any};
ghost use Rattle.b67_list.specs.Numbered.{numbered};
ghost use Rattle.b67_table.specs.Ending.{has_ended, image_end, may_act};
ghost use Rattle.b67_table.specs.Image.{is_able};
ghost use Rattle.b67_table.specs.Table.{length_in};
ghost use Rattle.b67_machine.specs.Kept.{operators_counted};
ghost use Rattle.b67_machine.specs.Reads.{ended_by, is_able_state, limit_end, lives, machine_end, shown_end};

use crate::{Failure, Machine};
use b67_deeds::Letter;
use b67_list::Line;
use b67_num::FaultKind;
use b67_reach::{ProcessState, Registers};
use b67_segment::Code;
use b67_store::Core;

/// How a run ended.
#[derive(Clone, Copy)]
pub enum End {
    /// Process 1 has ended.
    Finished,
    /// A process came to a fault.
    Fault { kind: FaultKind, process: u32 },
    /// A process lives, and none is able.
    AllWaiting,
    /// The stack of a process would have too many words. It has `words` of them.
    StackLimit { process: u32, words: u32 },
}

impl<C: Core> Machine<C> {
    /// The end of the run: that of the image, or the stack limit where the last operator that was tried came to it.
    pub fn end(&self) -> Option<End>
        ensures { result ≡ machine_end self.now }
    {
        let states = self.parts.states.as_slice();
        match ended_by(
            first_ended(states),
            self.failure,
            some_able(states),
            some_lives(states),
        ) {
            Some(end) => Some(end),
            None => limit_end(self.limit, &self.parts.regs),
        }
    }

    /// The end of the image, whatever operator was tried.
    pub fn image_end(&self) -> Option<End>
        ensures { result ≡ shown_end (image_end self.now.image) }
    {
        let states = self.parts.states.as_slice();
        ended_by(
            first_ended(states),
            self.failure,
            some_able(states),
            some_lives(states),
        )
    }

    /// The lines that were written.
    pub fn output(&self) -> &[Line]
        ensures { result.now ≡ self.now.image.output }
    {
        self.parts.output.as_slice()
    }

    /// How many operators a process has performed, one that is at fault included.
    pub fn count(&self, process: u32) -> u64
        ensures { result ≡ operators_counted self.now.counts process }
    {
        match process {
            0 => 0,
            _ => match self.counts.get(process as usize - 1) {
                Some(count) => *count,
                None => 0,
            },
        }
    }

    /// The code.
    pub fn code(&self) -> &Code
        ensures { result.now ≡ self.now.code }
    {
        &self.parts.code
    }

    /// Tests that there is such a process and that it is able.
    pub fn is_able(&self, process: u32) -> bool
        ensures { result ≡ is_able (numbered self.now.image.states process) }
    {
        match process {
            0 => false,
            _ => match self.parts.states.get(process as usize - 1) {
                Some(state) => matches!(state, ProcessState::Able),
                None => false,
            },
        }
    }

    /// The processes that the last operator released, in their order.
    pub fn released(&self) -> &[u32]
        ensures { result.now ≡ self.now.released }
    {
        self.parts.woken.processes.as_slice()
    }

    /// The letter of the last action; none where there was none.
    pub fn letter(&self) -> Option<Letter>
        ensures { result ≡ self.now.letter }
    {
        self.letter
    }

    /// The greatest number of a process that there has been, which no process that may act exceeds.
    pub fn last_process(&self) -> u32
        ensures few { result < 2 ^ 16 }
        ensures all { (p : ℕ) → may_act self.now.image p ≡ true → (1 ≤ p) × (p ≤ result) }
    {
        self.parts.started
    }

    /// How many processes there have been.
    pub fn started(&self) -> u32
        ensures { result ≡ self.now.image.started }
    {
        self.parts.started
    }
}

fn some_able(states: &[ProcessState]) -> bool
    ensures { result ≡ list_any is_able_state states.now }
{
    states
        .iter()
        .any(|state| matches!(state, ProcessState::Able))
}

fn some_lives(states: &[ProcessState]) -> bool
    ensures { result ≡ list_any lives states.now }
{
    states
        .iter()
        .any(|state| !matches!(state, ProcessState::Ended))
}

fn first_ended(states: &[ProcessState]) -> bool
    ensures { result ≡ has_ended (numbered states.now 1) }
{
    match states.first() {
        Some(state) => matches!(state, ProcessState::Ended),
        None => false,
    }
}

fn ended_by(finished: bool, failure: Option<Failure>, able: bool, alive: bool) -> Option<End>
    ensures { result ≡ ended_by finished failure able alive }
{
    if finished {
        return Some(End::Finished);
    }
    match failure {
        Some(failure) => Some(End::Fault {
            kind: failure.kind,
            process: failure.process,
        }),
        None => {
            if alive && !able {
                Some(End::AllWaiting)
            } else {
                None
            }
        }
    }
}

fn stack_length(regs: &Vec<Registers>, process: u32) -> u32
    ensures { result ≡ length_in (numbered regs.now.items process) }
{
    match process {
        0 => 0,
        _ => match regs.get(process as usize - 1) {
            Some(regs) => regs.s,
            None => 0,
        },
    }
}

fn limit_end(limit: Option<u32>, regs: &Vec<Registers>) -> Option<End>
    ensures { result ≡ limit_end limit regs.now.items }
{
    match limit {
        Some(process) => Some(End::StackLimit {
            process,
            words: stack_length(regs, process),
        }),
        None => None,
    }
}
