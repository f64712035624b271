//! What an operator reads, and what stops it: the parts of a machine beside its store and its kernel, the image of all
//! three, the words on top of a process's stack, the cells that references name, and the writes that many operators
//! end with.
//!
//! Each operator has two halves. It first reads, and only a read can stop it; then it writes, and no write fails. The
//! order of what may stop it is the operator table's (this project's profile).
#![tactic(auto)]

mod critical;
mod reading;
mod states;
mod writing;

use b67_events::Woken;
use b67_list::Line;
use b67_num::FaultKind;
use b67_segment::Code;
pub use b67_table::{Cell, InterruptKind, ProcessState, Reached, Registers, floor};
pub use critical::is_critical;
pub use reading::{
    as_indexed, cell_of, couple_cell, element, frame_at, from_top, invalid, is_operand, named,
    operand_in, popped, popped_two, reached, read_cell, sirw_cell,
};
pub use states::{set_number, set_state, wake, wake_all, woken_number};
pub use writing::{dropped, replaced};

/// What stops an operator. One that is stopped changes nothing.
#[derive(Clone, Copy)]
pub enum Stop {
    /// The operator can not be performed.
    Interrupt(InterruptKind),
    /// It is at fault; faults come after interrupts.
    Fault(FaultKind),
    /// A stack would have more words than a stack can have; this comes last.
    StackLimit,
}

/// What a machine has beside its store and its kernel. Registers, states and woken numbers stand by the processes'
/// numbers, process 1 first.
#[derive(Drop)]
pub struct Parts {
    pub code: Code,
    pub regs: Vec<Registers>,
    /// The lines that were written.
    pub output: Vec<Line>,
    pub states: Vec<ProcessState>,
    /// The position of the event that released a process among those for which it waited, where it waited for several and
    /// has not gone on since, else 0.
    pub numbers: Vec<u32>,
    /// The processes that the last operator released.
    pub woken: Woken,
    /// How many processes there have been.
    pub started: u32,
}
