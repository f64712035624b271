//! The text of a run by turns.
//!
//! It has these parts in order, and every line ends with LF: the output, why the run stopped, and how many operators each process did.

ghost use Rattle.std.specs.Prelude.{◌≡◌, ◌≤◌, ◌++◌, All, IfOk, OnOk, length};
ghost use Rattle.b67_segment.specs.declared.TheConstants.{MOST_SEGMENT_WORDS};
ghost use Rattle.b67_exec.specs.Turns.{exec_run};
ghost use Rattle.b67_exec.specs.Texts.{interrupt_words, stopped_words, counts_in, machine_text, exec_text};

use crate::{Stopped, exec};
use b67_flat::FlatCore;
use b67_list::{List, push_number};
use b67_machine::Machine;
use b67_report::{EndWords, push_counts, push_end, push_lines};
use b67_segment::Code;
use b67_store::Core;
use b67_table::InterruptKind;
use std::alloc::{AllocError, Global};

/// What a run by turns says, and why it stopped.
#[derive(Drop)]
pub struct Told {
    pub text: Vec<u8>,
    pub why: Stopped,
}

/// The words of an interrupt.
fn interrupt_words(kind: InterruptKind) -> &'static str
    ensures { result.now ≡ interrupt_words kind }
{
    match kind {
        InterruptKind::InvalidOperand => "INVALID OPERAND",
        InterruptKind::StackUnderflow => "STACK UNDERFLOW",
        InterruptKind::BrokenChain => "BROKEN CHAIN",
        InterruptKind::BadCode => "BAD CODE",
    }
}

/// Appends the words that say why a run stopped.
fn push_stopped(text: &mut Vec<u8>, why: Stopped) -> Result<(), AllocError>
    ensures { OnOk result (text.new.items ≡ text.old.items ++ stopped_words why) }
{
    match why {
        Stopped::Finished => push_end(text, &EndWords::Finished),
        Stopped::Fault { kind, process } => push_end(text, &EndWords::Fault { kind, process }),
        Stopped::AllWaiting => push_end(text, &EndWords::AllWaiting),
        Stopped::Interrupt { kind, process } => {
            text.extend_from_slice(b"END INTERRUPT ")?;
            text.extend_from_slice(interrupt_words(kind).as_bytes())?;
            push_number(text, b" IN ", process)
        }
        Stopped::StackLimit { process, words } => {
            push_end(text, &EndWords::StackLimit { process, words })
        }
        Stopped::BudgetSpent => push_end(text, &EndWords::BudgetSpent),
    }
}

/// How many operators each process performed, from process 1 on.
fn operators_of<C: Core>(alloc: Global, machine: &Machine<C>) -> Result<List<u64>, AllocError>
    ensures { IfOk result (λ operators. operators ≡ counts_in machine.now.counts 1 machine.now.image.started) }
{
    let mut operators = Vec::new(alloc);
    'processes: for before in 0..machine.started() {
        operators.push(machine.count(before + 1))?;
    }
    Ok(List::of(operators))
}

/// The text of a machine whose run by turns has stopped so.
fn text_of<C: Core>(
    alloc: Global,
    machine: &Machine<C>,
    why: Stopped,
) -> Result<Vec<u8>, AllocError>
    ensures { IfOk result (λ text. text.items ≡ machine_text machine.now why) }
{
    let operators = operators_of(alloc, machine)?;
    let mut text = Vec::new(alloc);
    push_lines(&mut text, b"OUTPUT ", machine.output())?;
    push_stopped(&mut text, why)?;
    text.extend_from_slice(b"\n")?;
    push_counts(&mut text, b"OPERATORS ", &operators)?;
    Ok(text)
}

/// Runs a code by turns, at most so many operators, and tells the run. A segment has at most
/// [`MOST_SEGMENT_WORDS`](b67_segment::MOST_SEGMENT_WORDS) words.
pub fn exec_told(alloc: Global, code: Code, budget: u32) -> Result<Told, AllocError>
    requires segments { All (λ segment. length segment.words ≤ MOST_SEGMENT_WORDS) code.segments }
    ensures text { IfOk result (λ told. told.text.items ≡ exec_text code budget) }
    ensures why { IfOk result (λ told. told.why ≡ (exec_run code budget).why) }
{
    let mut machine = Machine::load(alloc, code, FlatCore::new(alloc))?;
    let why = exec(alloc, &mut machine, budget)?;
    let text = text_of(alloc, &machine, why)?;
    Ok(Told { text, why })
}
