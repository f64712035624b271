//! What a machine tells of a process.

ghost use Rattle.std.specs.Prelude.{◌≡◌, ◌≤◌, ◌++◌, length, true, Some, IfOk, OnOk};
ghost use Rattle.b67_list.specs.Numbered.{numbered};
ghost use Rattle.b67_table.specs.Image.{is_live};
ghost use Rattle.b67_store.specs.Store.{stack_limit, words_of};
ghost use Rattle.b67_stack_text.specs.Lines.{regs_text, stack_text};
ghost use Rattle.b67_midway.specs.Telling.{process_text};

use b67_control::Registers;
use b67_machine::Machine;
use b67_stack_text::{push_no_process, push_regs, push_stack};
use b67_store::{Core, Words};
use b67_table::Private;
use b67_word::{Place, Word};
use std::alloc::{AllocError, Global};

/// The most words that the stack of a process has, by its private part.
fn size_of<C: Core>(
    alloc: Global,
    machine: &Machine<C>,
    process: u32,
    regs: &Registers,
) -> Result<u32, AllocError>
    requires lives { is_live (numbered machine.now.image.states process) ≡ true }
    requires own { numbered machine.now.image.regs process ≡ Some regs.now }
    ensures all { IfOk result (λ n. length (words_of machine.now.image.stacks regs.now.stack) ≤ n) }
    ensures room { IfOk result (λ n. n ≤ stack_limit) }
{
    let mut part = Private {
        regs: *regs,
        words: Words::new(alloc)?,
    };
    machine.copy_private(process, &mut part);
    Ok(part.regs.s)
}

/// The words of a process's stack, the bottom first.
fn words_of<C: Core>(
    alloc: Global,
    machine: &Machine<C>,
    process: u32,
    regs: &Registers,
) -> Result<Vec<Word>, AllocError>
    requires lives { is_live (numbered machine.now.image.states process) ≡ true }
    requires own { numbered machine.now.image.regs process ≡ Some regs.now }
    ensures { IfOk result (λ words. words.items ≡ words_of machine.now.image.stacks regs.now.stack) }
{
    let size = size_of(alloc, machine, process, regs)?;
    let mut words = Vec::new(alloc);
    'words: for at in 0..size {
        match machine.word_at(Place {
            stack: regs.stack,
            at: at as u16,
        }) {
            Some(word) => words.push(word)?,
            None => return Ok(words),
        }
    }
    Ok(words)
}

/// Appends the words of a process's stack.
pub fn push_words<C: Core>(
    text: &mut Vec<u8>,
    alloc: Global,
    machine: &Machine<C>,
    process: u32,
) -> Result<(), AllocError>
    ensures { OnOk result (text.new.items ≡ text.old.items ++ process_text machine.now.image process (λ r. stack_text process (words_of machine.now.image.stacks r.stack))) }
{
    match machine.registers(process) {
        None => push_no_process(text, process),
        Some(regs) => {
            let words = words_of(alloc, machine, process, regs)?;
            push_stack(text, process, words.as_slice())
        }
    }
}

/// Appends the registers of a process.
pub fn push_registers<C: Core>(
    text: &mut Vec<u8>,
    machine: &Machine<C>,
    process: u32,
) -> Result<(), AllocError>
    ensures { OnOk result (text.new.items ≡ text.old.items ++ process_text machine.now.image process (regs_text process)) }
{
    match machine.registers(process) {
        None => push_no_process(text, process),
        Some(regs) => push_regs(text, process, regs),
    }
}
