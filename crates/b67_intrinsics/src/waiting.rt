//! The intrinsic on several events: WAIT of a list.

ghost use Rattle.std.specs.Prelude.{◌≡◌, ◌≤◌, OnOk, IfOk, IsTrue, IsFalse, All, length, take, pos};
ghost use Rattle.b67_list.specs.Numbered.{numbered};
ghost use Rattle.b67_word.specs.Word.{operand};
ghost use Rattle.b67_events.specs.Events.{is_open, is_waiting, is_listed};
ghost use Rattle.b67_table.specs.Image.{Image};
ghost use Rattle.b67_table.specs.Intrinsics.{wait_for_any};
ghost use Rattle.b67_table.specs.Limits.{most_events};
ghost use Rattle.b67_reach.specs.Images.{image_of};
ghost use Rattle.b67_reach.specs.Answers.{ProgramActs};
ghost use Rattle.b67_intrinsics.specs.Called.{IsCalled, IsChained, called_in, IntrinsicLeads, several_tests_in, these};

use crate::finding::find_events;
use crate::happening::{end_with, registers};
use b67_control::Mscw;
use b67_events::{Kernel, TookAny};
use b67_limits::MOST_EVENTS;
use b67_reach::{Parts, ProcessState, Registers, Stop, set_number, set_state, woken_number};
use b67_store::Core;
use b67_word::{Place, Word, operand};

// The places of the events that are the arguments in a process, and how many they are.
fn find<C: Core>(
    core: &C,
    kernel: &Kernel,
    all: &Vec<Registers>,
    process: u32,
    mark: &Mscw,
    places: &mut [Place],
) -> Result<usize, Stop>
    requires called { IsCalled (C.Core.stacks core.now) (numbered all.now.items process) }
    requires room { length places.old ≡ most_events }
    ensures leads { (img : Image) → img.stacks ≡ C.Core.stacks core.now → img.events ≡ kernel.now.events → IntrinsicLeads img (several_tests_in (numbered all.now.items process) mark.now img.stacks) (these result places.new) }
    ensures few { IfOk result (λ n. (1 ≤ n) × (n ≤ most_events)) }
    ensures there { IfOk result (λ n. All (λ place. IsTrue (is_open place kernel.now.events)) (take n places.new)) }
    ensures room { length places.new ≡ most_events }
    ensures within { OnOk result (IsChained mark.now (numbered all.now.items process)) }
{
    find_events(core, kernel, registers(all, process), mark, places)
}

// A position as a word.
fn position_word(position: u32) -> Word
    ensures { result ≡ operand (pos position) }
{
    operand(i64::from(position))
}

/// WAIT of a list: a process that an event released goes on with its woken number, whatever the events are; another one
/// with the position, from 1, of the first event that has happened. Where none has it waits for all of them, after all who
/// wait, and changes nothing else: this operator is its next one again.
pub fn wait_any<C: Core>(
    core: &mut C,
    kernel: &mut Kernel,
    parts: &mut Parts,
    process: u32,
    mark: &Mscw,
    next: u16,
) -> Result<(), Stop>
    requires called { IsCalled (C.Core.stacks core.old) (numbered parts.old.regs.items process) }
    requires process { (1 ≤ process) × (process ≤ kernel.old.room) }
    requires idle { IsFalse (is_waiting process kernel.old.events) }
    requires unlisted { IsFalse (is_listed process kernel.old.lists) }
    ensures acts { ProgramActs process (called_in wait_for_any parts.old.code (numbered parts.old.regs.items process) next mark.now) (image_of (C.Core.stacks core.old) (C.Core.rows core.old) kernel.old parts.old) (image_of (C.Core.stacks core.new) (C.Core.rows core.new) kernel.new parts.new) result }
    ensures processes { kernel.new.room ≡ kernel.old.room }
    ensures code { parts.new.code ≡ parts.old.code }
    ensures woken { parts.new.woken ≡ parts.old.woken }
{
    let mut places = [Place { stack: 0, at: 0 }; MOST_EVENTS as usize];
    let count = find(core, kernel, &parts.regs, process, mark, &mut places)?;
    let number = woken_number(
        &parts.numbers,
        u32::from(registers(&parts.regs, process).stack),
    );
    if number != 0 {
        set_number(&mut parts.numbers, process, 0);
        let word = position_word(number);
        end_with(core, &mut parts.regs, process, mark, word, next);
        return Ok(());
    }
    match kernel.wait_any(&places[..count], process) {
        TookAny::Went { position } => {
            let word = position_word(position);
            end_with(core, &mut parts.regs, process, mark, word, next);
            Ok(())
        }
        TookAny::Waits => {
            set_state(&mut parts.states, process, ProcessState::WaitsAny);
            Ok(())
        }
    }
}
