// Parts of a process, its private one and the whole: copied out, compared, and put back.
ghost use Rattle.std.specs.Prelude.{◌≡◌, ℕ, ◌+◌, ◌<◌, ◌≤◌, ◌^◌, length, Some, None, IfSome, true};
ghost use Rattle.b67_list.specs.Numbered.{numbered};
ghost use Rattle.b67_events.specs.Events.{Events};
ghost use Rattle.b67_store.specs.Store.{stack_limit};
ghost use Rattle.b67_table.specs.declared.Private.{Private as Part};
ghost use Rattle.b67_table.specs.Image.{is_able, is_live, with_private};
ghost use Rattle.b67_table.specs.Privacy.{RegistersStay};
ghost use Rattle.b67_table.specs.Valid.{IsValid};
ghost use Rattle.b67_operators.specs.Leaves.{IsLinkedIn};
ghost use Rattle.b67_private.specs.Parts.{IsPrivatePart, PlainParts};
ghost use Rattle.b67_control.specs.declared.Registers.{Registers as TheRegisters};
ghost use Rattle.b67_reach.specs.Images.{image_of};
ghost use Rattle.b67_reach.specs.Woken.{KeepsPlaces};
ghost use Rattle.b67_action.specs.Running.{HasRun};
ghost use Rattle.b67_machine.specs.Chaining.{released_after, ChainRuns};
ghost use Rattle.b67_machine.specs.Kept.{operators_counted};
ghost use Rattle.b67_machine.specs.Parts.{kept_from, private_part, whole_part, IsWholePart, IsFull, Compared};
ghost use Rattle.b67_machine.specs.Reads.{machine_end};
ghost use Rattle.b67_machine.specs.Stepping.{MachineGoes};

use crate::Machine;
use crate::comparing::{REGISTER_WORDS, first_register, first_word};
use crate::counting::{count, note_last};
use b67_action::{Ran, put_words, take_words};
use b67_deeds::Letter;
use b67_intrinsics::registers;
use b67_reach::{Parts, floor};
use b67_store::Core;
use b67_table::Private;
use b67_word::Word;

// A part is put in place of a process's own, from a base on, after so many entries, which release nobody: its words, and the registers that
// operators of the process's own set.
fn put_from<C: Core>(
    core: &mut C,
    parts: &mut Parts,
    process: u32,
    base: u32,
    end: &Private,
    entries: u32,
)
    requires linked { IsLinkedIn (C.Core.stacks core.old) (C.Core.rows core.old) (numbered parts.old.regs.items process) }
    requires keeps { IfSome (numbered parts.old.regs.items process) (λ r. RegistersStay r end.now.regs) }
    requires room { base + length end.now.words ≤ stack_limit }
    ensures put { (kernel : Events) → image_of (C.Core.stacks core.new) (C.Core.rows core.new) kernel parts.new ≡ with_private (image_of (C.Core.stacks core.old) (C.Core.rows core.old) kernel parts.old) process base end.now }
    ensures released { parts.new.woken.processes.items ≡ released_after entries parts.old.woken.processes.items }
    ensures places { KeepsPlaces parts.old.woken parts.new.woken }
    ensures code { parts.new.code ≡ parts.old.code }
{
    let own = &mut parts.regs[process as usize - 1];
    put_words(core, own.stack, base, &end.words);
    own.s = end.regs.s;
    own.f = end.regs.f;
    own.cells = end.regs.cells;
    own.place = end.regs.place;
    if entries > 0 {
        parts.woken.processes.clear();
    }
}

impl<C: Core> Machine<C> {
    /// Copies the private part of a process that lives: its registers, and the words at its floor and above. Takes no memory.
    pub fn copy_private(&self, process: u32, into: &mut Private)
        requires lives { is_live (numbered self.now.image.states process) ≡ true }
        ensures part { private_part self.now.image process ≡ Some into.new }
        ensures is_part { IsPrivatePart into.new }
        ensures whole { IsWholePart into.new }
    {
        let regs = registers(&self.parts.regs, process);
        take_words(&self.core, regs, floor(regs), &mut into.words);
        into.regs = *regs;
    }

    /// Copies a process that lives: its registers, and all the words of its stack. Takes no memory.
    pub fn copy_whole(&self, process: u32, into: &mut Private)
        requires lives { is_live (numbered self.now.image.states process) ≡ true }
        ensures part { whole_part self.now.image process ≡ Some into.new }
        ensures is_part { IsPrivatePart into.new }
        ensures full { IsFull into.new }
    {
        let regs = registers(&self.parts.regs, process);
        take_words(&self.core, regs, 0, &mut into.words);
        into.regs = *regs;
    }

    /// Compares a part with that of a process that lives, its private part or the whole. None comes exactly where they are equal; else it is
    /// the first position at which their lists of words differ, with the kept word and the given one. A list has the registers in the order
    /// of their type, each as an operand, and then the words, the top one first. Takes no memory.
    pub fn differs(&self, process: u32, given: &Private) -> Option<(u32, Word, Word)>
        requires lives { is_live (numbered self.now.image.states process) ≡ true }
        requires within { length given.now.words ≤ given.now.regs.s }
        ensures { (from : TheRegisters → ℕ) → from given.now.regs + length given.now.words ≡ given.now.regs.s → (kept : Part) × (kept_from from self.now.image (numbered self.now.image.regs process) ≡ Some kept) × Compared kept given.now result }
    {
        let kept = registers(&self.parts.regs, process);
        if let Some(found) = first_register(kept, &given.regs) {
            return Some(found);
        }
        match first_word(&self.core, kept, &given.words) {
            Some(found) => Some((REGISTER_WORDS + found.0, found.1, found.2)),
            None => None,
        }
    }

    /// Puts a part in place of the private part of a process, which becomes the given one by so many plain operators: just these are
    /// performed, and counted.
    pub fn put_private(&mut self, process: u32, end: &Private, performed: u32)
        requires lives { is_live (numbered self.old.image.states process) ≡ true }
        requires going { machine_end self.old ≡ None }
        requires count { operators_counted self.old.counts process + performed < 2 ^ 64 }
        requires stretch { IfSome (private_part self.old.image process) (λ kept. PlainParts self.old.code kept performed end.now × RegistersStay kept.regs end.now.regs) }
        ensures goes { MachineGoes self.old process performed self.new }
        ensures valid { IsValid self.new.code self.new.image }
    {
        let regs = registers(&self.parts.regs, process);
        let base = floor(regs);
        put_from(&mut self.core, &mut self.parts, process, base, end, 0);
        count(&mut self.counts, process, performed);
    }

    /// Puts a part in place of the whole of a process, which becomes the given one by such a run: just its entries, whose letters come first,
    /// and the plain operators after them are performed, and counted. Takes no memory.
    pub fn put_run(&mut self, process: u32, end: &Private, ran: Ran, letters: &[Letter])
        requires able { is_able (numbered self.old.image.states process) ≡ true }
        requires going { machine_end self.old ≡ None }
        requires count { operators_counted self.old.counts process + (ran.operators + ran.plain) < 2 ^ 64 }
        requires few { ran.operators + ran.plain < 2 ^ 32 }
        requires full { IsFull end.now }
        requires keeps { IfSome (numbered self.old.image.regs process) (λ r. RegistersStay r end.now.regs) }
        requires run { (most : ℕ) × HasRun self.old.code process most self.old.image ran letters.now (with_private self.old.image process 0 end.now) }
        ensures runs { (most : ℕ) → HasRun self.old.code process most self.old.image ran letters.now (with_private self.old.image process 0 end.now) → ChainRuns self.old process most ran letters.now self.new }
        ensures valid { IsValid self.new.code self.new.image }
    {
        put_from(
            &mut self.core,
            &mut self.parts,
            process,
            0,
            end,
            ran.entries,
        );
        note_last(&mut self.letter, &letters[..ran.entries as usize]);
        count(&mut self.counts, process, ran.operators + ran.plain);
    }
}
