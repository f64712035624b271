// What a process does on the room of its own stack, on the machine.
ghost use Rattle.std.specs.Prelude.{◌≡◌, ℕ, ◌+◌, ◌<◌, ◌≤◌, ◌^◌, List, None, Some, IfSome, false, true, length, vec_capacity};
ghost use Rattle.b67_list.specs.Numbered.{numbered};
ghost use Rattle.b67_events.specs.Events.{Events};
ghost use Rattle.b67_segment.specs.Decoded.{AreDecoded};
ghost use Rattle.b67_table.specs.Image.{Image, is_able};
ghost use Rattle.b67_table.specs.Privacy.{RegistersStay};
ghost use Rattle.b67_table.specs.Valid.{IsValid};
ghost use Rattle.b67_reach.specs.Images.{image_of};
ghost use Rattle.b67_reach.specs.Woken.{KeepsPlaces};
ghost use Rattle.b67_action.specs.Running.{HasRun};
ghost use Rattle.b67_machine.specs.Chaining.{released_after, ChainRuns, RunsTo};
ghost use Rattle.b67_machine.specs.Kept.{operators_counted};
ghost use Rattle.b67_machine.specs.Parts.{whole_part, IsFull};
ghost use Rattle.b67_machine.specs.Reads.{machine_end};
ghost use Rattle.b67_machine.specs.Tables.{AreTables};

use crate::Machine;
use crate::counting::{count, note_last};
use crate::tables::{Levels, decoded, prepare};
use b67_action::{Ran, run_on_room, run_own};
use b67_deeds::Letter;
use b67_intrinsics::registers;
use b67_private::Prepared;
use b67_reach::Parts;
use b67_segment::Code;
use b67_store::{Core, MOST_STACK_WORDS};
use b67_table::Private;

// What comes next in a process on its own stack: at most as many entries that go on as letters can be noted, and at most so many operators in
// all.
fn run_in<C: Core>(
    core: &mut C,
    parts: &mut Parts,
    process: u32,
    tables: &Vec<Levels>,
    letters: &mut [Letter],
    most: u32,
) -> Ran
    requires valid { (kernel : Events) × IsValid parts.old.code (image_of (C.Core.stacks core.old) (C.Core.rows core.old) kernel parts.old) }
    requires able { is_able (numbered parts.old.states.items process) ≡ true }
    requires tables { AreTables parts.old.code tables.now.items }
    ensures ran { (kernel : Events) → IsValid parts.old.code (image_of (C.Core.stacks core.old) (C.Core.rows core.old) kernel parts.old) → HasRun parts.old.code process most (image_of (C.Core.stacks core.old) (C.Core.rows core.old) kernel parts.old) result letters.new (image_of (C.Core.stacks core.new) (C.Core.rows core.new) kernel parts.new) }
    ensures entries { result.entries ≤ length letters.new }
    ensures counted { result.entries ≤ result.operators }
    ensures size { length letters.new ≡ length letters.old }
    ensures most { result.operators + result.plain ≤ most }
    ensures released { parts.new.woken.processes.items ≡ released_after result.entries parts.old.woken.processes.items }
    ensures room { KeepsPlaces parts.old.woken parts.new.woken }
    ensures code { parts.new.code ≡ parts.old.code }
{
    let regs = registers(&parts.regs, process);
    let table = decoded(tables, regs.segment, regs.ll);
    let own = &mut parts.regs[process as usize - 1];
    let ran = run_own(core, own, &parts.code, table, letters, most);
    if ran.entries > 0 {
        parts.woken.processes.clear();
    }
    ran
}

/// Performs on a copy of a process's registers and of its whole stack what comes next in it: at most as many entries that go on as letters can be
/// noted, at most so many operators in all, and after the entries the plain operators that come next. Wherever the process has
/// what was copied, this is its run. Takes no memory.
///
/// The operators are those of the code. Where the part's segment was decoded at the part's level, the table of its operators saves the
/// decoding.
pub fn run_part(
    part: &mut Private,
    code: &Code,
    table: Option<&Prepared>,
    letters: &mut [Letter],
    most: u32,
) -> Ran
    requires full { IsFull part.old }
    requires taken { (img : Image) × (p : ℕ) × IsValid code.now img × (is_able (numbered img.states p) ≡ true) × (whole_part img p ≡ Some part.old) }
    requires table { IfSome table (λ t. AreDecoded code.now part.old.regs.segment part.old.regs.ll t.now) }
    ensures runs { (p : ℕ) → RunsTo code.now p most part.old result letters.new part.new }
    ensures full { IsFull part.new }
    ensures keeps { RegistersStay part.old.regs part.new.regs }
    ensures entries { result.entries ≤ length letters.new }
    ensures counted { result.entries ≤ result.operators }
    ensures size { length letters.new ≡ length letters.old }
    ensures most { result.operators + result.plain ≤ most }
{
    let room = part.words.room(0);
    let ran = run_on_room(&mut part.regs, room, code, table, letters, most);
    part.words.cut(MOST_STACK_WORDS as u32 - part.regs.s);
    ran
}

impl<C: Core> Machine<C> {
    /// Performs what comes next in a process on its own stack: at most as many entries that go on as letters can be noted, at most so many
    /// operators in all, and after the entries the plain operators that come next.
    pub fn run_process(&mut self, process: u32, letters: &mut [Letter], most: u32) -> Ran
        requires able { is_able (numbered self.old.image.states process) ≡ true }
        requires going { machine_end self.old ≡ None }
        requires count { operators_counted self.old.counts process + most < 2 ^ 64 }
        ensures runs { ChainRuns self.old process most result letters.new self.new }
        ensures entries { result.entries ≤ length letters.new }
        ensures counted { result.entries ≤ result.operators }
        ensures size { length letters.new ≡ length letters.old }
        ensures most { result.operators + result.plain ≤ most }
        ensures valid { IsValid self.new.code self.new.image }
    {
        let regs = registers(&self.parts.regs, process);
        let (segment, level) = (regs.segment, regs.ll);
        prepare(&mut self.tables, &self.parts.code, segment, level);
        let ran = run_in(
            &mut self.core,
            &mut self.parts,
            process,
            &self.tables,
            letters,
            most,
        );
        note_last(&mut self.letter, &letters[..ran.entries as usize]);
        count(&mut self.counts, process, ran.operators + ran.plain);
        ran
    }
}
