// One operator of a process, on the machine.
ghost use Rattle.std.specs.Prelude.{◌≡◌, ◌+◌, ◌<◌, ◌^◌, None, true};
ghost use Rattle.b67_list.specs.Numbered.{numbered};
ghost use Rattle.b67_table.specs.Image.{is_able};
ghost use Rattle.b67_table.specs.Valid.{IsValid};
ghost use Rattle.b67_machine.specs.Kept.{operators_counted};
ghost use Rattle.b67_machine.specs.Lacking.{LackingIsKept};
ghost use Rattle.b67_machine.specs.Reads.{machine_end};
ghost use Rattle.b67_machine.specs.Stepping.{Steps};

use crate::Machine;
use crate::counting::{count, failure_of, lacks, limit_of, note, operators_in, settle};
use crate::tables::{decoded, prepare};
use b67_action::{Done, action};
use b67_intrinsics::registers;
use b67_store::Core;

impl<C: Core> Machine<C> {
    /// Performs the next operator of a process that is able, in a run without an end, as the operator table says for any
    /// code, and answers what it came to. A fault is kept in the image. An operator that was performed or is at fault is
    /// counted. Once the answer is NoMemory, every later one is, and nothing changes.
    pub fn step(&mut self, process: u32) -> Done
        requires able { is_able (numbered self.old.image.states process) ≡ true }
        requires going { machine_end self.old ≡ None }
        requires count { operators_counted self.old.counts process + 1 < 2 ^ 64 }
        ensures steps { Steps self.old process result self.new }
        ensures valid { IsValid self.new.code self.new.image }
    {
        if self.lacked {
            return Done::NoMemory;
        }
        let regs = registers(&self.parts.regs, process);
        let (segment, level) = (regs.segment, regs.ll);
        prepare(&mut self.tables, &self.parts.code, segment, level);
        let (done, letter) = action(
            &mut self.core,
            &mut self.kernel,
            &mut self.parts,
            process,
            decoded(&self.tables, segment, level),
        );
        settle(&mut self.parts.woken.processes, done);
        count(&mut self.counts, process, operators_in(done));
        self.failure = failure_of(process, done);
        self.limit = limit_of(process, done);
        self.lacked = lacks(done);
        note(&mut self.letter, letter);
        done
    }
}

/// Law: an operator that finds no memory leaves the machine as it was, but that this is kept: then every operator says so, and changes
/// nothing.
pub fn lacking_is_kept()
    ensures { LackingIsKept }
{}
