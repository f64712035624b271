// Plain operators of a process, on the machine.
ghost use Rattle.std.specs.Prelude.{◌≡◌, ◌+◌, ◌<◌, ◌≤◌, ◌^◌, None, false, length, take, true};
ghost use Rattle.b67_list.specs.Numbered.{numbered};
ghost use Rattle.b67_linkage.specs.Held.{IsLinked};
ghost use Rattle.b67_store.specs.Store.{stack_limit, words_of};
ghost use Rattle.b67_table.specs.Image.{is_able};
ghost use Rattle.b67_table.specs.Table.{plain};
ghost use Rattle.b67_table.specs.Valid.{IsValid};
ghost use Rattle.b67_machine.specs.Kept.{operators_counted};
ghost use Rattle.b67_machine.specs.Reads.{machine_end};
ghost use Rattle.b67_machine.specs.Stepping.{MachineGoes};

use crate::Machine;
use b67_deeds::Letter;
use b67_intrinsics::registers;
use b67_private::burst_in_place;
use b67_reach::Registers;
use b67_store::{Core, MOST_STACK_WORDS};
use b67_word::{Place, Word, operand};

impl<C: Core> Machine<C> {
    /// Performs the plain operators of a process that come next, at most so many, and answers how many it performed. Fewer
    /// are performed only where the next operator is not plain. Takes no memory that it needs.
    pub fn perform_plain(&mut self, process: u32, most: u32) -> u32
        requires able { is_able (numbered self.old.image.states process) ≡ true }
        requires going { machine_end self.old ≡ None }
        requires count { operators_counted self.old.counts process + most < 2 ^ 64 }
        ensures goes { MachineGoes self.old process result self.new }
        ensures most { result ≤ most }
        ensures stops { result < most → plain self.old.code self.new.image process ≡ false }
        ensures valid { IsValid self.new.code self.new.image }
    {
        let mut none = [Letter::Read; 0];
        self.run_process(process, &mut none, most).plain
    }

    /// Tests that the next operator of a process is plain: it is private, and the operator table gives a new image. It is tried on a copy
    /// of the words of its stack.
    pub fn is_plain(&self, process: u32) -> bool
        requires { is_able (numbered self.now.image.states process) ≡ true }
        ensures { result ≡ plain self.now.code self.now.image process }
    {
        let mut regs = *registers(&self.parts.regs, process);
        let mut room = [operand(0); MOST_STACK_WORDS];
        copy_words(&self.core, &regs, &mut room);
        burst_in_place(&mut regs, &mut room, &self.parts.code, None, 1) == 1
    }
}

// The words of a process's stack are copied into a room, the bottom first.
fn copy_words<C: Core>(core: &C, regs: &Registers, room: &mut [Word])
    requires linked { IsLinked (C.Core.stacks core.now) (C.Core.rows core.now) regs.now }
    requires room { length room.old ≡ stack_limit }
    ensures words { take regs.now.s room.new ≡ words_of (C.Core.stacks core.now) regs.now.stack }
    ensures size { length room.new ≡ stack_limit }
{
    let mut at = 0;
    'copying: while at < regs.s {
        let place = Place {
            stack: regs.stack,
            at: at as u16,
        };
        room[at as usize] = core.read(place).unwrap();
        at += 1;
    }
}
