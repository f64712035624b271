// An action of a process that nothing stops, on the machine, by its row that was made ready.
ghost use Rattle.std.specs.Prelude.{◌≡◌, ◌+◌, ◌<◌, ◌^◌, None, false, true};
ghost use Rattle.b67_list.specs.Numbered.{numbered};
ghost use Rattle.b67_table.specs.Image.{is_able};
ghost use Rattle.b67_table.specs.Valid.{IsValid};
ghost use Rattle.b67_action.specs.declared.done.Done.TheVariants.{Went};
ghost use Rattle.b67_machine.specs.Entries.{IsCalm};
ghost use Rattle.b67_machine.specs.Kept.{operators_counted};
ghost use Rattle.b67_machine.specs.Reads.{machine_end};
ghost use Rattle.b67_machine.specs.Stepping.{Steps};

use crate::Machine;
use crate::counting::count;
use crate::tables::decoded;
use b67_action::go_on;
use b67_intrinsics::registers;
use b67_store::Core;

impl<C: Core> Machine<C> {
    /// Does at once what [`Machine::step`] does, where the next operator of a process is an action whose row was made ready, and nothing
    /// stops it; and answers whether it did. Then nobody was released or started. Else nothing is done.
    pub fn go_on(&mut self, process: u32) -> bool
        requires able { is_able (numbered self.old.image.states process) ≡ true }
        requires going { machine_end self.old ≡ None }
        requires count { operators_counted self.old.counts process + 1 < 2 ^ 64 }
        ensures went { result ≡ true → Steps self.old process Went self.new }
        ensures calm { result ≡ true → IsCalm self.old self.new }
        ensures stays { result ≡ false → self.new ≡ self.old }
        ensures valid { IsValid self.new.code self.new.image }
    {
        if self.lacked {
            return false;
        }
        let regs = registers(&self.parts.regs, process);
        let table = decoded(&self.tables, regs.segment, regs.ll);
        let letter = go_on(
            &mut self.core,
            &mut self.kernel,
            &mut self.parts,
            process,
            table,
        );
        if letter.is_none() {
            return false;
        }
        count(&mut self.counts, process, 1);
        self.letter = letter;
        true
    }
}
