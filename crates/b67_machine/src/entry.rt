// One entry of a schedule.
ghost use Rattle.std.specs.Prelude.{◌≡◌, ◌+◌, ◌<◌, ◌^◌, IfSome, None, true};
ghost use Rattle.b67_list.specs.Numbered.{numbered};
ghost use Rattle.b67_table.specs.Image.{is_able};
ghost use Rattle.b67_table.specs.Valid.{IsValid};
ghost use Rattle.b67_action.specs.Able.{AbleAfter};
ghost use Rattle.b67_machine.specs.Kept.{operators_counted};
ghost use Rattle.b67_machine.specs.Reads.{machine_end};
ghost use Rattle.b67_machine.specs.Stepping.{operators_in, MachinePerforms, Steps};

use crate::Machine;
use b67_action::Done;
use b67_store::Core;

/// What was performed of an entry.
#[derive(Clone, Copy)]
pub struct Performed {
    /// How many plain operators came first.
    pub plain: u32,
    /// What the operator after them came to; none where no more operators were allowed.
    pub done: Option<Done>,
}

impl<C: Core> Machine<C> {
    // Performs the next operator of a process: at once by its row, where that was made ready and nothing stops it.
    pub(crate) fn act(&mut self, process: u32) -> Done
        requires able { is_able (numbered self.old.image.states process) ≡ true }
        requires going { machine_end self.old ≡ None }
        requires count { operators_counted self.old.counts process + 1 < 2 ^ 64 }
        ensures steps { Steps self.old process result self.new }
        ensures valid { IsValid self.new.code self.new.image }
    {
        if self.go_on(process) {
            Done::Went
        } else {
            self.step(process)
        }
    }

    /// Performs one entry of a process: its plain operators and the operator after them, at most so many operators in all. The
    /// last one is tried only where it is within that number.
    pub fn perform_entry(&mut self, process: u32, most: u32) -> Performed
        requires able { is_able (numbered self.old.image.states process) ≡ true }
        requires going { machine_end self.old ≡ None }
        requires count { operators_counted self.old.counts process + most < 2 ^ 64 }
        ensures performs { MachinePerforms self.old process most result self.new }
        ensures able { IfSome result.done (λ done. operators_in done ≡ 1 → AbleAfter self.old.image self.new.image process self.new.released) }
        ensures valid { IsValid self.new.code self.new.image }
    {
        let plain = self.perform_plain(process, most);
        if plain < most {
            let done = self.act(process);
            Performed {
                plain,
                done: Some(done),
            }
        } else {
            Performed { plain, done: None }
        }
    }
}
