// A word of the stacks, and the registers and the critical place of a process.
ghost use Rattle.std.specs.Prelude.{◌≡◌, false, true, IfNone, IfSome, Some};
ghost use Rattle.b67_list.specs.Numbered.{numbered};
ghost use Rattle.b67_store.specs.Store.{word_at};
ghost use Rattle.b67_table.specs.Image.{critical_of, is_live};

use crate::Machine;
use b67_intrinsics::registers;
use b67_reach::{ProcessState, Registers};
use b67_store::Core;
use b67_word::{Place, Word};

impl<C: Core> Machine<C> {
    /// The word at a place. None comes exactly where the place is not in the stacks.
    pub fn word_at(&self, at: Place) -> Option<Word>
        ensures { result ≡ word_at self.now.image.stacks at }
    {
        self.core.read(at)
    }

    /// The registers of a process. None comes exactly where there is no such process that lives.
    pub fn registers(&self, process: u32) -> Option<&Registers>
        ensures found { IfSome result (λ regs. (numbered self.now.image.regs process ≡ Some regs.now) × (is_live (numbered self.now.image.states process) ≡ true)) }
        ensures none { IfNone result (is_live (numbered self.now.image.states process) ≡ false) }
    {
        if self.is_live(process) {
            Some(registers(&self.parts.regs, process))
        } else {
            None
        }
    }

    /// The critical place of a process that there has been, also of one that has ended. None comes exactly where there has been no such process, or it has none.
    pub fn critical(&self, process: u32) -> Option<Place>
        ensures { result ≡ critical_of self.now.image.regs process }
    {
        match process {
            0 => None,
            _ => match self.parts.regs.get(process as usize - 1) {
                Some(regs) => regs.critical,
                None => None,
            },
        }
    }

    // Tests that there is such a process and that it lives.
    fn is_live(&self, process: u32) -> bool
        ensures { result ≡ is_live (numbered self.now.image.states process) }
    {
        match process {
            0 => false,
            _ => match self.parts.states.get(process as usize - 1) {
                Some(state) => !matches!(state, ProcessState::Ended),
                None => false,
            },
        }
    }
}
