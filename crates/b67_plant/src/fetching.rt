// A process that a processor takes ahead.
ghost use Rattle.std.specs.Prelude.{◌≡◌, ◌≢◌, ◌<◌, ◌≤◌, IfSome, true, false, Some, None};
ghost use Rattle.b67_parcel.specs.Parcels.{part_for};
ghost use Rattle.b67_stands.specs.Placing.{holder_of};
ghost use Rattle.b67_stands.specs.Running.{answer_of};
ghost use Rattle.b67_stands.specs.Shared.{IsFree};
ghost use Rattle.b67_stands.specs.Stands.{Stands};
ghost use Rattle.b67_plant.specs.Calls.{PlantTakes};
ghost use Rattle.b67_limits.specs.declared.TheConstants.{MOST_LETTERS};

use crate::{Ahead, Named, Plant, Taken};
use b67_limits::MOST_OWN_WORDS;
use b67_machine::Replayed;
use b67_ready::Rule;
use b67_store::Core;
use std::sync::ledger::Ledger;

impl<N: Named, L: Ledger, C: Core, P: Rule> Plant<N, L, C, P> {
    // The process that is out with a processor, where one is: the one with the lowest number.
    pub fn out_with(&self, me: u32) -> Option<u32>
        requires me { 1 ≤ me }
        requires going { answer_of N.budget self.now ≡ None }
        ensures out { IfSome result (λ process. holder_of self.now.out process ≡ me) }
        ensures free { result ≡ None → IsFree me self.now }
    {
        'processes: for before in 0..self.machine.started() {
            if self.holder(before + 1) == me {
                return Some(before + 1);
            }
        }
        None
    }

    // How many entries a parcel of a process may have: none where its stack is too long to be copied whole, else the more, the longer the schedule is.
    pub fn room_for(&self, process: u32) -> u32
        ensures { result < MOST_LETTERS }
    {
        match self.machine.registers(process) {
            Some(regs) if regs.s <= MOST_OWN_WORDS => self.further(),
            _ => 0,
        }
    }

    // The part of a process that is out is copied.
    pub fn fetch_out(&self, process: u32, ahead: &mut Ahead<N>)
        requires going { answer_of N.budget self.now ≡ None }
        requires out { 1 ≤ holder_of self.now.out process }
        ensures there { ahead.new.is_there ≡ true }
        ensures process { ahead.new.process ≡ process }
    {
        ahead.fetch(&self.machine, process, self.room_for(process));
    }

    /// Takes a process as `take` does, but no parcel: the part of it that one is to have stands apart until it begins. Takes no memory.
    pub fn take_ahead(&mut self, me: u32, ahead: &mut Ahead<N>) -> Taken
        requires me { 1 ≤ me }
        requires free { ahead.old.is_there ≡ false }
        ensures taken { PlantTakes N.pick N.budget me self.old result ahead.new.process self.new }
        ensures there { result ≡ Taken.Work → ahead.new.is_there ≡ true }
        ensures part { result ≡ Taken.Work → part_for ahead.new.room self.new.machine.image ahead.new.process ≡ Some ahead.new.part }
        ensures other { result ≢ Taken.Work → ahead.new ≡ ahead.old }
        ensures stands { Stands N.code N.budget self.old }
    {
        match self.answer() {
            Some(Replayed::NoMemory) => return Taken::Lacked,
            Some(_) => return Taken::Over,
            None => {}
        }
        match self.pick(me) {
            Some(process) => {
                ahead.fetch(&self.machine, process, self.room_for(process));
                Taken::Work
            }
            None => Taken::Idle,
        }
    }
}
