// The calls on a plant.
ghost use Rattle.std.specs.Prelude.{◌≡◌, ◌≢◌, ◌+◌, ◌-◌, ◌<◌, ◌≤◌, ◌^◌, nat_le, true, false, None, IfSome, length};
ghost use Rattle.b67_processors.specs.Acts.{IsActed};
ghost use Rattle.b67_table.specs.Limits.{most_processes};
ghost use Rattle.b67_table.specs.Sound.{Sound};
ghost use Rattle.b67_plant.specs.Calls.{Picks, PlantTakes, PlantActs, ActsThen, LeavesOr, LackingIsKept};
ghost use Rattle.b67_limits.specs.declared.TheConstants.{MOST_LETTERS};
ghost use Rattle.b67_parcel.specs.Parcels.{IsCopied};
ghost use Rattle.b67_stands.specs.Placing.{holder_of};
ghost use Rattle.b67_stands.specs.Running.{answer_of, spends};
ghost use Rattle.b67_stands.specs.Stands.{Stands};

use crate::placing::refusal;
use crate::{Named, Parcel, Plant, Seat};
use b67_machine::{Machine, Replayed};
use b67_processors::Acted;
use b67_ready::Rule;
use b67_schedule::Schedule;
use b67_store::Core;
use b67_word::Word;
use std::sync::ledger::Ledger;

/// What a take answers.
#[derive(Clone, Copy)]
pub enum Taken {
    /// A process is out with the processor.
    Work,
    /// Nobody waits, and some process is out.
    Idle,
    /// The run has an end.
    Over,
    /// An action found no memory.
    Lacked,
}

/// What a landing answers.
#[derive(Clone, Copy)]
pub enum PlantLanding {
    /// The parcel's end is in place.
    Landed,
    /// The parcel's start is not the part that is kept. Of the registers and the words of both the first that differ are these.
    Stale { place: u32, kept: Word, given: Word },
    /// The process is not out with the processor.
    NotOut,
    /// The run has an end.
    Over,
    /// An action found no memory.
    Lacked,
}

// Whether the budget is spent.
#[inline(always)]
fn spends(budget: u32, spent: u32) -> Option<Replayed>
    ensures { result ≡ spends (nat_le budget spent) }
{
    if budget <= spent {
        Some(Replayed::BudgetSpent)
    } else {
        None
    }
}

impl<N: Named, L: Ledger, C: Core, P: Rule> Plant<N, L, C, P> {
    /// How the run has ended, where it has: without memory, by the machine's end, or because the budget is spent.
    #[inline]
    pub fn answer(&self) -> Option<Replayed>
        ensures value { result ≡ answer_of N.budget self.now }
        ensures stands { Stands N.code N.budget self.now }
        ensures sound { Sound N.code }
    {
        if self.lacked {
            return Some(Replayed::NoMemory);
        }
        if self.going {
            return spends(self.budget, self.spent);
        }
        match self.machine.end() {
            Some(_) => Some(Replayed::Ended),
            None => spends(self.budget, self.spent),
        }
    }

    /// The machine.
    pub fn machine(&self) -> &Machine<C>
        ensures { result.now ≡ self.now.machine }
    {
        &self.machine
    }

    /// What was done, in order.
    pub fn schedule(&self) -> &Schedule
        ensures { result.now ≡ self.now.schedule }
    {
        &self.schedule
    }

    // How many wait for a processor.
    #[inline(always)]
    pub fn waiting(&self) -> u32
        ensures { result ≡ length self.now.waiting }
    {
        self.ready.len()
    }

    // Tests that the budget is spent.
    #[inline(always)]
    pub fn is_spent(&self) -> bool
        ensures { result ≡ nat_le N.budget self.now.spent }
    {
        self.budget <= self.spent
    }

    // The processor with which a process is out.
    #[inline(always)]
    pub fn holder(&self, process: u32) -> u32
        ensures { result ≡ holder_of self.now.out process }
    {
        match process {
            0 => 0,
            _ => match self.out.get(process as usize - 1) {
                Some(holder) => *holder,
                None => 0,
            },
        }
    }

    // Takes the process at the place that the rule picks: it is out with the processor then. None comes exactly where nobody waits.
    #[inline]
    pub fn pick(&mut self, me: u32) -> Option<u32>
        requires me { 1 ≤ me }
        requires going { answer_of N.budget self.old ≡ None }
        ensures picked { Picks N.pick me self.old result self.new }
        ensures out { IfSome result (λ process. holder_of self.new.out process ≡ me) }
        ensures going { answer_of N.budget self.new ≡ None }
        ensures stands { Stands N.code N.budget self.new }
    {
        let process = self.ready.take()?;
        self.out[process as usize - 1] = me;
        Some(process)
    }

    /// Takes the process at the place that the rule picks: it is out with the processor then, and a part of it goes into the parcel. Takes no
    /// memory.
    pub fn take(&mut self, me: u32, parcel: &mut Parcel<N>) -> Taken
        requires { 1 ≤ me }
        ensures taken { PlantTakes N.pick N.budget me self.old result parcel.new.process self.new }
        ensures copied { result ≡ Taken.Work → IsCopied self.new.machine.image parcel.new }
        ensures other { result ≢ Taken.Work → parcel.new ≡ parcel.old }
        ensures stands { Stands N.code N.budget self.old }
    {
        match self.answer() {
            Some(Replayed::NoMemory) => return Taken::Lacked,
            Some(_) => return Taken::Over,
            None => {}
        }
        match self.pick(me) {
            Some(process) => {
                parcel.fill(&self.machine, process, self.room_for(process));
                Taken::Work
            }
            None => Taken::Idle,
        }
    }

    /// Performs the plain operators of a process that come next, while the budget is not spent, and then its action, which goes on the
    /// schedule. Whom it released, whom it started, and the process itself where it is able, go to the rear of the queue.
    pub fn act(&mut self, me: u32, process: u32, seat: &mut Seat<N, L>) -> Acted
        requires { 1 ≤ me }
        ensures acts { PlantActs N.budget me process self.old result self.new }
        ensures count { IsActed result seat.old.count seat.new.count }
        ensures fits { seat.new.count < 2 ^ 64 }
        ensures leaves { seat.new.left ≡ seat.old.left }
        ensures mark { seat.new.mark ≡ seat.old.mark }
        ensures stands { Stands N.code N.budget self.old }
    {
        let _count = seat.count;
        if let Some(refused) = refusal(self.answer()) {
            return refused;
        }
        if self.holder(process) != me {
            return Acted::NotOut;
        }
        self.enter(process, seat)
    }

    // Performs entries as `act` does: where nobody waits, one after another, so many beyond one at most, after each of which but the last the process
    // is taken again. What is answered is what the last one came to, and how many there were before it.
    pub fn act_many(
        &mut self,
        me: u32,
        process: u32,
        further: u32,
        seat: &mut Seat<N, L>,
    ) -> (Acted, u32)
        requires me { 1 ≤ me }
        requires further { further < MOST_LETTERS }
        ensures acts { ActsThen N.pick N.budget me process self.old result.0 result.1 self.new }
        ensures count { IsActed result.0 (seat.old.count + result.1) seat.new.count }
        ensures fits { seat.new.count < 2 ^ 64 }
        ensures leaves { seat.new.left ≡ seat.old.left }
        ensures mark { seat.new.mark ≡ seat.old.mark }
        ensures stands { Stands N.code N.budget self.old }
        ensures sound { Sound N.code }
    {
        let _count = seat.count;
        if let Some(refused) = refusal(self.answer()) {
            return (refused, 0);
        }
        if me != self.holder(process) {
            return (Acted::NotOut, 0);
        }
        let most = self.at_once(further);
        self.enter_many(process, most, seat)
    }

    /// A processor stops, since the run has an end or lacked memory; the machine is as it was. It does not exactly where that can not be
    /// counted, since there have been as many leaves as 64 bits can number.
    pub fn leave(&mut self, seat: &mut Seat<N, L>) -> bool
        requires { answer_of N.budget self.old ≢ None }
        ensures leaves { LeavesOr result self.old self.new }
        ensures left { result ≡ true → seat.new.left ≡ seat.old.left + 1 }
        ensures full { result ≡ false → self.old.leaves ≡ 2 ^ 64 - 1 }
        ensures refused { result ≡ false → seat.new.left ≡ seat.old.left }
        ensures count { seat.new.count ≡ seat.old.count }
        ensures ahead { seat.new.ahead ≡ seat.old.ahead }
        ensures mark { seat.new.mark ≡ seat.old.mark }
    {
        self.leaves.audit(&mut seat.leaves);
        if self.left == u64::MAX {
            return false;
        }
        self.leaves.add(&mut seat.leaves, 1);
        seat.left += 1;
        self.left += 1;
        true
    }
}

/// Law: a plant that lacked memory says so from then on at each of its calls, and none of them changes its machine.
pub fn lacking_is_kept()
    ensures { LackingIsKept }
{}
