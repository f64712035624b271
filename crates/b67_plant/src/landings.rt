// Landings: what was performed on a parcel is performed on the machine.
ghost use Rattle.std.specs.Prelude.{◌≡◌, ◌+◌, ◌<◌, ◌≤◌, ◌^◌, true, None, Some};
ghost use Rattle.b67_list.specs.Numbered.{numbered};
ghost use Rattle.b67_table.specs.declared.Private.{Private};
ghost use Rattle.b67_table.specs.Image.{is_live};
ghost use Rattle.b67_machine.specs.Parts.{Compared};
ghost use Rattle.b67_parcel.specs.Parcels.{part_for, StartsAs, IsRun};
ghost use Rattle.b67_plant.specs.Calls.{Lands, LandsOrStays, LandsWell, PutsRun, IsCounted};
ghost use Rattle.b67_stands.specs.Calls.{GoesBack};
ghost use Rattle.b67_stands.specs.Placing.{holder_of};
ghost use Rattle.b67_stands.specs.Running.{answer_of};

use crate::{Named, Parcel, Plant, PlantLanding, Seat};
use b67_machine::{Machine, Replayed};
use b67_ready::Rule;
use b67_store::Core;
use b67_word::Word;
use std::sync::ledger::Ledger;

// Where a parcel's start first differs from what the machine has, and the word of each there.
fn stale_at<N: Named, C: Core>(
    machine: &Machine<C>,
    parcel: &Parcel<N>,
) -> Option<(u32, Word, Word)>
    requires { is_live (numbered machine.now.image.states parcel.now.process) ≡ true }
    ensures { (kept : Private) × (part_for parcel.now.room machine.now.image parcel.now.process ≡ Some kept) × Compared kept parcel.now.start result }
{
    machine.differs(parcel.process(), parcel.start())
}

impl<N: Named, L: Ledger, C: Core, P: Rule> Plant<N, L, C, P> {
    /// Lands a parcel: what was performed is performed on the machine, where the parcel's start is the part that is kept. Its entries go on the
    /// schedule, and are counted of the processor's seat. Else its process goes back to the queue.
    pub fn land(&mut self, me: u32, parcel: &Parcel<N>, seat: &mut Seat<N, L>) -> PlantLanding
        requires { 1 ≤ me }
        ensures lands { Lands N.budget me parcel.now self.old result self.new }
        ensures count { IsCounted self.old seat.old.count self.new seat.new.count }
        ensures fits { seat.new.count < 2 ^ 64 }
        ensures leaves { seat.new.left ≡ seat.old.left }
        ensures ahead { seat.new.ahead ≡ seat.old.ahead }
        ensures mark { seat.new.mark ≡ seat.old.mark }
    {
        let landing = self.land_or_stay(me, parcel, seat);
        if let PlantLanding::Stale { .. } = landing {
            self.put_back(parcel.process());
        }
        landing
    }

    // Lands a parcel, as `land` does. But where its start is not the part that is kept, its process stays out.
    pub fn land_or_stay(
        &mut self,
        me: u32,
        parcel: &Parcel<N>,
        seat: &mut Seat<N, L>,
    ) -> PlantLanding
        requires { 1 ≤ me }
        ensures lands { LandsOrStays N.budget me parcel.now self.old result self.new }
        ensures count { IsCounted self.old seat.old.count self.new seat.new.count }
        ensures fits { seat.new.count < 2 ^ 64 }
        ensures leaves { seat.new.left ≡ seat.old.left }
        ensures ahead { seat.new.ahead ≡ seat.old.ahead }
        ensures mark { seat.new.mark ≡ seat.old.mark }
    {
        let _count = seat.count;
        match self.answer() {
            Some(Replayed::NoMemory) => return PlantLanding::Lacked,
            Some(_) => return PlantLanding::Over,
            None => {}
        }
        if self.holder(parcel.process()) != me {
            return PlantLanding::NotOut;
        }
        if let Some((place, kept, given)) = stale_at(&self.machine, parcel) {
            return PlantLanding::Stale { place, kept, given };
        }
        self.put(parcel, seat);
        PlantLanding::Landed
    }

    // A process that is out goes back to the queue.
    fn put_back(&mut self, process: u32)
        requires going { answer_of N.budget self.old ≡ None }
        requires out { 1 ≤ holder_of self.old.out process }
        ensures { GoesBack self.old process self.new }
    {
        self.out[process as usize - 1] = 0;
        self.ready.put(process);
    }

    // What was performed on a parcel is performed on the machine, which has its start; where it may have entries, only while more operators are left
    // of the budget.
    fn put(&mut self, parcel: &Parcel<N>, seat: &mut Seat<N, L>)
        requires going { answer_of N.budget self.old ≡ None }
        requires out { 1 ≤ holder_of self.old.out parcel.now.process }
        requires starts { StartsAs self.old.machine.image parcel.now }
        ensures lands { LandsWell N.budget parcel.now self.old self.new }
        ensures count { IsCounted self.old seat.old.count self.new seat.new.count }
        ensures fits { seat.new.count < 2 ^ 64 }
        ensures leaves { seat.new.left ≡ seat.old.left }
        ensures ahead { seat.new.ahead ≡ seat.old.ahead }
        ensures mark { seat.new.mark ≡ seat.old.mark }
    {
        let _count = seat.count;
        if parcel.room() == 0 {
            self.put_end(parcel);
            return;
        }
        let _start = parcel.start();
        let count = parcel.count();
        if count == 0 || self.budget - self.spent <= count {
            return;
        }
        self.put_run(parcel, seat);
    }

    // The end of a private part takes the place of its start, which the machine has.
    fn put_end(&mut self, parcel: &Parcel<N>)
        requires going { answer_of N.budget self.old ≡ None }
        requires out { 1 ≤ holder_of self.old.out parcel.now.process }
        requires starts { StartsAs self.old.machine.image parcel.now }
        requires room { parcel.now.room ≡ 0 }
        ensures lands { LandsWell N.budget parcel.now self.old self.new }
        ensures book { self.new.acts ≡ self.old.acts }
    {
        let count = parcel.count();
        self.machine
            .put_private(parcel.process(), parcel.end(), count);
        self.spent += count;
    }

    // The end of a whole stack takes the place of its start, which the machine has: the entries that lead to it go on the schedule, and are counted
    // of the processor's seat.
    fn put_run(&mut self, parcel: &Parcel<N>, seat: &mut Seat<N, L>)
        requires going { answer_of N.budget self.old ≡ None }
        requires out { 1 ≤ holder_of self.old.out parcel.now.process }
        requires starts { StartsAs self.old.machine.image parcel.now }
        requires room { 1 ≤ parcel.now.room }
        requires run { IsRun N.code parcel.now }
        requires less { self.old.spent + (parcel.now.ran.operators + parcel.now.ran.plain) < N.budget }
        ensures puts { PutsRun N.budget parcel.now self.old self.new }
        ensures count { IsCounted self.old seat.old.count self.new seat.new.count }
        ensures fits { seat.new.count < 2 ^ 64 }
        ensures leaves { seat.new.left ≡ seat.old.left }
        ensures ahead { seat.new.ahead ≡ seat.old.ahead }
        ensures mark { seat.new.mark ≡ seat.old.mark }
    {
        let _count = seat.count;
        let process = parcel.process();
        let ran = parcel.ran();
        let letters = parcel.letters();
        self.machine.put_run(process, parcel.end(), ran, letters);
        self.spent += ran.operators;
        self.spent += ran.plain;
        self.schedule
            .push_many(process, &letters[..ran.entries as usize]);
        self.acts.audit(&mut seat.acts);
        self.acts.add(&mut seat.acts, u64::from(ran.entries));
        seat.count += u64::from(ran.entries);
    }
}
