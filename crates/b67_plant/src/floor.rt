// What is behind the lock: a plant whose calls were those of processors that share it, and the tally of the acts that each of them made.
ghost use Rattle.std.specs.Prelude.{◌≡◌, ◌≢◌, ◌+◌, ◌<◌, ◌≤◌, ◌^◌, true, false, None};
ghost use Rattle.b67_processors.specs.Acts.{IsActed};
ghost use Rattle.b67_stands.specs.Running.{answer_of};
ghost use Rattle.b67_stands.specs.Shared.{Shared, IsFree};
ghost use Rattle.b67_plant.specs.Calls.{LandsOrStays, ActsThen, LeavesOr, acts_in};
ghost use Rattle.b67_limits.specs.declared.TheConstants.{MOST_LETTERS};

use crate::placing::acts_in;
use crate::{Ahead, Named, Parcel, Plant, PlantLanding, Seat, Taken};
use b67_machine::Replayed;
use b67_processors::Acted;
use b67_ready::Rule;
use b67_store::Core;
use b67_tally::Tally;
use std::marker::Model;
use std::sync::ledger::Ledger;

/// A plant whose takes were each by a processor with which nobody was out, and from which no process went back to the queue but after its
/// entry. An act is counted of the processor with which its process was out.
#[derive(Drop)]
pub struct Floor<N: Named, L: Ledger, C: Core, P: Rule> {
    plant: Plant<N, L, C, P>,
    // How many acts each processor made, in their order.
    tally: Tally,
}

impl<N: Named, L: Ledger, C: Core, P: Rule> Model for Floor<N, L, C, P> {
    ghost use Rattle.std.specs.Prelude.{◌≡◌};
    ghost use Rattle.b67_stands.specs.Running.{Running};
    ghost use Rattle.b67_stands.specs.Shared.{Shared};

    ghost Value = { Running };

    ghost view = { λ f. f.plant };

    ghost invariant = { λ f.
        Shared N.code N.budget N.pick N.processors f.tally.numbers f.plant
        × (f.tally.name ≡ N.tally) };
}

impl<N: Named, L: Ledger, C: Core, P: Rule> Floor<N, L, C, P> {
    // The plant is shared from here on, and the tally is that of its acts.
    pub fn new(plant: Plant<N, L, C, P>, tally: Tally) -> Floor<N, L, C, P>
        requires tally { tally.name ≡ N.tally }
        requires shared { Shared N.code N.budget N.pick N.processors tally.numbers plant }
        ensures { result ≡ plant }
    {
        Floor { plant, tally }
    }

    // The plant.
    pub fn plant(&self) -> &Plant<N, L, C, P>
        ensures { result.now ≡ self.now }
    {
        &self.plant
    }

    // The plant comes out, and the tally of the acts that each processor made.
    pub fn into_parts(self) -> (Plant<N, L, C, P>, Tally)
        ensures same { result.0 ≡ self }
        ensures tally { result.1.name ≡ N.tally }
        ensures shared { Shared N.code N.budget N.pick N.processors result.1.numbers result.0 }
    {
        let Floor { plant, tally } = self;
        (plant, tally)
    }

    // Takes a process for a processor that has none ahead. Where one is out with the processor all the same, since its parcel was stale, that
    // one is fetched anew; else the one at the place that the rule picks is taken.
    pub fn take(&mut self, me: u32, ahead: &mut Ahead<N>) -> Taken
        requires me { (1 ≤ me) × (me ≤ N.processors) }
        requires free { ahead.old.is_there ≡ false }
        ensures there { result ≡ Taken.Work → ahead.new.is_there ≡ true }
        ensures other { result ≢ Taken.Work → ahead.new ≡ ahead.old }
        ensures idle { result ≡ Taken.Idle → answer_of N.budget self.new ≡ None }
        ensures over { result ≡ Taken.Over → answer_of N.budget self.new ≢ None }
        ensures lacked { result ≡ Taken.Lacked → answer_of N.budget self.new ≢ None }
    {
        match self.plant.answer() {
            Some(Replayed::NoMemory) => return Taken::Lacked,
            Some(_) => return Taken::Over,
            None => {}
        }
        if let Some(process) = self.plant.out_with(me) {
            self.plant.fetch_out(process, ahead);
            return Taken::Work;
        }
        self.take_new(me, ahead)
    }

    // Takes the process at the place that the rule picks, for a processor with which nobody is out.
    pub fn take_new(&mut self, me: u32, ahead: &mut Ahead<N>) -> Taken
        requires me { (1 ≤ me) × (me ≤ N.processors) }
        requires free { IsFree me self.old }
        requires none { ahead.old.is_there ≡ false }
        ensures there { result ≡ Taken.Work → ahead.new.is_there ≡ true }
        ensures other { result ≢ Taken.Work → ahead.new ≡ ahead.old }
        ensures idle { result ≡ Taken.Idle → answer_of N.budget self.new ≡ None }
        ensures over { result ≡ Taken.Over → answer_of N.budget self.new ≢ None }
        ensures lacked { result ≡ Taken.Lacked → answer_of N.budget self.new ≢ None }
    {
        self.plant.take_ahead(me, ahead)
    }

    // Lands a parcel, and answers how many entries it had. They are counted of the processor, whose seat it is. A process whose parcel is stale
    // stays out with its processor.
    pub fn land(
        &mut self,
        me: u32,
        parcel: &Parcel<N>,
        seat: &mut Seat<N, L>,
    ) -> (PlantLanding, u64)
        requires me { (1 ≤ me) × (me ≤ N.processors) }
        requires whose { seat.old.mark.place + 1 ≡ me }
        ensures lands { LandsOrStays N.budget me parcel.now self.old result.0 self.new }
        ensures count { seat.new.count ≡ seat.old.count + result.1 }
        ensures fits { seat.new.count < 2 ^ 64 }
        ensures leaves { seat.new.left ≡ seat.old.left }
        ensures ahead { seat.new.ahead ≡ seat.old.ahead }
        ensures whose { seat.new.mark.place ≡ seat.old.mark.place }
    {
        let before = seat.count;
        let landing = self.plant.land_or_stay(me, parcel, seat);
        let made = seat.count - before;
        self.tally.add(&mut seat.mark, made);
        (landing, made)
    }

    // Actions of a process, as the plant's, where nobody waits so many beyond one at most: what the last one came to, and how many there were before
    // it. They are counted of the processor, whose seat it is, where they were performed.
    pub fn act(
        &mut self,
        me: u32,
        process: u32,
        further: u32,
        seat: &mut Seat<N, L>,
    ) -> (Acted, u32)
        requires me { (1 ≤ me) × (me ≤ N.processors) }
        requires further { further < MOST_LETTERS }
        requires whose { seat.old.mark.place + 1 ≡ me }
        ensures acts { ActsThen N.pick N.budget me process self.old result.0 result.1 self.new }
        ensures free { 1 ≤ acts_in result.0 → IsFree me self.new }
        ensures count { IsActed result.0 (seat.old.count + result.1) seat.new.count }
        ensures fits { seat.new.count < 2 ^ 64 }
        ensures leaves { seat.new.left ≡ seat.old.left }
        ensures whose { seat.new.mark.place ≡ seat.old.mark.place }
    {
        let (acted, before) = self.plant.act_many(me, process, further, seat);
        self.tally
            .add(&mut seat.mark, u64::from(before) + acts_in(acted));
        (acted, before)
    }

    // One turn more of a processor with which nobody is out, while the run goes on: the process at the place that the rule picks is taken, and
    // acts. It answers how many actions were performed, and whether another turn may follow.
    fn turn(&mut self, me: u32, seat: &mut Seat<N, L>) -> (u64, bool)
        requires me { (1 ≤ me) × (me ≤ N.processors) }
        requires whose { seat.old.mark.place + 1 ≡ me }
        requires free { IsFree me self.old }
        requires fits { seat.old.count < 2 ^ 64 }
        ensures free { result.1 ≡ true → IsFree me self.new }
        ensures count { seat.new.count ≡ seat.old.count + result.0 }
        ensures fits { seat.new.count < 2 ^ 64 }
        ensures leaves { seat.new.left ≡ seat.old.left }
        ensures whose { seat.new.mark.place ≡ seat.old.mark.place }
    {
        if self.plant.answer().is_some() {
            return (0, false);
        }
        let Some(process) = self.plant.pick(me) else {
            return (0, false);
        };
        let most = self.plant.at_once(self.plant.further());
        let (acted, before) = self.plant.enter_many(process, most, seat);
        let last = acts_in(acted);
        let made = u64::from(before) + last;
        self.tally.add(&mut seat.mark, made);
        (made, last > 0)
    }

    // Turns more of a processor after its act, so many at most; and how many actions were performed. There are none where somebody may still be out
    // with it, and it is told whether nobody is after them.
    pub fn turns(&mut self, me: u32, further: u32, free: bool, seat: &mut Seat<N, L>) -> (u64, bool)
        requires me { (1 ≤ me) × (me ≤ N.processors) }
        requires whose { seat.old.mark.place + 1 ≡ me }
        requires free { free ≡ true → IsFree me self.old }
        requires fits { seat.old.count < 2 ^ 64 }
        ensures free { result.1 ≡ true → IsFree me self.new }
        ensures count { seat.new.count ≡ seat.old.count + result.0 }
        ensures fits { seat.new.count < 2 ^ 64 }
        ensures leaves { seat.new.left ≡ seat.old.left }
        ensures whose { seat.new.mark.place ≡ seat.old.mark.place }
    {
        if !free {
            return (0, false);
        }
        let mut left = further;
        let mut made = 0;
        'turns: while left > 0 {
            left -= 1;
            let (more, goes) = self.turn(me, seat);
            made += more;
            if !goes {
                return (made, false);
            }
        }
        (made, true)
    }

    // A processor stops, as the plant says.
    pub fn leave(&mut self, seat: &mut Seat<N, L>) -> bool
        requires { answer_of N.budget self.old ≢ None }
        ensures leaves { LeavesOr result self.old self.new }
        ensures left { result ≡ true → seat.new.left ≡ seat.old.left + 1 }
        ensures refused { result ≡ false → seat.new.left ≡ seat.old.left }
        ensures count { seat.new.count ≡ seat.old.count }
        ensures ahead { seat.new.ahead ≡ seat.old.ahead }
        ensures mark { seat.new.mark ≡ seat.old.mark }
    {
        self.plant.leave(seat)
    }
}
