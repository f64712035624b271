// The plant behind its lock.
//
// Under the lock lie landing, action and the copy of the process that is taken next: a parcel holds it once, from its landing until the next
// process is taken. In a long run further turns are made meanwhile, so that what lies about an entry is done once for many, but none after a parcel
// of many entries: there the work is done outside. Where nobody is ready a processor waits, and takes the lock once more. A parcel is worked
// outside, and so it begins and ends there.
ghost use Rattle.std.specs.Prelude.{◌≡◌, ◌≢◌, ℕ, ◌+◌, ◌<◌, ◌≤◌, ◌^◌, List, true, false, Some};
ghost use Rattle.std.specs.Sync.Mutex.{mutex_guard_value};
ghost use Rattle.b67_processors.specs.Acts.{IsActed};
ghost use Rattle.b67_stands.specs.Shared.{Shared, IsFree};
ghost use Rattle.b67_plant.specs.Calls.{HasLanded};
ghost use Rattle.b67_parcel.specs.Parcels.{IsWorked};
ghost use Rattle.b67_limits.specs.declared.TheConstants.{MOST_LETTERS};

use crate::placing::acts_in;
use crate::{Floor, Named, Parcel, Plant, PlantLanding, Seat, Taken};
use b67_processors::{Acted, Landing, Shop, Work};
use b67_ready::Rule;
use b67_segment::Code;
use b67_store::Core;
use b67_tally::Tally;
use std::sync::ledger::Ledger;
use std::sync::{Condvar, Mutex, MutexGuard, Wait};
use std::thread::Threads;

/// The plant behind a lock, and the code of its run beside it.
pub struct SharedPlant<N: Named, L: Ledger, C: Core, P: Rule> {
    floor: Mutex<Floor<N, L, C, P>>,
    moved: Condvar,
    code: Code,
    ghost named: { code ≡ N.code },
}

/// The leave to act in a process: a worked parcel of it has landed, and nobody else had the plant since then.
#[derive(Drop)]
pub struct Pass<'a, N: Named, L: Ledger, C: Core, P: Rule> {
    floor: MutexGuard<'a, Floor<N, L, C, P>>,
    process: u32,
    // How many entries may follow the next one under this hold of the lock.
    further: u32,
    ghost landed: { ∥ HasLanded N.code N.budget process (mutex_guard_value floor) ∥₁ },
    ghost few: { further < MOST_LETTERS },
}

// After a landing of so many entries no turns but one follow under its hold of the lock.
const MANY: u64 = 64;

// The leave to act after a landing.
fn passed<'a, N: Named, L: Ledger, C: Core, P: Rule>(
    floor: MutexGuard<'a, Floor<N, L, C, P>>,
    process: u32,
    further: u32,
) -> Pass<'a, N, L, C, P>
    requires landed { HasLanded N.code N.budget process (mutex_guard_value floor) }
    requires few { further < MOST_LETTERS }
{
    Pass {
        floor,
        process,
        further,
    }
}

// How many turns may follow the next one after a landing of so many entries.
fn further_after<N: Named, L: Ledger, C: Core, P: Rule>(made: u64, plant: &Plant<N, L, C, P>) -> u32
    ensures { result < MOST_LETTERS }
{
    if made >= MANY { 0 } else { plant.further() }
}

// What a processor is answered whose parcel did not land.
fn refused<T>(landing: PlantLanding) -> Landing<T> {
    match landing {
        PlantLanding::Stale { .. } => Landing::Stale,
        PlantLanding::NotOut => Landing::NotOut,
        PlantLanding::Landed | PlantLanding::Over | PlantLanding::Lacked => Landing::Over,
    }
}

// A take under the lock, or nothing where the processor has to wait.
fn tried<N: Named, L: Ledger, C: Core, P: Rule>(
    floor: &mut Floor<N, L, C, P>,
    me: u32,
    seat: &mut Seat<N, L>,
) -> Option<Work>
    requires me { (1 ≤ me) × (me ≤ N.processors) }
    requires free { seat.old.ahead.is_there ≡ false }
    ensures over { result ≡ Some Work.Over → seat.new.left ≡ seat.old.left + 1 }
    ensures other { result ≢ Some Work.Over → seat.new.left ≡ seat.old.left }
    ensures count { seat.new.count ≡ seat.old.count }
    ensures mark { seat.new.mark ≡ seat.old.mark }
    ensures there { result ≡ Some Work.Parcel → seat.new.ahead.is_there ≡ true }
    ensures free { result ≢ Some Work.Parcel → seat.new.ahead.is_there ≡ false }
{
    match floor.take(me, &mut seat.ahead) {
        Taken::Work => Some(Work::Parcel),
        Taken::Idle => None,
        Taken::Over | Taken::Lacked => {
            if floor.leave(seat) {
                Some(Work::Over)
            } else {
                None
            }
        }
    }
}

// Takes the next process, where the processor has none, and says whether the run has an end or lacked memory. Where nobody is known to be out with
// it, none is looked for.
fn take_next<N: Named, L: Ledger, C: Core, P: Rule>(
    floor: &mut Floor<N, L, C, P>,
    me: u32,
    free: bool,
    seat: &mut Seat<N, L>,
) -> bool
    requires me { (1 ≤ me) × (me ≤ N.processors) }
    requires free { free ≡ true → IsFree me floor.old }
    ensures count { seat.new.count ≡ seat.old.count }
    ensures left { seat.new.left ≡ seat.old.left }
    ensures mark { seat.new.mark ≡ seat.old.mark }
    ensures kept { seat.old.ahead.is_there ≡ true → seat.new.ahead ≡ seat.old.ahead }
{
    if seat.ahead.is_there() {
        return floor.plant().answer().is_some();
    }
    let taken = if free {
        floor.take_new(me, &mut seat.ahead)
    } else {
        floor.take(me, &mut seat.ahead)
    };
    match taken {
        Taken::Work | Taken::Idle => false,
        Taken::Over | Taken::Lacked => true,
    }
}

impl<N: Named, L: Ledger, C: Core, P: Rule> SharedPlant<N, L, C, P> {
    /// The plant goes behind the lock with the tally of its acts, and the code stays beside it.
    pub fn new(plant: Plant<N, L, C, P>, tally: Tally, code: Code) -> SharedPlant<N, L, C, P>
        requires code { code ≡ N.code }
        requires tally { tally.name ≡ N.tally }
        requires shared { Shared N.code N.budget N.pick N.processors tally.numbers plant }
    {
        SharedPlant::of(Floor::new(plant, tally), code)
    }

    /// What was shared before goes behind the lock.
    pub fn of(floor: Floor<N, L, C, P>, code: Code) -> SharedPlant<N, L, C, P>
        requires { code ≡ N.code }
    {
        SharedPlant {
            floor: Mutex::new(floor),
            moved: Condvar::new(),
            code,
        }
    }

    /// What is shared comes out of the lock.
    pub fn into_floor(self) -> Floor<N, L, C, P> {
        let SharedPlant {
            floor,
            moved: _moved,
            code: _code,
        } = self;
        floor.into_inner()
    }

    /// The plant comes out of the lock.
    pub fn into_plant(self) -> Plant<N, L, C, P>
        ensures { (acts : List ℕ) × Shared N.code N.budget N.pick N.processors acts result }
    {
        self.into_floor().into_parts().0
    }

    // Sees to it that a process is taken ahead: waits while nothing is ready, and leaves at the end.
    fn take_one<R: Wait>(&self, rt: &R, me: u32, seat: &mut Seat<N, L>) -> Work
        requires { (1 ≤ me) × (me ≤ N.processors) }
        ensures over { result ≡ Work.Over → seat.new.left ≡ seat.old.left + 1 }
        ensures other { result ≢ Work.Over → seat.new.left ≡ seat.old.left }
        ensures count { seat.new.count ≡ seat.old.count }
        ensures mark { seat.new.mark ≡ seat.old.mark }
        ensures there { result ≢ Work.Over → seat.new.ahead.is_there ≡ true }
        ensures kept { seat.old.ahead.is_there ≡ true → (result ≢ Work.Over) × (seat.new.ahead ≡ seat.old.ahead) }
    {
        if seat.ahead.is_there() {
            return Work::Parcel;
        }
        let mut floor = self.floor.lock(rt);
        for _ in rt.forever() {
            match tried(&mut *floor, me, seat) {
                Some(work) => return work,
                None => floor = self.moved.wait(rt, floor),
            }
        }
        unreachable!()
    }

    // Wakes those who wait: all of them at the end of the run, else one for each who has joined the queue.
    fn wake(&self, has_ended: bool, joined: u32) {
        if has_ended {
            self.moved.notify_all();
            return;
        }
        'joined: for _ in 0..joined {
            self.moved.notify_one();
        }
    }
}

impl<'a, N: Named + Send + Sync, L: Ledger + Send + Sync, C: Core + Send, P: Rule + Send> Shop
    for &'a SharedPlant<N, L, C, P> {
    type Parcel = Parcel<N>;

    type Seat = Seat<N, L>;

    type Pass = Pass<'a, N, L, C, P>;

    ghost processors = { λ s. N.processors };

    ghost worked = { λ s p. IsWorked N.code p };

    ghost count = { λ s. s.count };

    ghost leaves = { λ s. s.left };

    ghost parts = { λ s. s.acts.parts };

    ghost whose = { λ s. s.mark.place + 1 };

    fn take<R: Threads + Wait + Sync>(
        &self,
        rt: &R,
        me: u32,
        parcel: &mut Parcel<N>,
        seat: &mut Seat<N, L>,
    ) -> Work {
        match self.take_one(rt, me, seat) {
            Work::Over => Work::Over,
            Work::Parcel => {
                parcel.begin(&mut seat.ahead);
                Work::Parcel
            }
        }
    }

    fn work(&self, parcel: &mut Parcel<N>) -> u32 {
        parcel.work(&self.code)
    }

    // The lock stays held by what is answered, so that nothing comes between a landing and its action.
    fn land<R: Threads + Wait + Sync>(
        &self,
        rt: &R,
        me: u32,
        parcel: &Parcel<N>,
        seat: &mut Seat<N, L>,
    ) -> (Landing<Pass<'a, N, L, C, P>>, u64) {
        let shared: &'a SharedPlant<N, L, C, P> = *self;
        let mut floor = shared.floor.lock(rt);
        let (landing, made) = floor.land(me, parcel, seat);
        if let PlantLanding::Landed = landing {
            if floor.plant().is_spent() {
                shared.moved.notify_all();
            }
            let further = further_after(made, floor.plant());
            return (
                Landing::Landed(passed(floor, parcel.process(), further)),
                made,
            );
        }
        (refused(landing), made)
    }

    // Under the lock of the landing the processor makes further turns, and takes its next process too, where one is ready. The others are woken
    // after it.
    fn act<R: Threads + Wait + Sync>(
        &self,
        _rt: &R,
        me: u32,
        pass: Pass<'a, N, L, C, P>,
        seat: &mut Seat<N, L>,
    ) -> (Acted, u64) {
        let Pass {
            mut floor,
            process,
            further,
        } = pass;
        let before = floor.plant().waiting();
        let (acted, others) = floor.act(me, process, further, seat);
        let free = acts_in(acted) > 0;
        let (more, free) = floor.turns(me, further, free, seat);
        let has_ended = take_next(&mut *floor, me, free, seat);
        let joined = floor.plant().waiting().saturating_sub(before);
        drop(floor);
        self.wake(has_ended, joined);
        (acted, u64::from(others) + more)
    }
}
