//! A processor's loop: it takes parcels of a shop, works them, lands them and acts, until the shop is over.
#![tactic(auto)]

mod gates;

ghost use Rattle.std.specs.Prelude.{◌≡◌, ℕ, ◌+◌, ◌<◌, ◌≤◌, ◌^◌, true};
ghost use Rattle.b67_processors.specs.Acts.{IsActed, HasTaken};

pub use gates::{Gate, Meeting, Open};
use std::sync::Wait;
use std::thread::Threads;

/// What a take answers.
#[derive(Clone, Copy)]
pub enum Work {
    /// There is a parcel to be worked.
    Parcel,
    /// There is nothing more to do.
    Over,
}

/// What a landing answers.
#[derive(Drop)]
pub enum Landing<L> {
    /// The parcel's end is in place, and an act may follow.
    Landed(L),
    /// The parcel does not begin with what is kept.
    Stale,
    /// The parcel's process is not out with this processor.
    NotOut,
    /// There is nothing more to do.
    Over,
}

/// What an act answers.
#[derive(Clone, Copy)]
pub enum Acted {
    /// An action was performed.
    Went,
    /// An action was performed, and its process waits.
    Waits,
    /// The process is not out with this processor.
    NotOut,
    /// There is nothing more to do, and no action was performed.
    Over,
    /// There is no memory for the action.
    NoMemory,
}

/// Where processors get their work. A seat is a processor's, for good: it has a count of acts, a count of leaves, and parts.
pub trait Shop: Sync {
    type Parcel;

    type Seat;

    type Pass: Drop;

    ghost processors: { Self → ℕ };

    ghost worked: { Self → Self.Parcel → Type 0 };

    ghost count: { Self.Seat → ℕ };

    ghost leaves: { Self.Seat → ℕ };

    ghost parts: { Self.Seat → ℕ };

    /// The number of the processor whose seat it is.
    ghost whose: { Self.Seat → ℕ };

    /// Waits for a parcel. An Over, and nothing else, is a leave.
    fn take<R: Threads + Wait + Sync>(
        &self,
        rt: &R,
        me: u32,
        parcel: &mut Self::Parcel,
        seat: &mut Self::Seat,
    ) -> Work
        requires me { (1 ≤ me) × (me ≤ processors self.now) }
        requires whose { whose seat.old ≡ me }
        ensures leaves { HasTaken result (leaves seat.old) (leaves seat.new) }
        ensures count { count seat.new ≡ count seat.old }
        ensures parts { parts seat.new ≡ parts seat.old }
        ensures whose { whose seat.new ≡ whose seat.old };

    /// Works a parcel, by nobody's leave.
    fn work(&self, parcel: &mut Self::Parcel) -> u32
        ensures { worked self.now parcel.new };

    /// Lands a parcel that was worked, and answers how many actions it had.
    fn land<R: Threads + Wait + Sync>(
        &self,
        rt: &R,
        me: u32,
        parcel: &Self::Parcel,
        seat: &mut Self::Seat,
    ) -> (Landing<Self::Pass>, u64)
        requires me { (1 ≤ me) × (me ≤ processors self.now) }
        requires whose { whose seat.old ≡ me }
        requires worked { worked self.now parcel.now }
        ensures count { count seat.new ≡ count seat.old + result.1 }
        ensures fits { count seat.new < 2 ^ 64 }
        ensures leaves { leaves seat.new ≡ leaves seat.old }
        ensures parts { parts seat.new ≡ parts seat.old }
        ensures whose { whose seat.new ≡ whose seat.old };

    /// Performs actions, by leave of a landing, and answers what the last one came to, and how many were performed before it.
    fn act<R: Threads + Wait + Sync>(
        &self,
        rt: &R,
        me: u32,
        pass: Self::Pass,
        seat: &mut Self::Seat,
    ) -> (Acted, u64)
        requires me { (1 ≤ me) × (me ≤ processors self.now) }
        requires whose { whose seat.old ≡ me }
        ensures count { IsActed result.0 (count seat.old + result.1) (count seat.new) }
        ensures fits { count seat.new < 2 ^ 64 }
        ensures leaves { leaves seat.new ≡ leaves seat.old }
        ensures parts { parts seat.new ≡ parts seat.old }
        ensures whose { whose seat.new ≡ whose seat.old };
}

/// Takes, works, passes the gate, lands and acts until the shop is over, and answers how many acts were made.
pub fn serve<S: Shop, G: Gate, R: Threads + Wait + Sync>(
    rt: &R,
    shop: &S,
    gate: &G,
    me: u32,
    parcel: &mut S::Parcel,
    seat: &mut S::Seat,
) -> u64
    requires me { (1 ≤ me) × (me ≤ S.processors shop.now) }
    requires whose { S.whose seat.old ≡ me }
    ensures count { S.count seat.new ≡ S.count seat.old + result }
    ensures leaves { S.leaves seat.new ≡ S.leaves seat.old + 1 }
    ensures parts { S.parts seat.new ≡ S.parts seat.old }
    ensures whose { S.whose seat.new ≡ S.whose seat.old }
{
    let mut acts = 0u64;
    let mut turn = 0u64;
    for _ in rt.forever() {
        match shop.take(rt, me, parcel, seat) {
            Work::Over => return acts,
            Work::Parcel => {
                shop.work(parcel);
                gate.pass(rt, me, turn);
                turn = turn.saturating_add(1);
                let more = lands_and_acts(rt, shop, me, parcel, seat);
                if more > 0 {
                    acts += more;
                }
            }
        }
    }
    unreachable!()
}

/// Lands the parcel and acts, and answers how many acts were counted.
fn lands_and_acts<S: Shop, R: Threads + Wait + Sync>(
    rt: &R,
    shop: &S,
    me: u32,
    parcel: &S::Parcel,
    seat: &mut S::Seat,
) -> u64
    requires me { (1 ≤ me) × (me ≤ S.processors shop.now) }
    requires whose { S.whose seat.old ≡ me }
    requires worked { S.worked shop.now parcel.now }
    ensures count { S.count seat.new ≡ S.count seat.old + result }
    ensures fits { 1 ≤ result → S.count seat.new < 2 ^ 64 }
    ensures leaves { S.leaves seat.new ≡ S.leaves seat.old }
    ensures parts { S.parts seat.new ≡ S.parts seat.old }
    ensures whose { S.whose seat.new ≡ S.whose seat.old }
{
    let (landing, landed) = shop.land(rt, me, parcel, seat);
    match landing {
        Landing::Landed(pass) => match shop.act(rt, me, pass, seat) {
            (Acted::Went, before) => landed + before + 1,
            (Acted::Waits, before) => landed + before + 1,
            (Acted::NotOut, before) => landed + before,
            (Acted::Over, before) => landed + before,
            (Acted::NoMemory, before) => landed + before,
        },
        Landing::Stale => landed,
        Landing::NotOut => landed,
        Landing::Over => landed,
    }
}
