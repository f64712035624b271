//! Processors that serve a shop.

ghost use Rattle.std.specs.Prelude.{◌≤◌};

use b67_processors::{Acted, Gate, Landing, Meeting, Shop, Work, serve};
use std::sync::Wait;
use std::sync::atomic::{AtomicBool, AtomicU64, Ordering};
use std::thread;
use std::thread::Threads;

/// How often the gate looks whether it may be passed.
const LOOKS: u64 = 20_000_000;

/// A shop that has a parcel for each of two processors. It notes its calls and those of a gate, a digit each, and whether the second
/// processor had worked when the first one landed.
#[derive(Drop)]
struct Bench {
    calls: AtomicU64,
    second: AtomicBool,
    met: AtomicBool,
}

impl Bench {
    fn new() -> Bench {
        Bench {
            calls: AtomicU64::new(0),
            second: AtomicBool::new(false),
            met: AtomicBool::new(false),
        }
    }

    /// Notes a call.
    fn note(&self, call: u64) {
        let before = self.calls.load(Ordering::SeqCst);
        self.calls.store(before.wrapping_mul(10).wrapping_add(call), Ordering::SeqCst);
    }
}

/// Whose it is, how often that processor acted, and how often it was told that there is nothing more to do.
#[derive(Drop)]
struct Stool {
    whose: u32,
    acts: u64,
    leaves: u64,
}

/// The leave to act.
#[derive(Drop)]
struct Leave;

impl Shop for Bench {
    type Parcel = u32;

    type Seat = Stool;

    type Pass = Leave;

    ghost processors = { λ bench. 2 };

    ghost worked = { λ bench parcel. Unit {0} };

    ghost count = { λ stool. stool.acts };

    ghost leaves = { λ stool. stool.leaves };

    ghost parts = { λ stool. 1 };

    ghost whose = { λ stool. stool.whose };

    fn take<R: Threads + Wait + Sync>(
        &self,
        _rt: &R,
        me: u32,
        parcel: &mut u32,
        seat: &mut Stool,
    ) -> Work {
        self.note(1);
        if seat.acts == 0 || seat.leaves == u64::MAX {
            *parcel = me;
            return Work::Parcel;
        }
        seat.leaves += 1;
        Work::Over
    }

    fn work(&self, parcel: &mut u32) -> u32 {
        self.note(2);
        if *parcel == 2 {
            self.second.store(true, Ordering::SeqCst);
        }
        0
    }

    fn land<R: Threads + Wait + Sync>(
        &self,
        _rt: &R,
        me: u32,
        _parcel: &u32,
        seat: &mut Stool,
    ) -> (Landing<Leave>, u64) {
        let _acts = seat.acts;
        self.note(4);
        if me == 1 {
            self.met
                .store(self.second.load(Ordering::SeqCst), Ordering::SeqCst);
        }
        (Landing::Landed(Leave), 0)
    }

    fn act<R: Threads + Wait + Sync>(
        &self,
        _rt: &R,
        _me: u32,
        _pass: Leave,
        seat: &mut Stool,
    ) -> (Acted, u64) {
        self.note(5);
        if seat.acts == u64::MAX {
            return (Acted::NotOut, 0);
        }
        seat.acts += 1;
        (Acted::Went, 0)
    }
}

/// The gate that never holds, and is noted.
#[derive(Drop)]
struct Noted<'a> {
    bench: &'a Bench,
}

impl Gate for Noted<'_> {
    fn pass<R: Threads + Wait + Sync>(&self, _rt: &R, _processor: u32, _turn: u64) {
        self.bench.note(3);
    }
}

/// How many acts a processor makes.
fn acts_of<R: Threads + Wait + Sync, G: Gate>(rt: &R, bench: &Bench, gate: &G, me: u32) -> u64
    requires { (1 ≤ me) × (me ≤ 2) }
{
    let mut parcel = 0;
    let mut seat = Stool {
        whose: me,
        acts: 0,
        leaves: 0,
    };
    serve(rt, bench, gate, me, &mut parcel, &mut seat)
}

/// Tests that a processor takes, works, passes the gate, lands, acts, and takes once more, and counts one act.
fn are_in_order<R: Threads + Wait + Sync>(rt: &R) -> bool {
    let bench = Bench::new();
    let acts = acts_of(rt, &bench, &Noted { bench: &bench }, 1);
    acts == 1 && bench.calls.load(Ordering::SeqCst) == 123_451
}

/// Tests that the second of two processors works while the first one, which has worked, is held before its landing.
fn are_side_by_side<R: Threads + Wait + Sync>(rt: &R) -> bool {
    let bench = Bench::new();
    let gate = Meeting::new(LOOKS);
    let (first, second) = thread::join(
        rt,
        || acts_of(rt, &bench, &gate, 1),
        || acts_of(rt, &bench, &gate, 2),
    );
    first == 1 && second == 1 && bench.met.load(Ordering::SeqCst)
}

/// Tests what processors do with a shop.
pub(crate) fn are_right<R: Threads + Wait + Sync>(rt: &R) -> bool {
    are_in_order(rt) && are_side_by_side(rt)
}
