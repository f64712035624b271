// A plant before its first take.
ghost use Rattle.std.specs.Prelude.{◌≡◌, ℕ, ◌+◌, ◌≤◌, false, [], ◌∷◌, All, IfOk, OnErr, length, map, replicate, vec_capacity};
ghost use Rattle.b67_segment.specs.declared.TheConstants.{MOST_SEGMENT_WORDS};
ghost use Rattle.b67_table.specs.Limits.{most_processes};
ghost use Rattle.b67_table.specs.Sound.{Sound};
ghost use Rattle.b67_limits.specs.declared.TheConstants.{MOST_BUDGET};
ghost use Rattle.b67_machine.specs.Beginning.{IsFresh};
ghost use Rattle.b67_limits.specs.declared.TheConstants.{MOST_LETTERS};
ghost use Rattle.b67_plant.specs.Places.{in_order};
ghost use Rattle.b67_stands.specs.Calls.{IsFirst};

use crate::{Ahead, Named, Parcel, Plant, Post, Seat};
use b67_deeds::Letter;
use b67_joining::ROOM;
use b67_limits::{MOST_LETTERS, MOST_PROCESSES};
use b67_machine::Machine;
use b67_ready::{Dispatcher, Rule};
use b67_schedule::Schedule;
use b67_store::Core;
use b67_table::first_image_is_valid;
use b67_tally::{Mark, Tally};
use std::alloc::{AllocError, Global};
use std::sync::ledger::{Blank, Ledger, Share};

// The memory of a processor.
#[derive(Drop)]
struct Bench<N: Named> {
    parcel: Parcel<N>,
    ahead: Ahead<N>,
}

// A processor's place, with its memory, its shares and its mark.
fn post<N: Named, L: Ledger>(
    bench: Bench<N>,
    acts: Share<N>,
    leaves: Share<L>,
    mark: Mark,
) -> Post<N, L>
    requires acts { (acts.parts ≡ 1) × (acts.amount ≡ 0) }
    requires leaves { (leaves.parts ≡ 1) × (leaves.amount ≡ 0) }
    requires mark { (mark.name ≡ N.tally) × (mark.number ≡ 0) }
    ensures numbers { (result.seat.count ≡ 0) × (result.seat.left ≡ 0) }
    ensures ahead { result.seat.ahead ≡ bench.ahead }
    ensures mark { result.seat.mark ≡ mark }
{
    let Bench { parcel, ahead } = bench;
    Post {
        parcel,
        seat: Seat {
            count: 0,
            left: 0,
            ahead,
            acts,
            leaves,
            mark,
        },
    }
}

// The memory of one processor, which has taken nothing.
fn first_bench<N: Named>(alloc: Global) -> Result<Bench<N>, AllocError>
    requires { All (λ segment. length segment.words ≤ MOST_SEGMENT_WORDS) N.code.segments }
    ensures { IfOk result (λ bench. bench.ahead.is_there ≡ false) }
{
    let parcel = Parcel::new(alloc)?;
    let ahead = Ahead::new(alloc)?;
    Ok(Bench { parcel, ahead })
}

// The memory of each of so many processors.
fn benches_of<N: Named>(alloc: Global, processors: u32) -> Result<Vec<Bench<N>>, AllocError>
    requires { All (λ segment. length segment.words ≤ MOST_SEGMENT_WORDS) N.code.segments }
    ensures each { IfOk result (λ benches. length benches.items ≡ processors) }
    ensures none { IfOk result (λ benches. All (λ bench. bench.ahead.is_there ≡ false) benches.items) }
{
    let mut benches = Vec::with_capacity(alloc, processors as usize)?;
    'benches: while benches.len() < processors as usize {
        benches.push(first_bench(alloc)?)?;
    }
    Ok(benches)
}

// One place for each of these benches, in the order of their marks. Takes no memory.
fn fill_posts<N: Named, L: Ledger>(
    posts: &mut Vec<Post<N, L>>,
    benches: Vec<Bench<N>>,
    acts: Share<N>,
    leaves: Share<L>,
    tally: &mut Tally,
)
    requires none { posts.old.items ≡ [] }
    requires room { length benches.items ≤ vec_capacity posts.old }
    requires acts { (acts.parts ≡ length benches.items) × (acts.amount ≡ 0) }
    requires leaves { (leaves.parts ≡ length benches.items) × (leaves.amount ≡ 0) }
    requires tally { (tally.old.name ≡ N.tally) × (tally.old.numbers ≡ []) }
    requires free { All (λ bench. bench.ahead.is_there ≡ false) benches.items }
    ensures each { length posts.new.items ≡ length benches.items }
    ensures seats { All (λ post. (post.seat.count ≡ 0) × (post.seat.left ≡ 0) × (post.seat.ahead.is_there ≡ false)) posts.new.items }
    ensures places { map (λ post. post.seat.mark.place) posts.new.items ≡ in_order (length benches.items) }
    ensures tally { (tally.new.name ≡ N.tally) × (tally.new.numbers ≡ replicate (length benches.items) 0) }
{
    let mut benches = benches;
    let mut acts = acts;
    let mut leaves = leaves;
    'posts: while let Some(bench) = benches.pop() {
        let mark = tally.mark();
        posts
            .push(post(bench, acts.split_off(1, 0), leaves.split_off(1, 0), mark))
            .unwrap();
    }
}

// What a run takes before its first operator.
struct Rooms<P: Rule> {
    ready: Dispatcher<P>,
    out: Vec<u32>,
    schedule: Schedule,
    notes: Vec<Letter>,
}

// The queue, in which process 1 waits; nobody is out; and there is room for as many entries as the budget has operators, and for the
// letters of an act.
fn rooms_of<P: Rule>(alloc: Global, rule: P, budget: u32) -> Result<Rooms<P>, AllocError>
    ensures rule { IfOk result (λ rooms. rooms.ready.rule ≡ rule) }
    ensures queue { IfOk result (λ rooms. (rooms.ready.waiting ≡ 1 ∷ []) × (rooms.ready.takes ≡ 0)) }
    ensures room { IfOk result (λ rooms. most_processes + 2 ≤ rooms.ready.room) }
    ensures out { IfOk result (λ rooms. rooms.out.items ≡ replicate most_processes 0) }
    ensures schedule { IfOk result (λ rooms. (rooms.schedule.runs ≡ []) × (rooms.schedule.letters ≡ []) × (budget ≤ rooms.schedule.room)) }
    ensures notes { IfOk result (λ rooms. length rooms.notes.items ≡ MOST_LETTERS) }
{
    let mut ready = Dispatcher::new(alloc, rule, ROOM)?;
    ready.put(1);
    Ok(Rooms {
        ready,
        out: vec![in alloc; 0; MOST_PROCESSES as usize]?,
        schedule: Schedule::with_room(alloc, budget as usize)?,
        notes: vec![in alloc; Letter::Read; MOST_LETTERS]?,
    })
}

impl<N: Named, L: Ledger, C: Core, P: Rule> Plant<N, L, C, P> {
    /// A plant of a machine that has performed nothing. There is a place for each of its processors among the posts, which have the
    /// room, and none where memory lacks. No seat has an act or a leave yet, nor a process taken ahead. The seats' marks are on the tally, in
    /// the order of the processors.
    pub fn new(
        alloc: Global,
        machine: Machine<C>,
        rule: P,
        budget: u32,
        processors: u32,
        acts: Blank,
        leaves: Blank,
        tally: &mut Tally,
        posts: &mut Vec<Post<N, L>>,
    ) -> Result<Plant<N, L, C, P>, AllocError>
        requires fresh { IsFresh machine }
        requires code { machine.code ≡ N.code }
        requires sound { Sound machine.code }
        requires segments { All (λ segment. length segment.words ≤ MOST_SEGMENT_WORDS) machine.code.segments }
        requires budget { (budget ≡ N.budget) × (1 ≤ budget) × (budget ≤ MOST_BUDGET) }
        requires processors { (processors ≡ N.processors) × (1 ≤ processors) }
        requires acts { (acts.name ≡ N.name) × (acts.parts ≡ N.parts) × (acts.parts ≡ processors) }
        requires leaves { (leaves.name ≡ L.name) × (leaves.parts ≡ L.parts) × (leaves.parts ≡ processors) }
        requires tally { (tally.old.name ≡ N.tally) × (tally.old.numbers ≡ []) }
        requires rule { (n takes : ℕ) → P.pick rule n takes ≡ N.pick n takes }
        requires none { posts.old.items ≡ [] }
        requires room { processors ≤ vec_capacity posts.old }
        ensures posts { IfOk result (λ plant. length posts.new.items ≡ processors) }
        ensures seats { IfOk result (λ plant. All (λ post. (post.seat.count ≡ 0) × (post.seat.left ≡ 0) × (post.seat.ahead.is_there ≡ false)) posts.new.items) }
        ensures no_posts { OnErr result (posts.new.items ≡ []) }
        ensures places { IfOk result (λ plant. map (λ post. post.seat.mark.place) posts.new.items ≡ in_order processors) }
        ensures tally { IfOk result (λ plant. (tally.new.name ≡ N.tally) × (tally.new.numbers ≡ replicate processors 0)) }
        ensures first { IfOk result (IsFirst N.code) }
    {
        first_image_is_valid();
        let benches = benches_of(alloc, processors)?;
        let rooms = rooms_of(alloc, rule, budget)?;
        let (acts, all) = acts.open::<N>();
        let (leaves, all_left) = leaves.open::<L>();
        fill_posts(posts, benches, all, all_left, tally);
        let Rooms {
            ready,
            out,
            schedule,
            notes,
        } = rooms;
        let plant = Plant {
            machine,
            ready,
            out,
            schedule,
            notes,
            budget,
            spent: 0,
            lacked: false,
            going: false,
            acts,
            leaves,
            left: 0,
        };
        Ok(plant)
    }

    /// The machine and the schedule come out.
    pub fn into_parts(self) -> (Machine<C>, Schedule)
        ensures { (result.0 ≡ self.machine) × (result.1 ≡ self.schedule) }
    {
        let Plant {
            machine,
            ready: _,
            out: _,
            schedule,
            notes: _,
            budget: _,
            spent: _,
            lacked: _,
            going: _,
            acts: _,
            leaves: _,
            left: _,
        } = self;
        (machine, schedule)
    }
}
