// Whole runs, from a machine that has performed nothing to the end.
ghost use Rattle.std.specs.Prelude.{◌≡◌, ◌≢◌, ℕ, ◌<◌, ◌≤◌, ◌^◌, [], All, IfOk, OnErr, Some, None, length, map, sum, vec_capacity};
ghost use Rattle.b67_ready.specs.Orders.{order_place_of};
ghost use Rattle.b67_schedule.specs.Schedules.{entries};
ghost use Rattle.b67_segment.specs.declared.TheConstants.{MOST_SEGMENT_WORDS};
ghost use Rattle.b67_table.specs.Sound.{Sound};
ghost use Rattle.b67_machine.specs.Beginning.{IsFresh};
ghost use Rattle.b67_limits.specs.declared.TheConstants.{MOST_BUDGET, MOST_PROCESSORS};
ghost use Rattle.b67_stands.specs.Alone.{ByOne};
ghost use Rattle.b67_stands.specs.Ran.{HasRunAlone, HasRunShared};
ghost use Rattle.b67_stands.specs.Running.{answer_of};
ghost use Rattle.b67_stands.specs.Stands.{Stands};

use crate::joins::{gather, run_all};
use crate::{Named, Plant, Post};
use b67_limits::MOST_LETTERS;
use b67_machine::{Machine, Replayed};
use b67_processors::Gate;
use b67_ready::{Order, Rule};
use b67_schedule::Schedule;
use b67_segment::Code;
use b67_store::Core;
use b67_tally::Tally;
use std::alloc::{AllocError, Global};
use std::marker::Brand;
use std::sync::Wait;
use std::sync::ledger::{Blank, Ledger};
use std::thread::Threads;

/// What a run leaves: the machine, the schedule of what was done, and how it ended.
#[derive(Drop)]
pub struct Ran<C: Core> {
    pub machine: Machine<C>,
    pub schedule: Schedule,
    pub answer: Replayed,
}

// What a plant leaves whose run has ended.
fn left_by<N: Named, L: Ledger, C: Core, P: Rule>(plant: Plant<N, L, C, P>) -> Ran<C>
    requires { answer_of N.budget plant ≢ None }
    ensures parts { (result.machine ≡ plant.machine) × (result.schedule ≡ plant.schedule) }
    ensures answered { answer_of N.budget plant ≡ Some result.answer }
    ensures stands { Stands N.code N.budget plant }
{
    let Some(answer) = plant.answer() else {
        unreachable!()
    };
    let (machine, schedule) = plant.into_parts();
    Ran {
        machine,
        schedule,
        answer,
    }
}

// ---- by the caller

// The first processor does all the work, turn by turn, until the run has ended: where nobody else waits, many turns at once.
fn work_alone<N: Named, L: Ledger, C: Core, P: Rule>(
    plant: &mut Plant<N, L, C, P>,
    post: &mut Post<N, L>,
) -> Replayed
    requires sound { Sound N.code }
    requires most { N.budget ≤ MOST_BUDGET }
    requires first { ByOne N.code N.budget N.pick plant.old }
    ensures by_one { ByOne N.code N.budget N.pick plant.new }
    ensures answered { answer_of N.budget plant.new ≡ Some result }
    ensures stands { Stands N.code N.budget plant.new }
{
    'turns: loop {
        if let Some(answer) = plant.answer() {
            return answer;
        }
        let Some(process) = plant.pick(1) else {
            unreachable!()
        };
        let most = plant.at_once(MOST_LETTERS as u32 - 1);
        let _acted = plant.enter_many(process, most, &mut post.seat);
    }
}

// The run of a named plant by the caller.
fn run_named_alone<N: Named, L: Ledger, C: Core, P: Rule>(
    alloc: Global,
    machine: Machine<C>,
    rule: P,
    budget: u32,
    acts: Blank,
    leaves: Blank,
    tally: Tally,
) -> Result<Ran<C>, AllocError>
    requires fresh { IsFresh machine }
    requires code { machine.code ≡ N.code }
    requires sound { Sound machine.code }
    requires segments { All (λ segment. length segment.words ≤ MOST_SEGMENT_WORDS) machine.code.segments }
    requires budget { (budget ≡ N.budget) × (1 ≤ budget) × (budget ≤ MOST_BUDGET) }
    requires processors { 1 ≡ N.processors }
    requires acts { (acts.name ≡ N.name) × (acts.parts ≡ N.parts) × (acts.parts ≡ 1) }
    requires leaves { (leaves.name ≡ L.name) × (leaves.parts ≡ L.parts) × (leaves.parts ≡ 1) }
    requires tally { (tally.name ≡ N.tally) × (tally.numbers ≡ []) }
    requires rule { (n takes : ℕ) → P.pick rule n takes ≡ N.pick n takes }
    ensures { IfOk result (λ ran. HasRunAlone N.code N.budget N.pick ran.machine ran.schedule ran.answer) }
{
    let mut tally = tally;
    let mut posts = Vec::with_capacity(alloc, 1)?;
    let mut plant = Plant::<N, L, C, P>::new(
        alloc, machine, rule, budget, 1, acts, leaves, &mut tally, &mut posts,
    )?;
    let _answer = work_alone(&mut plant, &mut posts[0]);
    Ok(left_by(plant))
}

/// The run of a machine that has performed nothing, by the caller, under a rule and a budget.
pub fn run_by_caller<C: Core>(
    alloc: Global,
    machine: Machine<C>,
    order: Order,
    budget: u32,
) -> Result<Ran<C>, AllocError>
    requires fresh { IsFresh machine }
    requires sound { Sound machine.code }
    requires segments { All (λ segment. length segment.words ≤ MOST_SEGMENT_WORDS) machine.code.segments }
    requires budget { (1 ≤ budget) × (budget ≤ MOST_BUDGET) }
    ensures { IfOk result (λ ran. HasRunAlone machine.code budget (order_place_of order) ran.machine ran.schedule ran.answer) }
{
    run_named_alone::<Brand, Brand, C, Order>(
        alloc,
        machine,
        order,
        budget,
        Blank::new(1),
        Blank::new(1),
        Tally::new(),
    )
}

// ---- by processors

// How many acts each processor made: the number of its own seat, in the order of the posts.
fn note_acts<N: Named, L: Ledger>(counts: &mut Vec<u64>, posts: &[Post<N, L>])
    requires none { counts.old.items ≡ [] }
    requires room { length posts.now ≤ vec_capacity counts.old }
    ensures each { counts.new.items ≡ map (λ post. post.seat.count) posts.now }
    ensures numbers { All (λ count. count < 2 ^ 64) counts.new.items }
{
    'processors: for post in posts {
        counts.push(post.seat.count()).unwrap();
    }
}

// The run of a named plant by so many processors.
fn run_named<
    N: Named + Send + Sync,
    L: Ledger + Send + Sync,
    C: Core + Send,
    P: Rule + Send,
    G: Gate + Sync,
    R: Threads + Wait + Sync,
>(
    rt: &R,
    alloc: Global,
    gate: &G,
    machine: Machine<C>,
    named: Code,
    rule: P,
    budget: u32,
    processors: u32,
    acts: Blank,
    leaves: Blank,
    tally: Tally,
    counts: &mut Vec<u64>,
) -> Result<Ran<C>, AllocError>
    requires fresh { IsFresh machine }
    requires code { machine.code ≡ N.code }
    requires sound { Sound machine.code }
    requires segments { All (λ segment. length segment.words ≤ MOST_SEGMENT_WORDS) machine.code.segments }
    requires budget { (budget ≡ N.budget) × (1 ≤ budget) × (budget ≤ MOST_BUDGET) }
    requires named { named ≡ N.code }
    requires processors { (processors ≡ N.processors) × (1 ≤ processors) × (processors ≤ MOST_PROCESSORS) }
    requires acts { (acts.name ≡ N.name) × (acts.parts ≡ N.parts) × (acts.parts ≡ processors) }
    requires leaves { (leaves.name ≡ L.name) × (leaves.parts ≡ L.parts) × (leaves.parts ≡ processors) }
    requires tally { (tally.name ≡ N.tally) × (tally.numbers ≡ []) }
    requires rule { (n takes : ℕ) → P.pick rule n takes ≡ N.pick n takes }
    requires none { counts.old.items ≡ [] }
    requires room { processors ≤ vec_capacity counts.old }
    ensures ran { IfOk result (λ ran. HasRunShared N.code N.budget N.pick processors ran.machine ran.schedule ran.answer counts.new.items) }
    ensures each { IfOk result (λ ran. length counts.new.items ≡ processors) }
    ensures all { IfOk result (λ ran. sum counts.new.items ≡ length (entries ran.schedule.runs)) }
    ensures numbers { IfOk result (λ ran. All (λ count. count < 2 ^ 64) counts.new.items) }
    ensures no_counts { OnErr result (counts.new.items ≡ []) }
{
    let mut tally = tally;
    let mut posts = Vec::with_capacity(alloc, processors as usize)?;
    let plant = Plant::<N, L, C, P>::new(
        alloc, machine, rule, budget, processors, acts, leaves, &mut tally, &mut posts,
    )?;
    let floor = run_all(rt, gate, plant, tally, named, posts.as_mut_slice());
    let (mut plant, mut tally) = floor.into_parts();
    note_acts(counts, posts.as_slice());
    gather(&mut plant, &mut tally, posts);
    Ok(left_by(plant))
}

/// The run of a machine that has performed nothing, by so many processors that share it, under a rule and a budget. How many acts each
/// processor made is noted in their order, from its own seat, and none where memory lacks.
pub fn run_by_processors<C: Core + Send, G: Gate + Sync, R: Threads + Wait + Sync>(
    rt: &R,
    alloc: Global,
    gate: &G,
    machine: Machine<C>,
    order: Order,
    budget: u32,
    processors: u32,
    counts: &mut Vec<u64>,
) -> Result<Ran<C>, AllocError>
    requires fresh { IsFresh machine }
    requires sound { Sound machine.code }
    requires segments { All (λ segment. length segment.words ≤ MOST_SEGMENT_WORDS) machine.code.segments }
    requires budget { (1 ≤ budget) × (budget ≤ MOST_BUDGET) }
    requires processors { (1 ≤ processors) × (processors ≤ MOST_PROCESSORS) }
    requires none { counts.old.items ≡ [] }
    requires room { processors ≤ vec_capacity counts.old }
    ensures ran { IfOk result (λ ran. HasRunShared machine.code budget (order_place_of order) processors ran.machine ran.schedule ran.answer counts.new.items) }
    ensures each { IfOk result (λ ran. length counts.new.items ≡ processors) }
    ensures all { IfOk result (λ ran. sum counts.new.items ≡ length (entries ran.schedule.runs)) }
    ensures numbers { IfOk result (λ ran. All (λ count. count < 2 ^ 64) counts.new.items) }
    ensures no_counts { OnErr result (counts.new.items ≡ []) }
{
    let code = machine.code().copy()?;
    run_named::<Brand, Brand, C, Order, G, R>(
        rt,
        alloc,
        gate,
        machine,
        code,
        order,
        budget,
        processors,
        Blank::new(u64::from(processors)),
        Blank::new(u64::from(processors)),
        Tally::new(),
        counts,
    )
}
