//! Landings: what processors work on apart from the machine, and what a plant says to it.
//!
//! In `landings.sheet` the input is a source. Its run is that of a plant of two processors under `fifo`, within a budget of 1,000, and the
//! answer has a line for each of these steps: the first processor takes process 1, and its parcel is worked; the second one lands it, then
//! the first; the first acts, and how many operators are process 1's then; it takes once more, in the parcel of the second; it lands its
//! own parcel again; the second takes. The last line is of another run, whose plant is behind a lock: how many operators the first
//! processor took, worked and landed, and how many are process 1's then.

ghost use Rattle.std.specs.Prelude.{◌≡◌, ℕ, ◌≤◌, [], All, length, replicate};
ghost use Rattle.b67_segment.specs.declared.TheConstants.{MOST_SEGMENT_WORDS};
ghost use Rattle.b67_table.specs.Sound.{Sound};
ghost use Rattle.b67_machine.specs.Beginning.{IsFresh};
ghost use Rattle.b67_stands.specs.Calls.{IsFirst};

use crate::answer::Told;
use crate::rules::{acted_words, machine_of, taken_words};
use crate::told::{bits, push_case};
use algol_front::{Checked, front};
use algol_tree::MOST_SOURCE_BYTES;
use b67_flat::FlatCore;
use b67_list::discard;
use b67_machine::Machine;
use b67_plant::{Named, Plant, PlantLanding, Post, SharedPlant};
use b67_processors::{Landing, Shop, Work};
use b67_ready::{Order, Rule};
use b67_segment::Code;
use b67_tally::Tally;
use case_sheet::{cases_of, number, say};
use std::alloc::{AllocError, Global};
use std::marker::Brand;
use std::sync::Wait;
use std::sync::ledger::{Blank, Ledger};
use std::thread::Threads;

/// Appends what a landing answers.
pub(crate) fn push_landing(text: &mut Vec<u8>, landing: PlantLanding) {
    match landing {
        PlantLanding::Landed => say(text, b" LANDED"),
        PlantLanding::Stale { place, kept, given } => {
            number(text, b" STALE ", u64::from(place));
            bits(text, kept.bits());
            bits(text, given.bits());
        }
        PlantLanding::NotOut => say(text, b" NOT OUT"),
        PlantLanding::Over => say(text, b" OVER"),
        PlantLanding::Lacked => say(text, b" LACKED"),
    }
}

/// Appends what a take answers, and whose parcel there is then.
fn push_take<N: Named, L: Ledger, P: Rule>(
    text: &mut Vec<u8>,
    plant: &mut Plant<N, L, FlatCore, P>,
    me: u32,
    post: &mut Post<N, L>,
)
    requires { 1 ≤ me }
{
    say(text, b"TAKE");
    say(text, taken_words(plant.take(me, &mut post.parcel)));
    number(text, b" ", u64::from(post.parcel.process()));
    say(text, b"\n");
}

/// Takes, works, lands and acts, and appends what the calls answer.
fn push_calls<N: Named, L: Ledger, P: Rule>(
    text: &mut Vec<u8>,
    plant: &mut Plant<N, L, FlatCore, P>,
    code: &Code,
    first: &mut Post<N, L>,
    second: &mut Post<N, L>,
)
    requires { code.now ≡ N.code }
{
    push_take(text, plant, 1, first);
    number(text, b"WORK ", u64::from(first.parcel.work(code)));
    say(text, b"\nLAND");
    push_landing(text, plant.land(2, &first.parcel, &mut second.seat));
    push_landing(text, plant.land(1, &first.parcel, &mut first.seat));
    say(text, b"\nACT");
    say(text, acted_words(plant.act(1, 1, &mut first.seat)));
    number(text, b" ", plant.machine().count(1));
    say(text, b"\n");
    push_take(text, plant, 1, second);
    say(text, b"LAND");
    push_landing(text, plant.land(1, &first.parcel, &mut first.seat));
    say(text, b"\n");
    push_take(text, plant, 2, second);
}

/// Takes, works and lands behind the lock, and answers how many operators were landed.
fn landed<N: Named + Send + Sync, L: Ledger + Send + Sync, R: Threads + Wait + Sync>(
    rt: &R,
    shop: &SharedPlant<N, L, FlatCore, Order>,
    post: &mut Post<N, L>,
) -> u32
    requires some { 1 ≤ N.processors }
    requires whose { post.old.seat.mark.place ≡ 0 }
{
    let Work::Parcel = shop.take(rt, 1, &mut post.parcel, &mut post.seat) else {
        return 0;
    };
    let count = shop.work(&mut post.parcel);
    let (landing, _made) = shop.land(rt, 1, &post.parcel, &mut post.seat);
    match landing {
        Landing::Landed(pass) => {
            discard(pass);
            count
        }
        Landing::Stale | Landing::NotOut | Landing::Over => 0,
    }
}

/// Takes, works and lands behind a lock, and appends how many operators were landed, and how many are process 1's then.
fn push_shared<N: Named + Send + Sync, L: Ledger + Send + Sync, R: Threads + Wait + Sync>(
    text: &mut Vec<u8>,
    rt: &R,
    plant: Plant<N, L, FlatCore, Order>,
    tally: Tally,
    code: Code,
    post: &mut Post<N, L>,
)
    requires named { code ≡ N.code }
    requires processors { 1 ≤ N.processors }
    requires tally { (tally.name ≡ N.tally) × (tally.numbers ≡ replicate N.processors 0) }
    requires whose { post.old.seat.mark.place ≡ 0 }
    requires first { IsFirst N.code plant }
{
    let shop = SharedPlant::new(plant, tally, code);
    let count = landed(rt, &shop, post);
    let plant = shop.into_plant();
    number(text, b"SHARED ", u64::from(count));
    number(text, b" ", plant.machine().count(1));
    say(text, b"\n");
    discard(plant);
}

/// Appends what is told of the calls on a plant, which is behind a lock or not.
fn push_either<N: Named + Send + Sync, L: Ledger + Send + Sync, R: Threads + Wait + Sync>(
    text: &mut Vec<u8>,
    rt: &R,
    is_shared: bool,
    plant: Plant<N, L, FlatCore, Order>,
    tally: Tally,
    code: Code,
    first: &mut Post<N, L>,
    second: &mut Post<N, L>,
)
    requires named { code ≡ N.code }
    requires processors { 1 ≤ N.processors }
    requires tally { (tally.name ≡ N.tally) × (tally.numbers ≡ replicate N.processors 0) }
    requires whose { first.old.seat.mark.place ≡ 0 }
    requires first { IsFirst N.code plant }
{
    if is_shared {
        push_shared(text, rt, plant, tally, code, first);
        return;
    }
    let mut plant = plant;
    push_calls(text, &mut plant, &code, first, second);
    discard(plant);
    discard(code);
}

/// Appends what is told of the calls on a named plant of two processors, which is behind a lock or not.
fn push_plant<N: Named + Send + Sync, L: Ledger + Send + Sync, R: Threads + Wait + Sync>(
    text: &mut Vec<u8>,
    rt: &R,
    alloc: Global,
    is_shared: bool,
    machine: Machine<FlatCore>,
    acts: Blank,
    leaves: Blank,
    tally: Tally,
) -> Result<(), AllocError>
    requires fresh { IsFresh machine }
    requires code { machine.code ≡ N.code }
    requires sound { Sound machine.code }
    requires segments { All (λ segment. length segment.words ≤ MOST_SEGMENT_WORDS) machine.code.segments }
    requires budget { 1000 ≡ N.budget }
    requires processors { 2 ≡ N.processors }
    requires acts { (acts.name ≡ N.name) × (acts.parts ≡ N.parts) × (acts.parts ≡ 2) }
    requires leaves { (leaves.name ≡ L.name) × (leaves.parts ≡ L.parts) × (leaves.parts ≡ 2) }
    requires tally { (tally.name ≡ N.tally) × (tally.numbers ≡ []) }
    requires rule { (n takes : ℕ) → 0 ≡ N.pick n takes }
{
    let mut tally = tally;
    let mut posts = Vec::with_capacity(alloc, 2)?;
    let code = machine.code().copy()?;
    let plant = Plant::<N, L, FlatCore, Order>::new(
        alloc,
        machine,
        Order::Fifo,
        1_000,
        2,
        acts,
        leaves,
        &mut tally,
        &mut posts,
    )?;
    let (first, second) = posts.as_mut_slice().split_at_mut(1);
    push_either(
        text,
        rt,
        is_shared,
        plant,
        tally,
        code,
        &mut first[0],
        &mut second[0],
    );
    Ok(())
}

/// Appends what is told of a source, where the plant is behind a lock or not.
fn push_run<R: Threads + Wait + Sync>(
    text: &mut Vec<u8>,
    rt: &R,
    alloc: Global,
    is_shared: bool,
    checked: &Checked,
) -> Result<(), AllocError> {
    let machine = machine_of(alloc, checked)?;
    push_plant::<Brand, Brand, R>(
        text,
        rt,
        alloc,
        is_shared,
        machine,
        Blank::new(2),
        Blank::new(2),
        Tally::new(),
    )
}

/// Appends what is told of a source, where the plant is not behind a lock and where it is.
fn push_runs<R: Threads + Wait + Sync>(
    text: &mut Vec<u8>,
    rt: &R,
    alloc: Global,
    checked: &Checked,
) -> Result<(), AllocError> {
    push_run(text, rt, alloc, false, checked)?;
    push_run(text, rt, alloc, true, checked)
}

/// What is told of a source.
fn landing_text<R: Threads + Wait + Sync>(
    rt: &R,
    alloc: Global,
    source: &[u8],
) -> Result<Vec<u8>, AllocError> {
    let mut text = Vec::new(alloc);
    if source.len() > MOST_SOURCE_BYTES {
        return Ok(text);
    }
    if let Ok(checked) = front(alloc, source) {
        let told = push_runs(&mut text, rt, alloc, &checked);
        discard(checked);
        told?;
    }
    Ok(text)
}

/// Appends whether the cases of a sheet have their answers, a line for each.
pub(crate) fn push_landings<R: Threads + Wait + Sync>(
    text: &mut Vec<u8>,
    rt: &R,
    alloc: Global,
    sheet: &[u8],
) -> Result<(), AllocError> {
    let cases = cases_of(alloc, str::from_utf8(sheet).unwrap_or(""))?;
    for case in &cases {
        let told = Told {
            status: 0,
            bytes: landing_text(rt, alloc, case.input.as_slice())?,
        };
        let is_met = case.is_met(told.status, told.bytes.as_slice());
        push_case(text, "landings", case, is_met, &told);
    }
    Ok(())
}
