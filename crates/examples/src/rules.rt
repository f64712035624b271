//! Rules of dispatch: who is taken from a queue, and what comes of a source's run on a plant of one processor.
//!
//! In `rules.sheet` the word of a case is a rule: `fifo`, `lifo`, `seed`, which is that of the number 1, `middle`, or `ends`, which picks the
//! first and the last by turns; the input is a source. The answer begins with a line of four takes, of which the last finds nobody, from a
//! queue in which 4, 5 and 6 were put. Then a line says what each of these calls on the plant answers: a take, a second one, the landing and
//! the act of the first, and, after all further takes and acts, the last take. Then come the lines that were written, how the run ended,
//! and its schedule.

ghost use Rattle.std.specs.Prelude.{◌≡◌, ℕ, ◌≤◌, [], All, IfOk, length};
ghost use Rattle.b67_segment.specs.declared.TheConstants.{MOST_SEGMENT_WORDS};
ghost use Rattle.b67_table.specs.Sound.{Sound};
ghost use Rattle.b67_machine.specs.Beginning.{IsFresh};

use crate::landings::push_landing;
use algol_front::Checked;
use b67_compile::compile;
use b67_flat::FlatCore;
use b67_list::discard;
use b67_machine::{End, Machine};
use b67_plant::{Named, Plant, Post, Taken};
use b67_processors::Acted;
use b67_ready::{Dispatcher, Order, Rule};
use b67_report::{EndWords, push_end};
use b67_tally::Tally;
use case_sheet::{Case, lines, number, say};
use language_cases::{Front, front_of};
use std::alloc::{AllocError, Global};
use std::marker::Brand;
use std::sync::ledger::{Blank, Ledger};

/// Who stands in the middle.
#[derive(Clone, Copy, Drop)]
struct Middle;

impl Rule for Middle {
    ghost use Rattle.std.specs.Prelude.{◌/◌};
    ghost use Rattle.std.proofs.Common.{arith};

    ghost pick = { λ rule length takes. length / 2 };

    ghost within = { λ rule length takes some. omega (arith, some) };

    fn pick(&self, length: u32, _takes: u64) -> u32 {
        length / 2
    }
}

/// The first and the last by turns.
#[derive(Clone, Copy, Drop)]
struct Ends;

impl Rule for Ends {
    ghost use Rattle.std.specs.Prelude.{◌-◌, ◌%◌, nat_le, if◌then◌else◌};
    ghost use Rattle.std.proofs.Common.{rules};

    ghost pick = { λ rule length takes. if nat_le 1 (takes % 2) then length - 1 else 0 };

    ghost within = { Prim.search rules };

    fn pick(&self, length: u32, takes: u64) -> u32 {
        if takes % 2 >= 1 { length - 1 } else { 0 }
    }
}

/// Appends who is taken of 4, 5 and 6.
fn push_takes<P: Rule>(text: &mut Vec<u8>, alloc: Global, rule: P) -> Result<(), AllocError> {
    let mut queue = Dispatcher::new(alloc, rule, 3)?;
    queue.put(4);
    queue.put(5);
    queue.put(6);
    say(text, b"TAKES");
    for _ in 0..4 {
        match queue.take() {
            Some(process) => number(text, b" ", u64::from(process)),
            None => say(text, b" NONE"),
        }
    }
    say(text, b"\n");
    Ok(())
}

/// What a take answers, in words.
pub(crate) fn taken_words(taken: Taken) -> &'static [u8] {
    match taken {
        Taken::Work => b" WORK",
        Taken::Idle => b" IDLE",
        Taken::Over => b" OVER",
        Taken::Lacked => b" LACKED",
    }
}

/// What an act answers, in words.
pub(crate) fn acted_words(acted: Acted) -> &'static [u8] {
    match acted {
        Acted::Went => b" WENT",
        Acted::Waits => b" WAITS",
        Acted::NotOut => b" NOT OUT",
        Acted::Over => b" OVER",
        Acted::NoMemory => b" NO MEMORY",
    }
}

/// The words of an end.
fn words_of(end: End) -> EndWords {
    match end {
        End::Finished => EndWords::Finished,
        End::AllWaiting => EndWords::AllWaiting,
        End::Fault { kind, process } => EndWords::Fault { kind, process },
        End::StackLimit { process, words } => EndWords::StackLimit { process, words },
    }
}

/// Appends the line of an end.
fn push_end_line(text: &mut Vec<u8>, end: Option<End>) {
    match end {
        Some(end) => {
            let _ = push_end(text, &words_of(end));
        }
        None => say(text, b"GOES ON"),
    }
    say(text, b"\n");
}

/// Makes a run of a plant's only processor, and appends what the calls answer.
fn push_calls<N: Named, L: Ledger, P: Rule>(
    text: &mut Vec<u8>,
    plant: &mut Plant<N, L, FlatCore, P>,
    post: &mut Post<N, L>,
) {
    say(text, b"CALLS");
    say(text, taken_words(plant.take(1, &mut post.parcel)));
    number(text, b" ", u64::from(post.parcel.process()));
    say(text, taken_words(plant.take(1, &mut post.parcel)));
    push_landing(text, plant.land(1, &post.parcel, &mut post.seat));
    let process = post.parcel.process();
    say(text, acted_words(plant.act(1, process, &mut post.seat)));
    let mut taken = plant.take(1, &mut post.parcel);
    for _ in 0..1_000 {
        let Taken::Work = taken else {
            break;
        };
        let process = post.parcel.process();
        let _acted = plant.act(1, process, &mut post.seat);
        taken = plant.take(1, &mut post.parcel);
    }
    say(text, taken_words(taken));
    say(text, b"\n");
}

/// Appends what comes of a run on a named plant of one processor, within a budget of 1,000: what its calls answer, the lines, the end and
/// the schedule.
fn push_run<N: Named, L: Ledger, P: Rule>(
    text: &mut Vec<u8>,
    alloc: Global,
    machine: Machine<FlatCore>,
    rule: P,
    acts: Blank,
    leaves: Blank,
    tally: Tally,
) -> Result<(), AllocError>
    requires fresh { IsFresh machine }
    requires code { machine.code ≡ N.code }
    requires sound { Sound machine.code }
    requires segments { All (λ segment. length segment.words ≤ MOST_SEGMENT_WORDS) machine.code.segments }
    requires budget { 1000 ≡ N.budget }
    requires processors { 1 ≡ N.processors }
    requires acts { (acts.name ≡ N.name) × (acts.parts ≡ N.parts) × (acts.parts ≡ 1) }
    requires leaves { (leaves.name ≡ L.name) × (leaves.parts ≡ L.parts) × (leaves.parts ≡ 1) }
    requires tally { (tally.name ≡ N.tally) × (tally.numbers ≡ []) }
    requires rule { (n takes : ℕ) → P.pick rule n takes ≡ N.pick n takes }
{
    let mut tally = tally;
    let mut posts = Vec::with_capacity(alloc, 1)?;
    let mut plant = Plant::<N, L, FlatCore, P>::new(
        alloc, machine, rule, 1_000, 1, acts, leaves, &mut tally, &mut posts,
    )?;
    push_calls(text, &mut plant, &mut posts[0]);
    lines(text, plant.machine().output());
    push_end_line(text, plant.machine().end());
    plant.schedule().push_text(text)
}

/// The machine of a source's code, which has performed nothing.
pub(crate) fn machine_of(alloc: Global, checked: &Checked) -> Result<Machine<FlatCore>, AllocError>
    ensures fresh { IfOk result IsFresh }
    ensures sound { IfOk result (λ machine. Sound machine.code) }
    ensures segments { IfOk result (λ machine. All (λ segment. length segment.words ≤ MOST_SEGMENT_WORDS) machine.code.segments) }
{
    let code = compile(alloc, checked)?;
    let machine = Machine::load(alloc, code, FlatCore::new(alloc))?;
    Ok(machine)
}

/// What is told of a rule and a source.
fn told<P: Rule + Copy>(alloc: Global, checked: &Checked, rule: P) -> Result<Vec<u8>, AllocError> {
    let mut text = Vec::new(alloc);
    push_takes(&mut text, alloc, rule)?;
    let machine = machine_of(alloc, checked)?;
    push_run::<Brand, Brand, P>(
        &mut text,
        alloc,
        machine,
        rule,
        Blank::new(1),
        Blank::new(1),
        Tally::new(),
    )?;
    Ok(text)
}

/// What comes of an accepted source under the rule of this word.
fn rule_text(alloc: Global, checked: &Checked, word: &str) -> Result<Vec<u8>, AllocError> {
    match word {
        "fifo" => told(alloc, checked, Order::Fifo),
        "lifo" => told(alloc, checked, Order::Lifo),
        "seed" => told(alloc, checked, Order::Seed(1)),
        "middle" => told(alloc, checked, Middle),
        _ => told(alloc, checked, Ends),
    }
}

/// The first word of a case.
fn first_word(case: &Case) -> &str {
    match case.words.first() {
        Some(word) => word.as_str(),
        None => "",
    }
}

/// The answer to a case of `rules.sheet`.
pub(crate) fn rules_text(alloc: Global, case: &Case) -> Result<Vec<u8>, AllocError> {
    match front_of(alloc, case.input.as_slice())? {
        Front::Accepted(checked) => {
            let text = rule_text(alloc, &checked, first_word(case));
            discard(checked);
            text
        }
        Front::Told(told) => Ok(Vec::from_slice(alloc, told)?),
    }
}
