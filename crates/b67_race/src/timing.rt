//! The clocks of processes and of events.

ghost use Rattle.std.specs.Prelude.{◌≡◌, ℕ, ◌<◌, ◌==◌, ◌||◌, max, length, false, if◌then◌else◌, IfOk, OnOk};
ghost use Rattle.b67_race.specs.Entries.{CellName, frees, entry_is_one_of, is_this, sets};
ghost use Rattle.b67_race.specs.Clocks.{Becomes, by_signal, process_clock};
ghost use Rattle.b67_race.specs.Times.{time_of};
ghost use Rattle.b67_race.specs.Cells.{cell_at_key, is_cell};
ghost use Rattle.b67_race.specs.Timed.{event_time, joined_if, signal_of, time_in};

use crate::cells::Key;
use crate::clock::Clock;
use std::alloc::{AllocError, Global};
use std::collections::BTreeMap;
use std::mem;

/// What an entry does with an event.
#[derive(Clone, Copy)]
pub enum Event<'p> {
    Nothing,
    /// It sets it happened.
    Sets(Key<'p>),
    /// It goes on by it, which had happened.
    GoesBy(Key<'p>),
    /// It finds it not available and leaves it available.
    Frees(Key<'p>),
    /// It takes it, which was available.
    Takes(Key<'p>),
}

/// The clocks of processes, from process 1 on, and those of events: up to the last entry that set them, and up to the last that freed them.
#[derive(Drop)]
pub struct Timing<'p> {
    pub processes: Vec<Clock>,
    pub set: BTreeMap<Key<'p>, Clock>,
    pub freed: BTreeMap<Key<'p>, Clock>,
}

// ---- processes

/// There is a clock for that process.
#[tactic(auto, using(crate::proofs::Timed::time_push))]
fn reach(alloc: Global, clocks: &mut Vec<Clock>, process: usize) -> Result<(), AllocError>
    ensures same { OnOk result ((p q : ℕ) → time_in clocks.new.items p q ≡ time_in clocks.old.items p q) }
    ensures long { OnOk result (process < length clocks.new.items) }
{
    'reaching: while clocks.len() <= process {
        clocks.push(Clock::new(alloc))?;
    }
    Ok(())
}

/// The clock of a process is this one.
#[tactic(auto, using(crate::proofs::Timed::time_set))]
fn put_clock(
    alloc: Global,
    clocks: &mut Vec<Clock>,
    process: usize,
    clock: Clock,
) -> Result<(), AllocError>
    ensures { OnOk result ((p q : ℕ) → time_in clocks.new.items p q ≡ (if process == p then time_of clock q else time_in clocks.old.items p q)) }
{
    reach(alloc, clocks, process)?;
    clocks[process] = clock;
    Ok(())
}

/// The clock of a process, out of its place.
fn take_clock(alloc: Global, clocks: &mut Vec<Clock>, process: usize) -> Clock
    ensures clock { (q : ℕ) → time_of result q ≡ time_in clocks.old.items process q }
    ensures others { (p q : ℕ) → (process == p) ≡ false → time_in clocks.new.items p q ≡ time_in clocks.old.items p q }
{
    match clocks.get_mut(process) {
        None => Clock::new(alloc),
        Some(clock) => mem::replace(clock, Clock::new(alloc)),
    }
}

/// All that a clock tells is known to a process too.
fn join_clock(
    alloc: Global,
    clocks: &mut Vec<Clock>,
    process: usize,
    own: &Clock,
) -> Result<(), AllocError>
    ensures { OnOk result ((p q : ℕ) → time_in clocks.new.items p q ≡ (if process == p then max (time_in clocks.old.items p q) (time_of own.now q) else time_in clocks.old.items p q)) }
{
    reach(alloc, clocks, process)?;
    clocks[process].join(own)?;
    Ok(())
}

/// All that a clock tells is known to these processes too.
fn join_all(
    alloc: Global,
    clocks: &mut Vec<Clock>,
    released: &[usize],
    own: &Clock,
) -> Result<(), AllocError>
    ensures { OnOk result ((p q : ℕ) → time_in clocks.new.items p q ≡ joined_if (entry_is_one_of released.now p) (time_in clocks.old.items p q) (time_of own.now q)) }
{
    'joining: for process in released {
        join_clock(alloc, clocks, *process, own)?;
    }
    Ok(())
}

// ---- events

/// The clocks of events.
pub type Events<'p> = BTreeMap<Key<'p>, Clock>;

/// The clock of an event is this one.
fn put_event<'p>(events: &mut Events<'p>, key: Key<'p>, clock: Clock) -> Result<(), AllocError>
    ensures { OnOk result ((c : CellName) (q : ℕ) → event_time events.new c q ≡ (if is_cell key.entry c then time_of clock q else event_time events.old c q)) }
{
    events.insert(key, clock)?;
    Ok(())
}

/// All that the clock of an event tells is known to a clock too.
fn join_event<'p>(clock: &mut Clock, events: &Events<'p>, key: Key<'p>) -> Result<(), AllocError>
    ensures { OnOk result ((q : ℕ) → time_of clock.new q ≡ max (time_of clock.old q) (event_time events.now (cell_at_key key.entry) q)) }
{
    match events.get(&key) {
        None => Ok(()),
        Some(other) => {
            clock.join(other)?;
            Ok(())
        }
    }
}

/// The clocks of events after an entry that does this.
pub fn note_event<'p>(
    alloc: Global,
    set: &mut Events<'p>,
    freed: &mut Events<'p>,
    event: Event<'p>,
    own: &Clock,
) -> Result<(), AllocError>
    ensures set { OnOk result ((c : CellName) → Becomes (signal_of event.entry ≡ sets c) (event_time set.old c) (time_of own.now) (event_time set.new c)) }
    ensures freed { OnOk result ((c : CellName) → Becomes (signal_of event.entry ≡ frees c) (event_time freed.old c) (time_of own.now) (event_time freed.new c)) }
{
    match event {
        Event::Sets(key) => {
            let clock = own.copy(alloc)?;
            put_event(set, key, clock)?;
            Ok(())
        }
        Event::Frees(key) => {
            let clock = own.copy(alloc)?;
            put_event(freed, key, clock)?;
            Ok(())
        }
        Event::Nothing | Event::GoesBy(_) | Event::Takes(_) => Ok(()),
    }
}

// ---- entries

/// All that a clock tells is known to the process that was started.
fn join_started(
    alloc: Global,
    clocks: &mut Vec<Clock>,
    started: Option<usize>,
    own: &Clock,
) -> Result<(), AllocError>
    ensures { OnOk result ((p q : ℕ) → time_in clocks.new.items p q ≡ joined_if (is_this started p) (time_in clocks.old.items p q) (time_of own.now q)) }
{
    match started {
        None => Ok(()),
        Some(process) => {
            join_clock(alloc, clocks, process, own)?;
            Ok(())
        }
    }
}

/// The clock of what is ordered before the next entry, which is of this process and does this with an event: that of the process, out of its
/// place.
pub fn clock_before<'p>(
    timing: &mut Timing<'p>,
    alloc: Global,
    process: usize,
    event: Event<'p>,
) -> Result<Clock, AllocError>
    ensures clock { IfOk result (λ clock. (q : ℕ) → time_of clock q ≡ max (time_in timing.old.processes.items process q) (by_signal (signal_of event.entry) (event_time timing.old.set) (event_time timing.old.freed) q)) }
    ensures others { OnOk result ((p q : ℕ) → (process == p) ≡ false → time_in timing.new.processes.items p q ≡ time_in timing.old.processes.items p q) }
    ensures set { OnOk result (timing.new.set ≡ timing.old.set) }
    ensures freed { OnOk result (timing.new.freed ≡ timing.old.freed) }
{
    let mut clock = take_clock(alloc, &mut timing.processes, process);
    match event {
        Event::GoesBy(key) => join_event(&mut clock, &timing.set, key)?,
        Event::Takes(key) => join_event(&mut clock, &timing.freed, key)?,
        Event::Nothing | Event::Sets(_) | Event::Frees(_) => {}
    }
    Ok(clock)
}

/// The clocks of processes after an entry of this number, whose own clock is that.
pub fn note_processes(
    alloc: Global,
    clocks: &mut Vec<Clock>,
    process: usize,
    released: &[usize],
    started: Option<usize>,
    own: Clock,
) -> Result<(), AllocError>
    ensures { OnOk result ((p q : ℕ) → time_in clocks.new.items p q ≡ process_clock (process == p) ((process == p) || (is_this started p || entry_is_one_of released.now p)) (time_of own) (time_in clocks.old.items p) q) }
{
    join_all(alloc, clocks, released, &own)?;
    join_started(alloc, clocks, started, &own)?;
    put_clock(alloc, clocks, process, own)
}
