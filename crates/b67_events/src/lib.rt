//! The events of the machine: who waits for them to happen, and who waits to procure them.
//!
//! The actions are those of the B6700's Extended ALGOL on events: CAUSE, RESET, WAIT, HAPPENED, PROCURE, LIBERATE,
//! CAUSEANDRESET, AVAILABLE, FIX, and WAIT with a list. That processes are released in the order in which they came,
//! and what a list gives, is this project's profile.
#![tactic(auto)]

ghost use Rattle.std.specs.Prelude.{◌≡◌, ℕ, ◌+◌, ◌*◌, ◌<◌, ◌≤◌, true, false, not, [], ◌∷◌, ◌++◌, All, map, filter, length, replicate, slice_get, vec_capacity, IfOk, IfSome, IfNone, OnOk, OnErr, IsTrue, IsFalse};
ghost use Rattle.std.specs.BTreeMap.{insert_entry};
ghost use Rattle.b67_deeds.specs.declared.EventAct.TheVariants as act;
ghost use Rattle.b67_deeds.specs.declared.EventTest.TheVariants as test;
ghost use Rattle.b67_deeds.specs.Deeds.{acts, tests, answers};
ghost use Rattle.b67_events.specs.Events.{same_place, is_open, is_from, state_at, waiters_at, is_waiting, is_listed, event_changed, with_state, withdrawn, event_opened, closed_from, deed_at, done_at, took, unlisted, position_number_of, position_of, first_that, first_event_happened, waited_any, took_any};
ghost use Rattle.b67_events.specs.Kept.{stands_in, waiters_listed, flags_at, flag_of, has_flags, set_flags, with_happened, with_available, AreWithin, AreInOrder, StandOnce, rank_of, is_named, without_waiters};
ghost use Rattle.b67_events.specs.Laws.{OneEventChanges, EventsStayApart};
ghost use Rattle.b67_events.specs.Once.{EachWaitsOnce, ReleasedWaitNowhere};
ghost use Rattle.b67_events.specs.Worked.{TwoEventsAtWork};
ghost use Rattle.b67_events.specs.declared.Queue.TheVariants.{Waiters};

mod again;
mod queues;
mod several;

use crate::queues::{
    dismiss, enqueue, forget, forget_from, gather, join_all, rank_at, serve, withdraw,
};
use crate::several::{Several, locate, unlist_all, with_list};
use b67_limits::MOST_EVENTS;
use b67_word::Place;
use std::alloc::{AllocError, Global};
use std::collections::BTreeMap;
use std::marker::Model;

/// Whether a process goes on, or waits.
#[derive(Clone, Copy)]
pub enum Took {
    Went,
    Waits,
}

/// What became of a process that waits for several events: it goes on by the one at this position, from 1, or it
/// waits for all of them.
#[derive(Clone, Copy)]
pub enum TookAny {
    Went { position: u32 },
    Waits,
}

/// The processes that an event released, in the order in which they came to wait, and for each the event's position
/// among those for which it waited, from 1: 0 for one that waited for this event only.
#[derive(Drop)]
pub struct Woken {
    pub processes: Vec<u32>,
    pub positions: Vec<u32>,
}

// Whether an event has happened, and whether it is available.
#[derive(Clone, Copy, Drop, PartialEq)]
struct Flags {
    happened: bool,
    available: bool,
}

// The two lists of an event: those who wait for it to happen, and those who wait to procure it.
#[derive(Clone, Copy)]
enum Queue {
    Waiters,
    Procurers,
}

// A process that waits in a list of the event at a place.
#[derive(Clone, Copy)]
struct Waiting {
    process: u32,
    place: Place,
    queue: Queue,
}

/// The events that are open, each at its place, and the processes that wait for them.
///
/// Contracts see a kernel as the list of its events, each with its place, whether it has happened, whether it
/// is available, and the processes that wait for it to happen and to procure it, both in order of arrival; as the
/// places of the events for which each process waits, where it waits for several; and as the number of processes that
/// it has room for. Processes are numbered from 1.
#[derive(Drop)]
pub struct Kernel {
    // In the order of their places.
    events: BTreeMap<Place, Flags>,
    // All who wait, once for each event, by the ranks of their lists, and in order of arrival in each of these.
    waiting: Vec<Waiting>,
    // By the processes' numbers from 1, as far as some process has waited for several.
    lists: Vec<Several>,
    processes: u32,
}

impl Model for Kernel {
    ghost use Rattle.std.specs.Prelude.{vec_capacity};
    ghost use Rattle.b67_events.specs.Events.{Events};
    ghost use Rattle.b67_events.specs.Kept.{events_of, IsKept, PlacesAreListed, AreInOrder};

    ghost Value = { Events };

    ghost view = { λ k. record { events = events_of k.events.entries k.waiting.items; lists = k.lists.items; room = k.processes } };

    ghost invariant = { λ k. IsKept k.events.entries k.waiting.items k.processes (vec_capacity k.waiting) × PlacesAreListed k.lists.items k.waiting.items k.processes (vec_capacity k.lists) × AreInOrder k.waiting.items };
}

// Tests that two places are one.
fn is_at(place: Place, at: Place) -> bool
    ensures { result ≡ same_place place at }
{
    place.stack == at.stack && place.at == at.at
}

// Tests that a place lies in this stack, at this displacement or above.
fn is_above(place: Place, stack: u16, at: u32) -> bool
    ensures { result ≡ is_from stack at place }
{
    place.stack == stack && at <= u32::from(place.at)
}

impl Waiting {
    // Tests that it stands in this list of the event at a place.
    fn is_in(&self, queue: Queue, at: Place) -> bool
        ensures { result ≡ stands_in queue at self.now }
    {
        is_at(at, self.place)
            && match (queue, self.queue) {
                (Queue::Waiters, Queue::Waiters) => true,
                (Queue::Waiters, Queue::Procurers) => false,
                (Queue::Procurers, Queue::Waiters) => false,
                (Queue::Procurers, Queue::Procurers) => true,
            }
    }

    // The number by which it stands among those who wait.
    fn rank(&self) -> u64
        ensures { result ≡ rank_of self.now }
    {
        rank_at(self.queue, self.place)
    }
}

// The flags of the event that is open at a place.
fn flags_of(events: &BTreeMap<Place, Flags>, at: Place) -> Option<Flags>
    ensures { result ≡ flags_at at events.now.entries }
{
    events.get(&at).copied()
}

// Tests that an event is open at a place.
fn is_open(events: &BTreeMap<Place, Flags>, at: Place) -> bool
    ensures { result ≡ has_flags at events.now.entries }
{
    events.contains_key(&at)
}

// Tests that the event that is open at a place has happened.
fn has_happened(events: &BTreeMap<Place, Flags>, at: Place) -> bool
    ensures { result ≡ flag_of (λ f. f.happened) (flags_at at events.now.entries) }
{
    match flags_of(events, at) {
        Some(flags) => flags.happened,
        None => false,
    }
}

// Tests that the event that is open at a place is available.
fn is_available(events: &BTreeMap<Place, Flags>, at: Place) -> bool
    ensures { result ≡ flag_of (λ f. f.available) (flags_at at events.now.entries) }
{
    match flags_of(events, at) {
        Some(flags) => flags.available,
        None => false,
    }
}

// The first position, from 1, of a place whose event has happened.
fn first_happened(events: &BTreeMap<Place, Flags>, at: &[Place]) -> Option<u32>
    requires { length at.now ≤ MOST_EVENTS }
    ensures { result ≡ first_that (λ place. flag_of (λ f. f.happened) (flags_at place events.now.entries)) 1 at.now }
{
    let mut position = 1;
    'looking: for index in 0..at.len() {
        if has_happened(events, at[index]) {
            return Some(position);
        }
        position += 1;
    }
    None
}

// Sets whether the event at a place has happened.
fn set_happened(events: &mut BTreeMap<Place, Flags>, at: Place, happened: bool)
    ensures { events.new.entries ≡ set_flags at (with_happened happened) events.old.entries }
{
    if let Some(flags) = events.get_mut(&at) {
        flags.happened = happened;
    }
}

// Sets whether the event at a place is available.
fn set_available(events: &mut BTreeMap<Place, Flags>, at: Place, available: bool)
    ensures { events.new.entries ≡ set_flags at (with_available available) events.old.entries }
{
    if let Some(flags) = events.get_mut(&at) {
        flags.available = available;
    }
}

// The lowest event of a stack at a displacement or above.
fn first_from(events: &BTreeMap<Place, Flags>, stack: u16, at: u16) -> Option<Place>
    requires { AreWithin events.now.entries }
    ensures found { IfSome result (λ place. IsTrue (is_from stack at place) × IsTrue (has_flags place events.now.entries)) }
    ensures none { IfNone result (filter (λ f. not (is_from stack at f.0)) events.now.entries ≡ events.now.entries) }
{
    let low = Place { stack, at };
    let high = Place {
        stack,
        at: u16::MAX,
    };
    let (place, _) = events.range(low..=high).next()?;
    Some(*place)
}

// Takes the events of a stack at a displacement and above out of the map.
fn remove_from(events: &mut BTreeMap<Place, Flags>, stack: u16, at: u32)
    requires { AreWithin events.old.entries }
    ensures { events.new.entries ≡ filter (λ f. not (is_from stack at f.0)) events.old.entries }
{
    let Ok(lowest) = u16::try_from(at) else {
        return;
    };
    'closing: while let Some(place) = first_from(events, stack, lowest) {
        events.remove(&place);
    }
}

// Puts a number at the end of those of who is released.
fn wake(woken: &mut Vec<u32>, number: u32)
    requires { length woken.old.items < vec_capacity woken.old }
    ensures items { woken.new.items ≡ woken.old.items ++ number ∷ [] }
    ensures capacity { vec_capacity woken.old ≤ vec_capacity woken.new }
{
    woken.push(number).unwrap();
}

// Releases those who wait for the event at a place to happen: `woken` has them, and they wait for no event any more.
fn release(waiting: &mut Vec<Waiting>, lists: &mut Vec<Several>, at: Place, woken: &mut Woken)
    requires order { AreInOrder waiting.old.items }
    requires once { StandOnce waiting.old.items }
    requires processes { length (waiters_listed Waiters at waiting.old.items) ≤ vec_capacity woken.old.processes }
    requires positions { length (waiters_listed Waiters at waiting.old.items) ≤ vec_capacity woken.old.positions }
    ensures kept { waiting.new.items ≡ filter (λ w. not (is_named (waiters_listed Waiters at waiting.old.items) lists.old.items w)) (filter (λ w. not (stands_in Waiters at w)) waiting.old.items) }
    ensures lists { lists.new.items ≡ unlisted (waiters_listed Waiters at waiting.old.items) lists.old.items }
    ensures woken { woken.new.processes.items ≡ waiters_listed Waiters at waiting.old.items }
    ensures positions { woken.new.positions.items ≡ map (λ p. position_number_of (position_of at lists.old.items p)) (waiters_listed Waiters at waiting.old.items) }
    ensures capacity { (vec_capacity waiting.old ≤ vec_capacity waiting.new) × (vec_capacity lists.old ≤ vec_capacity lists.new) }
    ensures room { (vec_capacity woken.old.processes ≤ vec_capacity woken.new.processes) × (vec_capacity woken.old.positions ≤ vec_capacity woken.new.positions) }
{
    woken.processes.clear();
    woken.positions.clear();
    let first = gather(waiting, at, &mut woken.processes);
    locate(lists, at, &woken.processes, &mut woken.positions);
    dismiss(waiting, first, at);
    withdraw(waiting, lists, &woken.processes);
    unlist_all(lists, &woken.processes);
}

impl Kernel {
    /// A kernel without events, with room for this many processes to wait, each for as many events as one can.
    pub fn with_room(alloc: Global, processes: u32) -> Result<Kernel, AllocError>
        ensures { IfOk result (λ kernel. kernel ≡ record { events = []; lists = []; room = processes }) }
    {
        let count = processes as usize;
        Ok(Kernel {
            events: BTreeMap::new(alloc),
            waiting: Vec::with_capacity(alloc, count * MOST_EVENTS as usize)?,
            lists: Vec::with_capacity(alloc, count)?,
            processes,
        })
    }

    /// Opens a fresh event at a place: it has not happened, is available, and nobody waits for it. An event
    /// that is open there is replaced. On `Err` nothing changes.
    pub fn open_event(&mut self, at: Place) -> Result<(), AllocError>
        ensures ok { OnOk result (self.new ≡ record self.old { events = event_opened at self.old.events }) }
        ensures err { OnErr result (self.new ≡ self.old) }
    {
        let fresh = Flags {
            happened: false,
            available: true,
        };
        self.events.insert(at, fresh)?;
        forget(&mut self.waiting, at);
        Ok(())
    }

    /// Closes the events of a stack at a displacement and above. Who waits for one of them waits no more.
    pub fn close_from(&mut self, stack: u16, at: u32)
        ensures { self.new ≡ record self.old { events = closed_from stack at self.old.events } }
    {
        remove_from(&mut self.events, stack, at);
        forget_from(&mut self.waiting, stack, at);
    }

    /// Tests that an event is open at a place.
    pub fn is_open(&self, at: Place) -> bool
        ensures { result ≡ is_open at self.now.events }
    {
        is_open(&self.events, at)
    }

    /// Lets a process go on where the event at a place has happened; else it waits for it, after all who wait.
    pub fn wait(&mut self, at: Place, process: u32) -> Took
        requires open { IsTrue (is_open at self.old.events) }
        requires process { (1 ≤ process) × (process ≤ self.old.room) }
        requires idle { IsFalse (is_waiting process self.old.events) }
        requires unlisted { IsFalse (is_listed process self.old.lists) }
        ensures answer { result ≡ took (deed_at (acts act.Wait) process at self.old.events).next }
        ensures after { self.new ≡ record self.old { events = done_at (acts act.Wait) process at self.old.events } }
    {
        if has_happened(&self.events, at) {
            return Took::Went;
        }
        enqueue(
            &mut self.waiting,
            Waiting {
                process,
                place: at,
                queue: Queue::Waiters,
            },
        );
        Took::Waits
    }

    /// Lets a process go on where one of the events at these places has happened, and answers the position of the first
    /// such place, from 1; else it waits for all of them, after all who wait.
    pub fn wait_any(&mut self, at: &[Place], process: u32) -> TookAny
        requires open { All (λ place. IsTrue (is_open place self.old.events)) at.now }
        requires few { (1 ≤ length at.now) × (length at.now ≤ MOST_EVENTS) }
        requires process { (1 ≤ process) × (process ≤ self.old.room) }
        requires idle { IsFalse (is_waiting process self.old.events) }
        requires unlisted { IsFalse (is_listed process self.old.lists) }
        ensures answer { result ≡ took_any (first_event_happened at.now self.old.events) }
        ensures after { self.new ≡ waited_any (first_event_happened at.now self.old.events) at.now process self.old }
    {
        if let Some(position) = first_happened(&self.events, at) {
            return TookAny::Went { position };
        }
        join_all(&mut self.waiting, at, process);
        with_list(&mut self.lists, process, at);
        TookAny::Waits
    }

    // Makes the event at a place one that has happened, or that has not, and releases all who wait for it.
    fn let_all_go(&mut self, at: Place, happened: bool, woken: &mut Woken)
        requires open { IsTrue (is_open at self.old.events) }
        requires room { (self.old.room ≤ vec_capacity woken.old.processes) × (self.old.room ≤ vec_capacity woken.old.positions) }
        ensures after { self.new ≡ record self.old { events = withdrawn (waiters_at at self.old.events) (event_changed at (with_state (without_waiters happened)) self.old.events); lists = unlisted (waiters_at at self.old.events) self.old.lists } }
        ensures woken { woken.new.processes.items ≡ waiters_at at self.old.events }
        ensures positions { woken.new.positions.items ≡ map (λ p. position_number_of (position_of at self.old.lists p)) (waiters_at at self.old.events) }
        ensures room { (vec_capacity woken.old.processes ≤ vec_capacity woken.new.processes) × (vec_capacity woken.old.positions ≤ vec_capacity woken.new.positions) }
    {
        set_happened(&mut self.events, at, happened);
        release(&mut self.waiting, &mut self.lists, at, woken);
    }

    /// Makes the event at a place happen, and releases all who wait for it, so that they wait for no other event
    /// either: `woken` is emptied, and then has them in the order in which they came, each with the event's position
    /// among those for which it waited. It has room for as many processes as the kernel, and keeps it.
    pub fn cause(&mut self, at: Place, woken: &mut Woken)
        requires open { IsTrue (is_open at self.old.events) }
        requires room { (self.old.room ≤ vec_capacity woken.old.processes) × (self.old.room ≤ vec_capacity woken.old.positions) }
        ensures after { self.new ≡ record self.old { events = done_at (acts act.Cause) 0 at self.old.events; lists = unlisted (deed_at (acts act.Cause) 0 at self.old.events).withdraws self.old.lists } }
        ensures woken { woken.new.processes.items ≡ (deed_at (acts act.Cause) 0 at self.old.events).frees }
        ensures positions { woken.new.positions.items ≡ map (λ p. position_number_of (position_of at self.old.lists p)) (deed_at (acts act.Cause) 0 at self.old.events).frees }
        ensures room { (vec_capacity woken.old.processes ≤ vec_capacity woken.new.processes) × (vec_capacity woken.old.positions ≤ vec_capacity woken.new.positions) }
    {
        self.let_all_go(at, true, woken);
    }

    /// Releases all who wait for the event at a place, as `cause` does, and leaves it one that has not happened.
    pub fn cause_and_reset(&mut self, at: Place, woken: &mut Woken)
        requires open { IsTrue (is_open at self.old.events) }
        requires room { (self.old.room ≤ vec_capacity woken.old.processes) × (self.old.room ≤ vec_capacity woken.old.positions) }
        ensures after { self.new ≡ record self.old { events = done_at (acts act.CauseAndReset) 0 at self.old.events; lists = unlisted (deed_at (acts act.CauseAndReset) 0 at self.old.events).withdraws self.old.lists } }
        ensures woken { woken.new.processes.items ≡ (deed_at (acts act.CauseAndReset) 0 at self.old.events).frees }
        ensures positions { woken.new.positions.items ≡ map (λ p. position_number_of (position_of at self.old.lists p)) (deed_at (acts act.CauseAndReset) 0 at self.old.events).frees }
        ensures room { (vec_capacity woken.old.processes ≤ vec_capacity woken.new.processes) × (vec_capacity woken.old.positions ≤ vec_capacity woken.new.positions) }
    {
        self.let_all_go(at, false, woken);
    }

    /// Makes the event at a place one that has not happened. Who was released stays released, and who waits
    /// goes on waiting.
    pub fn reset(&mut self, at: Place)
        requires { IsTrue (is_open at self.old.events) }
        ensures { self.new ≡ record self.old { events = done_at (acts act.Reset) 0 at self.old.events } }
    {
        set_happened(&mut self.events, at, false);
    }

    /// Tests that the event at a place has happened.
    pub fn happened(&self, at: Place) -> bool
        requires { IsTrue (is_open at self.now.events) }
        ensures { result ≡ answers test.Happened (state_at at self.now.events) }
    {
        has_happened(&self.events, at)
    }

    /// Tests that the event at a place is available.
    pub fn available(&self, at: Place) -> bool
        requires { IsTrue (is_open at self.now.events) }
        ensures { result ≡ answers test.Available (state_at at self.now.events) }
    {
        is_available(&self.events, at)
    }

    /// Takes the event at a place where it is available, and answers false; else answers true, and nothing changes.
    pub fn fix(&mut self, at: Place) -> bool
        requires { IsTrue (is_open at self.old.events) }
        ensures answer { result ≡ answers test.Fix (state_at at self.old.events) }
        ensures after { self.new ≡ record self.old { events = done_at (tests test.Fix) 0 at self.old.events } }
    {
        if is_available(&self.events, at) {
            set_available(&mut self.events, at, false);
            return false;
        }
        true
    }

    /// Lets a process take the event at a place where it is available; else it waits to procure it, after all
    /// who wait.
    pub fn procure(&mut self, at: Place, process: u32) -> Took
        requires open { IsTrue (is_open at self.old.events) }
        requires process { (1 ≤ process) × (process ≤ self.old.room) }
        requires idle { IsFalse (is_waiting process self.old.events) }
        requires unlisted { IsFalse (is_listed process self.old.lists) }
        ensures answer { result ≡ took (deed_at (acts act.Procure) process at self.old.events).next }
        ensures after { self.new ≡ record self.old { events = done_at (acts act.Procure) process at self.old.events } }
    {
        if is_available(&self.events, at) {
            set_available(&mut self.events, at, false);
            return Took::Went;
        }
        enqueue(
            &mut self.waiting,
            Waiting {
                process,
                place: at,
                queue: Queue::Procurers,
            },
        );
        Took::Waits
    }

    /// Gives the event at a place to the first who waits to procure it, and answers that process; where nobody
    /// does, the event is available.
    pub fn liberate(&mut self, at: Place) -> Option<u32>
        requires { IsTrue (is_open at self.old.events) }
        ensures answer { result ≡ slice_get (deed_at (acts act.Liberate) 0 at self.old.events).frees 0 }
        ensures after { self.new ≡ record self.old { events = done_at (acts act.Liberate) 0 at self.old.events } }
    {
        if let Some(process) = serve(&mut self.waiting, at) {
            return Some(process);
        }
        set_available(&mut self.events, at, true);
        None
    }
}

/// Law: a process that waits for two events goes on by the second of them, at position 2, and then waits for neither;
/// the first is available, and is taken once.
pub fn two_events_at_work()
    ensures { TwoEventsAtWork }
{}

/// Law: the events are a map from places. An action changes the event at its place, and every other event
/// stays as it is, but that who is released leaves all.
pub fn one_event_changes()
    ensures { OneEventChanges }
{}

/// Law: no action opens a second event at a place.
pub fn events_stay_apart()
    ensures { EventsStayApart }
{}

/// Law: each process stands once, at the most, in the list of those who wait for an event to happen, and once in
/// all lists of those who wait to procure one, after each deed as before it, also where it waits for several events, if
/// who has to wait has waited nowhere and no two events are open at one place.
pub fn each_waits_once()
    ensures { EachWaitsOnce }
{}

/// Law: who is released, for however many events it waited, waits for none to happen any more; and a process that waited
/// for events to happen, or once to procure one, and is freed by a deed, waits nowhere.
pub fn released_wait_nowhere()
    ensures { ReleasedWaitNowhere }
{}
