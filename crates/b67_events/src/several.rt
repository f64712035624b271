// The places of the events for which processes wait, where they wait for several.
ghost use Rattle.std.specs.Prelude.{◌≡◌, ℕ, ◌+◌, ◌<◌, ◌≤◌, [], ◌∷◌, ◌++◌, map, length, slice_set, vec_capacity};
ghost use Rattle.b67_list.specs.Numbered.{set_numbered};
ghost use Rattle.b67_events.specs.Events.{same_place, event_is_among, with_list, unlisted, first_that, position_number_of, position_of};

use crate::{is_at, wake};
use b67_limits::MOST_EVENTS;
use b67_word::Place;
use std::marker::Model;

// The most places of a list.
const MOST_PLACES: usize = MOST_EVENTS as usize;

/// The places of the events for which a process waits, no more than it can; none where it waits for no event, or for one.
///
/// Contracts see them as a list.
#[derive(Drop)]
pub struct Several {
    places: [Place; MOST_PLACES],
    count: usize,
}

impl Model for Several {
    ghost use Rattle.std.specs.Prelude.{◌≤◌, List, take};
    ghost use Rattle.b67_limits.specs.declared.TheConstants.{MOST_EVENTS};
    ghost use Rattle.b67_word.specs.declared.Place.{Place};

    ghost Value = { List Place };

    ghost view = { λ s. take s.count s.places };

    ghost invariant = { λ s. s.count ≤ MOST_EVENTS };
}

impl Several {
    /// No places.
    pub fn none() -> Self
        ensures { result ≡ [] }
    {
        Several {
            places: [Place { stack: 0, at: 0 }; MOST_PLACES],
            count: 0,
        }
    }

    /// These places.
    pub fn of(at: &[Place]) -> Self
        requires { length at.now ≤ MOST_EVENTS }
        ensures { result ≡ at.now }
    {
        let mut places = [Place { stack: 0, at: 0 }; MOST_PLACES];
        'naming: for index in 0..at.len() {
            places[index] = at[index];
        }
        Several {
            places,
            count: at.len(),
        }
    }

    /// The places.
    pub fn places(&self) -> &[Place]
        ensures places { result.now ≡ self.now }
        ensures few { length result.now ≤ MOST_EVENTS }
    {
        &self.places[..self.count]
    }
}

/// Tests that a place is one of these.
pub fn is_among(places: &[Place], at: Place) -> bool
    ensures { result ≡ event_is_among places.now at }
{
    'looking: for index in 0..places.len() {
        if is_at(places[index], at) {
            return true;
        }
    }
    false
}

// The first position, from 1, of a place among these; 0 where it is not among them.
fn position_in(places: &[Place], at: Place) -> u32
    requires { length places.now ≤ MOST_EVENTS }
    ensures { result ≡ position_number_of (first_that (λ place. same_place place at) 1 places.now) }
{
    let mut position = 1;
    'looking: for index in 0..places.len() {
        if is_at(places[index], at) {
            return position;
        }
        position += 1;
    }
    0
}

// The position of an event among those for which a process waits; 0 where it does not wait for several.
fn position_of(lists: &Vec<Several>, at: Place, process: u32) -> u32
    ensures { result ≡ position_number_of (position_of at lists.now.items process) }
{
    if process == 0 {
        return 0;
    }
    match lists.get(process as usize - 1) {
        Some(list) => position_in(list.places(), at),
        None => 0,
    }
}

/// Puts the event's position among those for which each of these processes waits into `positions`.
pub fn locate(lists: &Vec<Several>, at: Place, processes: &Vec<u32>, positions: &mut Vec<u32>)
    requires { length positions.old.items + length processes.now.items ≤ vec_capacity positions.old }
    ensures positions { positions.new.items ≡ positions.old.items ++ map (λ p. position_number_of (position_of at lists.now.items p)) processes.now.items }
    ensures room { vec_capacity positions.old ≤ vec_capacity positions.new }
{
    'locating: for index in 0..processes.len() {
        wake(positions, position_of(lists, at, processes[index]));
    }
}

// Lists one more process, which waits for none.
fn add_none(lists: &mut Vec<Several>)
    requires { length lists.old.items < vec_capacity lists.old }
    ensures items { lists.new.items ≡ lists.old.items ++ [] ∷ [] }
    ensures capacity { vec_capacity lists.old ≤ vec_capacity lists.new }
{
    lists.push(Several::none()).unwrap();
}

/// Lists a process as one that waits for the events at these places; those who are not there yet wait for none.
pub fn with_list(lists: &mut Vec<Several>, process: u32, at: &[Place])
    requires process { 1 ≤ process }
    requires room { process ≤ vec_capacity lists.old }
    requires few { length at.now ≤ MOST_EVENTS }
    ensures lists { lists.new.items ≡ with_list lists.old.items process at.now }
    ensures capacity { vec_capacity lists.old ≤ vec_capacity lists.new }
{
    let index = process as usize - 1;
    'padding: while lists.len() <= index {
        add_none(lists);
    }
    lists[index] = Several::of(at);
}

// Takes the list of a process away.
fn unlist(lists: &mut Vec<Several>, process: u32)
    ensures lists { lists.new.items ≡ set_numbered lists.old.items process [] }
    ensures capacity { vec_capacity lists.old ≤ vec_capacity lists.new }
{
    if process == 0 {
        return;
    }
    let index = process as usize - 1;
    if index < lists.len() {
        lists[index] = Several::none();
    }
}

/// Takes the lists of these processes away.
pub fn unlist_all(lists: &mut Vec<Several>, processes: &Vec<u32>)
    ensures lists { lists.new.items ≡ unlisted processes.now.items lists.old.items }
    ensures capacity { vec_capacity lists.old ≤ vec_capacity lists.new }
{
    'unlisting: for index in 0..processes.len() {
        unlist(lists, processes[index]);
    }
}
