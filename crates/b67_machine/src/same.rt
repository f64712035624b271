// Parts of two images that are the same.
ghost use Rattle.std.specs.Prelude.{◌≡◌, true};

use b67_control::{Display, Registers};
use b67_list::Line;
use b67_reach::ProcessState;
use b67_word::Place;

// How many levels a display has.
const LEVELS: u8 = 32;

/// Tests that two lists have the same numbers.
pub fn same_numbers(ours: &[u32], theirs: &[u32]) -> bool
    ensures { result ≡ true → ours.now ≡ theirs.now }
{
    ours == theirs
}

// Tests that two places are the same.
fn same_place(ours: Place, theirs: Place) -> bool
    ensures { result ≡ true → ours ≡ theirs }
{
    ours == theirs
}

// Tests that two places are the same, or none.
fn same_name(ours: Option<Place>, theirs: Option<Place>) -> bool
    ensures { result ≡ true → ours ≡ theirs }
{
    match ours {
        Some(ours) => match theirs {
            Some(theirs) => same_place(ours, theirs),
            None => false,
        },
        None => theirs.is_none(),
    }
}

// Tests that two displays name the same.
fn same_display(ours: &Display, theirs: &Display) -> bool
    ensures { result ≡ true → ours.now ≡ theirs.now }
{
    'levels: for level in 0..LEVELS {
        if !same_name(ours.get(level), theirs.get(level)) {
            return false;
        }
    }
    true
}

// Tests that the registers of two processes are the same.
fn same_process(ours: &Registers, theirs: &Registers) -> bool
    ensures { result ≡ true → ours.now ≡ theirs.now }
{
    ours.place == theirs.place
        && ours.segment == theirs.segment
        && ours.s == theirs.s
        && ours.f == theirs.f
        && ours.ll == theirs.ll
        && ours.cells == theirs.cells
        && ours.stack == theirs.stack
        && same_name(ours.task, theirs.task)
        && same_name(ours.critical, theirs.critical)
        && same_display(&ours.display, &theirs.display)
}

/// Tests that two lists have the same registers.
pub fn same_registers(ours: &[Registers], theirs: &[Registers]) -> bool
    ensures { result ≡ true → ours.now ≡ theirs.now }
{
    if ours.len() != theirs.len() {
        return false;
    }
    'processes: for index in 0..ours.len() {
        if !same_process(&ours[index], &theirs[index]) {
            return false;
        }
    }
    true
}

// Tests that two states are the same.
fn same_state(ours: ProcessState, theirs: ProcessState) -> bool
    ensures { result ≡ true → ours ≡ theirs }
{
    match ours {
        ProcessState::Able => matches!(theirs, ProcessState::Able),
        ProcessState::WaitsFor(place) => match theirs {
            ProcessState::WaitsFor(other) => same_place(place, other),
            _ => false,
        },
        ProcessState::WaitsAny => matches!(theirs, ProcessState::WaitsAny),
        ProcessState::Procures(place) => match theirs {
            ProcessState::Procures(other) => same_place(place, other),
            _ => false,
        },
        ProcessState::Ended => matches!(theirs, ProcessState::Ended),
    }
}

/// Tests that two lists have the same states.
pub fn same_states(ours: &[ProcessState], theirs: &[ProcessState]) -> bool
    ensures { result ≡ true → ours.now ≡ theirs.now }
{
    if ours.len() != theirs.len() {
        return false;
    }
    'states: for index in 0..ours.len() {
        if !same_state(ours[index], theirs[index]) {
            return false;
        }
    }
    true
}

/// Tests that two lists have the same lines.
pub fn same_lines(ours: &[Line], theirs: &[Line]) -> bool
    ensures { result ≡ true → ours.now ≡ theirs.now }
{
    if ours.len() != theirs.len() {
        return false;
    }
    'lines: for index in 0..ours.len() {
        if ours[index].bytes() != theirs[index].bytes() {
            return false;
        }
    }
    true
}
