//! Critical places.

ghost use Rattle.std.specs.Prelude.{◌≡◌};
ghost use Rattle.std.specs.List.{list_any};
ghost use Rattle.b67_events.specs.Events.{same_place};
ghost use Rattle.b67_table.specs.Questions.{live_criticals};
ghost use Rattle.b67_reach.specs.Criticals.{has_critical};

use crate::{ProcessState, Registers};
use b67_word::Place;

// Tests that two places are one.
fn is_at(frame: Place, place: Place) -> bool
    ensures { result ≡ same_place frame place }
{
    frame.stack == place.stack && frame.at == place.at
}

// Tests that a process lives and has this frame as its critical place.
fn has_critical(state: ProcessState, critical: Option<Place>, frame: Place) -> bool
    ensures { result ≡ has_critical state critical frame }
{
    match (state, critical) {
        (ProcessState::Ended, _) => false,
        (_, None) => false,
        (_, Some(place)) => is_at(frame, place),
    }
}

/// Tests that a frame is the critical place of a process that has not ended. States and registers stand by the processes'
/// numbers.
pub fn is_critical(states: &[ProcessState], regs: &[Registers], frame: Place) -> bool
    ensures { result ≡ list_any (same_place frame) (live_criticals states.now regs.now) }
{
    let mut index = 0;
    'processes: while index < states.len() && index < regs.len() {
        if has_critical(states[index], regs[index].critical, frame) {
            return true;
        }
        index += 1;
    }
    false
}
