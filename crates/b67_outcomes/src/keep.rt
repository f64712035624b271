// Where a search has come to is looked for among what is kept, and is kept where it is not there.
ghost use Rattle.std.specs.Prelude.{◌≡◌, ◌+◌, ◌<◌, ◌≤◌, ◌^◌, true, length, IfOk};
ghost use Rattle.b67_outcomes.specs.declared.found.TheConstants.{MOST_STEPS};
ghost use Rattle.b67_outcomes.specs.Finding.{AreLed, AreStates, HoldsPath, HoldsState, IsKept};

use crate::buckets::Buckets;
use crate::walking::walk;
use crate::{Found, State, Step, Walker};
use std::alloc::{AllocError, Global};

/// Tests that the image of a machine is that of a state which is kept, from this one on in its bucket.
pub fn is_kept<W: Walker>(
    alloc: Global,
    walker: &W,
    second: &mut W,
    steps: &[Step],
    states: &[State],
    newest: u32,
) -> Result<bool, AllocError>
    requires codes { W.code second.old ≡ W.code walker.now }
    requires known { W.Known (W.code walker.now) }
    requires led { AreLed (W.code walker.now) steps.now }
    requires states { AreStates steps.now states.now }
    requires short { length steps.now ≤ MOST_STEPS }
    ensures code { W.code second.new ≡ W.code second.old }
    ensures kept { IfOk result (λ kept. kept ≡ true → IsKept (W.code walker.now) steps.now states.now (W.image walker.now)) }
{
    let hash = walker.hash();
    let mut at = newest;
    'older: while at > 0 && at as usize <= states.len() {
        let state = states[at as usize - 1];
        if state.hash == hash {
            walk(alloc, second, steps, state.number)?;
            if walker.same(second) {
                return Ok(true);
            }
        }
        if state.older >= at {
            return Ok(false);
        }
        at = state.older;
    }
    Ok(false)
}

// Adds the entries of a path, which goes on from the history of this number, and answers the number of its end.
fn add_steps(steps: &mut Vec<Step>, number: u32, path: &[u32]) -> Result<u32, AllocError>
    requires short { length steps.old.items + length path.now ≤ MOST_STEPS }
    ensures { IfOk result (λ at. HoldsPath steps.old.items number path.now at steps.new.items) }
{
    let mut at = number;
    let mut done = 0;
    'entries: while done < path.len() {
        steps.push(Step {
            before: at,
            process: path[done],
        })?;
        at = steps.len() as u32;
        done += 1;
    }
    Ok(at)
}

/// Keeps the state to which a path has led, which goes on from the history of this number. It answers the number of the history of the state.
pub fn keep(
    found: &mut Found,
    buckets: &mut Buckets,
    number: u32,
    path: &[u32],
    hash: u64,
) -> Result<u32, AllocError>
    requires short { length found.old.steps.items + length path.now ≤ MOST_STEPS }
    requires few { length found.old.states.items + 1 < 2 ^ 32 }
    ensures held { IfOk result (λ at. HoldsState found.old number path.now at found.new) }
{
    let at = add_steps(&mut found.steps, number, path)?;
    found.states.push(State {
        number: at,
        older: buckets.newest(hash),
        hash,
    })?;
    buckets.put(hash, found.states.len() as u32);
    Ok(at)
}
