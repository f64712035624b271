// From a state that is kept back to its schedule, and from there to its image.
ghost use Rattle.std.specs.Prelude.{◌≡◌, ◌+◌, ◌-◌, ◌<◌, ◌≤◌, ◌++◌, ℕ, List, drop, get_or, length, replicate, IfOk, All, Some, slice_get};
ghost use Rattle.b67_table.specs.Image.{Image};
ghost use Rattle.b67_outcomes.specs.declared.found.TheConstants.{MOST_ENTRIES};
ghost use Rattle.b67_outcomes.specs.Entering.{HasRoom, IsProcessNumber, HistoryLeadsTo, HistoryLeads};
ghost use Rattle.b67_outcomes.specs.Finding.{History, IsAfter, NumberIsAt, IsLed};

use crate::{Step, Walker};
use std::alloc::{AllocError, Global};

// A history has room for so many entries before more memory is taken.
const ROOM: usize = 128;

// By which step a state was found.
fn step_at(steps: &[Step], number: u32) -> Step
    requires later { 0 < number }
    requires within { number ≤ length steps.now }
    ensures there { slice_get steps.now (number - 1) ≡ Some result }
{
    steps[number as usize - 1]
}

/// The history of a state: whose entries lead to it, the last first.
pub fn history_of(alloc: Global, steps: &[Step], number: u32) -> Result<Vec<u32>, AllocError>
    requires found { (history : List ℕ) × History steps.now number history }
    ensures { IfOk result (λ history. History steps.now number history.items) }
{
    let mut history = Vec::with_capacity(alloc, ROOM)?;
    let mut at = number;
    'back: while at > 0 {
        let step = step_at(steps, at);
        history.push(step.process)?;
        at = step.before;
    }
    Ok(history)
}

// How many entries before this place of a history are those of one process.
fn times(history: &[u32], left: usize) -> usize
    requires some { 1 ≤ left }
    requires within { left ≤ length history.now }
    ensures some { 1 ≤ result }
    ensures within { result ≤ left }
    ensures same { drop (left - result) history.now ≡ replicate result (get_or history.now (left - 1) 0) ++ drop left history.now }
{
    let process = history[left - 1];
    let mut count = 1;
    'same: while count < left && history[left - 1 - count] == process {
        count += 1;
    }
    count
}

/// Performs a history from the beginning, the entries of one process that follow one another at once.
pub fn perform<W: Walker>(walker: &mut W, history: &[u32]) -> Result<(), AllocError>
    requires known { W.Known (W.code walker.old) }
    requires leads { HistoryLeads (W.code walker.old) history.now }
    requires short { length history.now ≤ MOST_ENTRIES }
    ensures code { W.code walker.new ≡ W.code walker.old }
    ensures led { IfOk result (λ u. HistoryLeadsTo (W.code walker.old) history.now (W.image walker.new)) }
    ensures room { IfOk result (λ u. HasRoom (W.Room walker.new) (length history.now)) }
    ensures numbers { IfOk result (λ u. All IsProcessNumber history.now) }
{
    walker.restart()?;
    let mut left = history.len();
    'runs: while left > 0 {
        let count = times(history, left);
        walker.enter_run(history[left - 1], count)?;
        left -= count;
    }
    Ok(())
}

/// The machine goes to the end of the history of this number.
pub fn walk<W: Walker>(
    alloc: Global,
    walker: &mut W,
    steps: &[Step],
    number: u32,
) -> Result<(), AllocError>
    requires known { W.Known (W.code walker.old) }
    requires led { IsLed (W.code walker.old) steps.now number }
    requires short { number ≤ MOST_ENTRIES }
    ensures code { W.code walker.new ≡ W.code walker.old }
    ensures at { IfOk result (λ u. NumberIsAt (W.code walker.old) steps.now number (W.image walker.new)) }
    ensures room { IfOk result (λ u. HasRoom (W.Room walker.new) number) }
{
    let history = history_of(alloc, steps, number)?;
    perform(walker, history.as_slice())
}

/// The machine goes to the end of a path, which goes on from the history of this number.
pub fn walk_on<W: Walker>(
    alloc: Global,
    walker: &mut W,
    steps: &[Step],
    number: u32,
    path: &[u32],
) -> Result<(), AllocError>
    requires known { W.Known (W.code walker.old) }
    requires leads { (img : Image) × IsAfter (W.code walker.old) steps.now number path.now img }
    requires short { number + length path.now ≤ MOST_ENTRIES }
    ensures code { W.code walker.new ≡ W.code walker.old }
    ensures after { IfOk result (λ u. IsAfter (W.code walker.old) steps.now number path.now (W.image walker.new)) }
    ensures room { IfOk result (λ u. HasRoom (W.Room walker.new) (number + length path.now)) }
{
    walk(alloc, walker, steps, number)?;
    let mut done = 0;
    'entries: while done < path.len() {
        let _ = walker.enter(path[done])?;
        done += 1;
    }
    Ok(())
}
