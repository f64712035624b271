// Entries that can be performed at once are performed.
ghost use Rattle.std.specs.Prelude.{◌≡◌, ℕ, ◌+◌, ◌≤◌, ◌++◌, List, length, reverse, IfOk, IfSome};
ghost use Rattle.b67_outcomes.specs.declared.found.TheConstants.{MOST_ENTRIES};
ghost use Rattle.b67_outcomes.specs.Entering.{HasRoom, IsReached};
ghost use Rattle.b67_outcomes.specs.Finding.{IsAfter};
ghost use Rattle.b67_outcomes.specs.Settling.{CanSettle, IsOnly, ImageSettles};

use crate::walking::walk_on;
use crate::{Step, Walker};
use std::alloc::{AllocError, Global};

// The process that may act, where it is the only one.
fn only_one<W: Walker>(walker: &W) -> Option<u32>
    ensures { IfSome result (IsOnly (W.image walker.now)) }
{
    let processes = walker.processes();
    let mut found = None;
    let mut process = 1;
    'processes: while process <= processes {
        if walker.may_act(process) {
            if found.is_some() {
                return None;
            }
            found = Some(process);
        }
        process += 1;
    }
    found
}

// The first process whose next entry is local.
fn first_local<W: Walker>(walker: &mut W) -> Result<Option<u32>, AllocError>
    requires reached { IsReached (W.code walker.old) (W.image walker.old) }
    requires room { (k : ℕ) × W.Room walker.old k }
    ensures code { W.code walker.new ≡ W.code walker.old }
    ensures stays { W.image walker.new ≡ W.image walker.old }
    ensures room { (k : ℕ) → W.Room walker.old k → W.Room walker.new k }
    ensures settles { IfOk result (λ found. IfSome found (CanSettle (W.Local (W.code walker.old)) (W.image walker.old))) }
{
    let processes = walker.processes();
    let mut process = 1;
    'processes: while process <= processes {
        if walker.may_act(process) {
            let local = walker.is_local(process)?;
            if local {
                return Ok(Some(process));
            }
        }
        process += 1;
    }
    Ok(None)
}

// The process that may act, where it is the only one; else the first whose next entry is local.
fn next_settled<W: Walker>(walker: &mut W) -> Result<Option<u32>, AllocError>
    requires reached { IsReached (W.code walker.old) (W.image walker.old) }
    requires room { (k : ℕ) × W.Room walker.old k }
    ensures code { W.code walker.new ≡ W.code walker.old }
    ensures stays { W.image walker.new ≡ W.image walker.old }
    ensures room { (k : ℕ) → W.Room walker.old k → W.Room walker.new k }
    ensures settles { IfOk result (λ found. IfSome found (CanSettle (W.Local (W.code walker.old)) (W.image walker.old))) }
{
    let only = only_one(walker);
    if only.is_some() {
        return Ok(only);
    }
    first_local(walker)
}

/// Entries are performed that can be performed at once, at most so many, on a machine that stands after a path, which goes on from the history of
/// this number; the path goes on by them.
pub fn settle<W: Walker>(
    alloc: Global,
    walker: &mut W,
    steps: &[Step],
    number: u32,
    path: &mut Vec<u32>,
    most: u32,
) -> Result<(), AllocError>
    requires known { W.Known (W.code walker.old) }
    requires stands { IsAfter (W.code walker.old) steps.now number path.old.items (W.image walker.old) }
    requires room { HasRoom (W.Room walker.old) (number + length path.old.items) }
    requires short { number + length path.old.items + most ≤ MOST_ENTRIES }
    ensures code { W.code walker.new ≡ W.code walker.old }
    ensures stands { IfOk result (λ u. IsAfter (W.code walker.old) steps.now number path.new.items (W.image walker.new)) }
    ensures room { IfOk result (λ u. HasRoom (W.Room walker.new) (number + length path.new.items)) }
    ensures short { IfOk result (λ u. length path.new.items ≤ length path.old.items + most) }
    ensures settles { IfOk result (λ u. (more : List ℕ) × (path.new.items ≡ path.old.items ++ more) × ImageSettles (W.code walker.old) (W.Local (W.code walker.old)) (W.image walker.old) (reverse more) (W.image walker.new)) }
{
    let mut count = 0;
    'entries: while count < most {
        let next = next_settled(walker)?;
        let Some(process) = next else {
            return Ok(());
        };
        let entered = walker.enter(process)?;
        if !entered {
            return walk_on(alloc, walker, steps, number, path.as_slice());
        }
        path.push(process)?;
        count += 1;
    }
    Ok(())
}
