// A process is followed from a state.
ghost use Rattle.std.specs.Prelude.{◌≡◌, ◌⊎◌, ℕ, ◌+◌, ◌*◌, ◌<◌, ◌≤◌, ◌^◌, List, false, true, length, IfOk, IfSome};
ghost use Rattle.b67_table.specs.Ending.{may_act};
ghost use Rattle.b67_outcomes.specs.Finding.{FoundGrows, History, IsAfter, IsArrived, NumberIsAt, IsFollowed, IsSearched, IsState};
ghost use Rattle.b67_outcomes.specs.Kept.{IsHeld, IsReady, IsSame, IsTree};
ghost use Rattle.b67_outcomes.specs.Entering.{HasRoom};
ghost use Rattle.b67_outcomes.specs.declared.follow.TheConstants.{FREE_STEPS, MOST_SETTLED, STEPS_OF_STATE};

use crate::buckets::Buckets;
use crate::keep::{is_kept, keep};
use crate::settling::settle;
use crate::walking::walk;
use crate::{Found, Limit, Walker};
use std::alloc::{AllocError, Global};

// So many entries are settled at once at most.
const MOST_SETTLED: u32 = 500;

// So many steps may be kept without regard to the number of states, and for each state so many more.
const FREE_STEPS: usize = 1_000_000;

const STEPS_OF_STATE: usize = 3;

// How many entries may be settled at once: none where there are too many steps for the states.
fn room_of(found: &Found) -> u32
    requires { length found.now.states.items < 2 ^ 32 }
    ensures { (result ≡ 0) ⊎ ((result ≡ MOST_SETTLED) × (length found.now.steps.items ≤ FREE_STEPS + STEPS_OF_STATE * length found.now.states.items)) }
{
    if found.steps.len() > FREE_STEPS + STEPS_OF_STATE * found.states.len() {
        0
    } else {
        MOST_SETTLED
    }
}

/// A machine stands after a path, which goes on from the history of this number. Entries that can be performed at once are performed, and
/// the state to which they lead is kept. It answers the number of the history at which the machine stands, where the state was kept.
pub fn arrive<W: Walker>(
    alloc: Global,
    walker: &mut W,
    second: &mut W,
    found: &mut Found,
    buckets: &mut Buckets,
    number: u32,
    path: &mut Vec<u32>,
    most: u32,
) -> Result<Option<u32>, AllocError>
    requires codes { W.code second.old ≡ W.code walker.old }
    requires known { W.Known (W.code walker.old) }
    requires searched { IsSearched (W.code walker.old) most found.old }
    requires stands { IsAfter (W.code walker.old) found.old.steps.items number path.old.items (W.image walker.old) }
    requires room { HasRoom (W.Room walker.old) (number + length path.old.items) }
    requires short { length path.old.items ≤ 1 }
    ensures code { W.code walker.new ≡ W.code walker.old }
    ensures second { W.code second.new ≡ W.code second.old }
    ensures grows { IfOk result (λ u. FoundGrows found.old found.new) }
    ensures searched { IfOk result (λ u. IsSearched (W.code walker.old) most found.new) }
    ensures stands { IfOk result (λ at. IfSome at (λ number. NumberIsAt (W.code walker.old) found.new.steps.items number (W.image walker.new))) }
    ensures room { IfOk result (λ at. IfSome at (HasRoom (W.Room walker.new))) }
    ensures keeps { IfOk result (λ u. IsSame most found.old found.new ⊎ IsHeld (W.code walker.old) (W.Local (W.code walker.old)) found.old number path.old.items (W.image walker.old) found.new) }
    ensures arrived { IfOk result (λ u. found.new.cut ≡ false → IsArrived (W.code walker.old) (W.Local (W.code walker.old)) found.new (W.image walker.old)) }
{
    let room = room_of(found);
    settle(alloc, walker, found.steps.as_slice(), number, path, room)?;
    let hash = walker.hash();
    let newest = buckets.newest(hash);
    let steps = found.steps.as_slice();
    let states = found.states.as_slice();
    let kept = is_kept(alloc, walker, second, steps, states, newest)?;
    if kept {
        return Ok(None);
    }
    if found.states.len() >= most as usize {
        found.cut = true;
        return Ok(None);
    }
    let at = keep(found, buckets, number, path.as_slice(), hash)?;
    Ok(Some(at))
}

/// An entry of the process is performed on a machine that stands at the history of this number. The state to which it leads is kept, or that the
/// process comes to the stack limit. It answers the number of the history at which the machine stands, where the state was kept. `path` is written over.
pub fn find<W: Walker>(
    alloc: Global,
    walker: &mut W,
    second: &mut W,
    found: &mut Found,
    buckets: &mut Buckets,
    number: u32,
    path: &mut Vec<u32>,
    process: u32,
    most: u32,
) -> Result<Option<u32>, AllocError>
    requires codes { W.code second.old ≡ W.code walker.old }
    requires known { W.Known (W.code walker.old) }
    requires searched { IsSearched (W.code walker.old) most found.old }
    requires stands { NumberIsAt (W.code walker.old) found.old.steps.items number (W.image walker.old) }
    requires room { HasRoom (W.Room walker.old) number }
    requires may { may_act (W.image walker.old) process ≡ true }
    requires state { IsState found.old.states.items number }
    requires tree { IsTree (W.code walker.old) (W.Local (W.code walker.old)) found.old × IsReady found.old number process }
    ensures code { W.code walker.new ≡ W.code walker.old }
    ensures second { W.code second.new ≡ W.code second.old }
    ensures grows { IfOk result (λ u. FoundGrows found.old found.new) }
    ensures searched { IfOk result (λ u. IsSearched (W.code walker.old) most found.new) }
    ensures stands { IfOk result (λ at. IfSome at (λ number. NumberIsAt (W.code walker.old) found.new.steps.items number (W.image walker.new))) }
    ensures room { IfOk result (λ at. IfSome at (HasRoom (W.Room walker.new))) }
    ensures tree { IfOk result (λ u. IsTree (W.code walker.old) (W.Local (W.code walker.old)) found.new × IsReady found.new number (process + 1)) }
    ensures followed { IfOk result (λ u. (history : List ℕ) → History found.old.steps.items number history → IsFollowed (W.code walker.old) (W.Local (W.code walker.old)) found.new number history process) }
{
    let entered = walker.enter(process)?;
    if !entered {
        found.limits.push(Limit {
            state: number,
            process,
        })?;
        return Ok(None);
    }
    path.clear();
    path.push(process)?;
    arrive(alloc, walker, second, found, buckets, number, path, most)
}

/// A process is followed from the history of this number, on a machine that stands there: the state to which its entry leads is kept, or that it comes
/// to the stack limit. The machine stands there again. `path` is written over.
pub fn follow<W: Walker>(
    alloc: Global,
    walker: &mut W,
    second: &mut W,
    found: &mut Found,
    buckets: &mut Buckets,
    number: u32,
    path: &mut Vec<u32>,
    process: u32,
    most: u32,
) -> Result<(), AllocError>
    requires codes { W.code second.old ≡ W.code walker.old }
    requires known { W.Known (W.code walker.old) }
    requires searched { IsSearched (W.code walker.old) most found.old }
    requires stands { NumberIsAt (W.code walker.old) found.old.steps.items number (W.image walker.old) }
    requires room { HasRoom (W.Room walker.old) number }
    requires state { IsState found.old.states.items number }
    requires tree { IsTree (W.code walker.old) (W.Local (W.code walker.old)) found.old × IsReady found.old number process }
    ensures code { W.code walker.new ≡ W.code walker.old }
    ensures second { W.code second.new ≡ W.code second.old }
    ensures grows { IfOk result (λ u. FoundGrows found.old found.new) }
    ensures searched { IfOk result (λ u. IsSearched (W.code walker.old) most found.new) }
    ensures stands { IfOk result (λ u. NumberIsAt (W.code walker.old) found.new.steps.items number (W.image walker.new)) }
    ensures room { IfOk result (λ u. HasRoom (W.Room walker.new) number) }
    ensures tree { IfOk result (λ u. IsTree (W.code walker.old) (W.Local (W.code walker.old)) found.new × IsReady found.new number (process + 1)) }
    ensures followed { IfOk result (λ u. (history : List ℕ) → History found.old.steps.items number history → IsFollowed (W.code walker.old) (W.Local (W.code walker.old)) found.new number history process) }
{
    if !walker.may_act(process) {
        return Ok(());
    }
    find(
        alloc, walker, second, found, buckets, number, path, process, most,
    )?;
    walk(alloc, walker, found.steps.as_slice(), number)
}
