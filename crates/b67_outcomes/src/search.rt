// The search.
ghost use Rattle.std.specs.Prelude.{◌≡◌, ◌≤◌, [], false, true, length, IfOk, IfSome, Some};
ghost use Rattle.b67_table.specs.Beginning.{first_image};
ghost use Rattle.b67_outcomes.specs.Finding.{AreAll, AreNoted, FoundGrows, IsArrived, NumberIsAt, IsClosed, IsExpanded, IsLastAble, IsLed, IsSearched, IsState};
ghost use Rattle.b67_outcomes.specs.Kept.{AreNotExpanded, AreOpen, IsReady, IsTree};
ghost use Rattle.b67_outcomes.specs.declared.found.TheConstants.{MOST_ENTRIES, MOST_KEPT};
ghost use Rattle.b67_outcomes.specs.Entering.{HasRoom};
ghost use Rattle.b67_outcomes.specs.Settling.{LocalsPass};

use crate::buckets::Buckets;
use crate::follow::{arrive, find, follow};
use crate::walking::walk;
use crate::{Found, Step, Walker};
use std::alloc::{AllocError, Global};

// The last process that may act, where one may.
fn last_able<W: Walker>(walker: &W) -> Option<u32>
    ensures { IsLastAble (W.image walker.now) result }
{
    let mut process = walker.processes();
    'processes: while process > 0 {
        if walker.may_act(process) {
            return Some(process);
        }
        process -= 1;
    }
    None
}

// Tests that the machine stands at the history of this number.
fn is_at(at: Option<u32>, number: u32) -> bool
    ensures { result ≡ true → at ≡ Some number }
{
    let Some(there) = at else {
        return false;
    };
    there == number
}

// The machine goes to the end of the history of this number, where it does not stand there.
fn stand<W: Walker>(
    alloc: Global,
    walker: &mut W,
    steps: &[Step],
    at: Option<u32>,
    number: u32,
) -> Result<(), AllocError>
    requires known { W.Known (W.code walker.old) }
    requires led { IsLed (W.code walker.old) steps.now number }
    requires there { IfSome at (λ number. NumberIsAt (W.code walker.old) steps.now number (W.image walker.old)) }
    requires room { IfSome at (HasRoom (W.Room walker.old)) }
    requires short { number ≤ MOST_ENTRIES }
    ensures code { W.code walker.new ≡ W.code walker.old }
    ensures at { IfOk result (λ u. NumberIsAt (W.code walker.old) steps.now number (W.image walker.new)) }
    ensures room { IfOk result (λ u. HasRoom (W.Room walker.new) number) }
{
    if is_at(at, number) {
        return Ok(());
    }
    walk(alloc, walker, steps, number)
}

// Each process is followed from the state of this history, by a machine that stands at the history of the number `at`, where there is one. It answers at which
// it stands after that. `path` is written over.
fn expand<W: Walker>(
    alloc: Global,
    walker: &mut W,
    second: &mut W,
    found: &mut Found,
    buckets: &mut Buckets,
    number: u32,
    at: Option<u32>,
    path: &mut Vec<u32>,
    most: u32,
) -> Result<Option<u32>, AllocError>
    requires codes { W.code second.old ≡ W.code walker.old }
    requires known { W.Known (W.code walker.old) }
    requires searched { IsSearched (W.code walker.old) most found.old }
    requires there { number ≤ length found.old.steps.items }
    requires state { IsState found.old.states.items number }
    requires tree { IsTree (W.code walker.old) (W.Local (W.code walker.old)) found.old × IsReady found.old number 0 }
    requires stands { IfSome at (λ number. NumberIsAt (W.code walker.old) found.old.steps.items number (W.image walker.old)) }
    requires room { IfSome at (HasRoom (W.Room walker.old)) }
    ensures code { W.code walker.new ≡ W.code walker.old }
    ensures second { W.code second.new ≡ W.code second.old }
    ensures grows { IfOk result (λ u. FoundGrows found.old found.new) }
    ensures searched { IfOk result (λ u. IsSearched (W.code walker.old) most found.new) }
    ensures stands { IfOk result (λ at. IfSome at (λ number. NumberIsAt (W.code walker.old) found.new.steps.items number (W.image walker.new))) }
    ensures room { IfOk result (λ at. IfSome at (HasRoom (W.Room walker.new))) }
    ensures tree { IfOk result (λ u. IsTree (W.code walker.old) (W.Local (W.code walker.old)) found.new × AreOpen found.new number) }
    ensures expanded { IfOk result (λ u. IsExpanded (W.code walker.old) (W.Local (W.code walker.old)) found.new number) }
{
    stand(alloc, walker, found.steps.as_slice(), at, number)?;
    let able = last_able(walker);
    let Some(last) = able else {
        return Ok(None);
    };
    let mut process = 1;
    'processes: while process < last {
        follow(
            alloc, walker, second, found, buckets, number, path, process, most,
        )?;
        process += 1;
    }
    find(
        alloc, walker, second, found, buckets, number, path, last, most,
    )
}

// The first state. It answers the number of the history at which the machine stands, where there is one. `path` is empty.
fn begin<W: Walker>(
    alloc: Global,
    walker: &mut W,
    second: &mut W,
    found: &mut Found,
    buckets: &mut Buckets,
    path: &mut Vec<u32>,
    most: u32,
) -> Result<Option<u32>, AllocError>
    requires codes { W.code second.old ≡ W.code walker.old }
    requires known { W.Known (W.code walker.old) }
    requires searched { IsSearched (W.code walker.old) most found.old }
    requires empty { path.old.items ≡ [] }
    requires some { 1 ≤ most }
    requires no_steps { found.old.steps.items ≡ [] }
    requires no_states { found.old.states.items ≡ [] }
    ensures code { W.code walker.new ≡ W.code walker.old }
    ensures second { W.code second.new ≡ W.code second.old }
    ensures searched { IfOk result (λ u. IsSearched (W.code walker.old) most found.new) }
    ensures stands { IfOk result (λ at. IfSome at (λ number. NumberIsAt (W.code walker.old) found.new.steps.items number (W.image walker.new))) }
    ensures room { IfOk result (λ at. IfSome at (HasRoom (W.Room walker.new))) }
    ensures arrived { IfOk result (λ u. found.new.cut ≡ false → IsArrived (W.code walker.old) (W.Local (W.code walker.old)) found.new first_image) }
    ensures tree { IfOk result (λ u. IsTree (W.code walker.old) (W.Local (W.code walker.old)) found.new × AreNotExpanded found.new 0 × (1 ≤ length found.new.states.items)) }
{
    walker.restart()?;
    arrive(alloc, walker, second, found, buckets, 0, path, most)
}

/// The states to which runs lead, at most so many of them, and where a process comes to the stack limit after them. After each entry those are performed
/// that can be performed at once. Where the search is not cut, each entry after a state leads to where such entries lead to a state again. Where these are local
/// indeed, too, the end of each run is that of a state with the same output, and where a process comes to the stack limit after a run, it does so after one of
/// these. The states have different histories, and each goes on from the one by whose expansion it was found; where a process comes to the stack limit after
/// a state, that is noted.
///
/// `Err` comes where memory runs out, and where the machine answers so.
pub fn explore<W: Walker>(
    alloc: Global,
    walker: &mut W,
    second: &mut W,
    most: u32,
) -> Result<Found, AllocError>
    requires codes { W.code second.old ≡ W.code walker.old }
    requires known { W.Known (W.code walker.old) }
    requires some { 1 ≤ most }
    requires few { most ≤ MOST_KEPT }
    ensures code { W.code walker.new ≡ W.code walker.old }
    ensures searched { IfOk result (IsSearched (W.code walker.old) most) }
    ensures kept { IfOk result (λ found. IsTree (W.code walker.old) (W.Local (W.code walker.old)) found × (1 ≤ length found.states.items)) }
    ensures noted { IfOk result (AreNoted (W.code walker.old)) }
    ensures closed { IfOk result (λ found. found.cut ≡ false → IsClosed (W.code walker.old) (W.Local (W.code walker.old)) found) }
    ensures all { IfOk result (λ found. LocalsPass (W.code walker.old) (W.Local (W.code walker.old)) → found.cut ≡ false → AreAll (W.code walker.old) found) }
{
    let mut found = Found {
        steps: Vec::new(alloc),
        states: Vec::new(alloc),
        limits: Vec::new(alloc),
        cut: false,
    };
    let mut buckets = Buckets::new(alloc)?;
    let mut path = Vec::new(alloc);
    let mut at = begin(
        alloc,
        walker,
        second,
        &mut found,
        &mut buckets,
        &mut path,
        most,
    )?;
    let mut done = 0;
    'states: while done < found.states.len() {
        let number = found.states[done].number;
        at = expand(
            alloc,
            walker,
            second,
            &mut found,
            &mut buckets,
            number,
            at,
            &mut path,
            most,
        )?;
        done += 1;
    }
    Ok(found)
}
