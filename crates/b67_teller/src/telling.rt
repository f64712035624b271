//! The outcomes of states and of stack limits.
ghost use Rattle.std.specs.Prelude.{◌≡◌, ◌<◌, ◌≤◌, ◌∷◌, ℕ, true, false, length, slice_get, All, IfOk, Some};
ghost use Rattle.b67_list.specs.Numbered.{numbered};
ghost use Rattle.b67_table.specs.Image.{Image};
ghost use Rattle.b67_table.specs.Ending.{may_act};
ghost use Rattle.b67_table.specs.Table.{length_in};
ghost use Rattle.b67_outcomes.specs.declared.found.TheConstants.{MOST_ENTRIES, MOST_STEPS};
ghost use Rattle.b67_outcomes.specs.Entering.{IsProcessNumber, HistoryLeads, HistoryLeadsTo, Stops};
ghost use Rattle.b67_outcomes.specs.Finding.{AreAfterStates, AreLed, AreStates, AreStops, IsState, IsStop};
ghost use Rattle.b67_teller.specs.Books.{IsBook, BookGrows, HasCause, IsStateTold, IsLimitTold, AreLimitsTold, IsSettled, IsOpen, AreTold};

use crate::Teller;
use crate::book::{Book, note};
use b67_list::Line;
use b67_outcomes::{Found, Limit, Step, history_of, perform};
use b67_report::EndWords;
use b67_told::{Told, is_told, schedule_of};
use std::alloc::{AllocError, Global};

// Tests that there is no end, or that this output with it is told.
fn is_settled(told: &[Told], output: &[Line], end: Option<EndWords>) -> bool
    ensures yes { result ≡ true → IsSettled told.now output.now end }
    ensures no { result ≡ false → IsOpen told.now output.now end }
{
    match end {
        None => true,
        Some(end) => is_told(told, output, end),
    }
}

// The place, from this one on, at which an entry after the history of this number is looked for: those of earlier states stand before it. Nothing is said of it.
fn next_step(steps: &[Step], from: usize, number: u32) -> usize {
    let mut at = from;
    'later: while at < steps.len() {
        let before = steps[at].before;
        if before == number || (before > number && before as usize != at) {
            return at;
        }
        at += 1;
    }
    at
}

// Tests that the entry at this place was performed after the history of this number.
fn is_followed(steps: &[Step], at: usize, number: u32) -> bool
    ensures { result ≡ true → (k : ℕ) × (step : Step) × (slice_get steps.now k ≡ Some step) × (step.before ≡ number) }
{
    at < steps.len() && steps[at].before == number
}

// The outcome of a state is told, where its image has an end. It has none where an entry was performed after its history, which is looked for at this place.
fn tell_state<T: Teller>(
    alloc: Global,
    teller: &mut T,
    found: &Found,
    book: &mut Book,
    number: u32,
    next: usize,
) -> Result<(), AllocError>
    requires known { T.Known (T.code teller.old) }
    requires led { AreLed (T.code teller.old) found.now.steps.items }
    requires few { length found.now.steps.items ≤ MOST_STEPS }
    requires there { number ≤ length found.now.steps.items }
    requires state { IsState found.now.states.items number }
    requires book { IsBook T.Explained (T.code teller.old) book.old }
    requires cause { HasCause T.Explained (T.code teller.old) found.now book.old }
    ensures code { T.code teller.new ≡ T.code teller.old }
    ensures grows { IfOk result (λ u. BookGrows book.old book.new) }
    ensures book { IfOk result (λ u. IsBook T.Explained (T.code teller.old) book.new) }
    ensures cause { IfOk result (λ u. HasCause T.Explained (T.code teller.old) found.now book.new) }
    ensures told { IfOk result (λ u. book.new.cut ≡ false → IsStateTold (T.code teller.old) found.now book.new.told.items number) }
{
    if book.cut {
        return Ok(());
    }
    let steps = found.steps.as_slice();
    if is_followed(steps, next, number) {
        return Ok(());
    }
    let history = history_of(alloc, steps, number)?;
    let entries = history.as_slice();
    perform(teller, entries)?;
    let told = book.told.as_slice();
    let output = teller.output();
    let end = teller.end();
    if is_settled(told, output, end) {
        return Ok(());
    }
    let given = schedule_of(alloc, entries)?;
    note(alloc, teller, book, given)
}

// How many words the stack of the process has where it comes to the stack limit after these entries. The machine stands after them again.
fn words_at<T: Teller>(teller: &mut T, history: &[u32], process: u32) -> Result<u32, AllocError>
    requires known { T.Known (T.code teller.old) }
    requires leads { HistoryLeads (T.code teller.old) history.now }
    requires short { length history.now < MOST_ENTRIES }
    requires may { (img : Image) → HistoryLeadsTo (T.code teller.old) history.now img → may_act img process ≡ true }
    requires stops { (img : Image) → HistoryLeadsTo (T.code teller.old) history.now img → (quiet : Image) × Stops (T.code teller.old) process img quiet }
    ensures code { T.code teller.new ≡ T.code teller.old }
    ensures led { IfOk result (λ words. HistoryLeadsTo (T.code teller.old) history.now (T.image teller.new)) }
    ensures numbers { IfOk result (λ words. All IsProcessNumber history.now) }
    ensures number { IfOk result (λ words. IsProcessNumber process) }
    ensures words { IfOk result (λ words. (img quiet : Image) → HistoryLeadsTo (T.code teller.old) history.now img → Stops (T.code teller.old) process img quiet → words ≡ length_in (numbered quiet.regs process)) }
{
    perform(teller, history)?;
    let words = teller.stop(process)?;
    perform(teller, history)?;
    Ok(words)
}

// The history with one more entry, of the process.
fn longer(alloc: Global, history: &[u32], process: u32) -> Result<Vec<u32>, AllocError>
    requires numbers { All IsProcessNumber history.now }
    requires number { IsProcessNumber process }
    ensures is { IfOk result (λ longer. longer.items ≡ process ∷ history.now) }
    ensures numbers { IfOk result (λ longer. All IsProcessNumber longer.items) }
{
    let mut longer = Vec::new(alloc);
    longer.push(process)?;
    longer.extend_from_slice(history)?;
    Ok(longer)
}

// The outcome of a process that comes to the stack limit after a state is told.
fn tell_limit<T: Teller>(
    alloc: Global,
    teller: &mut T,
    found: &Found,
    book: &mut Book,
    limit: Limit,
) -> Result<(), AllocError>
    requires known { T.Known (T.code teller.old) }
    requires stop { IsStop (T.code teller.old) found.now.steps.items limit }
    requires state { IsState found.now.states.items limit.state }
    requires cause { HasCause T.Explained (T.code teller.old) found.now book.old }
    requires few { length found.now.steps.items ≤ MOST_STEPS }
    requires book { IsBook T.Explained (T.code teller.old) book.old }
    ensures code { T.code teller.new ≡ T.code teller.old }
    ensures grows { IfOk result (λ u. BookGrows book.old book.new) }
    ensures book { IfOk result (λ u. IsBook T.Explained (T.code teller.old) book.new) }
    ensures cause { IfOk result (λ u. HasCause T.Explained (T.code teller.old) found.now book.new) }
    ensures told { IfOk result (λ u. book.new.cut ≡ false → IsLimitTold (T.code teller.old) found.now book.new.told.items limit) }
{
    if book.cut {
        return Ok(());
    }
    let steps = found.steps.as_slice();
    let before = history_of(alloc, steps, limit.state)?;
    let entries = before.as_slice();
    let words = words_at(teller, entries, limit.process)?;
    let told = book.told.as_slice();
    let output = teller.output();
    let end = EndWords::StackLimit {
        process: limit.process,
        words,
    };
    if is_told(told, output, end) {
        return Ok(());
    }
    let history = longer(alloc, entries, limit.process)?;
    let given = schedule_of(alloc, history.as_slice())?;
    note(alloc, teller, book, given)
}

// The outcomes of the stack limits from this place to that one are told.
fn tell_limits<T: Teller>(
    alloc: Global,
    teller: &mut T,
    found: &Found,
    book: &mut Book,
    from: usize,
    to: usize,
) -> Result<(), AllocError>
    requires known { T.Known (T.code teller.old) }
    requires stops { AreStops (T.code teller.old) found.now.steps.items found.now.limits.items }
    requires after { AreAfterStates found.now.states.items found.now.limits.items }
    requires cause { HasCause T.Explained (T.code teller.old) found.now book.old }
    requires few { length found.now.steps.items ≤ MOST_STEPS }
    requires order { from ≤ to }
    requires within { to ≤ length found.now.limits.items }
    requires book { IsBook T.Explained (T.code teller.old) book.old }
    requires before { book.old.cut ≡ false → AreLimitsTold (T.code teller.old) found.now book.old.told.items from }
    ensures code { T.code teller.new ≡ T.code teller.old }
    ensures grows { IfOk result (λ u. BookGrows book.old book.new) }
    ensures book { IfOk result (λ u. IsBook T.Explained (T.code teller.old) book.new) }
    ensures cause { IfOk result (λ u. HasCause T.Explained (T.code teller.old) found.now book.new) }
    ensures told { IfOk result (λ u. book.new.cut ≡ false → AreLimitsTold (T.code teller.old) found.now book.new.told.items to) }
{
    let mut at = from;
    'limits: while at < to {
        tell_limit(alloc, teller, found, book, found.limits[at])?;
        at += 1;
    }
    Ok(())
}

// The entry by which the state at this place was found, before any that was settled: its steps stand after those of the state before it.
fn first_step(found: &Found, place: usize) -> Option<Step> {
    if place == 0 || place > found.states.len() {
        return None;
    }
    let before = found.states[place - 1].number as usize;
    found.steps.get(before).copied()
}

// The place of the first stack limit, from this one on, that was not noted before the state at this place was found.
fn limits_before(found: &Found, from: usize, place: usize) -> usize
    requires { from ≤ length found.now.limits.items }
    ensures least { from ≤ result }
    ensures most { result ≤ length found.now.limits.items }
{
    let Some(step) = first_step(found, place) else {
        return from;
    };
    let mut at = from;
    'limits: while at < found.limits.len() {
        let limit = found.limits[at];
        if limit.state > step.before
            || (limit.state == step.before && limit.process > step.process)
        {
            return at;
        }
        at += 1;
    }
    at
}

/// The outcomes of all states whose images have an end and of all stack limits that are noted, each told once, in the order in which they
/// were found.
pub fn tell<T: Teller>(alloc: Global, teller: &mut T, found: &Found) -> Result<Book, AllocError>
    requires known { T.Known (T.code teller.old) }
    requires led { AreLed (T.code teller.old) found.now.steps.items }
    requires states { AreStates found.now.steps.items found.now.states.items }
    requires stops { AreStops (T.code teller.old) found.now.steps.items found.now.limits.items }
    requires after { AreAfterStates found.now.states.items found.now.limits.items }
    requires few { length found.now.steps.items ≤ MOST_STEPS }
    ensures book { IfOk result (IsBook T.Explained (T.code teller.old)) }
    ensures cause { IfOk result (HasCause T.Explained (T.code teller.old) found.now) }
    ensures told { IfOk result (λ book. book.cut ≡ false → AreTold (T.code teller.old) found.now book.told.items) }
{
    let mut book = Book {
        told: Vec::new(alloc),
        text: Vec::new(alloc),
        cut: false,
    };
    let mut at = 0;
    let mut place = 0;
    let mut next = 0;
    'states: while place < found.states.len() {
        let to = limits_before(found, at, place);
        tell_limits(alloc, teller, found, &mut book, at, to)?;
        let number = found.states[place].number;
        next = next_step(found.steps.as_slice(), next, number);
        tell_state(alloc, teller, found, &mut book, number, next)?;
        at = to;
        place += 1;
    }
    tell_limits(alloc, teller, found, &mut book, at, found.limits.len())?;
    Ok(book)
}
