//! Outcomes are noted, each once.
ghost use Rattle.std.specs.Prelude.{◌≡◌, true, false, IfOk};
ghost use Rattle.b67_schedule.specs.Giving.{HasRuns, given_entries};
ghost use Rattle.b67_told.specs.declared.Outcome.{Outcome as TheOutcome};
ghost use Rattle.b67_told.specs.Telling.{IsOfOne, OutcomeIsTold};
ghost use Rattle.b67_teller.specs.Following.{HasOutcome};
ghost use Rattle.b67_teller.specs.Books.{IsBook, BookGrows, HasOther, IsAdded, IsLeftOut};

use crate::Teller;
use b67_report::EndWords;
use b67_schedule::Given;
use b67_told::{MOST_TEXT_BYTES, Told, text_of};
use std::alloc::{AllocError, Global};

/// The outcomes that are told, their text, and whether one was left out: then no more are told.
#[derive(Drop)]
pub struct Book {
    pub told: Vec<Told>,
    pub text: Vec<u8>,
    pub cut: bool,
}

// Adds an outcome and its text to the others, where the text does not become too long by it, and answers whether it was added.
fn add(
    alloc: Global,
    told: &mut Vec<Told>,
    text: &mut Vec<u8>,
    item: Told,
) -> Result<bool, AllocError>
    ensures { IfOk result (IsAdded told.old.items text.old.items item told.new.items text.new.items) }
{
    let more = text_of(alloc, &item)?;
    if text.len() + more.len() > MOST_TEXT_BYTES {
        return Ok(false);
    }
    text.extend_from_slice(more.as_slice())?;
    told.push(item)?;
    Ok(true)
}

/// The outcome of a schedule is told, which is not told. It is left out where the budget is too small to follow the schedule, or the text
/// would be too long.
pub fn note<T: Teller>(
    alloc: Global,
    teller: &mut T,
    book: &mut Book,
    given: Given,
) -> Result<(), AllocError>
    requires known { T.Known (T.code teller.old) }
    requires version { IsOfOne given }
    requires runs { HasRuns given }
    requires other { HasOther (T.code teller.old) (given_entries given) book.old.told.items }
    requires book { IsBook T.Explained (T.code teller.old) book.old }
    requires open { book.old.cut ≡ false }
    ensures code { T.code teller.new ≡ T.code teller.old }
    ensures grows { IfOk result (λ u. BookGrows book.old book.new) }
    ensures book { IfOk result (λ u. IsBook T.Explained (T.code teller.old) book.new) }
    ensures cause { IfOk result (λ u. book.new.cut ≡ true → IsLeftOut T.Explained (T.code teller.old) book.new.told.items (given_entries given)) }
    ensures told { IfOk result (λ u. book.new.cut ≡ false → (o : TheOutcome) → HasOutcome (T.code teller.old) (given_entries given) o → OutcomeIsTold book.new.told.items o) }
{
    let outcome = teller.replay(alloc, &given)?;
    if let EndWords::BudgetSpent = outcome.end {
        book.cut = true;
        return Ok(());
    }
    let item = Told {
        outcome,
        schedule: given,
    };
    let added = add(alloc, &mut book.told, &mut book.text, item)?;
    if !added {
        book.cut = true;
    }
    Ok(())
}
