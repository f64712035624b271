//! The outcomes of a code, as a text.
ghost use Rattle.std.specs.Prelude.{◌≡◌, ◌≤◌, IfOk};
ghost use Rattle.algol_tree.specs.Plain.{PProgram};
ghost use Rattle.b67_settling.specs.Local.{StacksStayOwn};
ghost use Rattle.b67_faithful.specs.Faithful.{Faithful};
ghost use Rattle.b67_outcomes.specs.declared.found.TheConstants.{MOST_KEPT};
ghost use Rattle.b67_outcomes_all.specs.Outcomes.{TellsOutcomes};
ghost use Rattle.b67_explorer.specs.Texts.{IsTextOf};

use crate::Explorer;
use crate::local::any_part;
use b67_flat::FlatCore;
use b67_machine::Machine;
use b67_outcomes::{Found, explore};
use b67_segment::Code;
use b67_teller::{Book, tell};
use b67_told::head_of;
use std::alloc::{AllocError, Global};

/// The text that tells the outcomes, and whether some may be missing.
#[derive(Drop)]
pub struct Explored {
    pub text: Vec<u8>,
    pub cut: bool,
}

// A machine of this code before its first operator.
fn explorer_of(alloc: Global, code: Code) -> Result<Explorer<FlatCore>, AllocError>
    requires faithful { (tree : PProgram) × Faithful tree code }
    ensures { IfOk result (λ explorer. explorer.machine.code ≡ code) }
{
    let machine = Machine::load(alloc, code, FlatCore::new(alloc))?;
    let part = any_part(alloc)?;
    Ok(Explorer { machine, part })
}

// What the search has found and what is told of it, as a text.
fn text_of(alloc: Global, found: &Found, book: &Book) -> Result<Explored, AllocError>
    ensures { IfOk result (IsTextOf found.now book.now) }
{
    let cut = found.cut || book.cut;
    let mut text = head_of(alloc, book.told.len(), cut, found.states.len())?;
    text.extend_from_slice(book.text.as_slice())?;
    Ok(Explored { text, cut })
}

/// The outcomes of the source of a code, where at most so many states are kept: from 1 to [`MOST_KEPT`](b67_outcomes::MOST_KEPT).
///
/// # Errors
///
/// Memory ran out; nothing else is answered so.
pub fn outcomes(alloc: Global, code: Code, most: u32) -> Result<Explored, AllocError>
    requires some { 1 ≤ most }
    requires few { most ≤ MOST_KEPT }
    requires faithful { (tree : PProgram) × Faithful tree code }
    requires stacks { StacksStayOwn code }
    ensures { IfOk result (λ answer. (tree : PProgram) → Faithful tree code → TellsOutcomes tree most answer.text.items answer.cut) }
{
    let copy = code.copy()?;
    let mut explorer = explorer_of(alloc, code)?;
    let mut second = explorer_of(alloc, copy)?;
    let found = explore(alloc, &mut explorer, &mut second, most)?;
    let book = tell(alloc, &mut explorer, &found)?;
    text_of(alloc, &found, &book)
}
