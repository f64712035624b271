//! The answer to an accepted source whose outcomes are wanted.

ghost use Rattle.std.specs.Prelude.{◌≡◌, ◌≤◌, IfOk};
ghost use Rattle.algol_tree.specs.Image.{program as plain};
ghost use Rattle.b67_words.specs.declared.TheConstants.{MOST_STATES};
ghost use Rattle.b67_desk.specs.Exploring.{Explores, cut_status};

use crate::asking::Answer;
use crate::status::Status;
use algol_front::Checked;
use b67_compile::compile;
use b67_explorer::outcomes;
use std::alloc::{AllocError, Global};

/// The status under which outcomes are told.
fn cut_status(cut: bool) -> Status
    ensures { result ≡ cut_status cut }
{
    if cut { Status::Cut } else { Status::Finished }
}

/// The answer that tells the outcomes of an accepted source, of which so many states are kept at most.
pub fn answer_outcomes(alloc: Global, most: u64, checked: &Checked) -> Result<Answer, AllocError>
    requires { (1 ≤ most) × (most ≤ MOST_STATES) }
    ensures { IfOk result (λ answer. Explores most (plain checked.now.program) answer.text.items answer.status) }
{
    let code = compile(alloc, checked)?;
    let explored = outcomes(alloc, code, most as u32)?;
    Ok(Answer {
        text: explored.text,
        status: cut_status(explored.cut),
    })
}
