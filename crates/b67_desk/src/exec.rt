//! The answer to a text of code.

ghost use Rattle.std.specs.Prelude.{◌≡◌, ◌≤◌, IfOk, length};
ghost use Rattle.algol_tree.specs.declared.TheConstants.{MOST_SOURCE_BYTES};
ghost use Rattle.b67_limits.specs.declared.TheConstants.{MOST_BUDGET};
ghost use Rattle.b67_desk.specs.Answers.{Execs};
ghost use Rattle.b67_desk.specs.Ends.{status_by};

use crate::asking::Answer;
use crate::status::{Code, Status};
use crate::tree::refuse;
use algol_tree::Spot;
use b67_asm::{NotAssembled, assemble};
use b67_exec::{Stopped, exec_told};
use std::alloc::{AllocError, Global};

/// The status under which a run by turns is told.
fn status_by(why: Stopped) -> Status
    ensures { result ≡ status_by why }
{
    match why {
        Stopped::Finished => Status::Finished,
        Stopped::Fault { kind, process } => Status::Fault { kind, process },
        Stopped::AllWaiting => Status::AllWaiting,
        Stopped::Interrupt { kind, process } => Status::Interrupt { kind, process },
        Stopped::StackLimit { process, words } => Status::StackLimit { process, words },
        Stopped::BudgetSpent => Status::BudgetSpent,
    }
}

/// The answer to a text of code that is run by turns under a budget.
pub fn answer_exec(alloc: Global, budget: u64, bytes: &[u8]) -> Result<Answer, AllocError>
    requires most { budget ≤ MOST_BUDGET }
    requires few { length bytes.now ≤ MOST_SOURCE_BYTES }
    ensures { IfOk result (λ answer. Execs budget bytes.now answer.text.items answer.status) }
{
    match assemble(alloc, bytes) {
        Ok(code) => {
            let told = exec_told(alloc, code, budget as u32)?;
            Ok(Answer {
                text: told.text,
                status: status_by(told.why),
            })
        }
        Err(NotAssembled::Refused(refusal)) => {
            let start = Spot {
                line: refusal.line,
                column: 1,
            };
            refuse(alloc, start, Code::OfText(refusal.rule))
        }
        Err(NotAssembled::NoMemory) => Err(AllocError),
    }
}
