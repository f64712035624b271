//! The front end from the text to the scopes.

ghost use Rattle.std.specs.Prelude.{◌≡◌, ◌≤◌, IfOk, IfErr, length};
ghost use Rattle.algol_tree.specs.declared.TheConstants.{MOST_SOURCE_BYTES};
ghost use Rattle.algol_tree.specs.Image.{program as plain};
ghost use Rattle.algol_tree.specs.Plain.{PProgram};
ghost use Rattle.algol_tree.specs.First.{Source};
ghost use Rattle.algol_front.specs.Refusing.{RefusesFirst, NoSource};

use crate::checked::Checked;
use algol_check::check;
use algol_lexer::lex;
use algol_scope::resolve;
use algol_stmt::read_program;
use algol_tree::Refusal;
use std::alloc::Global;

/// The program of an accepted source of at most [`MOST_SOURCE_BYTES`](algol_tree::MOST_SOURCE_BYTES) bytes, with its scopes.
///
/// # Errors
/// Where the text is no accepted source, the first place that breaks a rule: of the text, else of the grammar, else of names and
/// limits, else of types, counts, lines and labels; within one of these the first in the order of the text, and at one place the
/// rule with the lowest number. Or want of memory.
pub fn front(alloc: Global, bytes: &[u8]) -> Result<Checked, Refusal>
    requires { length bytes.now ≤ MOST_SOURCE_BYTES }
    // The text is an accepted source, with this program.
    ensures accepted { IfOk result (λ checked. Source bytes.now (plain checked.program)) }
    // It is no other.
    ensures only { IfOk result (λ checked. (tree : PProgram) → Source bytes.now tree → tree ≡ plain checked.program) }
    // A refusal is the first of the text.
    ensures refused { IfErr result (RefusesFirst bytes.now) }
    // A text that is refused is no accepted source, so such a source is Ok, or memory runs out.
    ensures none { IfErr result (NoSource bytes.now) }
{
    let tokens = lex(alloc, bytes)?;
    let program = read_program(alloc, tokens.as_slice())?;
    let scopes = resolve(alloc, &program)?;
    check(alloc, &program, &scopes)?;
    Ok(Checked { program, scopes })
}
