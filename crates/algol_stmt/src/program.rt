//! Programs from tokens.

ghost use Rattle.std.specs.Prelude.{◌≡◌, ◌↔◌, [], ◌∷◌, IsTrue, IfOk, IfErr};
ghost use Rattle.algol_tree.specs.Ended.{EndsOnce};
ghost use Rattle.algol_tree.specs.declared.token.TokenKind.TheVariants as kinds;
ghost use Rattle.algol_tree.specs.Plain.{PProgram};
ghost use Rattle.algol_tree.specs.Programs.{Reads};
ghost use Rattle.algol_tree.specs.Refused.{RefusedProgram};
ghost use Rattle.algol_tree.specs.Due as due;
ghost use Rattle.algol_tree.specs.Due.{whole_program};
ghost use Rattle.algol_tree.specs.Image.{program as plain};
ghost use Rattle.algol_tree.specs.Found.{ReaderFinds, ReaderRefuses};

use crate::make::program;
use crate::statement::{read_declarations, read_statements};
use algol_expr::{expect_symbol, first_of, is_word, opened};
use algol_part::unexpected;
use algol_tree::{Code, Program, Refusal, Reserved, Symbol, Token, TokenKind};
use std::alloc::Global;

/// The program that the tokens are, of which the last is the end of the text. It is refused as `Unexpected` at the first
/// token through which no program goes, as `TooDeep` at the token that breaks a limit, and as `TextAfterEnd` at the first
/// token after a program that is not the end of the text.
pub fn read_program(alloc: Global, tokens: &[Token]) -> Result<Program, Refusal>
    requires ended { EndsOnce tokens.now }
    ensures reads { IfOk result (λ p. Reads tokens.now (plain p)) }
    ensures only { IfOk result (λ p. (tree : PProgram) → Reads tokens.now tree → tree ≡ plain p) }
    ensures refused { IfErr result (λ e. RefusedProgram tokens.now e) }
{
    let (program, rest) = read_whole_program(alloc, tokens)?;
    let (first, _) = first_of(rest);
    if is_end(first) {
        Ok(program)
    } else {
        Err(Refusal::At {
            spot: first.spot,
            code: Code::TextAfterEnd,
        })
    }
}

/// The token is the end of the text.
fn is_end(token: &Token) -> bool
    ensures { IsTrue result ↔ token.now.kind ≡ kinds.End }
{
    match token.kind {
        TokenKind::End => true,
        _ => false,
    }
}

/// program = BEGIN body END ".", and what follows it
pub(crate) fn read_whole_program(
    alloc: Global,
    tokens: &[Token],
) -> Result<(Program, &[Token]), Refusal>
    requires ended { EndsOnce tokens.now }
    ensures found { IfOk result (λ r. ReaderFinds due.program tokens.now (whole_program (plain r.0)) r.1.now) }
    ensures refused { IfErr result (λ e. ReaderRefuses (due.program ∷ []) [] tokens.now e) }
{
    let (first, behind) = first_of(tokens);
    if is_word(first, Reserved::Begin) {
        let inner = opened(first, behind, 0)?;
        let (decls, rest) = read_declarations(alloc, behind, inner)?;
        let (stmts, rest) = read_statements(alloc, rest, inner)?;
        let rest = expect_symbol(rest, Symbol::Period)?;
        Ok((program(first.spot, decls, stmts), rest))
    } else {
        Err(unexpected(first))
    }
}
