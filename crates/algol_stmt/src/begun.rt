//! How a statement begins, with what is read of it in boxes: so a level of statements takes little room on the stack.

ghost use Rattle.std.specs.Prelude.{◌≡◌, [], ◌∷◌, IfOk, IfErr};
ghost use Rattle.algol_tree.specs.Ended.{EndsOnce};
ghost use Rattle.algol_tree.specs.declared.refusal.Refusal.TheVariants.{NoMemory};
ghost use Rattle.algol_tree.specs.Due as due;
ghost use Rattle.algol_tree.specs.Found.{ReaderRefuses};
ghost use Rattle.algol_part.specs.Openings.{PartBegins};
ghost use Rattle.algol_stmt.specs.Begun.{opening_of, beginning_of};

use algol_part::{Beginning, Lead, Opening, read_beginning};
use algol_tree::{Expr, Refusal, Spot, Stmt, Token};
use std::alloc::Global;

/// A statement that others are to follow in, as far as it is read.
#[derive(Drop)]
pub(crate) enum Opened {
    Led(Box<Lead>),
    Begin(Spot),
    If(Box<Expr>),
    Do,
    Case(Box<Expr>),
}

/// The beginning of a statement: all of it, where no other stands in it, or what opens it and the levels that are then open.
#[derive(Drop)]
pub(crate) enum Begun {
    Whole(Box<Stmt>),
    Open(Opened, u32),
}

/// The same opening, in boxes.
fn boxed_opening(alloc: Global, opening: Opening) -> Result<Opened, Refusal>
    ensures boxed { IfOk result (λ o. opening_of o ≡ opening) }
    ensures memory { IfErr result (λ e. e ≡ NoMemory) }
{
    match opening {
        Opening::Led(lead) => Ok(Opened::Led(Box::new(alloc, lead)?)),
        Opening::Begin(spot) => Ok(Opened::Begin(spot)),
        Opening::If(condition) => Ok(Opened::If(Box::new(alloc, condition)?)),
        Opening::Do => Ok(Opened::Do),
        Opening::Case(choice) => Ok(Opened::Case(Box::new(alloc, choice)?)),
    }
}

/// The same beginning, in boxes.
fn boxed_beginning(alloc: Global, beginning: Beginning) -> Result<Begun, Refusal>
    ensures boxed { IfOk result (λ b. beginning_of b ≡ beginning) }
    ensures memory { IfErr result (λ e. e ≡ NoMemory) }
{
    match beginning {
        Beginning::Whole(statement) => Ok(Begun::Whole(Box::new(alloc, statement)?)),
        Beginning::Open(opening, depth) => Ok(Begun::Open(boxed_opening(alloc, opening)?, depth)),
    }
}

/// How the tokens begin a statement where `depth` levels are open, and what follows.
#[inline(never)]
pub(crate) fn read_begun(
    alloc: Global,
    tokens: &[Token],
    depth: u32,
) -> Result<(Begun, &[Token]), Refusal>
    requires ended { EndsOnce tokens.now }
    ensures found { IfOk result (λ r. PartBegins (due.statement depth) tokens.now (beginning_of r.0) r.1.now) }
    ensures refused { IfErr result (λ e. ReaderRefuses (due.statement depth ∷ []) [] tokens.now e) }
{
    let (beginning, rest) = read_beginning(alloc, tokens, depth)?;
    let begun = boxed_beginning(alloc, beginning)?;
    Ok((begun, rest))
}
