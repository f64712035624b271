//! Statements in which no other stands.

ghost use Rattle.std.specs.Prelude.{◌≡◌, [], ◌∷◌, IfOk, IfErr};
ghost use Rattle.algol_tree.specs.Ended.{EndsOnce};
ghost use Rattle.algol_tree.specs.declared.token.Reserved.TheVariants as reserved;
ghost use Rattle.algol_tree.specs.Due as due;
ghost use Rattle.algol_tree.specs.Due.{one, stmt, make};
ghost use Rattle.algol_tree.specs.DueStmt.{going, processing};
ghost use Rattle.algol_tree.specs.Plain as trees;
ghost use Rattle.algol_tree.specs.Image as image;
ghost use Rattle.algol_tree.specs.Image.{stmt as plain};
ghost use Rattle.algol_tree.specs.Found.{Completes, ReaderRefuses};
ghost use Rattle.algol_part.specs.Brings.{Brings, Skips};
ghost use Rattle.algol_part.specs.Phrases.{acted, element_in, whole_before, whole_behind};

use crate::exprs::{read_actuals, read_closed_exprs};
use crate::make::{acting, going};
use crate::names::read_name;
use algol_expr::{
    expect_symbol, expect_word, first_of, is_symbol, is_word, read_event, read_whole,
};
use algol_tree::{
    Call, EventAct, Expr, List, Named, Refusal, Reserved, Stmt, Symbol, Token, Variable,
};
use std::alloc::Global;

/// The value goes to the variable of that name, with its subscripts where it has some.
fn assignment(name: Named, subs: List<Expr>, value: Expr) -> Stmt
    ensures { plain result ≡ trees.assign (trees.subscripted name (image.exprs subs)) (image.expr value) }
{
    Stmt::Assign(Variable { name, subs }, value)
}

/// The value goes to the simple variable of that name.
pub(crate) fn assigned(alloc: Global, name: Named, value: Expr) -> Stmt
    ensures { plain result ≡ trees.assign (trees.subscripted name trees.none) (image.expr value) }
{
    assignment(name, List::of(Vec::new(alloc)), value)
}

/// A call of that name, with its actuals where it has some.
pub(crate) fn called(name: Named, actuals: List<Expr>) -> Stmt
    ensures { plain result ≡ trees.call_of (trees.called name (image.exprs actuals)) }
{
    Stmt::Call(Call { name, actuals })
}

/// expr { "," expr } "]" ":=" expr, after a name and its "["
pub(crate) fn read_element(
    alloc: Global,
    name: Named,
    tokens: &[Token],
) -> Result<(Stmt, &[Token]), Refusal>
    requires ended { EndsOnce tokens.now }
    ensures found { IfOk result (λ r. Brings (element_in name) tokens.now (stmt (plain r.0)) r.1.now) }
    ensures refused { IfErr result (λ e. ReaderRefuses (element_in name) [] tokens.now e) }
{
    let (subs, rest) = read_closed_exprs(alloc, tokens, Symbol::CloseSquare)?;
    let rest = expect_symbol(rest, Symbol::Becomes)?;
    let (value, rest) = read_whole(alloc, rest, 0)?;
    Ok((assignment(name, subs, value), rest))
}

/// GO [ TO ] name, after the GO
pub(crate) fn read_go(alloc: Global, tokens: &[Token]) -> Result<(Stmt, &[Token]), Refusal>
    requires ended { EndsOnce tokens.now }
    ensures found { IfOk result (λ r. Brings (due.to_part ∷ due.named ∷ make going ∷ []) tokens.now (stmt (plain r.0)) r.1.now) }
    ensures refused { IfErr result (λ e. ReaderRefuses (due.to_part ∷ due.named ∷ make going ∷ []) [] tokens.now e) }
{
    let (label, rest) = read_name(alloc, behind_to(tokens))?;
    Ok((going(label), rest))
}

/// What follows [ TO ]
fn behind_to(tokens: &[Token]) -> &[Token]
    requires ended { EndsOnce tokens.now }
    ensures { Skips due.to_part tokens.now result.now }
{
    let (first, behind) = first_of(tokens);
    if is_word(first, Reserved::To) {
        behind
    } else {
        tokens
    }
}

/// PROCESS call [ "[" name "]" ], after the PROCESS
pub(crate) fn read_process(alloc: Global, tokens: &[Token]) -> Result<(Stmt, &[Token]), Refusal>
    requires ended { EndsOnce tokens.now }
    ensures found { IfOk result (λ r. Brings (due.named ∷ due.actuals_part ∷ due.task_part ∷ make processing ∷ []) tokens.now (stmt (plain r.0)) r.1.now) }
    ensures refused { IfErr result (λ e. ReaderRefuses (due.named ∷ due.actuals_part ∷ due.task_part ∷ make processing ∷ []) [] tokens.now e) }
{
    let (name, rest) = read_name(alloc, tokens)?;
    let (actuals, rest) = read_actuals(alloc, rest)?;
    let (task, rest) = read_task(alloc, rest)?;
    Ok((process(name, actuals, task), rest))
}

/// A process that runs a call of that name.
fn process(name: Named, actuals: List<Expr>, task: Option<Named>) -> Stmt
    ensures { plain result ≡ trees.process (trees.called name (image.exprs actuals)) task }
{
    Stmt::Process(Call { name, actuals }, task)
}

/// [ "[" name "]" ]
fn read_task(alloc: Global, tokens: &[Token]) -> Result<(Option<Named>, &[Token]), Refusal>
    requires ended { EndsOnce tokens.now }
    ensures found { IfOk result (λ r. Completes due.task_part tokens.now (due.task r.0) r.1.now) }
    ensures refused { IfErr result (λ e. ReaderRefuses (due.task_part ∷ []) [] tokens.now e) }
{
    let (first, behind) = first_of(tokens);
    if is_symbol(first, Symbol::OpenSquare) {
        let (task, rest) = read_name(alloc, behind)?;
        let rest = expect_symbol(rest, Symbol::CloseSquare)?;
        Ok((Some(task), rest))
    } else {
        Ok((None, tokens))
    }
}

/// "(" event ")", after the word of the act
pub(crate) fn read_act(
    alloc: Global,
    act: EventAct,
    tokens: &[Token],
) -> Result<(Stmt, &[Token]), Refusal>
    requires ended { EndsOnce tokens.now }
    ensures found { IfOk result (λ r. Brings (acted act) tokens.now (stmt (plain r.0)) r.1.now) }
    ensures refused { IfErr result (λ e. ReaderRefuses (acted act) [] tokens.now e) }
{
    let rest = expect_symbol(tokens, Symbol::OpenRound)?;
    let (event, rest) = read_event(alloc, rest)?;
    let rest = expect_symbol(rest, Symbol::CloseRound)?;
    Ok((acting(act, event), rest))
}

/// An expression, and the word after it
pub(crate) fn read_before(
    alloc: Global,
    tokens: &[Token],
    word: Reserved,
) -> Result<(Expr, &[Token]), Refusal>
    requires ended { EndsOnce tokens.now }
    ensures found { IfOk result (λ r. Brings (whole_before word) tokens.now (one (image.expr r.0)) r.1.now) }
    ensures refused { IfErr result (λ e. ReaderRefuses (whole_before word) [] tokens.now e) }
{
    let (expr, rest) = read_whole(alloc, tokens, 0)?;
    let rest = expect_word(rest, word)?;
    Ok((expr, rest))
}

/// UNTIL expr
pub fn read_until(alloc: Global, tokens: &[Token]) -> Result<(Expr, &[Token]), Refusal>
    requires ended { EndsOnce tokens.now }
    ensures found { IfOk result (λ r. Brings (whole_behind reserved.Until) tokens.now (one (image.expr r.0)) r.1.now) }
    ensures refused { IfErr result (λ e. ReaderRefuses (whole_behind reserved.Until) [] tokens.now e) }
{
    let rest = expect_word(tokens, Reserved::Until)?;
    let (expr, rest) = read_whole(alloc, rest, 0)?;
    Ok((expr, rest))
}
