//! How a statement begins, up to the first that stands in it.

ghost use Rattle.std.specs.Prelude.{◌≡◌, ◌<◌, ◌≤◌, ◌+◌, ℕ, [], ◌∷◌, IfOk, IfErr};
ghost use Rattle.algol_tree.specs.Ended.{EndsOnce};
ghost use Rattle.algol_tree.specs.declared.refusal.Code.TheVariants as codes;
ghost use Rattle.algol_tree.specs.declared.refusal.Refusal.TheVariants as refusals;
ghost use Rattle.algol_tree.specs.Due as due;
ghost use Rattle.algol_tree.specs.Due.{one, stmt};
ghost use Rattle.algol_tree.specs.Image as image;
ghost use Rattle.algol_tree.specs.Image.{stmt as plain};
ghost use Rattle.algol_tree.specs.Found.{ReaderRefuses};
ghost use Rattle.algol_part.specs.Brings.{Brings};
ghost use Rattle.algol_part.specs.declared.opening.Beginning.TheVariants as beginnings;
ghost use Rattle.algol_part.specs.declared.opening.Lead.TheVariants as leads;
ghost use Rattle.algol_part.specs.declared.opening.Opening.TheVariants as openings;
ghost use Rattle.algol_part.specs.Phrases.{choice_in};
ghost use Rattle.algol_part.specs.Openings.{behind_for, behind_word, behind_verb, still_due, so_far, ReaderComesTo, PartBegins};

use crate::exprs::read_actuals;
use crate::line::read_write;
use crate::make::empty;
use crate::names::read_name_before;
use crate::simple::{assigned, called, read_act, read_before, read_element, read_go, read_process};
use crate::start::{Opener, Start, Verb, start_of};
use algol_expr::{expect_word, first_of, is_symbol, name_in, named, opened, read_whole};
use algol_tree::{Code, Expr, MOST_NESTING, Named, Refusal, Reserved, Spot, Stmt, Symbol, Token};
use std::alloc::Global;

/// What stands before one statement and makes another of it: a label, WHILE, THRU or FOR with its range.
#[derive(Drop)]
pub enum Lead {
    Label(Named),
    While(Expr),
    Thru(Expr),
    For(Named, Expr, Expr, Expr),
}

/// A statement that others are to follow in, as far as it is read.
#[derive(Drop)]
pub enum Opening {
    Led(Lead),
    Begin(Spot),
    If(Expr),
    Do,
    Case(Expr),
}

/// The beginning of a statement: all of it, where no other stands in it, or what opens it and the levels that are then open.
#[derive(Drop)]
pub enum Beginning {
    Whole(Stmt),
    Open(Opening, u32),
}

/// How the tokens begin a statement where `depth` levels are open, and what follows.
pub fn read_beginning(
    alloc: Global,
    tokens: &[Token],
    depth: u32,
) -> Result<(Beginning, &[Token]), Refusal>
    requires ended { EndsOnce tokens.now }
    ensures found { IfOk result (λ r. PartBegins (due.statement depth) tokens.now r.0 r.1.now) }
    ensures refused { IfErr result (λ e. ReaderRefuses (due.statement depth ∷ []) [] tokens.now e) }
{
    let (first, behind) = first_of(tokens);
    if let Some(name) = name_in(first) {
        let name = named(alloc, name, first.spot)?;
        return read_behind_name(alloc, name, behind, depth);
    }
    match start_of(first) {
        Start::Opens(opener) => {
            let inner = opened(first, behind, depth)?;
            let (opening, rest) = read_opening(alloc, opener, first.spot, behind)?;
            Ok((Beginning::Open(opening, inner), rest))
        }
        Start::Acts(verb) => {
            let (statement, rest) = read_simple(alloc, verb, behind)?;
            Ok((Beginning::Whole(statement), rest))
        }
        Start::Nothing => Ok((Beginning::Whole(empty()), tokens)),
    }
}

/// ":" | [ "[" expr { "," expr } "]" ] ":=" expr | [ "(" expr { "," expr } ")" ], after the name that a statement
/// begins with
fn read_behind_name(
    alloc: Global,
    name: Named,
    tokens: &[Token],
    depth: u32,
) -> Result<(Beginning, &[Token]), Refusal>
    requires ended { EndsOnce tokens.now }
    ensures found { IfOk result (λ r. PartBegins (due.behind_start name depth) tokens.now r.0 r.1.now) }
    ensures refused { IfErr result (λ e. ReaderRefuses (due.behind_start name depth ∷ []) [] tokens.now e) }
{
    let (first, behind) = first_of(tokens);
    if is_symbol(first, Symbol::Colon) {
        labelled(name, behind, depth)
    } else if is_symbol(first, Symbol::Becomes) {
        let (value, rest) = read_whole(alloc, behind, 0)?;
        Ok((Beginning::Whole(assigned(alloc, name, value)), rest))
    } else if is_symbol(first, Symbol::OpenSquare) {
        let (element, rest) = read_element(alloc, name, behind)?;
        Ok((Beginning::Whole(element), rest))
    } else {
        let (actuals, rest) = read_actuals(alloc, tokens)?;
        Ok((Beginning::Whole(called(name, actuals)), rest))
    }
}

/// What a name and a colon open: a level more, so that it is refused at the name where as many are open as may be
fn labelled(name: Named, behind: &[Token], depth: u32) -> Result<(Beginning, &[Token]), Refusal>
    ensures opens { IfOk result (λ r. (depth < MOST_NESTING) × (r.0 ≡ beginnings.Open (openings.Led (leads.Label name)) (depth + 1)) × (r.1.now ≡ behind.now)) }
    ensures deep { IfErr result (λ e. (MOST_NESTING ≤ depth) × (e ≡ refusals.At name.spot codes.TooDeep)) }
{
    if depth < MOST_NESTING {
        let opening = Opening::Led(Lead::Label(name));
        Ok((Beginning::Open(opening, depth + 1), behind))
    } else {
        Err(Refusal::At {
            spot: name.spot,
            code: Code::TooDeep,
        })
    }
}

/// What opens a statement after its first word, which stands at that place
fn read_opening(
    alloc: Global,
    opener: Opener,
    spot: Spot,
    tokens: &[Token],
) -> Result<(Opening, &[Token]), Refusal>
    requires ended { EndsOnce tokens.now }
    ensures found { IfOk result (λ r. (i : ℕ) → ReaderComesTo (behind_word opener spot i) [] tokens.now (still_due r.0 i) (so_far r.0) r.1.now) }
    ensures refused { IfErr result (λ e. (i : ℕ) → ReaderRefuses (behind_word opener spot i) [] tokens.now e) }
{
    match opener {
        Opener::Begin => Ok((Opening::Begin(spot), tokens)),
        Opener::If => {
            let (condition, rest) = read_before(alloc, tokens, Reserved::Then)?;
            Ok((Opening::If(condition), rest))
        }
        Opener::While => {
            let (lasting, rest) = read_before(alloc, tokens, Reserved::Do)?;
            Ok((Opening::Led(Lead::While(lasting)), rest))
        }
        Opener::Do => Ok((Opening::Do, tokens)),
        Opener::For => read_range(alloc, tokens),
        Opener::Thru => {
            let (count, rest) = read_before(alloc, tokens, Reserved::Do)?;
            Ok((Opening::Led(Lead::Thru(count)), rest))
        }
        Opener::Case => {
            let (choice, rest) = read_choice(alloc, tokens)?;
            Ok((Opening::Case(choice), rest))
        }
    }
}

/// expr OF BEGIN, after CASE
fn read_choice(alloc: Global, tokens: &[Token]) -> Result<(Expr, &[Token]), Refusal>
    requires ended { EndsOnce tokens.now }
    ensures found { IfOk result (λ r. Brings choice_in tokens.now (one (image.expr r.0)) r.1.now) }
    ensures refused { IfErr result (λ e. ReaderRefuses choice_in [] tokens.now e) }
{
    let (choice, rest) = read_before(alloc, tokens, Reserved::Of)?;
    let rest = expect_word(rest, Reserved::Begin)?;
    Ok((choice, rest))
}

/// name ":=" expr STEP expr UNTIL expr DO, after FOR
fn read_range(alloc: Global, tokens: &[Token]) -> Result<(Opening, &[Token]), Refusal>
    requires ended { EndsOnce tokens.now }
    ensures found { IfOk result (λ r. (i : ℕ) → ReaderComesTo (behind_for i) [] tokens.now (still_due r.0 i) (so_far r.0) r.1.now) }
    ensures refused { IfErr result (λ e. (i : ℕ) → ReaderRefuses (behind_for i) [] tokens.now e) }
{
    let (name, rest) = read_name_before(alloc, tokens, Symbol::Becomes)?;
    let (from, rest) = read_before(alloc, rest, Reserved::Step)?;
    let (step, rest) = read_before(alloc, rest, Reserved::Until)?;
    let (limit, rest) = read_before(alloc, rest, Reserved::Do)?;
    Ok((Opening::Led(Lead::For(name, from, step, limit)), rest))
}

/// A statement in which no other stands, after its word
fn read_simple(alloc: Global, verb: Verb, tokens: &[Token]) -> Result<(Stmt, &[Token]), Refusal>
    requires ended { EndsOnce tokens.now }
    ensures found { IfOk result (λ r. Brings (behind_verb verb) tokens.now (stmt (plain r.0)) r.1.now) }
    ensures refused { IfErr result (λ e. ReaderRefuses (behind_verb verb) [] tokens.now e) }
{
    match verb {
        Verb::Go => read_go(alloc, tokens),
        Verb::Process => read_process(alloc, tokens),
        Verb::Write => read_write(alloc, tokens),
        Verb::Act(act) => read_act(alloc, act, tokens),
    }
}
