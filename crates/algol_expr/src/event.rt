//! Events, what is asked of one, and the wait for several.

ghost use Rattle.std.specs.Prelude.{◌≡◌, [], ◌∷◌, true, IfOk, IfErr, Some};
ghost use Rattle.algol_tree.specs.Ended.{EndsOnce};
ghost use Rattle.algol_tree.specs.declared.token.Reserved.TheVariants as reserved;
ghost use Rattle.algol_tree.specs.Image.{expr as plain};
ghost use Rattle.algol_tree.specs.Tokens.{is_word};
ghost use Rattle.algol_tree.specs.Operators.{primary};
ghost use Rattle.algol_tree.specs.Expressions.{test_of};
ghost use Rattle.algol_tree.specs.Due as due;
ghost use Rattle.algol_tree.specs.Due.{part, one, event_named, event_names};
ghost use Rattle.algol_tree.specs.Found.{ReaderFinds, Completes, Fails, Lists};
ghost use Rattle.algol_expr.specs.Events.{events_in};

use crate::make::{asked, boxed, named, waited};
use crate::stop::Stop;
use crate::take::{
    expect_opening, expect_spelled, expect_symbol, first_of, is_symbol, name_in, refused,
};
use algol_tree::{Code, EventName, Expr, List, Named, Reserved, Symbol, Token, TokenKind};
use b67_deeds::EventTest;
use std::alloc::Global;

/// What a word asks of one event.
pub(crate) fn test_in(token: &Token) -> Option<EventTest>
    ensures { result ≡ test_of token.now.kind }
{
    match token.kind {
        TokenKind::Word(Reserved::Happened) => Some(EventTest::Happened),
        TokenKind::Word(Reserved::Available) => Some(EventTest::Available),
        TokenKind::Word(Reserved::Fix) => Some(EventTest::Fix),
        _ => None,
    }
}

/// ( HAPPENED | AVAILABLE | FIX ) "(" event ")", after the word
#[inline(never)]
pub(crate) fn read_asked<'a>(
    alloc: Global,
    test: EventTest,
    first: &Token,
    rest: &'a [Token],
    depth: u32,
) -> Result<(Box<Expr>, &'a [Token]), Stop>
    requires ended { EndsOnce (first.now ∷ rest.now) }
    requires word { test_of first.now.kind ≡ Some test }
    ensures found { IfOk result (λ r. ReaderFinds (part primary depth) (first.now ∷ rest.now) (one (plain r.0.value)) r.1.now) }
    ensures refused { IfErr result (λ e. Fails (part primary depth ∷ []) [] (first.now ∷ rest.now) e.left e.refusal) }
{
    let rest = expect_opening(rest, Symbol::OpenRound, depth)?;
    let (event, rest) = read_event(alloc, rest)?;
    let rest = expect_symbol(rest, Symbol::CloseRound)?;
    Ok((boxed(alloc, asked(test, event, first.spot))?, rest))
}

/// WAIT "(" event { "," event } ")", after the WAIT
#[inline(never)]
pub(crate) fn read_waited<'a>(
    alloc: Global,
    first: &Token,
    rest: &'a [Token],
    depth: u32,
) -> Result<(Box<Expr>, &'a [Token]), Stop>
    requires ended { EndsOnce (first.now ∷ rest.now) }
    requires word { is_word reserved.Wait first.now.kind ≡ true }
    ensures found { IfOk result (λ r. ReaderFinds (part primary depth) (first.now ∷ rest.now) (one (plain r.0.value)) r.1.now) }
    ensures refused { IfErr result (λ e. Fails (part primary depth ∷ []) [] (first.now ∷ rest.now) e.left e.refusal) }
{
    let rest = expect_opening(rest, Symbol::OpenRound, depth)?;
    let (events, rest) = read_events(alloc, rest)?;
    Ok((boxed(alloc, waited(events, first.spot))?, rest))
}

/// event { "," event } ")"
fn read_events(alloc: Global, tokens: &[Token]) -> Result<(List<EventName>, &[Token]), Stop>
    requires ended { EndsOnce tokens.now }
    ensures found { IfOk result (λ r. Lists events_in tokens.now (event_names []) (event_names r.0) r.1.now) }
    ensures refused { IfErr result (λ e. Fails events_in (event_names [] ∷ []) tokens.now e.left e.refusal) }
{
    let mut events = Vec::new(alloc);
    let mut rest = tokens;
    'events: loop {
        let (event, after) = read_event(alloc, rest)?;
        events.push(event)?;
        let (first, behind) = first_of(after);
        if is_symbol(first, Symbol::Comma) {
            rest = behind;
        } else {
            let rest = expect_symbol(after, Symbol::CloseRound)?;
            return Ok((List::of(events), rest));
        }
    }
}

/// event = name [ "." EXCEPTIONEVENT ]. Its refusal is `Unexpected`, at the first token that it does not go through.
pub fn read_event(alloc: Global, tokens: &[Token]) -> Result<(EventName, &[Token]), Stop>
    requires ended { EndsOnce tokens.now }
    ensures found { IfOk result (λ r. ReaderFinds due.event tokens.now (event_named r.0) r.1.now) }
    ensures refused { IfErr result (λ e. Fails (due.event ∷ []) [] tokens.now e.left e.refusal) }
{
    let (first, behind) = first_of(tokens);
    match name_in(first) {
        Some(name) => {
            let name = named(alloc, name, first.spot)?;
            read_behind_event(name, behind)
        }
        None => Err(refused(first, behind, Code::Unexpected)),
    }
}

/// [ "." EXCEPTIONEVENT ], after an event's name
fn read_behind_event(name: Named, tokens: &[Token]) -> Result<(EventName, &[Token]), Stop>
    requires ended { EndsOnce tokens.now }
    ensures found { IfOk result (λ r. Completes (due.behind_event name) tokens.now (event_named r.0) r.1.now) }
    ensures refused { IfErr result (λ e. Fails (due.behind_event name ∷ []) [] tokens.now e.left e.refusal) }
{
    let (first, behind) = first_of(tokens);
    if is_symbol(first, Symbol::Period) {
        let rest = expect_spelled(behind, b"EXCEPTIONEVENT")?;
        Ok((EventName { name, task: true }, rest))
    } else {
        Ok((EventName { name, task: false }, tokens))
    }
}
