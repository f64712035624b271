//! What an expression begins with, and the steps from there up.

ghost use Rattle.std.specs.Prelude.{◌≡◌, ◌≤◌};
ghost use Rattle.algol_expr.specs.Steps as specs;

use crate::take::{is_symbol, is_word};
use algol_tree::{Level, Reserved, Symbol, Token};

/// What the first token of an expression begins.
#[derive(Clone, Copy)]
pub(crate) enum Start {
    Not,
    Sign,
    Primary,
}

/// A step up from a primary: the operators of a level, or a relation, whose operands are sums.
#[derive(Clone, Copy)]
pub(crate) enum Step {
    Operators(Level),
    Relation,
}

/// What a sum begins with.
fn sum_start(token: &Token) -> Start
    ensures { result ≡ specs.sum_start token.now.kind }
{
    if is_symbol(token, Symbol::Plus) || is_symbol(token, Symbol::Minus) {
        Start::Sign
    } else {
        Start::Primary
    }
}

/// What an expression up to that step begins with.
pub(crate) fn start_of(last: Step, token: &Token) -> Start
    ensures { result ≡ specs.start_of last token.now.kind }
{
    match last {
        Step::Operators(Level::Term) => Start::Primary,
        Step::Operators(Level::Sum) => sum_start(token),
        _ => {
            if is_word(token, Reserved::Not) {
                Start::Not
            } else {
                sum_start(token)
            }
        }
    }
}

/// The steps from the first up.
const ORDER: [Step; 7] = [
    Step::Operators(Level::Term),
    Step::Operators(Level::Sum),
    Step::Relation,
    Step::Operators(Level::And),
    Step::Operators(Level::Or),
    Step::Operators(Level::Imp),
    Step::Operators(Level::Eqv),
];

/// How many steps lie under what begins so.
fn first_place(start: Start) -> usize
    ensures { result ≡ specs.first_place start }
{
    match start {
        Start::Primary => 0,
        Start::Sign => 1,
        Start::Not => 3,
    }
}

/// How many steps there are up to that one.
fn end_place(last: Step) -> usize
    ensures { result ≡ specs.end_place last }
{
    match last {
        Step::Operators(Level::Term) => 1,
        Step::Operators(Level::Sum) => 2,
        Step::Relation => 3,
        Step::Operators(Level::And) => 4,
        Step::Operators(Level::Or) => 5,
        Step::Operators(Level::Imp) => 6,
        Step::Operators(Level::Eqv) => 7,
    }
}

/// The steps from what begins so up to the last one.
pub(crate) fn steps(start: Start, last: Step) -> &'static [Step]
    requires { specs.first_place start ≤ specs.end_place last }
    ensures { result.now ≡ specs.steps start last }
{
    let order: &'static [Step] = &ORDER;
    &order[first_place(start)..end_place(last)]
}
