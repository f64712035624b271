//! What a token begins.

ghost use Rattle.std.specs.Prelude.{◌≡◌};
ghost use Rattle.algol_tree.specs.declared.token.TokenKind.TheVariants as kinds;
ghost use Rattle.algol_part.specs.Starts.{start_of, starts_some, token_is_name, begins_body};

use algol_expr::is_symbol;
use algol_tree::{EventAct, Reserved, Symbol, Token, TokenKind};

/// The first word of a statement in which others stand.
#[derive(Clone, Copy)]
pub(crate) enum Opener {
    Begin,
    If,
    While,
    Do,
    For,
    Thru,
    Case,
}

/// The first word of a statement in which no other stands.
#[derive(Clone, Copy)]
pub(crate) enum Verb {
    Go,
    Process,
    Write,
    Act(EventAct),
}

/// The statement that a word begins, or nothing.
#[derive(Clone, Copy)]
pub(crate) enum Start {
    Opens(Opener),
    Acts(Verb),
    Nothing,
}

/// The statement that the token begins as a word.
pub(crate) fn start_of(token: &Token) -> Start
    ensures { result ≡ start_of token.now.kind }
{
    match token.kind {
        TokenKind::Word(word) => start_of_word(word),
        _ => Start::Nothing,
    }
}

fn start_of_word(word: Reserved) -> Start
    ensures { result ≡ start_of (kinds.Word word) }
{
    match word {
        Reserved::Begin => Start::Opens(Opener::Begin),
        Reserved::If => Start::Opens(Opener::If),
        Reserved::While => Start::Opens(Opener::While),
        Reserved::Do => Start::Opens(Opener::Do),
        Reserved::For => Start::Opens(Opener::For),
        Reserved::Thru => Start::Opens(Opener::Thru),
        Reserved::Case => Start::Opens(Opener::Case),
        Reserved::Go => Start::Acts(Verb::Go),
        Reserved::Process => Start::Acts(Verb::Process),
        Reserved::Write => Start::Acts(Verb::Write),
        Reserved::Cause => Start::Acts(Verb::Act(EventAct::Cause)),
        Reserved::CauseAndReset => Start::Acts(Verb::Act(EventAct::CauseAndReset)),
        Reserved::Reset => Start::Acts(Verb::Act(EventAct::Reset)),
        Reserved::Wait => Start::Acts(Verb::Act(EventAct::Wait)),
        Reserved::Procure => Start::Acts(Verb::Act(EventAct::Procure)),
        Reserved::Liberate => Start::Acts(Verb::Act(EventAct::Liberate)),
        _ => Start::Nothing,
    }
}

/// The body of a procedure may begin with the token: it begins a statement, or it is the semicolon after an empty one.
pub fn begins_body(token: &Token) -> bool
    ensures { result ≡ begins_body token.now.kind }
{
    is_symbol(token, Symbol::Semicolon) || is_name(token) || begins_statement(token)
}

/// A statement begins with the token as a word.
fn begins_statement(token: &Token) -> bool
    ensures { result ≡ starts_some (start_of token.now.kind) }
{
    match start_of(token) {
        Start::Opens(_) => true,
        Start::Acts(_) => true,
        Start::Nothing => false,
    }
}

fn is_name(token: &Token) -> bool
    ensures { result ≡ token_is_name token.now.kind }
{
    match token.kind {
        TokenKind::Name(_) => true,
        _ => false,
    }
}
