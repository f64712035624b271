//! Tokens to expressions.
//!
//! `read_expr` reads the longest expression that the tokens begin with. Its refusals are the first token through
//! which no expression goes, and the token that breaks a limit.
#![tactic(auto)]

mod event;
mod make;
mod operator;
mod reader;
mod step;
mod stop;
mod take;
mod whole;

pub use event::read_event;
pub use make::named;
pub use stop::Stop;
pub use take::{
    expect_spelled, expect_symbol, expect_word, first_of, is_symbol, is_word, name_in, opened,
};
pub use whole::{read_expr, read_whole};
