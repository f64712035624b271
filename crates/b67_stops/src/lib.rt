//! A walk over a schedule that stops where commands are given, and answers them there. It never goes back, whatever the commands are.
#![tactic(auto)]

mod going;
mod stopping;
mod walker;

pub use going::answers_of;
pub use walker::Walker;
