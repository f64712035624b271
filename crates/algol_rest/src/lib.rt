//! What is still to be done of a process, in code: a [`Rest`] is what a part of a process has still to do. It begins with
//! a block, a label or a name, says what its head asks for, and goes on with the answer up to the next head by the
//! silent steps of the meaning.
#![tactic(auto)]

mod ask;
mod copying;
mod going;
mod held;
mod rest;
mod resuming;
mod silent;
mod standing;
mod statement;

pub use ask::Ask;
pub use rest::Rest;
