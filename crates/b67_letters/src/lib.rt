//! What an operator does, in the words of actions: the letter of the action that it is, whom it releases, and whom it starts.
//!
//! All of it is read off the operator table, for any code: which action an operator is, is said by what its row finds. So `VALC` reads
//! where it reaches an operand and enters where it reaches a procedure, and `ENTR` is what it calls.
#![tactic(auto)]

mod laws;

pub use laws::{actions_have_letters, few_operators_release};
