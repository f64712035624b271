//! The code of blocks: of each the code of its cells, of what it makes and of its statements, appended to a draft.
//!
//! What is left early goes on where the caller says: the places of the branches that leave a statement are handed on until it is known
//! where they go, so no branch leads to a branch. A loop's body goes on at the branch back to its test.
//!
//! Where the statement after a label begins is noted.
#![tactic(auto)]

mod actuals;
mod arrays;
mod block;
mod case;
mod cells;
mod draft;
mod events;
mod line;
mod loops;
mod making;
mod routines;
mod simple;
mod stepping;
mod stmt;

pub use actuals::actuals_of;
pub use cells::variables_of;
pub use draft::{Draft, Known, Label, StmtEmitter};
