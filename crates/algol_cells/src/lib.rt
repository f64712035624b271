//! The values of a run, in code: the cells that hold them, and the scopes that say of which cell a name is. Also what the
//! operators give, stacks, and copies of lists and of cells.
#![tactic(auto)]

mod cell;
mod copying;
mod operator;
mod scope;
mod stack;
mod table;
mod value;

pub use cell::{ArrayCell, Bounds, Cell, EventCell, Reference};
pub use copying::{copied, copy_cell, copy_list};
pub use operator::{inverted, negated, result_of, truth_of, whole_of};
pub use scope::{Block, BlockStatements, Owner, Parameter, Scopes, Use};
pub use stack::{Stack, append};
pub use table::{Blocks, LowerBounds, Uses};
pub use value::Value;
