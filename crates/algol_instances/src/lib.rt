//! The instances of a run, in code: their cells, the elements of arrays, and how many of these live.
#![tactic(auto)]

mod array;
mod copying;
mod instance;
mod instances;
mod lists;
mod size;

pub use array::{element_at, subscript_place};
pub use instance::{Instance, NamedCell, place};
pub use instances::{Instances, ancestor, cell_at, instance_at};
pub use lists::{item, no_items, one_item, take_first};
pub use size::{elements_of, some_empty};
