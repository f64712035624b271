//! What is checked at one place of a tree: an expression, a heading, a label, or a statement without the statements in it.
//!
//! What a name is declared as is found by its place: the scopes of the tree tell it.
#![tactic(auto)]

mod expression;
mod heading;
mod label;
mod line;
mod place;
mod same;
mod statement;
mod told;
mod types;
mod wanted;

pub use heading::{check_forward, check_heading};
pub use label::{Standing, check_labels, standing_at};
pub use place::Place;
pub use statement::{assign, bounds, call, counting, event, go_to, process, typed, write};
pub use wanted::{Wanted, want_name};
