//! Lists and lines, items that are numbered, and how numbers stand in a line; and how a value is let go.
//!
//! Contracts see a `List` as the list of its items and a `Line` as its bytes.
#![tactic(auto)]

mod dropping;
mod line;
mod list;
mod number;

pub use dropping::discard;
pub use line::Line;
pub use list::List;
pub use number::{push_copies, push_justified, push_number};
