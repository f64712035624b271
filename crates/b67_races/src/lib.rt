//! The races of a source under a schedule: what each entry did is told by the meaning, and noted.
#![tactic(auto)]

mod telling;
mod texts;
mod walking;

pub use telling::{CellName, Race, races};
pub use texts::races_lines;
pub use walking::go_all;
