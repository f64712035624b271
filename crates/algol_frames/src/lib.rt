//! The frames of blocks: where the cells lie that were found in a tree, the limits on blocks and cells, and the scopes, which tell of a place
//! in the text what the name that stands there means.
#![tactic(auto)]

mod broken;
mod by_line;
mod found;
mod layout;
mod limits;
mod scopes;

pub use broken::note_if;
pub use found::{Block, Cell, Content, Use};
pub use layout::scopes_laid;
pub use limits::{Cells, by_block, note_cells, note_levels, note_procedures};
pub use scopes::{Couple, Declared, Scopes};
