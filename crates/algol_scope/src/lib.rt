//! The scopes of a tree: which declaration each name means, where its cell lies, and the rules of names and limits.
//!
//! A name is known from its declaration to the end of its block, as in the ALGOL 60 report. The walk over the tree lists what it
//! finds in the order of the text; then the limits are looked at, and the frames are laid out. Names are found through ordered
//! maps, so that the whole takes time linear in the text but for a logarithm.
#![tactic(auto)]

mod declaration;
mod expression;
mod findings;
mod heading;
mod resolver;
mod walk;
mod whole;

pub use algol_frames::{Couple, Declared, Scopes};
pub use whole::resolve;
