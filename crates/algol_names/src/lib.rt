//! What the names of a tree mean while it runs: its blocks, and the uses of names.
//!
//! The scopes of the tree tell the declaration of each name; how many static parents up that is comes from how many blocks are around the
//! name. All is found through ordered maps, so that the whole takes time linear in the text but for a logarithm.
#![tactic(auto)]

mod blocks;
mod bounds;
mod expressions;
mod found;
mod scopes;
mod simple;
mod statements;
mod uses;

pub use scopes::scopes_of;
