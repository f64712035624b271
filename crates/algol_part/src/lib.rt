//! The parts of statements and declarations from tokens: names, headings, lists of expressions, lines, declarations and
//! statements in which no statement stands, and how a statement begins.
#![tactic(auto)]

mod declaration;
mod exprs;
mod heading;
mod line;
mod make;
mod names;
mod opening;
mod simple;
mod start;
mod take;

pub use declaration::{lists_names, read_arrays, read_listed, read_simples};
pub use heading::read_heading;
pub use opening::{Beginning, Lead, Opening, read_beginning};
pub use simple::read_until;
pub use start::begins_body;
pub use take::{type_of, unexpected};
