//! What the rules of a tree are told with: where an expression stands, which fault is the first, how many tokens the text of a
//! segment has, and what lies in the boxes and the lists of a tree.
#![tactic(auto)]

mod count;
mod fault;
mod parts;
mod place;

pub use count::{names_of, procedure_tokens, program_tokens};
pub use fault::Faults;
pub use parts::{boxed_expr, boxed_stmt, decls_in, exprs_in, is_compound, stmts_in};
pub use place::first_spot;
