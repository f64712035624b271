//! One action of a process: its next operator, whatever its class.
//!
//! [`action`] performs what the operator table says on a store, a kernel and a machine's other parts, for any code.
#![tactic(auto)]

mod acting;
mod arrays;
mod cells;
mod done;
mod elements;
mod entering;
mod laws;
mod letters;
mod next;
mod onward;
mod own;
mod reaching;
mod room;
mod rows;
mod running;
mod words;

pub use done::Done;
pub use laws::actions_make_able;
pub use next::action;
pub use onward::go_on;
pub use own::{put_words, take_words};
pub use reaching::run_own;
pub use running::{Ran, run_on_room};
