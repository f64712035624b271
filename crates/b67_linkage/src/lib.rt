//! The linkage of frames: marks, entries, and leaving frames, on the stacks and rows of a store and the registers of a
//! process.
//!
//! Marks and control words are the B6700's (Organick 1973); what each call does and when it refuses is the operator
//! table's, by this project's profile. The pointer of the registers is the place after the operator when a call is made.
//! A call tests before it writes, so that an error changes nothing. Events, critical places and states of processes are
//! the caller's.
#![tactic(auto)]

mod arrays;
mod cuts;
mod entries;
mod exits;
mod laws;
mod showing;
mod words;

pub use arrays::close_arrays;
pub use cuts::cut_to;
pub use entries::{control_word, enter, entering, go_in, mark, marked};
pub use exits::{entered_below, exit, leave_base, leave_frame, leaving, left_to, return_value};
pub use laws::{live_processes_are_linked, rows_close_as_the_table_has_it};
pub use showing::{below_shown, enters_shown, go_in_shown, leave_shown};
pub use words::{cut_words, push_word};

/// Why a call of the linkage was refused.
#[derive(Clone, Copy)]
pub enum LinkFault {
    /// A word or a register is not what the operator needs.
    InvalidOperand,
    /// A word that is popped does not lie in the private part.
    StackUnderflow,
    /// The stack would have more than 65,536 words.
    StackLimit,
    /// A chain of marks or of static links does not lead where it has to.
    BrokenChain,
}
