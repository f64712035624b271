//! Cases that stand in a text: what is called, and what it has to be answered by; and parts of such answers.
//!
//! A sheet begins with prose. Then each case has a head, an input and an answer, each line of which ends with LF:
//!
//! ```text
//! ==== NAME: WORDS; SETTING
//! the input
//! ---- STATUS
//! the whole answer
//! ```
//!
//! The setting and the `;` before it may be left out. After `---- STATUS end` stands how the answer ends, and a line `~~~~` in an answer
//! stands for any bytes. A case without the line `----` is met by no answer, nor is one with a status that is no number. In the input and in the answer `\` at the
//! end of a line drops the LF, `\r` is a CR, `\t` a TAB, `\1` the byte 1, and `\` before any other sign is that sign.
//! Between the lines `@@@@ FIRST LAST` and `@@@@` stand lines of the input or of the answer that are repeated for each number from the
//! first to the last; in these `\#` is the number, and `\-` the one before it.
#![tactic(auto)]

mod case;
mod sheet;
mod signs;
mod told;

pub use case::Case;
pub use sheet::cases_of;
pub use told::{lines, number, say};
