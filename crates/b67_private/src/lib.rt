//! The private operators: what each does to the private part of its process, and stretches of them.
//!
//! A private operator only goes forward, and reads and writes the registers and the words at the floor and above of its own
//! process. So a processor can perform a stretch of them on a copy of the private part only.
#![tactic(auto)]

mod flat;
mod laws;
mod operators;
mod prepared;
mod rows;
mod stretch;
mod taking;

use b67_num::{FaultKind, NumFault};
use b67_table::InterruptKind;
pub use flat::{FlatRow, frequent_words, perform_flat};
pub use laws::{operators_are_own, parts_of_valid_images, stretches_are_own};
pub use operators::{Row, WordsRow, operate, perform, row_of};
pub use prepared::Prepared;
pub use stretch::{burst, burst_in_place, flat_at, next_operator, perform_fetched, row_at};

/// Why an operator has no effect.
#[derive(Clone, Copy)]
pub enum Stop {
    Fault(FaultKind),
    Interrupt(InterruptKind),
    /// The stack would have more words than a stack can have.
    StackLimit,
}

impl From<NumFault> for Stop {
    ghost use Rattle.std.specs.Prelude.{◌≡◌};
    ghost use Rattle.b67_num.specs.Whole.{fault_of};
    ghost use Rattle.b67_private.specs.declared.Stop.TheVariants.{Fault};

    ghost from_gives = { λ fault stop. stop ≡ Fault (fault_of fault) };

    fn from(fault: NumFault) -> Stop {
        Stop::Fault(FaultKind::from(fault))
    }
}
