//! The values of variables and expressions.

use algol_tree::Whole;

/// A value: a whole number or a truth value.
#[derive(Clone, Copy)]
pub enum Value {
    Number(Whole),
    Truth(bool),
}
