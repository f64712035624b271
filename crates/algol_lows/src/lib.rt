//! The lower bounds of the arrays of a program and of the parameters that stand for arrays, by the places of their declarations.
#![tactic(auto)]

mod bounds;

pub use bounds::{Lows, LowsByPlace, lows_of_program};
