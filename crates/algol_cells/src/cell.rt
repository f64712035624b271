//! What a cell of an instance holds.

use crate::value::Value;
use algol_tree::{Expr, Line, List};

/// A cell: its instance, by number from 1, and its name.
#[derive(Clone, Copy)]
pub struct Reference<'p> {
    pub instance: usize,
    pub name: &'p Line,
}

/// An event: its two states, and the processes that wait for it and that wait to procure it, in the order of
/// their coming.
#[derive(Drop)]
pub struct EventCell {
    pub happened: bool,
    pub available: bool,
    pub waiters: List<usize>,
    pub procurers: List<usize>,
}

/// The bounds of one dimension.
#[derive(Clone, Copy)]
pub struct Bounds {
    pub low: i64,
    pub high: i64,
}

/// An array: its bounds, and its elements row by row.
#[derive(Drop)]
pub struct ArrayCell {
    pub bounds: List<Bounds>,
    pub elements: List<Value>,
}

/// What a cell holds. A name is its actual, and the instance in which that stands.
#[derive(Drop)]
pub enum Cell<'p> {
    Simple(Value),
    Event(EventCell),
    Array(ArrayCell),
    Named(&'p Expr, usize),
    Reference(Reference<'p>),
}
