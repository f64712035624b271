//! What is found in a tree: blocks, cells and names.

use algol_sorts::Sort;
use algol_tree::{List, Spot};

/// A block: where it stands, its level, or the greatest number of a byte where that is beyond it, and whether it is a
/// procedure's.
#[derive(Clone, Copy)]
pub struct Block {
    pub spot: Spot,
    pub level: u8,
    pub is_procedure: bool,
}

/// What a cell holds.
#[derive(Clone, Copy, PartialEq, Eq)]
pub enum Content {
    Parameter,
    Result,
    Variable,
    Procedure,
    Actual,
    /// An array, an event or a task.
    Made,
}

/// A cell: the number of its block, where it stands in the text, and what it holds.
#[derive(Clone, Copy)]
pub struct Cell {
    pub block: usize,
    pub spot: Spot,
    pub content: Content,
}

/// A name that stands in the text, and its declaration: where that stands, the number and the level of its block, and what it declares;
/// and with the name of the heading that declares a procedure, what its parameters are declared as.
#[derive(Drop)]
pub struct Use {
    pub spot: Spot,
    pub declared: Spot,
    pub block: usize,
    pub level: u8,
    pub sort: Sort,
    pub parameters: Option<List<Sort>>,
}
