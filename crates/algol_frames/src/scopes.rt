//! What the scopes of a tree say of a place in the text.

ghost use Rattle.std.specs.Prelude.{◌≡◌, option_copied};
ghost use Rattle.algol_frames.specs.Answers.{declaration_of, actual_of, result_couple_of, level_in, block_number_of, parameters_of};

use crate::by_line::ByLine;
use algol_sorts::Sort;
use algol_tree::{List, Spot};
use std::collections::BTreeMap;

/// Where a cell lies: the level of its block, and its index in the frame, from 2 on.
#[derive(Clone, Copy)]
pub struct Couple {
    pub level: u8,
    pub index: u16,
}

/// A declaration: where it stands, of a procedure the heading with its body; the number and the level of its block; what it declares; and
/// the couple of its cell, none for a label and a file.
#[derive(Clone, Copy)]
pub struct Declared {
    pub spot: Spot,
    pub block: usize,
    pub level: u8,
    pub sort: Sort,
    pub couple: Option<Couple>,
}

/// The declaration of each name, by the place of the name, and where the cells lie; the parameters of procedures, and the numbers of
/// blocks.
#[derive(Drop)]
pub struct Scopes {
    pub(crate) declared: ByLine,
    pub(crate) actuals: BTreeMap<Spot, Couple>,
    pub(crate) results: BTreeMap<Spot, Couple>,
    pub(crate) levels: Vec<u8>,
    pub(crate) parameters: BTreeMap<Spot, List<Sort>>,
    pub(crate) numbers: BTreeMap<Spot, usize>,
}

impl Scopes {
    /// What the name that is used or declared there means: its declaration.
    pub fn declaration(&self, spot: Spot) -> Option<&Declared>
        ensures { option_copied result ≡ declaration_of self.now spot }
    {
        self.declared.get(spot)
    }

    /// The couple of the actual that has a cell and whose first token stands there.
    pub fn actual(&self, spot: Spot) -> Option<Couple>
        ensures { result ≡ actual_of self.now spot }
    {
        self.actuals.get(&spot).copied()
    }

    /// The couple of the result of the typed procedure whose heading with the body has its name there.
    pub fn result(&self, spot: Spot) -> Option<Couple>
        ensures { result ≡ result_couple_of self.now spot }
    {
        self.results.get(&spot).copied()
    }

    /// The level of the block with that number. Blocks are numbered from 0 in the order of the text.
    pub fn level_of(&self, block: u32) -> Option<u8>
        ensures { result ≡ level_in self.now block }
    {
        self.levels.get(block as usize).copied()
    }

    /// What the parameters of the procedure are declared as whose declaration stands there, in their order.
    pub fn parameters(&self, spot: Spot) -> Option<&List<Sort>>
        ensures { option_copied result ≡ parameters_of self.now spot }
    {
        self.parameters.get(&spot)
    }

    /// The number of the block that begins there, a procedure's at its name.
    pub fn number(&self, spot: Spot) -> Option<usize>
        ensures { result ≡ block_number_of self.now spot }
    {
        self.numbers.get(&spot).copied()
    }
}
