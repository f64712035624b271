//! Which names can be assigned to.

ghost use Rattle.std.specs.Prelude.{◌≡◌, [], ◌∷◌, ◌++◌, List, OnOk};
ghost use Rattle.algol_tree.specs.Blocks.{Block, number_at};
ghost use Rattle.algol_tree.specs.Surroundings.{Surroundings};
ghost use Rattle.algol_sites.specs.Assigning.{is_within, takes};
ghost use Rattle.algol_sites.specs.Placing.{BlockIsFound, SiteIsPlaced, outer_of};

use algol_sorts::Sort;
use algol_tree::Spot;
use std::alloc::{AllocError, Global};

/// The block of a place, by the places where blocks begin, a procedure's at its name.
#[derive(Drop)]
pub struct Place {
    pub block: Spot,
    /// The blocks around that, the innermost last.
    pub around: Vec<Spot>,
}

impl Place {
    /// The outer block of a program whose BEGIN stands there.
    pub fn outermost(alloc: Global, begin: Spot) -> Place
        ensures block { result.block ≡ begin }
        ensures around { result.around.items ≡ [] }
        ensures placed { (blocks : List Block) (b : Block) (a : Surroundings) → BlockIsFound blocks b → b.spot ≡ begin → b.outer ≡ [] → a.block ≡ number_at blocks begin → SiteIsPlaced blocks result a }
    {
        Place {
            block: begin,
            around: Vec::new(alloc),
        }
    }

    /// A block begins there.
    pub fn open(&mut self, spot: Spot) -> Result<(), AllocError>
        ensures block { OnOk result (self.new.block ≡ spot) }
        ensures around { OnOk result (self.new.around.items ≡ self.old.around.items ++ self.old.block ∷ []) }
        ensures placed { OnOk result ((blocks : List Block) (b : Block) (a c : Surroundings) → SiteIsPlaced blocks self.old a → BlockIsFound blocks b → b.spot ≡ spot → b.outer ≡ outer_of self.old → c.block ≡ number_at blocks spot → SiteIsPlaced blocks self.new c) }
    {
        self.around.push(self.block)?;
        self.block = spot;
        Ok(())
    }

    /// The innermost block ends.
    pub fn close(&mut self)
        ensures { (block : Spot) (around : List Spot) → self.old.around.items ≡ around ++ block ∷ [] → (self.new.block ≡ block) × (self.new.around.items ≡ around) }
    {
        if let Some(outer) = self.around.pop() {
            self.block = outer;
        }
    }

    /// Whether the place is inside the procedure whose heading has its name there.
    fn is_inside(&self, procedure: Spot) -> bool
        ensures { result ≡ is_within self.now.block self.now.around.items procedure }
    {
        self.block == procedure || self.around.as_slice().contains(&procedure)
    }

    /// Whether a name without subscripts that is declared so, there, can be assigned to: a simple variable, a simple parameter, or
    /// the typed procedure around the place. Nothing is said against a name of which nothing is known.
    pub fn is_assignable(&self, sort: Sort, declared: Spot) -> bool
        ensures { result ≡ takes self.now.block self.now.around.items sort declared }
    {
        match sort {
            Sort::Variable(_) => true,
            Sort::ByName(_) => true,
            Sort::Procedure(Some(_)) => self.is_inside(declared),
            Sort::Unspecified => true,
            _ => false,
        }
    }
}
