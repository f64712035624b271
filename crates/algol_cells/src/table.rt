//! The blocks of a tree, the uses of its names and the lower bounds of parameters for arrays, each found by its place without a search.

ghost use Rattle.std.specs.Prelude.{◌≡◌, ℕ, ℤ, List, IfOk, map};
ghost use Rattle.algol_tree.specs.declared.token.Spot as token;
ghost use Rattle.algol_cells.specs.Placed.{places_of_blocks, places_of_uses};

use crate::scope::{Block, Use};
use algol_places::Places;
use algol_tree::Spot;
use std::alloc::{AllocError, Global};
use std::collections::BTreeMap;

/// The lower bounds of parameters that stand for arrays, by the places where these are declared.
pub type LowerBounds<'p> = BTreeMap<Spot, &'p [i64]>;

/// The blocks of a tree, numbered from 0 in the order of the text.
#[derive(Drop)]
pub struct Blocks<'p> {
    list: Vec<Block<'p>>,
    places: Places,
    ghost placed: { places ≡ places_of_blocks list.items },
}

/// Where these blocks stand.
fn block_places(alloc: Global, blocks: &[Block<'_>]) -> Result<Vec<Spot>, AllocError>
    ensures { IfOk result (λ spots. spots.items ≡ places_of_blocks blocks.now) }
{
    let mut spots = Vec::new(alloc);
    'placing: for b in blocks {
        spots.push(b.spot)?;
    }
    Ok(spots)
}

impl<'p> Blocks<'p> {
    ghost use Rattle.algol_tree.specs.Blocks as numbering;
    ghost use Rattle.algol_cells.specs.SeenScope.{block, block_or_none};

    /// The blocks of this list. `AllocError` where the memory does not suffice.
    pub fn of(alloc: Global, list: Vec<Block<'p>>) -> Result<Blocks<'p>, AllocError>
        ensures { IfOk result (λ blocks. blocks.list.items ≡ list.entry.items) }
    {
        let spots = block_places(alloc, list.as_slice())?;
        let places = Places::of(alloc, spots)?;
        Ok(Blocks { list, places })
    }

    /// The block of that number, none where there is none.
    pub fn get(&self, number: usize) -> Option<&Block<'p>>
        ensures { block_or_none result ≡ numbering.block_numbered (map block self.now.list.items) number }
    {
        self.list.get(number)
    }

    /// The number of the block that stands there, how many there are where none does.
    #[tactic(auto, using(crate::proofs::Tables::number_laws))]
    pub fn number_at(&self, spot: Spot) -> usize
        ensures { result ≡ numbering.number_at (map block self.now.list.items) spot }
    {
        match self.places.number_of(spot) {
            None => self.list.len(),
            Some(number) => number,
        }
    }
}

/// The uses of names.
#[derive(Drop)]
pub struct Uses {
    list: Vec<Use>,
    places: Places,
    ghost placed: { places ≡ places_of_uses list.items },
}

/// Where these uses stand.
fn use_places(alloc: Global, uses: &[Use]) -> Result<Vec<Spot>, AllocError>
    ensures { IfOk result (λ spots. spots.items ≡ places_of_uses uses.now) }
{
    let mut spots = Vec::new(alloc);
    'placing: for u in uses {
        spots.push(u.spot)?;
    }
    Ok(spots)
}

impl Uses {
    ghost use Rattle.algol_tree.specs.Scopes.{declared_in};
    ghost use Rattle.algol_cells.specs.SeenScope.{used, used_or_none};

    /// The uses of this list. `AllocError` where the memory does not suffice.
    pub fn of(alloc: Global, list: Vec<Use>) -> Result<Uses, AllocError>
        ensures { IfOk result (λ uses. uses.list.items ≡ list.items) }
    {
        let spots = use_places(alloc, list.as_slice())?;
        let places = Places::of(alloc, spots)?;
        Ok(Uses { list, places })
    }

    /// The first use that stands there, none where there is none.
    #[tactic(auto, using(crate::proofs::Tables::use_laws))]
    pub fn first_at(&self, spot: Spot) -> Option<Use>
        ensures { (lows : token.Spot → List ℤ) (number : token.Spot → ℕ) → used_or_none lows number result ≡ declared_in (map (used lows number) self.now.list.items) spot }
    {
        let number = self.places.number_of(spot)?;
        match self.list.get(number) {
            None => None,
            Some(found) => Some(*found),
        }
    }
}
