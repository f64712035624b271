//! Places of a text in a list, and the number of the first that is equal to one, found without a search through the list.
#![tactic(auto)]

ghost use Rattle.std.specs.Prelude.{◌≡◌, IfOk, drop};
ghost use Rattle.algol_places.specs.Numbers.{place_number_of};
ghost use Rattle.algol_places.specs.Numbered.{PlaceNumbers};

use algol_tree::Spot;
use std::alloc::{AllocError, Global};
use std::collections::BTreeMap;
use std::marker::Model;

/// Places of a text, in a list. Contracts see the list.
#[derive(Drop)]
pub struct Places {
    spots: Vec<Spot>,
    numbers: BTreeMap<Spot, usize>,
}

impl Model for Places {
    ghost use Rattle.std.specs.Prelude.{List};
    ghost use Rattle.algol_tree.specs.declared.token.Spot.{Spot};
    ghost use Rattle.algol_places.specs.Numbered.{PlaceNumbers};

    ghost Value = { List Spot };

    ghost view = { λ p. p.spots.items };

    ghost invariant = { λ p. PlaceNumbers p.numbers 0 p.spots.items };
}

/// The number of the first at each place.
fn numbers_of(alloc: Global, spots: &[Spot]) -> Result<BTreeMap<Spot, usize>, AllocError>
    ensures { IfOk result (λ numbers. PlaceNumbers numbers 0 spots.now) }
{
    let mut numbers = BTreeMap::new(alloc);
    for number in (0..spots.len()).rev() {
        numbers.insert(spots[number], number)?;
    }
    Ok(numbers)
}

impl Places {
    /// The places of this list. `AllocError` where the memory does not suffice.
    pub fn of(alloc: Global, spots: Vec<Spot>) -> Result<Places, AllocError>
        ensures { IfOk result (λ places. places ≡ spots.items) }
    {
        let numbers = numbers_of(alloc, spots.as_slice())?;
        Ok(Places { spots, numbers })
    }

    /// The number of the first that is equal to this place, from 0; none where there is none.
    pub fn number_of(&self, spot: Spot) -> Option<usize>
        ensures { result ≡ place_number_of self.now spot }
    {
        self.numbers.get(&spot).copied()
    }
}
