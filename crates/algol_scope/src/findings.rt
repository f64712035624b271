//! What is found on the walk over a tree.

ghost use Rattle.std.specs.Prelude.{◌≡◌, None, []};

use algol_frames::{Cell, Use};
use algol_rules::Faults;
use std::alloc::Global;

/// What is found so far: the first fault, and the cells and the names in the order of the text.
#[derive(Drop)]
pub struct Findings {
    pub faults: Faults,
    pub cells: Vec<Cell>,
    pub uses: Vec<Use>,
}

impl Findings {
    /// Nothing.
    pub fn new(alloc: Global) -> Findings
        ensures faults { result.faults.first ≡ None }
        ensures cells { result.cells.items ≡ [] }
        ensures uses { result.uses.items ≡ [] }
    {
        Findings {
            faults: Faults::none(),
            cells: Vec::new(alloc),
            uses: Vec::new(alloc),
        }
    }
}
