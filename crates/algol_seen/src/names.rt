//! The names of cells, and what is done with them.

ghost use Rattle.std.specs.Prelude.{◌≡◌};
ghost use Rattle.algol_cells.specs.SeenCell.{reference};
ghost use Rattle.algol_seen.specs.Accesses.{whole_cell};
ghost use Rattle.algol_seen.specs.Seen.{cell_name};

use algol_cells::Reference;
use algol_tree::Line;

/// A cell: its instance, by number from 1, its name, and of an array the number of an element, row by row from 1, else 0.
#[derive(Clone, Copy)]
pub struct CellName<'p> {
    pub instance: usize,
    pub name: &'p Line,
    pub element: usize,
}

/// The cell that an action reads or stores.
#[derive(Clone, Copy)]
pub struct Access<'p> {
    pub cell: CellName<'p>,
    pub storing: bool,
}

/// What an action does with an event.
#[derive(Clone, Copy)]
pub enum Signal<'p> {
    Nothing,
    /// It sets it happened, and it stays so.
    Sets(CellName<'p>),
    /// It goes on by it, which had happened.
    GoesBy(CellName<'p>),
    /// It finds it not available and leaves it available.
    Frees(CellName<'p>),
    /// It takes it, which was available.
    Takes(CellName<'p>),
}

/// A cell that is no element.
pub fn whole<'p>(r: Reference<'p>) -> CellName<'p>
    ensures { cell_name result ≡ whole_cell (reference r.entry) }
{
    CellName {
        instance: r.instance,
        name: r.name,
        element: 0,
    }
}
