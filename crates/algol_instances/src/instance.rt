//! Instances of blocks, and their cells.

ghost use Rattle.std.specs.Prelude.{◌≡◌, [], ◌∷◌, ◌++◌, map, true, IfOk, OnErr};
ghost use Rattle.b67_list.specs.Numbered as numbering;
ghost use Rattle.algol_meaning.specs.World as world;
ghost use Rattle.algol_meaning.specs.World.{cells_with};
ghost use Rattle.algol_meaning.specs.Instances as leaving;
ghost use Rattle.algol_cells.specs.SeenCell as seen;
ghost use Rattle.algol_cells.specs.SeenCell.{reference};
ghost use Rattle.algol_instances.specs.SeenInstance.{named_cells, instance, instance_or_none, holding, place_of_number, cell_place_in, zero_cell, cell_or_none};
ghost use Rattle.algol_instances.specs.Counting.{displaced, displaced_at};

use algol_cells::{Cell, Reference, Value};
use algol_meaning::same_name;
use algol_tree::{Line, List, Whole};
use std::alloc::AllocError;
use std::mem;

/// A cell of an instance.
#[derive(Drop)]
pub struct NamedCell<'p> {
    pub name: &'p Line,
    pub cell: Cell<'p>,
}

/// An instance of a block: the block, the instance around it by the text, or 0 where there is none, the process
/// in whose stack it stands, and its cells.
pub struct Instance<'p> {
    pub block: usize,
    pub parent: usize,
    pub process: usize,
    pub cells: List<NamedCell<'p>>,
    pub left: bool,
}

/// An instance is let go by a call, so that the proofs of the crates above do not go through its parts.
impl<'p> Drop for Instance<'p> {
    fn drop(self) {
        let Instance {
            block: _,
            parent: _,
            process: _,
            cells: _cells,
            left: _,
        } = self;
    }
}

/// The cell of a number 0.
pub fn zero<'p>() -> Cell<'p>
    ensures { seen.cell result ≡ zero_cell }
{
    Cell::Simple(Value::Number(Whole::zero()))
}

/// The place of an item of that number in its list: numbers begin at 1.
pub fn place(number: usize) -> Option<usize>
    ensures { result ≡ place_of_number number }
{
    number.checked_sub(1)
}

/// The place of the first cell of this name.
fn place_of<'p>(cells: &List<NamedCell<'p>>, name: &Line) -> Option<usize>
    ensures { result ≡ cell_place_in cells.now name.now }
{
    let mut place = 0;
    'searching: for c in cells.items() {
        if same_name(c.name, name) {
            return Some(place);
        }
        place += 1;
    }
    None
}

impl<'p> Instance<'p> {
    /// Another content of the first cell of this name, for what that held; for the content itself where there is none.
    fn set(&mut self, name: &'p Line, cell: Cell<'p>) -> Cell<'p>
        ensures displaced { seen.cell result ≡ displaced ((instance self.old).cells) name.now (seen.cell cell.entry) }
        ensures after { instance self.new ≡ record (instance self.old) { cells = cells_with ((instance self.old).cells) name.now (seen.cell cell.entry) } }
    {
        match place_of(&self.cells, name) {
            None => cell,
            Some(at) => match self.cells.items_mut().get_mut(at) {
                None => cell,
                Some(named) => mem::replace(&mut named.cell, cell),
            },
        }
    }

    /// More cells, after those that it has.
    fn add(&mut self, mut cells: Vec<NamedCell<'p>>) -> Result<(), AllocError>
        ensures added { IfOk result (λ _. instance self.new ≡ record (instance self.old) { cells = (instance self.old).cells ++ named_cells cells.entry.items }) }
        ensures err { OnErr result (instance self.new ≡ instance self.old) }
    {
        self.cells.items_mut().append(&mut cells)
    }

    /// It is left.
    fn leave(&mut self)
        ensures { instance self.new ≡ record (instance self.old) { left = true } }
    {
        self.left = true;
    }
}

/// The instance of that number, from 1.
pub fn item_at<'a, 'p>(instances: &'a List<Instance<'p>>, number: usize) -> Option<&'a Instance<'p>>
    ensures { instance_or_none result ≡ world.or_no_instance (numbering.numbered (map instance instances.now) number) }
{
    match place(number) {
        None => None,
        Some(at) => instances.items().get(at),
    }
}

/// The cell of that name in an instance, none where there is none.
pub fn cell_in<'a, 'p>(cells: &'a List<NamedCell<'p>>, name: &Line) -> Option<&'a Cell<'p>>
    ensures { cell_or_none result ≡ world.cell_in (named_cells cells.now) name.now }
{
    'searching: for c in cells.items() {
        if same_name(c.name, name) {
            return Some(&c.cell);
        }
    }
    None
}

/// Another content of a cell, for what that held; for the content itself where there is no such cell.
pub fn set_cell<'p>(
    instances: &mut List<Instance<'p>>,
    r: Reference<'p>,
    cell: Cell<'p>,
) -> Cell<'p>
    ensures displaced { seen.cell result ≡ displaced_at (holding (map instance instances.old)) (reference r.entry) (seen.cell cell.entry) }
    ensures after { map instance instances.new ≡ (world.set_cell (holding (map instance instances.old)) (reference r.entry) (seen.cell cell.entry)).instances }
{
    match place(r.instance) {
        None => cell,
        Some(at) => match instances.items_mut().get_mut(at) {
            None => cell,
            Some(instance) => instance.set(r.name, cell),
        },
    }
}

/// More cells in an instance, after those that it has.
pub fn add_cells<'p>(
    instances: &mut List<Instance<'p>>,
    number: usize,
    cells: Vec<NamedCell<'p>>,
) -> Result<(), AllocError>
    ensures added { IfOk result (λ _. map instance instances.new ≡ (world.add_cells (holding (map instance instances.old)) number (named_cells cells.entry.items)).instances) }
    ensures err { OnErr result (map instance instances.new ≡ map instance instances.old) }
{
    match place(number) {
        None => Ok(()),
        Some(at) => match instances.items_mut().get_mut(at) {
            None => Ok(()),
            Some(instance) => instance.add(cells),
        },
    }
}

/// An instance is left.
pub fn leave<'p>(instances: &mut List<Instance<'p>>, number: usize)
    ensures { map instance instances.new ≡ (leaving.leave (holding (map instance instances.old)) (number ∷ [])).instances }
{
    if let Some(at) = place(number) {
        if let Some(instance) = instances.items_mut().get_mut(at) {
            instance.leave();
        }
    }
}
