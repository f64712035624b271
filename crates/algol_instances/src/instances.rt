//! The instances of a world, and how many elements their arrays have that live.

ghost use Rattle.std.specs.Prelude.{◌≡◌, [], ◌∷◌, ◌++◌, map, IfOk};
ghost use Rattle.b67_list.specs.Numbered as numbering;
ghost use Rattle.algol_meaning.specs.Value as plain;
ghost use Rattle.algol_meaning.specs.World as world;
ghost use Rattle.algol_meaning.specs.Arrays as arrays;
ghost use Rattle.algol_meaning.specs.Instances as leaving;
ghost use Rattle.algol_cells.specs.SeenValue.{value};
ghost use Rattle.algol_cells.specs.SeenCell as seen;
ghost use Rattle.algol_cells.specs.SeenCell.{reference};
ghost use Rattle.algol_instances.specs.SeenArray.{capped};
ghost use Rattle.algol_instances.specs.SeenInstance.{named_cells, instance, instance_or_none, holding, zero_cell, cell_or_none};
ghost use Rattle.algol_instances.specs.Counting as counting;
ghost use Rattle.algol_instances.specs.Counting.{displaced_at};

use crate::array::with_element;
use crate::copying::copy_instances;
use crate::instance::{Instance, NamedCell, add_cells, cell_in, item_at, leave, set_cell, zero};
use crate::size::{adjusted, is_array, live_in, live_in_all, size_of_cell, size_of_cells};
use algol_cells::{Cell, Reference, Value};
use algol_tree::List;
use std::alloc::{AllocError, Global};
use std::marker::Model;

/// The instances of a world, numbered from 1, which contracts see as a list. Beside them it is kept how many elements
/// their arrays have that live, so that the making of arrays need not count them.
#[derive(Drop)]
pub struct Instances<'p> {
    list: List<Instance<'p>>,
    live_elements: usize,
}

impl<'p> Model for Instances<'p> {
    ghost use Rattle.std.specs.Prelude.{◌≡◌, List, map};
    ghost use Rattle.algol_meaning.specs.Arrays as arrays;
    ghost use Rattle.algol_instances.specs.SeenArray.{capped};
    ghost use Rattle.algol_instances.specs.SeenInstance.{instance};
    ghost use Rattle.algol_instances.specs.declared.instance.Instance.{Instance};
    ghost use Rattle.algol_tree.specs.contracts.tree.Expr as expression;
    ghost use Rattle.std.specs.Coded.{codes};

    ghost Value = { List Instance };

    ghost coded = { Prim.hlevel (codes, expression.the_row.coded) };

    ghost view = { λ i. i.list };

    ghost invariant = { λ i. i.live_elements ≡ capped (arrays.live_elements (map instance i.list)) };
}

/// Tests that an instance is left, or that there is none of that number.
fn is_left(instances: &List<Instance<'_>>, number: usize) -> bool
    ensures { result ≡ (world.instance_at (holding (map instance instances.now)) number).left }
{
    match item_at(instances, number) {
        None => true,
        Some(found) => found.left,
    }
}

/// How many elements the arrays of an instance have that live, none where there is none of that number.
fn live_at(instances: &List<Instance<'_>>, number: usize) -> usize
    ensures { result ≡ capped (counting.live_in (world.instance_at (holding (map instance instances.now)) number)) }
{
    match item_at(instances, number) {
        None => 0,
        Some(found) => live_in(found),
    }
}

/// How many elements of these cells live in an instance: none where it is left.
fn live_among(instances: &List<Instance<'_>>, number: usize, cells: &[NamedCell<'_>]) -> usize
    ensures { result ≡ capped (arrays.size_unless ((world.instance_at (holding (map instance instances.now)) number).left) (arrays.size_of_cells (named_cells cells.now))) }
{
    if is_left(instances, number) {
        0
    } else {
        size_of_cells(cells)
    }
}

impl<'p> Instances<'p> {
    /// No instances.
    pub fn new(alloc: Global) -> Instances<'p>
        ensures { result ≡ [] }
    {
        Instances {
            list: List::of(Vec::new(alloc)),
            live_elements: 0,
        }
    }

    /// Copies of the instances.
    pub fn copy(&self, alloc: Global) -> Result<Instances<'p>, AllocError>
        ensures { IfOk result (λ copy. copy ≡ self.now) }
    {
        Ok(Instances {
            list: copy_instances(alloc, self.list.items())?,
            live_elements: self.live_elements,
        })
    }

    /// The instances, in their order.
    pub fn items(&self) -> &Vec<Instance<'p>>
        ensures { result.now.items ≡ self.now }
    {
        self.list.items()
    }

    /// How many elements the arrays have that live.
    pub fn live_elements(&self) -> usize
        ensures { result ≡ capped (arrays.live_elements (map instance self.now)) }
    {
        self.live_elements
    }

    /// One more instance.
    pub fn add(&mut self, added: Instance<'p>) -> Result<(), AllocError>
        ensures { IfOk result (λ _. self.new ≡ self.old ++ added.entry ∷ []) }
    {
        let more = live_in(&added);
        self.list.items_mut().push(added)?;
        self.live_elements = self.live_elements.saturating_add(more);
        Ok(())
    }

    /// Another content of a cell, for what that held; for the content itself where there is no such cell.
    pub fn set_cell(&mut self, r: Reference<'p>, cell: Cell<'p>) -> Cell<'p>
        ensures displaced { seen.cell result ≡ displaced_at (holding (map instance self.old)) (reference r.entry) (seen.cell cell.entry) }
        ensures after { map instance self.new ≡ (world.set_cell (holding (map instance self.old)) (reference r.entry) (seen.cell cell.entry)).instances }
    {
        if is_left(&self.list, r.instance) {
            return set_cell(&mut self.list, r, cell);
        }
        let come = size_of_cell(&cell);
        let displaced = set_cell(&mut self.list, r, cell);
        let gone = size_of_cell(&displaced);
        self.live_elements = adjusted(self.live_elements, gone, come, &self.list);
        displaced
    }

    /// What a cell holds, a number 0 where there is no such cell; a number 0 stays in its place.
    pub fn take_cell(&mut self, r: Reference<'p>) -> Cell<'p>
        ensures value { seen.cell result ≡ world.cell_at (holding (map instance self.old)) (reference r.entry) }
        ensures after { map instance self.new ≡ (world.set_cell (holding (map instance self.old)) (reference r.entry) zero_cell).instances }
    {
        self.set_cell(r, zero())
    }

    /// Another value of an element of a cell; an array without bounds where the cell is none. Only then elements are counted.
    pub fn set_element(&mut self, alloc: Global, r: Reference<'p>, subscripts: &[usize], v: Value)
        ensures { map instance self.new ≡ (world.set_cell (holding (map instance self.old)) (reference r.entry) (plain.array (arrays.with_element (world.array_in (world.cell_at (holding (map instance self.old)) (reference r.entry))) subscripts.now (value v)))).instances }
    {
        let cell = set_cell(&mut self.list, r, zero());
        let is_array = is_array(&cell);
        set_cell(&mut self.list, r, with_element(alloc, cell, subscripts, v));
        if !is_array {
            self.live_elements = live_in_all(self.list.items());
        }
    }

    /// More cells in an instance, after those that it has.
    pub fn add_cells(&mut self, number: usize, cells: Vec<NamedCell<'p>>) -> Result<(), AllocError>
        ensures { IfOk result (λ _. map instance self.new ≡ (world.add_cells (holding (map instance self.old)) number (named_cells cells.entry.items)).instances) }
    {
        let more = live_among(&self.list, number, cells.as_slice());
        add_cells(&mut self.list, number, cells)?;
        self.live_elements = self.live_elements.saturating_add(more);
        Ok(())
    }

    /// An instance is left.
    pub fn leave(&mut self, number: usize)
        ensures { map instance self.new ≡ (leaving.leave (holding (map instance self.old)) (number ∷ [])).instances }
    {
        let gone = live_at(&self.list, number);
        leave(&mut self.list, number);
        self.live_elements = adjusted(self.live_elements, gone, 0, &self.list);
    }
}

/// The instance of that number, from 1.
pub fn instance_at<'a, 'p>(instances: &'a Instances<'p>, number: usize) -> Option<&'a Instance<'p>>
    ensures { instance_or_none result ≡ world.or_no_instance (numbering.numbered (map instance instances.now) number) }
{
    item_at(&instances.list, number)
}

/// The instance around an instance by the text, 0 where there is none.
fn parent(instances: &Instances<'_>, number: usize) -> usize
    ensures { result ≡ (world.instance_at (holding (map instance instances.now)) number).parent }
{
    match instance_at(instances, number) {
        None => 0,
        Some(instance) => instance.parent,
    }
}

/// The number of the instance that is so many static parents up.
pub fn ancestor(instances: &Instances<'_>, up: usize, number: usize) -> usize
    ensures { result ≡ world.ancestor (holding (map instance instances.now)) up number }
{
    let mut at = number;
    let mut left = up;
    'climbing: while left > 0 {
        at = parent(instances, at);
        left -= 1;
    }
    at
}

/// The cell that is referred to, none where there is none.
pub fn cell_at<'a, 'p>(instances: &'a Instances<'p>, r: Reference<'p>) -> Option<&'a Cell<'p>>
    ensures { cell_or_none result ≡ world.cell_at (holding (map instance instances.now)) (reference r.entry) }
{
    match instance_at(instances, r.instance) {
        None => None,
        Some(instance) => cell_in(&instance.cells, r.name),
    }
}
