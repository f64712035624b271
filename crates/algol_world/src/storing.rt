//! What the actions that change cells do to the world: stores, and the making of arrays and events.

ghost use Rattle.std.specs.Prelude.{◌≡◌, IfOk};
ghost use Rattle.algol_meaning.specs.World as world;
ghost use Rattle.algol_meaning.specs.Rest as rest;
ghost use Rattle.algol_meaning.specs.Arrays as arrays;
ghost use Rattle.algol_meaning.specs.Value as plain;
ghost use Rattle.algol_cells.specs.SeenScope.{scoped};
ghost use Rattle.algol_cells.specs.SeenValue.{value};
ghost use Rattle.algol_cells.specs.SeenCell.{reference};
ghost use Rattle.algol_instances.specs.SeenArray.{capped};
ghost use Rattle.algol_instances.specs.SeenInstance.{named_cells};
ghost use Rattle.algol_world.specs.SeenWorld.{world_of};
ghost use Rattle.algol_world.specs.Going.{going};

use crate::world::World;
use algol_cells::{Cell, Reference, Value};
use algol_instances::NamedCell;
use algol_rest_expr::Answer;
use std::alloc::{AllocError, Global};

impl<'p> World<'p> {
    /// How many elements the arrays have that live.
    pub fn live_elements(&self) -> usize
        ensures { result ≡ capped (arrays.live_elements ((world_of self.now).instances)) }
    {
        self.instances.live_elements()
    }

    /// The storing of a value in a simple cell.
    pub fn store(
        &mut self,
        alloc: Global,
        number: usize,
        r: Reference<'p>,
        v: Value,
    ) -> Result<(), AllocError>
        ensures stored { IfOk result (λ _. world_of self.new ≡ going (scoped self.old.scopes) (world.set_cell (world_of self.old) (reference r.entry) (plain.simple (value v))) number rest.done) }
        ensures same { self.new.scopes ≡ self.old.scopes }
    {
        self.set_cell(r, Cell::Simple(v));
        self.goes(alloc, number, Answer::Done)
    }

    /// Another value of an element.
    fn set_element(&mut self, alloc: Global, r: Reference<'p>, subscripts: &[usize], v: Value)
        ensures after { world_of self.new ≡ world.set_cell (world_of self.old) (reference r.entry) (plain.array (arrays.with_element (world.array_in (world.cell_at (world_of self.old) (reference r.entry))) subscripts.now (value v))) }
        ensures same { self.new.scopes ≡ self.old.scopes }
    {
        self.instances.set_element(alloc, r, subscripts, v);
    }

    /// The storing of a value in an element.
    pub fn store_element(
        &mut self,
        alloc: Global,
        number: usize,
        r: Reference<'p>,
        subscripts: &[usize],
        v: Value,
    ) -> Result<(), AllocError>
        ensures stored { IfOk result (λ _. world_of self.new ≡ going (scoped self.old.scopes) (world.set_cell (world_of self.old) (reference r.entry) (plain.array (arrays.with_element (world.array_in (world.cell_at (world_of self.old) (reference r.entry))) subscripts.now (value v)))) number rest.done) }
        ensures same { self.new.scopes ≡ self.old.scopes }
    {
        self.set_element(alloc, r, subscripts, v);
        self.goes(alloc, number, Answer::Done)
    }

    /// More cells in the instance in which a part goes on.
    fn add_cells(&mut self, instance: usize, cells: Vec<NamedCell<'p>>) -> Result<(), AllocError>
        ensures added { IfOk result (λ _. world_of self.new ≡ world.add_cells (world_of self.old) instance (named_cells cells.entry.items)) }
        ensures same { self.new.scopes ≡ self.old.scopes }
    {
        self.instances.add_cells(instance, cells)
    }

    /// The making of cells in the instance in which a part goes on.
    pub fn make(
        &mut self,
        alloc: Global,
        number: usize,
        instance: usize,
        cells: Vec<NamedCell<'p>>,
    ) -> Result<(), AllocError>
        ensures made { IfOk result (λ _. world_of self.new ≡ going (scoped self.old.scopes) (world.add_cells (world_of self.old) instance (named_cells cells.entry.items)) number rest.done) }
        ensures same { self.new.scopes ≡ self.old.scopes }
    {
        self.add_cells(instance, cells)?;
        self.goes(alloc, number, Answer::Done)
    }
}
