//! What the event actions do to an event, and whom they release.

ghost use Rattle.std.specs.Prelude.{◌≡◌, ℕ, map, Some, IfOk};
ghost use Rattle.b67_deeds.specs.declared.EventAct.TheVariants as act;
ghost use Rattle.b67_deeds.specs.Deeds.{acts};
ghost use Rattle.b67_deeds.specs.Events.{joined, queued, taken};
ghost use Rattle.algol_meaning.specs.World as world;
ghost use Rattle.algol_meaning.specs.Events as events;
ghost use Rattle.algol_cells.specs.SeenCell as seen;
ghost use Rattle.algol_cells.specs.SeenCell.{reference};
ghost use Rattle.algol_instances.specs.SeenInstance.{holding, instance, zero_cell};
ghost use Rattle.algol_world.specs.SeenWorld.{world_of};
ghost use Rattle.algol_world.specs.Going.{done_with, letting_go};

use crate::world::World;
use algol_cells::{Cell, EventCell, Reference, append};
use algol_instances::{Instances, no_items, one_item, take_first};
use algol_tree::List;
use std::alloc::{AllocError, Global};

/// An event, out of its cell; one that has not happened where it is none.
pub fn take_event<'p>(instances: &mut Instances<'p>, alloc: Global, r: Reference<'p>) -> EventCell
    ensures value { seen.event result ≡ events.event_at (holding (map instance instances.old)) (reference r.entry) }
    ensures after { map instance instances.new ≡ (world.set_cell (holding (map instance instances.old)) (reference r.entry) zero_cell).instances }
{
    match instances.take_cell(r) {
        Cell::Event(event) => event,
        _ => EventCell {
            happened: false,
            available: false,
            waiters: no_items(alloc),
            procurers: no_items(alloc),
        },
    }
}

impl<'p> World<'p> {
    /// Another content of a cell, nothing where there is no such cell.
    pub fn set_cell(&mut self, r: Reference<'p>, cell: Cell<'p>)
        ensures after { world_of self.new ≡ world.set_cell (world_of self.old) (reference r.entry) (seen.cell cell.entry) }
        ensures same { self.new.scopes ≡ self.old.scopes }
    {
        self.instances.set_cell(r, cell);
    }

    /// An event, out of its cell; one that has not happened where it is none.
    fn take_event(&mut self, alloc: Global, r: Reference<'p>) -> EventCell
        ensures value { seen.event result ≡ events.event_at (world_of self.old) (reference r.entry) }
        ensures after { world_of self.new ≡ world.set_cell (world_of self.old) (reference r.entry) zero_cell }
        ensures same { self.new.scopes ≡ self.old.scopes }
    {
        take_event(&mut self.instances, alloc, r)
    }

    /// The event has happened or not, and all who waited for it are released, in their order: they wait for no other event
    /// either.
    #[tactic(auto, using(algol_instances::proofs::Setting::setting))]
    pub fn let_go(&mut self, alloc: Global, r: Reference<'p>, happened: bool) -> List<usize>
        ensures released { result ≡ (letting_go (world_of self.old) (reference r.entry) happened).processes }
        ensures after { world_of self.new ≡ (letting_go (world_of self.old) (reference r.entry) happened).world }
        ensures same { self.new.scopes ≡ self.old.scopes }
    {
        let EventCell {
            available,
            waiters,
            procurers,
            happened: _,
        } = self.take_event(alloc, r);
        let event = EventCell {
            happened,
            available,
            waiters: no_items(alloc),
            procurers,
        };
        self.set_cell(r, Cell::Event(event));
        self.withdraw_all(alloc, r, waiters.items());
        self.release(waiters.items());
        waiters
    }

    /// RESET: the event has not happened.
    #[tactic(auto, using(algol_instances::proofs::Setting::setting))]
    pub fn reset(&mut self, alloc: Global, r: Reference<'p>)
        ensures after { (p : ℕ) → world_of self.new ≡ (done_with (world_of self.old) p (acts act.Reset) (reference r.entry)).world }
        ensures same { self.new.scopes ≡ self.old.scopes }
    {
        let mut event = self.take_event(alloc, r);
        event.happened = false;
        self.set_cell(r, Cell::Event(event));
    }

    /// A process waits for the event, after those that wait for it.
    #[tactic(auto, using(algol_instances::proofs::Setting::setting))]
    pub fn add_waiter(
        &mut self,
        alloc: Global,
        r: Reference<'p>,
        number: usize,
    ) -> Result<(), AllocError>
        ensures after { IfOk result (λ _. world_of self.new ≡ events.change_event (world_of self.old) (reference r.entry) (Some (joined number))) }
        ensures same { self.new.scopes ≡ self.old.scopes }
    {
        let mut event = self.take_event(alloc, r);
        append(&mut event.waiters, number)?;
        self.set_cell(r, Cell::Event(event));
        Ok(())
    }

    /// A process waits to procure the event, after those that wait for that.
    #[tactic(auto, using(algol_instances::proofs::Setting::setting))]
    pub fn add_procurer(
        &mut self,
        alloc: Global,
        r: Reference<'p>,
        number: usize,
    ) -> Result<(), AllocError>
        ensures after { IfOk result (λ _. world_of self.new ≡ events.change_event (world_of self.old) (reference r.entry) (Some (queued number))) }
        ensures same { self.new.scopes ≡ self.old.scopes }
    {
        let mut event = self.take_event(alloc, r);
        append(&mut event.procurers, number)?;
        self.set_cell(r, Cell::Event(event));
        Ok(())
    }

    /// The event is not available any more.
    #[tactic(auto, using(algol_instances::proofs::Setting::setting))]
    pub fn take(&mut self, alloc: Global, r: Reference<'p>)
        ensures after { world_of self.new ≡ events.change_event (world_of self.old) (reference r.entry) (Some taken) }
        ensures same { self.new.scopes ≡ self.old.scopes }
    {
        let mut event = self.take_event(alloc, r);
        event.available = false;
        self.set_cell(r, Cell::Event(event));
    }

    /// LIBERATE hands the event to who has waited longest to procure it, and makes it available where nobody waits.
    #[tactic(auto, using(algol_instances::proofs::Setting::setting))]
    pub fn liberate(&mut self, alloc: Global, r: Reference<'p>) -> Result<List<usize>, AllocError>
        ensures released { IfOk result (λ ps. (p : ℕ) → ps ≡ (done_with (world_of self.old) p (acts act.Liberate) (reference r.entry)).processes) }
        ensures after { IfOk result (λ _. (p : ℕ) → world_of self.new ≡ (done_with (world_of self.old) p (acts act.Liberate) (reference r.entry)).world) }
        ensures same { self.new.scopes ≡ self.old.scopes }
    {
        let mut event = self.take_event(alloc, r);
        match take_first(&mut event.procurers) {
            None => {
                event.available = true;
                self.set_cell(r, Cell::Event(event));
                Ok(no_items(alloc))
            }
            Some(next) => {
                self.set_cell(r, Cell::Event(event));
                self.release(&[next]);
                one_item(alloc, next)
            }
        }
    }
}
