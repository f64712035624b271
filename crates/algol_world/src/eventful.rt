//! What a process does with an event.

ghost use Rattle.std.specs.Prelude.{◌≡◌, false, IfOk};
ghost use Rattle.b67_deeds.specs.declared.EventAct.TheVariants as act;
ghost use Rattle.b67_deeds.specs.declared.EventTest.TheVariants as test;
ghost use Rattle.b67_deeds.specs.declared.Letter.TheVariants as actions;
ghost use Rattle.b67_deeds.specs.Deeds as deeds;
ghost use Rattle.algol_meaning.specs.Rest as rest;
ghost use Rattle.algol_meaning.specs.Value as plain;
ghost use Rattle.algol_meaning.specs.World as world;
ghost use Rattle.algol_cells.specs.SeenScope.{scoped};
ghost use Rattle.algol_cells.specs.SeenCell.{reference};
ghost use Rattle.algol_instances.specs.SeenInstance.{cell_or_none};
ghost use Rattle.algol_world.specs.SeenWorld.{world_of, process_of};
ghost use Rattle.algol_world.specs.SeenActed.{acted_choice};
ghost use Rattle.algol_world.specs.Going.{action_chosen, going, releasing, does_by};
ghost use Rattle.algol_world.specs.Leaving.{is_nil};

use crate::acted::Acted;
use crate::world::{State, World};
use algol_cells::{Cell, Reference, Value};
use algol_instances::{cell_at, no_items};
use algol_rest_expr::Answer;
use algol_tree::{EventAct, List};
use b67_deeds::Letter;
use std::alloc::{AllocError, Global};

/// Whether the event of a cell has happened.
pub fn has_happened(cell: Option<&Cell<'_>>) -> bool
    ensures { result ≡ (world.event_in (cell_or_none cell.entry)).happened }
{
    match cell {
        Some(Cell::Event(event)) => event.happened,
        _ => false,
    }
}

/// Whether the event of a cell is available.
pub fn is_available(cell: Option<&Cell<'_>>) -> bool
    ensures { result ≡ (world.event_in (cell_or_none cell.entry)).available }
{
    match cell {
        Some(Cell::Event(event)) => event.available,
        _ => false,
    }
}

impl<'p> World<'p> {
    /// The process goes on after this action, which released these.
    fn goes_releasing(
        &mut self,
        alloc: Global,
        number: usize,
        action: Letter,
        released: List<usize>,
    ) -> Result<Acted, AllocError>
        ensures acted { IfOk result (λ a. acted_choice a (world_of self.new) ≡ releasing (scoped self.old.scopes) action (world_of self.old) number released) }
        ensures same { self.new.scopes ≡ self.old.scopes }
    {
        self.goes(alloc, number, Answer::Done)?;
        Ok(Acted {
            action,
            released,
            started: None,
        })
    }

    /// WAIT: the process goes on where the event has happened, else it waits.
    #[tactic(auto, using(crate::proofs::Deeds::deed_laws))]
    fn wait(&mut self, alloc: Global, number: usize, r: Reference<'p>) -> Result<Acted, AllocError>
        requires able { (process_of self.old number).state ≡ world.able }
        requires acts { is_nil ((process_of self.old number).todo) ≡ false }
        ensures acted { IfOk result (λ a. acted_choice a (world_of self.new) ≡ does_by (scoped self.old.scopes) (world_of self.old) number (deeds.acts act.Wait) (reference r.entry)) }
        ensures same { self.new.scopes ≡ self.old.scopes }
    {
        if has_happened(cell_at(&self.instances, r)) {
            self.goes_releasing(alloc, number, Letter::Wait, no_items(alloc))
        } else {
            self.add_waiter(alloc, r, number)?;
            self.stops(alloc, number, State::WaitsFor(r))?;
            Ok(Acted::alone(alloc, Letter::Wait))
        }
    }

    /// PROCURE: the process takes the event where it is available, else it waits.
    #[tactic(auto, using(crate::proofs::Deeds::deed_laws))]
    fn procure(
        &mut self,
        alloc: Global,
        number: usize,
        r: Reference<'p>,
    ) -> Result<Acted, AllocError>
        requires able { (process_of self.old number).state ≡ world.able }
        requires acts { is_nil ((process_of self.old number).todo) ≡ false }
        ensures acted { IfOk result (λ a. acted_choice a (world_of self.new) ≡ does_by (scoped self.old.scopes) (world_of self.old) number (deeds.acts act.Procure) (reference r.entry)) }
        ensures same { self.new.scopes ≡ self.old.scopes }
    {
        if is_available(cell_at(&self.instances, r)) {
            self.take(alloc, r);
            self.goes_releasing(alloc, number, Letter::Procure, no_items(alloc))
        } else {
            self.add_procurer(alloc, r, number)?;
            self.stops(alloc, number, State::Procures(r))?;
            Ok(Acted::alone(alloc, Letter::Procure))
        }
    }

    /// The process goes on after FIX, told whether the event was taken already.
    fn tells(&mut self, alloc: Global, number: usize, taken: bool) -> Result<Acted, AllocError>
        ensures acted { IfOk result (λ a. acted_choice a (world_of self.new) ≡ action_chosen actions.Fix (going (scoped self.old.scopes) (world_of self.old) number (rest.value (plain.truth taken)))) }
        ensures same { self.new.scopes ≡ self.old.scopes }
    {
        self.goes(alloc, number, Answer::Value(Value::Truth(taken)))?;
        Ok(Acted::alone(alloc, Letter::Fix))
    }

    /// FIX: the process takes the event where it is available, and goes on in any case.
    #[tactic(auto, using(crate::proofs::Deeds::deed_laws))]
    pub fn fix(
        &mut self,
        alloc: Global,
        number: usize,
        r: Reference<'p>,
    ) -> Result<Acted, AllocError>
        requires able { (process_of self.old number).state ≡ world.able }
        requires acts { is_nil ((process_of self.old number).todo) ≡ false }
        ensures acted { IfOk result (λ a. acted_choice a (world_of self.new) ≡ does_by (scoped self.old.scopes) (world_of self.old) number (deeds.tests test.Fix) (reference r.entry)) }
        ensures same { self.new.scopes ≡ self.old.scopes }
    {
        if !is_available(cell_at(&self.instances, r)) {
            return self.tells(alloc, number, true);
        }
        self.take(alloc, r);
        self.tells(alloc, number, false)
    }

    /// A statement on an event, by a process that is able and has a part.
    #[tactic(auto, using(crate::proofs::Deeds::deed_laws))]
    pub fn act(
        &mut self,
        alloc: Global,
        number: usize,
        act: EventAct,
        r: Reference<'p>,
    ) -> Result<Acted, AllocError>
        requires able { (process_of self.old number).state ≡ world.able }
        requires acts { is_nil ((process_of self.old number).todo) ≡ false }
        ensures acted { IfOk result (λ a. acted_choice a (world_of self.new) ≡ does_by (scoped self.old.scopes) (world_of self.old) number (deeds.acts act) (reference r.entry)) }
        ensures same { self.new.scopes ≡ self.old.scopes }
    {
        match act {
            EventAct::Wait => self.wait(alloc, number, r),
            EventAct::Procure => self.procure(alloc, number, r),
            EventAct::Cause => {
                let released = self.let_go(alloc, r, true);
                self.goes_releasing(alloc, number, Letter::Cause, released)
            }
            EventAct::CauseAndReset => {
                let released = self.let_go(alloc, r, false);
                self.goes_releasing(alloc, number, Letter::CauseAndReset, released)
            }
            EventAct::Reset => {
                self.reset(alloc, r);
                self.goes_releasing(alloc, number, Letter::Reset, no_items(alloc))
            }
            EventAct::Liberate => {
                let released = self.liberate(alloc, r)?;
                self.goes_releasing(alloc, number, Letter::Liberate, released)
            }
        }
    }
}
