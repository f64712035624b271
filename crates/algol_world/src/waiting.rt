//! Waits for several events at once, and what the release by one of them makes of the others.

ghost use Rattle.std.specs.Prelude.{◌≡◌, ◌==◌, not, if◌then◌else◌, [], map, filter, reverse, Some, IfOk};
ghost use Rattle.b67_deeds.specs.declared.Letter.TheVariants as actions;
ghost use Rattle.b67_deeds.specs.Events.{joined, left_by};
ghost use Rattle.algol_meaning.specs.Events as events;
ghost use Rattle.algol_cells.specs.SeenScope.{scoped};
ghost use Rattle.algol_cells.specs.SeenCell.{reference};
ghost use Rattle.algol_instances.specs.SeenInstance.{holding, instance};
ghost use Rattle.algol_world.specs.SeenWorld.{process, state, world_of};
ghost use Rattle.algol_world.specs.SeenActed.{acted_choice};
ghost use Rattle.algol_world.specs.Going.{action_chosen, waiting_for};

use crate::acted::Acted;
use crate::event::take_event;
use crate::world::{Process, State, World};
use algol_cells::{Cell, Reference, Scopes};
use algol_instances::{Instances, place};
use algol_meaning::same_name;
use algol_tree::List;
use b67_deeds::Letter;
use std::alloc::{AllocError, Global};

/// Tests that two references are to one cell.
fn is_same(a: Reference<'_>, b: Reference<'_>) -> bool
    ensures { result ≡ events.same_reference (reference a.entry) (reference b.entry) }
{
    a.instance == b.instance && same_name(a.name, b.name)
}

/// The first place, from 1, of a reference among these.
fn place_among(rs: &[Reference<'_>], r: Reference<'_>) -> Option<usize>
    ensures { result ≡ events.first_that (λ s. events.same_reference s (reference r.entry)) 1 (map reference rs.now) }
{
    let mut place = 1;
    'looking: for s in rs {
        if is_same(*s, r) {
            return Some(place);
        }
        place += 1;
    }
    None
}

// ---- the release

/// All numbers but this one stay.
fn keep_others(numbers: &mut Vec<usize>, number: usize)
    ensures { numbers.new.items ≡ filter (λ p. not (number == p)) numbers.old.items }
{
    numbers.retain(|p| number != *p);
}

/// A process is none of these any more.
fn remove(waiters: &mut List<usize>, number: usize)
    ensures { waiters.new ≡ filter (λ p. not (number == p)) waiters.old }
{
    keep_others(waiters.items_mut(), number);
}

/// A process waits for an event no more.
fn leave_event<'p>(instances: &mut Instances<'p>, alloc: Global, number: usize, r: Reference<'p>)
    ensures { map instance instances.new ≡ (events.change_event (holding (map instance instances.old)) (reference r.entry) (Some (left_by number))).instances }
{
    let mut event = take_event(instances, alloc, r);
    remove(&mut event.waiters, number);
    instances.set_cell(r, Cell::Event(event));
}

/// A process waits for none of these events any more.
fn forget<'p>(instances: &mut Instances<'p>, alloc: Global, number: usize, rs: &[Reference<'p>])
    ensures { map instance instances.new ≡ (events.forgotten (holding (map instance instances.old)) number (map reference rs.now)).instances }
{
    'leaving: for r in rs {
        leave_event(instances, alloc, number, *r);
    }
}

impl<'p> Process<'p> {
    /// An event releases it: it waits for no other event of its list either, and is told the event's place there.
    fn withdraw(
        &mut self,
        scopes: &Scopes<'p>,
        instances: &mut Instances<'p>,
        alloc: Global,
        number: usize,
        r: Reference<'p>,
    )
        ensures told { process (scoped scopes.now) self.new ≡ record (process (scoped scopes.now) self.old) { woken = events.woken_by (reference r.entry) (process (scoped scopes.now) self.old) } }
        ensures left { map instance instances.new ≡ (events.forgotten (holding (map instance instances.old)) number (events.list_in (state self.old.state))).instances }
    {
        if let State::WaitsAny(rs) = &self.state {
            forget(instances, alloc, number, rs.items());
            if let Some(place) = place_among(rs.items(), r) {
                self.woken = place;
            }
        }
    }
}

impl<'p> World<'p> {
    /// An event releases a process, which waits for no other event either.
    fn withdraw(&mut self, alloc: Global, r: Reference<'p>, number: usize)
        ensures went { world_of self.new ≡ events.withdrawn (world_of self.old) (reference r.entry) number }
        ensures same { self.new.scopes ≡ self.old.scopes }
    {
        if let Some(at) = place(number) {
            if let Some(q) = self.processes.items_mut().get_mut(at) {
                q.withdraw(&self.scopes, &mut self.instances, alloc, number, r);
            }
        }
    }

    /// An event releases processes, which wait for no other event either.
    pub fn withdraw_all(&mut self, alloc: Global, r: Reference<'p>, numbers: &[usize])
        ensures went { world_of self.new ≡ events.all_withdrawn (world_of self.old) (reference r.entry) numbers.now }
        ensures same { self.new.scopes ≡ self.old.scopes }
    {
        'withdrawing: for number in numbers {
            self.withdraw(alloc, r, *number);
        }
    }

    // ---- the wait

    /// A process waits for an event, if it is not among those before it in the list.
    fn join(
        &mut self,
        alloc: Global,
        number: usize,
        before: &[Reference<'p>],
        r: Reference<'p>,
    ) -> Result<(), AllocError>
        ensures joined { IfOk result (λ _. world_of self.new ≡ if events.reference_is_among (map reference before.now) (reference r.entry) then world_of self.old else (events.change_event (world_of self.old) (reference r.entry) (Some (joined number)))) }
        ensures same { self.new.scopes ≡ self.old.scopes }
    {
        match place_among(before, r) {
            Some(_) => Ok(()),
            None => self.add_waiter(alloc, r, number),
        }
    }

    /// A process waits for each different one of these events.
    fn join_all(
        &mut self,
        alloc: Global,
        number: usize,
        rs: &[Reference<'p>],
    ) -> Result<(), AllocError>
        ensures joined { IfOk result (λ _. world_of self.new ≡ events.joined_all (world_of self.old) number [] (map reference rs.now)) }
        ensures same { self.new.scopes ≡ self.old.scopes }
    {
        let mut before = 0;
        'joining: for r in rs {
            self.join(alloc, number, &rs[..before], *r)?;
            before += 1;
        }
        Ok(())
    }

    /// A process waits for several events, and does the same again when it is released.
    pub fn wait_any(
        &mut self,
        alloc: Global,
        number: usize,
        rs: List<Reference<'p>>,
    ) -> Result<Acted, AllocError>
        ensures acted { IfOk result (λ a. acted_choice a (world_of self.new) ≡ action_chosen actions.WaitAny (waiting_for (world_of self.old) number (map reference rs.entry))) }
        ensures same { self.new.scopes ≡ self.old.scopes }
    {
        self.join_all(alloc, number, rs.items())?;
        self.stands(number, State::WaitsAny(rs));
        Ok(Acted::alone(alloc, Letter::WaitAny))
    }
}
