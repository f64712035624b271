//! How the parts of a process go on.

ghost use Rattle.std.specs.Prelude.{◌≡◌, ◌∷◌, IfOk};
ghost use Rattle.algol_meaning.specs.Rest as rest;
ghost use Rattle.algol_meaning.specs.World as world;
ghost use Rattle.algol_cells.specs.SeenScope.{scoped};
ghost use Rattle.algol_rest_expr.specs.SeenExpression.{rest_answered};
ghost use Rattle.algol_world.specs.SeenWorld.{part, process, state, world_of};
ghost use Rattle.algol_world.specs.Going.{resumed, going, stopping, waking, standing, part_opening};

use crate::world::{Part, Process, State, World};
use algol_cells::Scopes;
use algol_instances::place;
use algol_rest_expr::Answer;
use b67_list::discard;
use std::alloc::{AllocError, Global};

impl<'p> Process<'p> {
    /// The innermost part goes on with this answer.
    pub fn go_on(
        &mut self,
        alloc: Global,
        scopes: &Scopes<'p>,
        answer: Answer<'p>,
    ) -> Result<(), AllocError>
        ensures { IfOk result (λ _. process (scoped scopes.now) self.new ≡ record (process (scoped scopes.now) self.old) { todo = resumed (scoped scopes.now) ((process (scoped scopes.now) self.old).todo) (rest_answered answer.entry) }) }
    {
        match self.todo.pop() {
            None => {
                discard(answer);
                Ok(())
            }
            Some(inner) => {
                let Part {
                    instance,
                    purpose,
                    rest,
                } = inner;
                let rest = rest.resume(alloc, scopes, answer)?;
                self.todo.push(Part {
                    instance,
                    purpose,
                    rest,
                })
            }
        }
    }

    /// It goes on, and waits.
    fn stop(
        &mut self,
        alloc: Global,
        scopes: &Scopes<'p>,
        until: State<'p>,
    ) -> Result<(), AllocError>
        ensures { IfOk result (λ _. process (scoped scopes.now) self.new ≡ record (process (scoped scopes.now) self.old) { todo = resumed (scoped scopes.now) ((process (scoped scopes.now) self.old).todo) rest.done; state = state until.entry }) }
    {
        self.go_on(alloc, scopes, Answer::Done)?;
        self.state = until;
        Ok(())
    }

    /// A part inside comes to be.
    fn open(
        &mut self,
        alloc: Global,
        scopes: &Scopes<'p>,
        inner: Part<'p>,
    ) -> Result<(), AllocError>
        ensures { IfOk result (λ _. process (scoped scopes.now) self.new ≡ record (process (scoped scopes.now) self.old) { todo = part (scoped scopes.now) inner.entry ∷ resumed (scoped scopes.now) ((process (scoped scopes.now) self.old).todo) rest.entered }) }
    {
        self.go_on(alloc, scopes, Answer::Entered)?;
        self.todo.push(inner)?;
        Ok(())
    }

    /// It goes on with this answer, and is not woken any more.
    fn wake(
        &mut self,
        alloc: Global,
        scopes: &Scopes<'p>,
        answer: Answer<'p>,
    ) -> Result<(), AllocError>
        ensures { IfOk result (λ _. process (scoped scopes.now) self.new ≡ record (process (scoped scopes.now) self.old) { todo = resumed (scoped scopes.now) ((process (scoped scopes.now) self.old).todo) (rest_answered answer.entry); woken = 0 }) }
    {
        self.go_on(alloc, scopes, answer)?;
        self.woken = 0;
        Ok(())
    }

    /// It is in this state.
    fn stand(&mut self, scopes: &Scopes<'p>, becomes: State<'p>)
        ensures { process (scoped scopes.now) self.new ≡ record (process (scoped scopes.now) self.old) { state = state becomes.entry } }
    {
        self.state = becomes;
    }
}

impl<'p> World<'p> {
    /// The innermost part of a process goes on with this answer.
    pub fn goes(
        &mut self,
        alloc: Global,
        number: usize,
        answer: Answer<'p>,
    ) -> Result<(), AllocError>
        ensures went { IfOk result (λ _. world_of self.new ≡ going (scoped self.old.scopes) (world_of self.old) number (rest_answered answer.entry)) }
        ensures same { self.new.scopes ≡ self.old.scopes }
    {
        match place(number) {
            None => {
                discard(answer);
                Ok(())
            }
            Some(at) => match self.processes.items_mut().get_mut(at) {
                None => {
                    discard(answer);
                    Ok(())
                }
                Some(q) => q.go_on(alloc, &self.scopes, answer),
            },
        }
    }

    /// A process waits.
    pub fn stops(
        &mut self,
        alloc: Global,
        number: usize,
        until: State<'p>,
    ) -> Result<(), AllocError>
        ensures went { IfOk result (λ _. world_of self.new ≡ stopping (scoped self.old.scopes) (world_of self.old) number (state until.entry)) }
        ensures same { self.new.scopes ≡ self.old.scopes }
    {
        match place(number) {
            None => {
                discard(until);
                Ok(())
            }
            Some(at) => match self.processes.items_mut().get_mut(at) {
                None => {
                    discard(until);
                    Ok(())
                }
                Some(q) => q.stop(alloc, &self.scopes, until),
            },
        }
    }

    /// A process that was released by one of several events goes on with this answer.
    pub fn wakes(
        &mut self,
        alloc: Global,
        number: usize,
        answer: Answer<'p>,
    ) -> Result<(), AllocError>
        ensures went { IfOk result (λ _. world_of self.new ≡ waking (scoped self.old.scopes) (world_of self.old) number (rest_answered answer.entry)) }
        ensures same { self.new.scopes ≡ self.old.scopes }
    {
        match place(number) {
            None => {
                discard(answer);
                Ok(())
            }
            Some(at) => match self.processes.items_mut().get_mut(at) {
                None => {
                    discard(answer);
                    Ok(())
                }
                Some(q) => q.wake(alloc, &self.scopes, answer),
            },
        }
    }

    /// A part inside the innermost part of a process comes to be.
    pub fn opens(&mut self, alloc: Global, number: usize, inner: Part<'p>) -> Result<(), AllocError>
        ensures went { IfOk result (λ _. world_of self.new ≡ part_opening (scoped self.old.scopes) (world_of self.old) number (part (scoped self.old.scopes) inner.entry)) }
        ensures same { self.new.scopes ≡ self.old.scopes }
    {
        match place(number) {
            None => {
                discard(inner);
                Ok(())
            }
            Some(at) => match self.processes.items_mut().get_mut(at) {
                None => {
                    discard(inner);
                    Ok(())
                }
                Some(q) => q.open(alloc, &self.scopes, inner),
            },
        }
    }

    /// A process is in this state.
    pub fn stands(&mut self, number: usize, becomes: State<'p>)
        ensures went { world_of self.new ≡ standing (world_of self.old) number (state becomes.entry) }
        ensures same { self.new.scopes ≡ self.old.scopes }
    {
        match place(number) {
            None => discard(becomes),
            Some(at) => match self.processes.items_mut().get_mut(at) {
                None => discard(becomes),
                Some(q) => q.stand(&self.scopes, becomes),
            },
        }
    }

    /// Processes are able to go on.
    pub fn release(&mut self, numbers: &[usize])
        ensures went { world_of self.new ≡ world.set_all_able (world_of self.old) numbers.now }
        ensures same { self.new.scopes ≡ self.old.scopes }
    {
        'releasing: for number in numbers {
            self.stands(*number, State::Able);
        }
    }
}
