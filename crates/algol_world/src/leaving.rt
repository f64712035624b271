//! The leaving of instances, and the end of a process.

ghost use Rattle.std.specs.Prelude.{◌≡◌, ◌&&◌, ◌∷◌, [], IfOk};
ghost use Rattle.algol_meaning.specs.World as world;
ghost use Rattle.algol_meaning.specs.Instances as leaving;
ghost use Rattle.algol_meaning.specs.Critical as critical;
ghost use Rattle.algol_cells.specs.SeenScope.{scoped};
ghost use Rattle.algol_rest_expr.specs.SeenExpression.{rest_answered};
ghost use Rattle.algol_world.specs.SeenWorld.{purpose, process, state, world_of, process_of, process_or_none};
ghost use Rattle.algol_world.specs.Leaving.{left_todo, leaving_with, failing, ending};

use crate::world::{Process, Purpose, State, World, WorldFault};
use algol_cells::Scopes;
use algol_instances::{item, place};
use algol_rest_expr::Answer;
use b67_list::discard;
use b67_num::FaultKind;
use std::alloc::{AllocError, Global};

/// Tests that a part evaluates a name, so that it has no instance of its own.
pub fn is_evaluation(of: Purpose) -> bool
    ensures { result ≡ critical.is_evaluation (purpose of) }
{
    match of {
        Purpose::NameRead | Purpose::NamePlace => true,
        _ => false,
    }
}

/// Tests that a process lives and has this instance as its critical instance.
fn depends(q: &Process<'_>, instance: usize) -> bool
    ensures { result ≡ (world.lives (state q.now.state) && critical.is_this q.now.critical instance) }
{
    match q.state {
        State::Ended => false,
        _ => match q.critical {
            None => false,
            Some(number) => number == instance,
        },
    }
}

impl<'p> Process<'p> {
    /// The innermost part ends, and the next one goes on with what it gives; nothing where there is no next one.
    fn end_part(
        &mut self,
        alloc: Global,
        scopes: &Scopes<'p>,
        answer: Answer<'p>,
    ) -> Result<(), AllocError>
        ensures { IfOk result (λ _. process (scoped scopes.now) self.new ≡ record (process (scoped scopes.now) self.old) { todo = left_todo (scoped scopes.now) ((process (scoped scopes.now) self.old).todo) (rest_answered answer.entry) }) }
    {
        match self.todo.under(1) {
            None => {
                discard(answer);
                Ok(())
            }
            Some(_) => {
                discard(self.todo.pop());
                self.go_on(alloc, scopes, answer)
            }
        }
    }

    /// It has ended.
    fn end(&mut self, scopes: &Scopes<'p>)
        ensures { process (scoped scopes.now) self.new ≡ record (process (scoped scopes.now) self.old) { todo = []; state = world.ended } }
    {
        self.todo.clear();
        self.state = State::Ended;
    }
}

impl<'p> World<'p> {
    /// The process of that number.
    #[tactic(auto, using(algol_instances::proofs::Numbering::numbers))]
    pub fn process(&self, number: usize) -> Option<&Process<'p>>
        ensures { process_or_none (scoped self.now.scopes) result ≡ process_of self.now number }
    {
        match place(number) {
            None => None,
            Some(at) => item(&self.processes, at),
        }
    }

    /// Tests that some live process has this instance as its critical instance.
    pub fn some_depends(&self, instance: usize) -> bool
        ensures { result ≡ critical.some_depends ((world_of self.now).processes) instance }
    {
        'asking: for q in self.processes.items() {
            if depends(q, instance) {
                return true;
            }
        }
        false
    }

    /// The innermost part of a process ends, and the next one goes on with what it gives.
    pub fn end_part(
        &mut self,
        alloc: Global,
        number: usize,
        answer: Answer<'p>,
    ) -> Result<(), AllocError>
        ensures went { IfOk result (λ _. world_of self.new ≡ leaving_with (scoped self.old.scopes) (world_of self.old) number (rest_answered answer.entry)) }
        ensures same { self.new.scopes ≡ self.old.scopes }
    {
        match place(number) {
            None => {
                discard(answer);
                Ok(())
            }
            Some(at) => match self.processes.items_mut().get_mut(at) {
                None => {
                    discard(answer);
                    Ok(())
                }
                Some(q) => q.end_part(alloc, &self.scopes, answer),
            },
        }
    }

    /// A process has ended.
    pub fn end_process(&mut self, number: usize)
        ensures went { world_of self.new ≡ ending (world_of self.old) number }
        ensures same { self.new.scopes ≡ self.old.scopes }
    {
        if let Some(at) = place(number) {
            if let Some(q) = self.processes.items_mut().get_mut(at) {
                q.end(&self.scopes);
            }
        }
    }

    /// A fault in a process.
    pub fn fail(&mut self, number: usize, kind: FaultKind)
        ensures failed { world_of self.new ≡ failing (world_of self.old) number kind }
        ensures same { self.new.scopes ≡ self.old.scopes }
    {
        self.fault = Some(WorldFault {
            kind,
            process: number,
        });
    }

    /// An instance is left.
    pub fn leave(&mut self, instance: usize)
        ensures left { world_of self.new ≡ leaving.leave (world_of self.old) (instance ∷ []) }
        ensures same { self.new.scopes ≡ self.old.scopes }
    {
        self.instances.leave(instance);
    }
}
