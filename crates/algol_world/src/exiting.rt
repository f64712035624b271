//! What the leaving of a part does: it goes back to the part around it, or the process ends.

ghost use Rattle.std.specs.Prelude.{◌≡◌, ℕ, map, slice_get, IfOk};
ghost use Rattle.algol_tree.specs.Scopes as scoping;
ghost use Rattle.algol_meaning.specs.World as world;
ghost use Rattle.algol_meaning.specs.Events as events;
ghost use Rattle.algol_cells.specs.SeenScope.{scoped};
ghost use Rattle.algol_rest_expr.specs.SeenExpression.{rest_answered};
ghost use Rattle.algol_world.specs.SeenWorld as views;
ghost use Rattle.algol_world.specs.SeenWorld.{world_of, process_of};
ghost use Rattle.algol_world.specs.SeenActed.{acted_choice};
ghost use Rattle.algol_world.specs.Leaving.{is_nothing, innermost_of, ended_by, leaves_by};

use crate::acted::Acted;
use crate::leaving::is_evaluation;
use crate::world::{Process, World};
use algol_cells::Reference;
use algol_instances::no_items;
use algol_rest_expr::Answer;
use algol_tree::List;
use b67_deeds::Letter;
use b67_list::discard;
use b67_num::FaultKind;
use std::alloc::{AllocError, Global};

/// The innermost part of a process: its instance, whether it evaluates a name, and whether no part is around it.
#[derive(Clone, Copy)]
pub struct Innermost {
    pub instance: usize,
    pub evaluates: bool,
    pub alone: bool,
}

impl<'p> Process<'p> {
    /// Tests that it has no second part.
    fn is_alone(&self) -> bool
        ensures { result ≡ is_nothing (slice_get self.now.todo 1) }
    {
        match self.todo.under(1) {
            None => true,
            Some(_) => false,
        }
    }

    /// The innermost part, none where there is none.
    fn innermost(&self) -> Option<Innermost>
        ensures { (sc : scoping.Scopes) → result ≡ innermost_of (map (views.part sc) self.now.todo) }
    {
        match self.todo.under(0) {
            None => None,
            Some(part) => Some(Innermost {
                instance: part.instance,
                evaluates: is_evaluation(part.purpose),
                alone: self.is_alone(),
            }),
        }
    }
}

impl<'p> World<'p> {
    /// The innermost part of a process, none where there is none.
    fn innermost(&self, number: usize) -> Option<Innermost>
        ensures { result ≡ innermost_of ((process_of self.now number).todo) }
    {
        match self.process(number) {
            None => None,
            Some(q) => q.innermost(),
        }
    }

    /// The task of a process, none where it has none.
    fn task_of(&self, number: usize) -> Option<Reference<'p>>
        ensures { views.task result ≡ (process_of self.now number).task }
    {
        match self.process(number) {
            None => None,
            Some(q) => q.task,
        }
    }

    /// The event of a task is caused, which releases who waits for it.
    fn cause_task(&mut self, alloc: Global, task: Option<Reference<'p>>) -> List<usize>
        ensures released { (p : ℕ) → result ≡ (events.caused_by_end (world_of self.old) p (views.task task.entry)).processes }
        ensures after { (p : ℕ) → world_of self.new ≡ (events.caused_by_end (world_of self.old) p (views.task task.entry)).world }
        ensures same { self.new.scopes ≡ self.old.scopes }
    {
        match task {
            None => no_items(alloc),
            Some(r) => self.let_go(alloc, r, true),
        }
    }

    /// The end of a process, whose last instance is left: its task's event is caused.
    fn end(&mut self, alloc: Global, number: usize, instance: usize) -> Acted
        ensures ended { acted_choice result (world_of self.new) ≡ ended_by (world_of self.old) number instance }
        ensures same { self.new.scopes ≡ self.old.scopes }
    {
        let task = self.task_of(number);
        self.leave(instance);
        let released = self.cause_task(alloc, task);
        self.end_process(number);
        Acted {
            action: Letter::End,
            released,
            started: None,
        }
    }

    /// The leaving of the innermost part of a process, which is able to go on, with what it gives.
    #[tactic(auto, using(crate::proofs::Exits::exits))]
    pub fn leaves(
        &mut self,
        alloc: Global,
        number: usize,
        answer: Answer<'p>,
    ) -> Result<Acted, AllocError>
        requires { (process_of self.old number).state ≡ world.able }
        ensures left { IfOk result (λ a. acted_choice a (world_of self.new) ≡ leaves_by (scoped self.old.scopes) (world_of self.old) number (rest_answered answer.entry)) }
        ensures same { self.new.scopes ≡ self.old.scopes }
    {
        match self.innermost(number) {
            None => {
                discard(answer);
                Ok(Acted::alone(alloc, Letter::Fault))
            }
            Some(part) => {
                if part.evaluates {
                    self.end_part(alloc, number, answer)?;
                    Ok(Acted::alone(alloc, Letter::Leave))
                } else if self.some_depends(part.instance) {
                    discard(answer);
                    self.fail(number, FaultKind::CriticalBlockExit);
                    Ok(Acted::alone(alloc, Letter::Fault))
                } else if part.alone {
                    discard(answer);
                    Ok(self.end(alloc, number, part.instance))
                } else {
                    self.leave(part.instance);
                    self.end_part(alloc, number, answer)?;
                    Ok(Acted::alone(alloc, Letter::Leave))
                }
            }
        }
    }
}
