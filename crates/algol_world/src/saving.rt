//! What of a world its actions change, kept so that it can be put back.

ghost use Rattle.std.specs.Prelude.{◌≡◌, map, IfOk};
ghost use Rattle.algol_tree.specs.Scopes as scoping;
ghost use Rattle.algol_cells.specs.SeenScope.{scoped};
ghost use Rattle.algol_world.specs.SeenWorld as views;
ghost use Rattle.algol_world.specs.SeenWorld.{world_of};
ghost use Rattle.algol_world.specs.Saving.{saved_in};

use crate::world::{Part, Process, State, World, WorldFault};
use algol_cells::{Stack, copy_list};
use algol_instances::Instances;
use algol_tree::{Line, List};
use b67_list::discard;
use std::alloc::{AllocError, Global};
use std::mem;

/// What of a world its actions change, as it was.
pub struct Saved<'p> {
    instances: Instances<'p>,
    processes: List<Process<'p>>,
    output: List<Line>,
    fault: Option<WorldFault>,
}

/// It is let go by a call, so that the proofs of the crates above do not go through its parts.
impl<'p> Drop for Saved<'p> {
    fn drop(self) {
        let Saved {
            instances: _instances,
            processes: _processes,
            output: _output,
            fault: _,
        } = self;
    }
}

/// A copy of a part.
fn copy_part<'p>(alloc: Global, part: &Part<'p>) -> Result<Part<'p>, AllocError>
    ensures { IfOk result (λ copy. (sc : scoping.Scopes) → views.part sc copy ≡ views.part sc part.now) }
{
    Ok(Part {
        instance: part.instance,
        purpose: part.purpose,
        rest: part.rest.copy(alloc)?,
    })
}

/// A copy of the parts of a process.
#[tactic(auto, using(crate::proofs::Copies::copies_laws))]
fn copy_parts<'p>(alloc: Global, parts: &Stack<Part<'p>>) -> Result<Stack<Part<'p>>, AllocError>
    ensures { IfOk result (λ copies. (sc : scoping.Scopes) → map (views.part sc) copies ≡ map (views.part sc) parts.now) }
{
    let from = parts.oldest_first();
    let mut copies = Vec::with_capacity(alloc, from.len())?;
    for part in from {
        copies.push(copy_part(alloc, part)?)?;
    }
    Ok(Stack::of(copies))
}

/// A copy of what a process waits for.
fn copy_state<'p>(alloc: Global, state: &State<'p>) -> Result<State<'p>, AllocError>
    ensures { IfOk result (λ copy. copy ≡ state.now) }
{
    match state {
        State::Able => Ok(State::Able),
        State::WaitsFor(r) => Ok(State::WaitsFor(*r)),
        State::WaitsAny(rs) => Ok(State::WaitsAny(copy_list(alloc, rs)?)),
        State::Procures(r) => Ok(State::Procures(*r)),
        State::Ended => Ok(State::Ended),
    }
}

/// A copy of a process.
fn copy_process<'p>(alloc: Global, q: &Process<'p>) -> Result<Process<'p>, AllocError>
    ensures { IfOk result (λ copy. (sc : scoping.Scopes) → views.process sc copy ≡ views.process sc q.now) }
{
    let state = copy_state(alloc, &q.state)?;
    Ok(Process {
        todo: copy_parts(alloc, &q.todo)?,
        critical: q.critical,
        task: q.task,
        state,
        woken: q.woken,
    })
}

/// Copies of processes.
#[tactic(auto, using(crate::proofs::Copies::copies_laws))]
fn copy_processes<'p>(
    alloc: Global,
    processes: &[Process<'p>],
) -> Result<List<Process<'p>>, AllocError>
    ensures { IfOk result (λ copies. (sc : scoping.Scopes) → views.processes sc copies ≡ views.processes sc processes.now) }
{
    let mut copies = Vec::with_capacity(alloc, processes.len())?;
    for q in processes {
        copies.push(copy_process(alloc, q)?)?;
    }
    Ok(List::of(copies))
}

/// Copies of lines.
fn copy_lines(alloc: Global, lines: &[Line]) -> Result<List<Line>, AllocError>
    ensures { IfOk result (λ copies. copies ≡ lines.now) }
{
    let mut copies = Vec::with_capacity(alloc, lines.len())?;
    for line in lines {
        copies.push(Line::of(Vec::from_slice(alloc, line.bytes())?))?;
    }
    Ok(List::of(copies))
}

impl<'p> World<'p> {
    /// What of the world its actions change. It costs as much as the world is large.
    pub fn save(&self, alloc: Global) -> Result<Saved<'p>, AllocError>
        ensures { IfOk result (λ saved. saved_in (scoped self.now.scopes) saved ≡ world_of self.now) }
    {
        Ok(Saved {
            instances: self.instances.copy(alloc)?,
            processes: copy_processes(alloc, self.processes.items())?,
            output: copy_lines(alloc, self.output.items())?,
            fault: self.fault,
        })
    }
}

impl<'p> Saved<'p> {
    /// The world is as it was when this was saved. Takes no memory.
    pub fn put_back(self, world: &mut World<'p>)
        ensures as_saved { world_of world.new ≡ saved_in (scoped world.old.scopes) self.entry }
        ensures same { world.new.scopes ≡ world.old.scopes }
    {
        let Saved {
            instances,
            processes,
            output,
            fault,
        } = self;
        discard(mem::replace(&mut world.instances, instances));
        discard(mem::replace(&mut world.processes, processes));
        discard(mem::replace(&mut world.output, output));
        world.fault = fault;
    }
}
