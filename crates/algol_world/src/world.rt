//! The world of a run.

use algol_cells::{Reference, Scopes, Stack};
use algol_instances::Instances;
use algol_rest::Rest;
use algol_tree::{Line, List};
use b67_num::FaultKind;

/// What a part is for.
#[derive(Clone, Copy)]
pub enum Purpose {
    Block,
    Procedure,
    /// The evaluation of a name for its value.
    NameRead,
    /// The evaluation of a name for its place.
    NamePlace,
    /// The body of a process that was started.
    Started,
}

/// A part of what a process has to do: the instance in which it goes on, and what is still to be done.
#[derive(Drop)]
pub struct Part<'p> {
    pub instance: usize,
    pub purpose: Purpose,
    pub rest: Rest<'p>,
}

/// Whether a process can go on, and what it waits for.
#[derive(Drop)]
pub enum State<'p> {
    Able,
    WaitsFor(Reference<'p>),
    /// For several events, in the order in which they are named, with repeats.
    WaitsAny(List<Reference<'p>>),
    Procures(Reference<'p>),
    Ended,
}

/// A process: its parts with the innermost newest, the instance on whose life it depends, its task, and the place, from 1, of the
/// event that released it among those for which it waited, 0 where it has gone on since.
pub struct Process<'p> {
    pub todo: Stack<Part<'p>>,
    pub critical: Option<usize>,
    pub task: Option<Reference<'p>>,
    pub state: State<'p>,
    pub woken: usize,
}

/// A process is let go by a call, so that the proofs of the crates above do not go through its parts.
impl<'p> Drop for Process<'p> {
    fn drop(self) {
        let Process {
            todo: _todo,
            critical: _,
            task: _,
            state: _state,
            woken: _,
        } = self;
    }
}

/// The fault that ended a run, and the process in which it came.
#[derive(Clone, Copy)]
pub struct WorldFault {
    pub kind: FaultKind,
    pub process: usize,
}

/// The world of a run: instances and processes, numbered from 1, the lines written, and the fault that ended it,
/// beside the scopes of the tree that is run.
pub struct World<'p> {
    pub scopes: Scopes<'p>,
    pub instances: Instances<'p>,
    pub processes: List<Process<'p>>,
    pub output: List<Line>,
    pub fault: Option<WorldFault>,
}

/// A world is let go by a call, so that the proofs of the crates above do not go through its parts.
impl<'p> Drop for World<'p> {
    fn drop(self) {
        let World {
            scopes: _scopes,
            instances: _instances,
            processes: _processes,
            output: _output,
            fault: _,
        } = self;
    }
}
