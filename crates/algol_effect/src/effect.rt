//! What an action does, once all that it reads is known.

use algol_cells::{Cell, Reference, Value};
use algol_instances::NamedCell;
use algol_rest_expr::Answer;
use algol_tree::{EventAct, Line, List, Named};
use algol_world::Part;
use b67_deeds::Letter;
use b67_num::FaultKind;

/// What the action of a part does to the world.
#[derive(Drop)]
pub enum Effect<'p> {
    /// Nothing: a part inside is in progress. A run comes to no such head.
    Nothing,
    /// The part goes on with this answer.
    Goes(Letter, Answer<'p>),
    Stores(Reference<'p>, Value),
    /// The storing of an element, with its subscripts counted from the lower bounds.
    StoresElement(Reference<'p>, List<usize>, Value),
    /// A name is evaluated by a part inside.
    Evaluates(Part<'p>),
    /// The entry of a procedure: its block, the instance around it, and what its parameters hold.
    EntersProcedure(usize, usize, Vec<Cell<'p>>),
    /// The entry of a block, by its number.
    EntersBlock(usize),
    Leaves(Answer<'p>),
    /// To a label that an instance's block has.
    GoesTo(&'p Named, usize),
    /// The start of a process: its block, the instance around it, what its parameters hold, and its task.
    Starts(usize, usize, Vec<Cell<'p>>, Option<Reference<'p>>),
    /// A statement on an event.
    Acts(EventAct, Reference<'p>),
    /// An event is taken, where it is available.
    Fixes(Reference<'p>),
    /// The process waits for several events.
    Waits(List<Reference<'p>>),
    /// A process goes on with this value that one of several events released.
    Wakes(Value),
    /// A line of the output.
    Writes(Line),
    /// Arrays, with all their elements.
    MakesArrays(Vec<NamedCell<'p>>),
    MakesEvent(&'p Named),
    Fails(FaultKind),
}
