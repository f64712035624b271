//! What a part has still to do: where its head is, what is around the head, and what follows.

use algol_cells::{Cell, Reference, Value};
use algol_tree::{EventName, EventTest, Expr, List, Named, Op};
use b67_num::NumFault;

/// What can be stored to.
#[derive(Drop)]
pub enum Place<'p> {
    /// A variable that this part names.
    Own(&'p Named),
    There(Reference<'p>),
    /// An element of that array, each subscript counted from its lower bound.
    ElementOf(Reference<'p>, List<usize>),
}

/// An actual that is done.
#[derive(Drop)]
pub enum Given<'p> {
    Valued(Value),
    /// The own cell of a parameter.
    Passed(Cell<'p>),
    /// A Reference to what this part names.
    Refers(&'p Named),
    /// A Name.
    Names(&'p Expr),
}

/// The head of an expression.
#[derive(Drop)]
pub enum Head<'p> {
    Read(&'p Named),
    /// The reading of an element, with the last subscript.
    Element(&'p Named, List<usize>, Value),
    /// A subscript that others follow: the next one, and those after it.
    Index(&'p Named, List<usize>, Value, &'p Expr, &'p [Expr]),
    /// What is asked of these events.
    Tests(EventTest, &'p [EventName]),
    /// An operator that has no result but this fault.
    Broken(Op, Value, Value, NumFault),
    Enter(&'p Named, List<Given<'p>>),
    /// The passing of a parameter: the procedure, its actuals before, the parameter, and the actuals after it.
    Pass(&'p Named, List<Given<'p>>, &'p Named, &'p [Expr]),
    /// A call, or the evaluation of a name, is in progress.
    Inside,
}

/// What is around the head of an expression, one for each operator, subscript or actual.
#[derive(Drop)]
pub enum Frame<'p> {
    /// In a subscript: the subscripts before, and the expressions after it.
    Subscript(&'p Named, List<usize>, &'p [Expr]),
    /// In an actual by value: the actuals before, and those after it.
    Argument(&'p Named, List<Given<'p>>, &'p [Expr]),
    /// In the first operand.
    Left(Op, &'p Expr),
    /// In the second operand.
    Right(Op, Value),
    Negated,
    Inverted,
    /// In the condition of an IF.
    Condition(&'p Expr, &'p Expr),
}

/// How far an expression has come: still to be evaluated, a value, or at its head.
#[derive(Drop)]
pub enum Control<'p> {
    Eval(&'p Expr),
    Value(Value),
    Found(Head<'p>),
}

/// An expression after its silent steps.
#[derive(Drop)]
pub enum Outcome<'p> {
    Value(Value),
    Busy(Head<'p>),
}

/// The actuals of a call after their silent steps.
#[derive(Drop)]
pub enum Supplied<'p> {
    /// All are done.
    Given(List<Given<'p>>),
    /// The next one is the passing of a parameter.
    Pass(List<Given<'p>>, &'p Named, &'p [Expr]),
    /// The next one is by value.
    Value(List<Given<'p>>, &'p Expr, &'p [Expr]),
}

/// The actuals of a call after one of them: they go on, with these done, or stop there.
#[derive(Drop)]
pub enum Supply<'p> {
    Further(List<Given<'p>>),
    Stopped(Supplied<'p>),
}

/// What the head has when it has acted.
#[derive(Drop)]
pub enum Answer<'p> {
    Done,
    Value(Value),
    Cell(Cell<'p>),
    Place(Place<'p>),
    /// A part inside is in progress.
    Entered,
}
