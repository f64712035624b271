//! What a part has still to do, as to its statements: what follows, and what an expression is evaluated for.

use algol_cells::{Stack, Value};
use algol_rest_expr::{Frame, Given, Head, Place};
use algol_tree::{
    Body, Decl, EventAct, Expr, Kind, Line, List, Named, Pair, PhraseText, Stmt, Whole,
};

/// What follows a statement.
#[derive(Clone, Copy)]
pub enum Next<'p> {
    Run(&'p Stmt),
    /// The statements of a list from there on.
    Rest(&'p [Stmt]),
    Turn,
    Result(&'p Line),
    /// What of this loop follows its body.
    Again(Again, &'p Stmt),
    /// An event for each of these names.
    Events(&'p [Named]),
    /// The declarations of a block from there on.
    Decls(&'p [Decl]),
}

/// What of a loop follows its body.
#[derive(Clone, Copy)]
pub enum Again {
    /// THRU with its number.
    Count(Whole),
    /// The test of DO .. UNTIL.
    Check,
    /// The stepping of FOR.
    Step,
    /// The test of FOR.
    Test,
}

/// The right side of an assignment: an expression of the tree, or the sum of a FOR's control variable and its step.
#[derive(Clone, Copy)]
pub enum Right<'p> {
    Expr(&'p Expr),
    Stepped(&'p Named, &'p Expr),
}

/// What a place is asked for: the left side of an assignment, or a name's place.
#[derive(Clone, Copy)]
pub enum Sought<'p> {
    Aiming(Right<'p>),
    Locating,
}

/// What the actuals of a statement are for: a call, or a process with its task.
#[derive(Clone, Copy)]
pub enum Role<'p> {
    Calls,
    Starts(&'p Option<Named>),
}

/// What an expression is evaluated for.
#[derive(Drop)]
pub enum Within<'p> {
    /// A name.
    Evaluating,
    Storing(Place<'p>),
    /// The test or the number of this statement; the difference in the test of a FOR.
    Testing(&'p Stmt),
    /// The step in the test of this FOR, with the difference.
    Stepping(Value, &'p Stmt),
    /// An actual by value: the actuals before it, and those after it.
    Supplying(Role<'p>, &'p Named, List<Given<'p>>, &'p [Expr]),
    /// A subscript of a place: those before it, and the expressions after it.
    Subscripting(Sought<'p>, &'p Named, List<usize>, &'p [Expr]),
    /// An item of a line: the values before it, and the expressions after it.
    Writing(&'p [PhraseText], List<Value>, &'p [Expr]),
    /// An upper bound: the values before it, and the pairs after it.
    Bounding(Kind, &'p [Named], &'p [Pair], List<Value>, &'p [Pair]),
}

/// A head where no expression is around it, whose part goes on with what follows.
#[derive(Drop)]
pub enum Deed<'p> {
    Store(Place<'p>, Value),
    Turn,
    Start(&'p Named, List<Given<'p>>, &'p Option<Named>),
    Event(EventAct, &'p Named),
    Line(&'p [PhraseText], List<Value>),
    Arrays(Kind, &'p [Named], &'p [Pair], List<Value>),
    MakeEvent(&'p Named),
    /// A block or a call is in progress.
    Within,
    /// A call is in progress whose result is dropped.
    Dropping,
}

/// A head at which a part stays: its end, or a GO TO.
#[derive(Drop)]
pub enum Last<'p> {
    Over,
    Giving(Value),
    GivingPlace(Place<'p>),
    Going(&'p Named),
}

/// A head of a place: a name parameter, a subscript, or the evaluation of a name's place that is in progress.
#[derive(Drop)]
pub enum Target<'p> {
    Resolve(&'p Named),
    Index(&'p Named, List<usize>, Value, &'p [Expr]),
    Inside,
}

/// Where a part stands.
#[derive(Drop)]
pub enum Point<'p> {
    Last(Last<'p>),
    /// The reading of the result.
    Reading(&'p Line),
    Deed(Deed<'p>),
    Select(Value, &'p [Stmt]),
    EnterBlock(&'p Body),
    Enter(&'p Named, List<Given<'p>>),
    Pass(Role<'p>, &'p Named, List<Given<'p>>, &'p Named, &'p [Expr]),
    Seek(Sought<'p>, Target<'p>),
    In(Head<'p>, Within<'p>),
}

/// A part's work: where it stands, what is around its head, with the innermost newest, and what follows, with the next
/// newest.
#[derive(Drop)]
pub struct Work<'p> {
    pub point: Box<Point<'p>>,
    pub frames: Stack<Frame<'p>>,
    pub todo: Stack<Next<'p>>,
}
