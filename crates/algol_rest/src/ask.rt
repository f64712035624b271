//! What the head of a part asks for.

ghost use Rattle.std.specs.Prelude.{◌≡◌, List};
ghost use Rattle.algol_tree.specs.Scopes as scoping;
ghost use Rattle.algol_meaning.specs.Rest as rest;
ghost use Rattle.algol_meaning.specs.Asks as asks;
ghost use Rattle.algol_rest_expr.specs.SeenExpression.{hole};
ghost use Rattle.algol_rest.specs.SeenStatement.{deed_at, last_at, target_at, rest_of};
ghost use Rattle.algol_rest.specs.SeenRest.{rest_asked};
ghost use Rattle.algol_rest_expr.specs.declared.part.Frame.{Frame};
ghost use Rattle.algol_rest.specs.declared.statement.Next.{Next};

use crate::statement::{Deed, Last, Point, Target};
use algol_cells::Value;
use algol_rest_expr::{Given, Head, Place};
use algol_tree::{Body, EventAct, EventName, EventTest, Kind, Line, Named, Pair, PhraseText, Stmt};
use b67_num::NumFault;

/// What the head of a part asks for. Lists are those of the part.
#[derive(Clone, Copy)]
pub enum Ask<'a, 'p> {
    /// Nothing: a part inside is in progress.
    Nothing,
    /// The value of a variable or parameter.
    Reads(&'p Named),
    /// The value of an element, with its subscripts before the last, and the last.
    ReadsElement(&'p Named, &'a [usize], Value),
    /// A subscript that others follow, or that is a place's: those before it, and its value.
    Indexes(&'p Named, &'a [usize], Value),
    /// What is asked of these events.
    Tests(EventTest, &'p [EventName]),
    /// The fault of an operator.
    Fails(NumFault),
    /// The entry of a procedure with its actuals.
    Enters(&'p Named, &'a [Given<'p>]),
    /// The own cell of a parameter.
    Passes(&'p Named),
    /// The place of a name parameter.
    Resolves(&'p Named),
    /// The result of a typed procedure of that name.
    ReadsResult(&'p Line),
    /// The leaving of the part: with nothing, with a value, or with a place.
    Leaves,
    LeavesWith(Value),
    LeavesAt(&'a Place<'p>),
    Stores(&'a Place<'p>, Value),
    /// The statement of a CASE with that number.
    Selects(Value, &'p [Stmt]),
    Turns,
    GoesTo(&'p Named),
    EntersBlock(&'p Body),
    /// The start of a process, with its actuals and its task.
    Starts(&'p Named, &'a [Given<'p>], &'p Option<Named>),
    Acts(EventAct, &'p Named),
    /// A line, with its phrases and the values of its items.
    Writes(&'p [PhraseText], &'a [Value]),
    /// Arrays, with the pairs of their bounds and the values of the upper ones.
    MakesArrays(Kind, &'p [Named], &'p [Pair], &'a [Value]),
    MakesEvent(&'p Named),
}

/// What the head of an expression asks for.
fn ask_head<'a, 'p>(head: &'a Head<'p>) -> Ask<'a, 'p>
    ensures { (sc : scoping.Scopes) → rest_asked result ≡ asks.ask_hole (hole sc head.now) }
{
    match head {
        Head::Read(n) => Ask::Reads(*n),
        Head::Element(n, ks, v) => Ask::ReadsElement(*n, ks.items(), *v),
        Head::Index(n, ks, v, _, _) => Ask::Indexes(*n, ks.items(), *v),
        Head::Tests(test, es) => Ask::Tests(*test, *es),
        Head::Broken(_, _, _, fault) => Ask::Fails(*fault),
        Head::Enter(n, gs) => Ask::Enters(*n, gs.items()),
        Head::Pass(_, _, m, _) => Ask::Passes(*m),
        Head::Inside => Ask::Nothing,
    }
}

impl<'p> Target<'p> {
    /// What the head of a place asks for.
    fn ask<'a>(&'a self) -> Ask<'a, 'p>
        ensures { rest_asked result ≡ asks.ask_aim (target_at self.now) }
    {
        match self {
            Target::Resolve(n) => Ask::Resolves(*n),
            Target::Index(n, ks, v, _) => Ask::Indexes(*n, ks.items(), *v),
            Target::Inside => Ask::Nothing,
        }
    }
}

impl<'p> Deed<'p> {
    /// What a head asks for around which no expression stands.
    fn ask<'a>(&'a self) -> Ask<'a, 'p>
        ensures { (k : List rest.Item) → rest_asked result ≡ asks.ask (deed_at self.now k) }
    {
        match self {
            Deed::Store(to, v) => Ask::Stores(to, *v),
            Deed::Turn => Ask::Turns,
            Deed::Start(n, gs, task) => Ask::Starts(*n, gs.items(), *task),
            Deed::Event(act, n) => Ask::Acts(*act, *n),
            Deed::Line(phrases, vs) => Ask::Writes(*phrases, vs.items()),
            Deed::Arrays(kind, ns, pairs, vs) => {
                Ask::MakesArrays(*kind, *ns, *pairs, vs.items())
            }
            Deed::MakeEvent(n) => Ask::MakesEvent(*n),
            Deed::Within | Deed::Dropping => Ask::Nothing,
        }
    }
}

impl<'p> Last<'p> {
    /// What a head asks for at which the part stays.
    fn ask<'a>(&'a self) -> Ask<'a, 'p>
        ensures { rest_asked result ≡ asks.ask (last_at self.now) }
    {
        match self {
            Last::Over => Ask::Leaves,
            Last::Giving(v) => Ask::LeavesWith(*v),
            Last::GivingPlace(at) => Ask::LeavesAt(at),
            Last::Going(n) => Ask::GoesTo(*n),
        }
    }
}

impl<'p> Point<'p> {
    /// What the head of a part asks for that stands there.
    #[tactic(auto, using(crate::proofs::Asking::ask_laws))]
    pub fn ask<'a>(&'a self) -> Ask<'a, 'p>
        ensures { (sc : scoping.Scopes) (fs : List Frame) (k : List Next) → rest_asked result ≡ asks.ask (rest_of sc self.now fs k) }
    {
        match self {
            Point::Last(last) => last.ask(),
            Point::Reading(name) => Ask::ReadsResult(*name),
            Point::Deed(deed) => deed.ask(),
            Point::Select(v, ss) => Ask::Selects(*v, *ss),
            Point::EnterBlock(b) => Ask::EntersBlock(*b),
            Point::Enter(n, gs) => Ask::Enters(*n, gs.items()),
            Point::Pass(_, _, _, m, _) => Ask::Passes(*m),
            Point::Seek(_, target) => target.ask(),
            Point::In(head, _) => ask_head(head),
        }
    }
}
