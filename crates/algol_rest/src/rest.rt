//! What a part of a process has still to do: how it begins, what its head asks for, and how it goes on.

ghost use Rattle.std.specs.Prelude.{◌≡◌, [], IfOk};
ghost use Rattle.algol_tree.specs.Scopes as scoping;
ghost use Rattle.algol_meaning.specs.Settle as settling;
ghost use Rattle.algol_meaning.specs.Statements as statements;
ghost use Rattle.algol_meaning.specs.Statements.{settle_items, items_of, items_from, ending};
ghost use Rattle.algol_meaning.specs.Asks as asks;
ghost use Rattle.algol_meaning.specs.SeenTree.{expr, stmt, stmts};
ghost use Rattle.algol_cells.specs.SeenScope.{scoped, block};
ghost use Rattle.algol_rest_expr.specs.SeenExpression.{rest_answered};
ghost use Rattle.algol_rest.specs.SeenStatement.{ahead, HeadFinds};
ghost use Rattle.algol_rest.specs.SeenRest.{rest, rest_asked};

use crate::ask::Ask;
use crate::copying::copy_point;
use crate::held::boxed;
use crate::standing::stand;
use crate::statement::{Last, Next, Point, Sought, Target, Within, Work};
use algol_cells::{Block, BlockStatements, Scopes, Stack};
use algol_meaning::same_name;
use algol_rest_expr::{Answer, Control, copy_frames};
use algol_tree::{Expr, Line, Stmt};
use std::alloc::{AllocError, Global};

/// What a part of a process has still to do: where its head is, what is around the head, and what follows.
pub struct Rest<'p> {
    work: Box<Work<'p>>,
}

/// It is let go by a call, so that the proofs of the crates above do not go through its parts.
impl<'p> Drop for Rest<'p> {
    fn drop(self) {
        let Rest { work: _work } = self;
    }
}

impl<'p> Rest<'p> {
    /// The part that enters a block, or the body of a procedure: its declarations come first, and where it is a typed
    /// procedure's, its result comes last.
    pub fn of_block(
        alloc: Global,
        scopes: &Scopes<'p>,
        entered: &Block<'p>,
    ) -> Result<Rest<'p>, AllocError>
        ensures { IfOk result (λ r. rest (scoped scopes.now) r ≡ settle_items (scoped scopes.now) (items_of (block entered.now))) }
    {
        let mut work = Work::new(alloc)?;
        work.enter_from(alloc, scopes, entered)?;
        Ok(Rest { work })
    }

    /// The part that goes to a label in a block's own list of statements: that list from the label on.
    pub fn from_label(
        alloc: Global,
        scopes: &Scopes<'p>,
        within: &Block<'p>,
        label: &Line,
    ) -> Result<Rest<'p>, AllocError>
        ensures { IfOk result (λ r. rest (scoped scopes.now) r ≡ settle_items (scoped scopes.now) (items_from (block within.now) label.now)) }
    {
        let mut work = Work::new(alloc)?;
        work.enter_at(alloc, scopes, within, label)?;
        Ok(Rest { work })
    }

    /// The part that evaluates a name for its value.
    pub fn of_value(
        alloc: Global,
        scopes: &Scopes<'p>,
        actual: &'p Expr,
    ) -> Result<Rest<'p>, AllocError>
        ensures { IfOk result (λ r. rest (scoped scopes.now) r ≡ asks.evaluated_of (settling.settle (scoped scopes.now) (expr actual.now))) }
    {
        let mut work = Work::new(alloc)?;
        work.evaluate(alloc, scopes, actual)?;
        Ok(Rest { work })
    }

    /// The part that evaluates a name for its place.
    pub fn of_place(
        alloc: Global,
        scopes: &Scopes<'p>,
        actual: &'p Expr,
    ) -> Result<Rest<'p>, AllocError>
        ensures { IfOk result (λ r. rest (scoped scopes.now) r ≡ asks.located_of (settling.settle_actual_place (scoped scopes.now) (expr actual.now))) }
    {
        let mut work = Work::new(alloc)?;
        work.locate(alloc, scopes, actual)?;
        Ok(Rest { work })
    }

    /// What the head asks for.
    pub fn ask<'a>(&'a self) -> Ask<'a, 'p>
        ensures { (sc : scoping.Scopes) → rest_asked result ≡ asks.ask (rest sc self.now) }
    {
        self.work.point.ask()
    }

    /// What the part has still to do once its head has this answer, after the silent steps.
    pub fn resume(
        self,
        alloc: Global,
        scopes: &Scopes<'p>,
        answer: Answer<'p>,
    ) -> Result<Rest<'p>, AllocError>
        ensures { IfOk result (λ r. rest (scoped scopes.now) r ≡ asks.resume (scoped scopes.now) (rest (scoped scopes.now) self.entry) (rest_answered answer.entry)) }
    {
        let Rest { mut work } = self;
        work.resume(alloc, scopes, answer)?;
        Ok(Rest { work })
    }

    /// A copy of what the part has still to do.
    pub fn copy(&self, alloc: Global) -> Result<Rest<'p>, AllocError>
        ensures { IfOk result (λ copy. (sc : scoping.Scopes) → rest sc copy ≡ rest sc self.now) }
    {
        let mut work = Work::new(alloc)?;
        work.copy_from(alloc, &*self.work)?;
        Ok(Rest { work })
    }
}

impl<'p> Work<'p> {
    /// The same work as another.
    fn copy_from(&mut self, alloc: Global, other: &Work<'p>) -> Result<(), AllocError>
        ensures point { IfOk result (λ _. self.new.point.value ≡ other.now.point.value) }
        ensures frames { IfOk result (λ _. self.new.frames ≡ other.now.frames) }
        ensures todo { IfOk result (λ _. self.new.todo ≡ other.now.todo) }
    {
        let point = copy_point(alloc, &*other.point)?;
        stand(&mut self.point, point);
        self.frames.set(copy_frames(alloc, &other.frames)?);
        self.todo.set(other.todo.copy(alloc)?);
        Ok(())
    }

    /// No work.
    fn new(alloc: Global) -> Result<Box<Work<'p>>, AllocError>
        ensures frames { IfOk result (λ w. w.value.frames ≡ []) }
        ensures todo { IfOk result (λ w. w.value.todo ≡ []) }
    {
        let point = boxed(alloc, Point::Last(Last::Over))?;
        let work = Work {
            point,
            frames: Stack::new(alloc),
            todo: Stack::new(alloc),
        };
        boxed(alloc, work)
    }

    /// What comes at the end of a block: the result, where it is a typed procedure's.
    fn end(&mut self, ended: &Block<'p>) -> Result<(), AllocError>
        requires { self.old.todo ≡ [] }
        ensures { IfOk result (λ _. ahead self.new ≡ ending (block ended.now)) }
    {
        if let Some(owner) = ended.owner {
            if owner.result.is_some() {
                self.todo.push(Next::Result(owner.name))?;
            }
        }
        Ok(())
    }

    /// All of a block, up to the first head.
    fn enter_from(
        &mut self,
        alloc: Global,
        scopes: &Scopes<'p>,
        entered: &Block<'p>,
    ) -> Result<(), AllocError>
        requires { self.old.todo ≡ [] }
        ensures { IfOk result (λ _. HeadFinds (scoped scopes.now) (settle_items (scoped scopes.now) (items_of (block entered.now))) self.new) }
    {
        self.end(entered)?;
        match entered.stmts {
            BlockStatements::All(ss) => self.todo.push(Next::Rest(ss))?,
            BlockStatements::One(s) => self.todo.push(Next::Run(s))?,
        }
        self.todo.push(Next::Decls(entered.decls))?;
        self.go_on(alloc, scopes)
    }

    /// A block from a label on, up to the first head.
    fn enter_at(
        &mut self,
        alloc: Global,
        scopes: &Scopes<'p>,
        within: &Block<'p>,
        label: &Line,
    ) -> Result<(), AllocError>
        requires { self.old.todo ≡ [] }
        ensures { IfOk result (λ _. HeadFinds (scoped scopes.now) (settle_items (scoped scopes.now) (items_from (block within.now) label.now)) self.new) }
    {
        self.end(within)?;
        match within.stmts {
            BlockStatements::All(ss) => { self.todo.push(Next::Rest(from_label(ss, label)))? }
            BlockStatements::One(s) => {
                if is_labelled(s, label) {
                    self.todo.push(Next::Run(s))?;
                }
            }
        }
        self.go_on(alloc, scopes)
    }

    /// The value of an actual, up to the first head.
    fn evaluate(
        &mut self,
        alloc: Global,
        scopes: &Scopes<'p>,
        actual: &'p Expr,
    ) -> Result<(), AllocError>
        requires { self.old.frames ≡ [] }
        ensures { IfOk result (λ _. HeadFinds (scoped scopes.now) (asks.evaluated_of (settling.settle (scoped scopes.now) (expr actual.now))) self.new) }
    {
        self.go_on_from(alloc, scopes, Control::Eval(actual), Within::Evaluating)
    }

    /// The place of an actual, up to the first head.
    fn locate(
        &mut self,
        alloc: Global,
        scopes: &Scopes<'p>,
        actual: &'p Expr,
    ) -> Result<(), AllocError>
        requires { self.old.frames ≡ [] }
        ensures { IfOk result (λ _. HeadFinds (scoped scopes.now) (asks.located_of (settling.settle_actual_place (scoped scopes.now) (expr actual.now))) self.new) }
    {
        match actual {
            Expr::Variable(v) => {
                self.aim(alloc, scopes, Sought::Locating, &v.name, v.subs.items())
            }
            _ => {
                stand(
                    &mut self.point,
                    Point::Seek(Sought::Locating, Target::Inside),
                );
                Ok(())
            }
        }
    }
}

/// Tests that a label stands before a statement.
#[tactic(auto, using(crate::proofs::Labels::label_laws))]
fn is_labelled(s: &Stmt, label: &Line) -> bool
    ensures { result ≡ statements.is_labelled (stmt s.now) label.now }
{
    let mut at = s;
    'looking: while let Stmt::Label(n, inner) = at {
        if same_name(&n.name, label) {
            return true;
        }
        at = inner;
    }
    false
}

/// The statements of a list from the one on before which a label stands.
fn from_label<'p>(ss: &'p [Stmt], label: &Line) -> &'p [Stmt]
    ensures { stmts result.now ≡ statements.stmts_from (stmts ss.now) label.now }
{
    let mut at = ss;
    'looking: while let Some((s, rest)) = at.split_first() {
        if is_labelled(s, label) {
            return at;
        }
        at = rest;
    }
    at
}
