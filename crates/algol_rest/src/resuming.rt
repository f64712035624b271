//! A part goes on once its head has its answer.

ghost use Rattle.std.specs.Prelude.{◌≡◌, ◌++◌, [], ◌∷◌, nat_abs, pos, IfOk};
ghost use Rattle.algol_tree.specs.Plain as tree;
ghost use Rattle.algol_tree.specs.Scopes as scoping;
ghost use Rattle.algol_meaning.specs.Rest as rest;
ghost use Rattle.algol_meaning.specs.Settle as settling;
ghost use Rattle.algol_meaning.specs.Statements.{settle_items};
ghost use Rattle.algol_meaning.specs.Asks as asks;
ghost use Rattle.algol_meaning.specs.Value as plain;
ghost use Rattle.algol_meaning.specs.SeenTree.{expr, exprs, stmt, stmts};
ghost use Rattle.algol_cells.specs.SeenValue.{value};
ghost use Rattle.algol_cells.specs.SeenScope.{scoped};
ghost use Rattle.algol_cells.specs.SeenCell.{cell};
ghost use Rattle.algol_rest_expr.specs.SeenExpression.{rest_answered, all_done, sorts_from, sorts_after, hole, wrap};
ghost use Rattle.algol_rest.specs.SeenRest.{stmt_or_empty};
ghost use Rattle.algol_rest.specs.SeenStatement.{ahead, HeadFinds, role_at, sought_at, target_at, held, rest_of};

use crate::standing::{leave, stand};
use crate::statement::{Deed, Next, Point, Role, Sought, Target, Within, Work};
use algol_cells::{Scopes, Value, whole_of};
use algol_rest_expr::{Answer, Given, Head, add_given, cell_of, filled, put, subscripts_of};
use algol_tree::{Expr, List, Named, Stmt};
use b67_list::discard;
use std::alloc::{AllocError, Global};

impl<'p> Work<'p> {
    /// The result has been read.
    fn read(
        &mut self,
        alloc: Global,
        scopes: &Scopes<'p>,
        answer: Answer<'p>,
    ) -> Result<(), AllocError>
        ensures { IfOk result (λ _. HeadFinds (scoped scopes.now) (asks.evaluated_of (settling.half_of (rest_answered answer.entry))) self.new) }
    {
        self.frames.clear();
        let from = filled(&answer);
        discard(answer);
        self.go_on_from(alloc, scopes, from, Within::Evaluating)
    }

    /// The statement of a CASE with that number comes next.
    fn push_nth(&mut self, v: Value, ss: &'p [Stmt]) -> Result<(), AllocError>
        ensures { (sc : scoping.Scopes) → IfOk result (λ _. settle_items sc (rest.run (asks.nth_stmt (stmts ss.now) (nat_abs (plain.whole_of (value v)))) ∷ ahead self.old) ≡ settle_items sc (ahead self.new)) }
    {
        match nth(v, ss) {
            None => Ok(()),
            Some(s) => self.todo.push(Next::Run(s)),
        }
    }

    /// A CASE goes on with the statement of that number.
    fn select(
        &mut self,
        alloc: Global,
        scopes: &Scopes<'p>,
        v: Value,
        ss: &'p [Stmt],
    ) -> Result<(), AllocError>
        ensures { IfOk result (λ _. HeadFinds (scoped scopes.now) (settle_items (scoped scopes.now) (rest.run (asks.nth_stmt (stmts ss.now) (nat_abs (plain.whole_of (value v)))) ∷ ahead self.old)) self.new) }
    {
        self.push_nth(v, ss)?;
        self.go_on(alloc, scopes)
    }

    /// A block is entered, or its entry has failed.
    fn enter_block(
        &mut self,
        alloc: Global,
        scopes: &Scopes<'p>,
        answer: &Answer<'p>,
    ) -> Result<(), AllocError>
        ensures { IfOk result (λ _. HeadFinds (scoped scopes.now) (asks.inside_or_after (scoped scopes.now) (rest_answered answer.now) (ahead self.old)) self.new) }
    {
        match answer {
            Answer::Entered => {
                stand(&mut self.point, Point::Deed(Deed::Within));
                Ok(())
            }
            _ => self.go_on(alloc, scopes),
        }
    }

    /// A procedure that a statement calls is entered: its result is dropped where it has one.
    fn enter(
        &mut self,
        alloc: Global,
        scopes: &Scopes<'p>,
        n: &'p Named,
        answer: &Answer<'p>,
    ) -> Result<(), AllocError>
        ensures { IfOk result (λ _. HeadFinds (scoped scopes.now) (asks.asks_called (scoped scopes.now) (settling.is_typed (scoped scopes.now) n.now) (rest_answered answer.now) (ahead self.old)) self.new) }
    {
        match answer {
            Answer::Entered => {
                if scopes.is_typed(n) {
                    stand(&mut self.point, Point::Deed(Deed::Dropping));
                    Ok(())
                } else {
                    stand(&mut self.point, Point::Deed(Deed::Within));
                    Ok(())
                }
            }
            _ => self.go_on(alloc, scopes),
        }
    }

    /// An actual of a statement's call is passed, and the actuals after it come next.
    #[tactic(auto, using(algol_rest_expr::proofs::Supplying::supply_laws))]
    fn pass(
        &mut self,
        alloc: Global,
        scopes: &Scopes<'p>,
        role: Role<'p>,
        n: &'p Named,
        mut gs: List<Given<'p>>,
        es: &'p [Expr],
        answer: Answer<'p>,
    ) -> Result<(), AllocError>
        ensures { IfOk result (λ _. HeadFinds (scoped scopes.now) (role_at role.entry n.now (settling.settle_actuals (scoped scopes.now) (exprs es.now) (sorts_after (scoped scopes.now) n.now gs.entry) (all_done gs.entry ++ rest.passed (rest.cell_of_answer (rest_answered answer.entry) (plain.simple (plain.number (pos 0)))) ∷ [])) (ahead self.old)) self.new) }
    {
        self.frames.clear();
        add_given(&mut gs, Given::Passed(cell_of(answer)))?;
        self.prepare(alloc, scopes, role, n, gs, es)
    }

    /// A place is found, or its evaluation is in progress.
    fn place(
        &mut self,
        alloc: Global,
        scopes: &Scopes<'p>,
        sought: Sought<'p>,
        answer: Answer<'p>,
    ) -> Result<(), AllocError>
        requires { self.old.frames ≡ [] }
        ensures { IfOk result (λ _. HeadFinds (scoped scopes.now) (sought_at (scoped scopes.now) sought.entry (settling.half_place_of (rest_answered answer.entry)) (ahead self.old)) self.new) }
    {
        match answer {
            Answer::Place(at) => self.found(alloc, scopes, sought, at),
            other => {
                discard(other);
                stand(&mut self.point, Point::Seek(sought, Target::Inside));
                Ok(())
            }
        }
    }

    /// A subscript of a place is computed: after the last one the place is found.
    fn index(
        &mut self,
        alloc: Global,
        scopes: &Scopes<'p>,
        sought: Sought<'p>,
        n: &'p Named,
        es: &'p [Expr],
        answer: Answer<'p>,
    ) -> Result<(), AllocError>
        requires { self.old.frames ≡ [] }
        ensures { IfOk result (λ _. HeadFinds (scoped scopes.now) (sought_at (scoped scopes.now) sought.entry (settling.indexed_of (scoped scopes.now) n.now (rest_answered answer.entry) (exprs es.now)) (ahead self.old)) self.new) }
    {
        match es.split_first() {
            None => self.place(alloc, scopes, sought, answer),
            Some((e, rest)) => {
                let ks = subscripts_of(alloc, answer);
                self.aim_subscript(alloc, scopes, sought, n, ks, e, rest)
            }
        }
    }

    /// The head of a place has this answer.
    fn seek(
        &mut self,
        alloc: Global,
        scopes: &Scopes<'p>,
        sought: Sought<'p>,
        target: Target<'p>,
        answer: Answer<'p>,
    ) -> Result<(), AllocError>
        ensures { IfOk result (λ _. HeadFinds (scoped scopes.now) (sought_at (scoped scopes.now) sought.entry (settling.put_place (scoped scopes.now) (target_at target.entry) (rest_answered answer.entry)) (ahead self.old)) self.new) }
    {
        self.frames.clear();
        match target {
            Target::Index(n, ks, _, es) => {
                discard(ks);
                self.index(alloc, scopes, sought, n, es, answer)
            }
            Target::Resolve(_) | Target::Inside => self.place(alloc, scopes, sought, answer),
        }
    }

    /// The head of an expression has this answer.
    #[tactic(auto, using(crate::proofs::Answering::resume_laws))]
    fn fill(
        &mut self,
        alloc: Global,
        scopes: &Scopes<'p>,
        head: Head<'p>,
        within: Within<'p>,
        answer: Answer<'p>,
    ) -> Result<(), AllocError>
        ensures { IfOk result (λ _. HeadFinds (scoped scopes.now) (asks.resume (scoped scopes.now) (held (scoped scopes.now) within.entry (rest.busy (wrap (scoped scopes.now) self.old.frames (hole (scoped scopes.now) head.entry))) (ahead self.old)) (rest_answered answer.entry)) self.new) }
    {
        match put(alloc, scopes, head, answer, &mut self.frames) {
            Ok(from) => self.go_on_from(alloc, scopes, from, within),
            Err(error) => {
                discard(within);
                Err(error)
            }
        }
    }

    /// The head at which the part stood has this answer, and the part goes on up to the next head.
    #[tactic(auto, using(crate::proofs::Answering::resume_laws))]
    fn resume_from(
        &mut self,
        alloc: Global,
        scopes: &Scopes<'p>,
        point: Point<'p>,
        answer: Answer<'p>,
    ) -> Result<(), AllocError>
        ensures { IfOk result (λ _. HeadFinds (scoped scopes.now) (asks.resume (scoped scopes.now) (rest_of (scoped scopes.now) point.entry self.old.frames self.old.todo) (rest_answered answer.entry)) self.new) }
    {
        match point {
            Point::Last(last) => {
                discard(answer);
                stand(&mut self.point, Point::Last(last));
                Ok(())
            }
            Point::Reading(_) => self.read(alloc, scopes, answer),
            Point::Deed(deed) => {
                discard(deed);
                discard(answer);
                self.go_on(alloc, scopes)
            }
            Point::Select(v, ss) => {
                discard(answer);
                self.select(alloc, scopes, v, ss)
            }
            Point::EnterBlock(_) => {
                let found = self.enter_block(alloc, scopes, &answer);
                discard(answer);
                found
            }
            Point::Enter(n, gs) => {
                discard(gs);
                let found = self.enter(alloc, scopes, n, &answer);
                discard(answer);
                found
            }
            Point::Pass(role, n, gs, _, es) => self.pass(alloc, scopes, role, n, gs, es, answer),
            Point::Seek(sought, target) => self.seek(alloc, scopes, sought, target, answer),
            Point::In(head, within) => self.fill(alloc, scopes, head, within, answer),
        }
    }

    /// The head has this answer, and the part goes on up to the next head.
    pub fn resume(
        &mut self,
        alloc: Global,
        scopes: &Scopes<'p>,
        answer: Answer<'p>,
    ) -> Result<(), AllocError>
        ensures { IfOk result (λ _. HeadFinds (scoped scopes.now) (asks.resume (scoped scopes.now) (rest_of (scoped scopes.now) self.old.point.value self.old.frames self.old.todo) (rest_answered answer.entry)) self.new) }
    {
        let point = leave(&mut self.point);
        self.resume_from(alloc, scopes, point, answer)
    }
}

/// The statement of a list with that number, from 0, none where there are not so many.
fn nth<'p>(v: Value, ss: &'p [Stmt]) -> Option<&'p Stmt>
    ensures { stmt_or_empty result ≡ asks.nth_stmt (stmts ss.now) (nat_abs (plain.whole_of (value v))) }
{
    ss.get(whole_of(v).number().unsigned_abs() as usize)
}
