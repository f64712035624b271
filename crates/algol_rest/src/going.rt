//! A part goes on: what follows is begun, item by item, up to the next head.

ghost use Rattle.std.specs.Prelude.{◌≡◌, ◌+◌, [], ◌∷◌, ◌++◌, true, IfOk};
ghost use Rattle.algol_tree.specs.Plain as tree;
ghost use Rattle.algol_tree.specs.Scopes as scoping;
ghost use Rattle.algol_meaning.specs.Rest as rest;
ghost use Rattle.algol_meaning.specs.Statements.{decl_items, decls_items, settle_items};
ghost use Rattle.algol_meaning.specs.SeenTree.{expr, stmt, decl, decls};
ghost use Rattle.algol_cells.specs.SeenScope.{scoped};
ghost use Rattle.algol_rest_expr.specs.SeenExpression.{refilled, half};
ghost use Rattle.algol_rest.specs.SeenStatement.{ahead, item, again_item, HeadFinds, Advances, begins_action, held, stmt_size, again_size, decl_size, decls_size, weigh};
ghost use Rattle.algol_rest.specs.declared.statement.Again.TheVariants as again;

use crate::standing::{no_values, stand};
use crate::statement::{Again, Deed, Last, Next, Point, Right, Role, Sought, Within, Work};
use algol_cells::Scopes;
use algol_rest_expr::{Control, Frame, alone, no_givens, surround};
use algol_tree::{Decl, Expr, Named, Op, Stmt, Whole};
use std::alloc::{AllocError, Global};

impl<'p> Work<'p> {
    /// The actions of a declaration.
    fn make(&mut self, alloc: Global, scopes: &Scopes<'p>, d: &'p Decl) -> Result<bool, AllocError>
        requires { self.old.frames ≡ [] }
        ensures { IfOk result (λ found. Advances (scoped scopes.now) (settle_items (scoped scopes.now) (decl_items (decl d.now) ++ ahead self.old)) (decl_size (decl d.now) + weigh self.old.todo) found self.new) }
    {
        match d {
            Decl::Arrays(kind, ns, ps) => {
                self.make_arrays(alloc, scopes, *kind, ns.items(), ps.items())
            }
            Decl::Events(ns) => self.make_events(ns.items()),
            Decl::Tasks(ns) => self.make_events(ns.items()),
            Decl::Simple(_, _) => Ok(false),
            Decl::Files(_) => Ok(false),
            Decl::Labels(_) => Ok(false),
            Decl::Forward(_) => Ok(false),
            Decl::Procedure(_, _) => Ok(false),
        }
    }

    /// The declarations of a block from there on.
    fn declare(
        &mut self,
        alloc: Global,
        scopes: &Scopes<'p>,
        ds: &'p [Decl],
    ) -> Result<bool, AllocError>
        requires { self.old.frames ≡ [] }
        ensures { IfOk result (λ found. Advances (scoped scopes.now) (settle_items (scoped scopes.now) (decls_items (decls ds.now) ++ ahead self.old)) (1 + decls_size (decls ds.now) + weigh self.old.todo) found self.new) }
    {
        match ds.split_first() {
            None => Ok(false),
            Some((d, rest)) => {
                self.todo.push(Next::Decls(rest))?;
                self.make(alloc, scopes, d)
            }
        }
    }

    /// A statement that begins with an action, or with what an action needs.
    fn act(&mut self, alloc: Global, scopes: &Scopes<'p>, s: &'p Stmt) -> Result<(), AllocError>
        requires empty { self.old.frames ≡ [] }
        requires action { begins_action (stmt s.now) ≡ true }
        ensures { IfOk result (λ _. HeadFinds (scoped scopes.now) (settle_items (scoped scopes.now) (rest.run (stmt s.now) ∷ ahead self.old)) self.new) }
    {
        match s {
            Stmt::Assign(v, e) => {
                let sought = Sought::Aiming(Right::Expr(e));
                self.aim(alloc, scopes, sought, &v.name, v.subs.items())
            }
            Stmt::Call(c) => {
                let before = no_givens(alloc);
                self.prepare(
                    alloc,
                    scopes,
                    Role::Calls,
                    &c.name,
                    before,
                    c.actuals.items(),
                )
            }
            Stmt::Process(c, task) => {
                let before = no_givens(alloc);
                let role = Role::Starts(task);
                self.prepare(alloc, scopes, role, &c.name, before, c.actuals.items())
            }
            Stmt::GoTo(n) => {
                stand(&mut self.point, Point::Last(Last::Going(n)));
                Ok(())
            }
            Stmt::Event(act, event) => {
                stand(&mut self.point, Point::Deed(Deed::Event(*act, &event.name)));
                Ok(())
            }
            Stmt::Write(_, _, phrases, es) => {
                self.write(alloc, scopes, phrases.items(), no_values(alloc), es.items())
            }
            _ => unreachable!(),
        }
    }

    /// A FOR: its control variable is set first.
    fn begin_for(
        &mut self,
        alloc: Global,
        scopes: &Scopes<'p>,
        s: &'p Stmt,
        n: &'p Named,
        first: &'p Expr,
    ) -> Result<(), AllocError>
        requires { self.old.frames ≡ [] }
        ensures { (step last : tree.PExpr) (b : tree.PStmt) → stmt s.now ≡ tree.for n.now (expr first.now) step last b → IfOk result (λ _. HeadFinds (scoped scopes.now) (settle_items (scoped scopes.now) (rest.run (tree.for n.now (expr first.now) step last b) ∷ ahead self.old)) self.new) }
    {
        self.todo.push(Next::Again(Again::Test, s))?;
        self.aim_alone(alloc, scopes, Sought::Aiming(Right::Expr(first)), n)
    }

    /// A DO .. UNTIL: its body comes first.
    fn begin_until(&mut self, s: &'p Stmt, b: &'p Stmt) -> Result<bool, AllocError>
        requires { self.old.frames ≡ [] }
        ensures { (sc : scoping.Scopes) (c : tree.PExpr) → stmt s.now ≡ tree.until (stmt b.now) c → IfOk result (λ found. Advances sc (settle_items sc (rest.run (tree.until (stmt b.now) c) ∷ ahead self.old)) (stmt_size (tree.until (stmt b.now) c) + weigh self.old.todo) found self.new) }
    {
        self.todo.push(Next::Again(Again::Check, s))?;
        self.todo.push(Next::Run(b))?;
        Ok(false)
    }

    /// A statement.
    fn begin(&mut self, alloc: Global, scopes: &Scopes<'p>, s: &'p Stmt) -> Result<bool, AllocError>
        requires { self.old.frames ≡ [] }
        ensures { IfOk result (λ found. Advances (scoped scopes.now) (settle_items (scoped scopes.now) (rest.run (stmt s.now) ∷ ahead self.old)) (stmt_size (stmt s.now) + weigh self.old.todo) found self.new) }
    {
        match s {
            Stmt::Empty => Ok(false),
            Stmt::Label(_, s) => {
                self.todo.push(Next::Run(s))?;
                Ok(false)
            }
            Stmt::Block(b) => self.open(b, b.decls.items(), b.stmts.items()),
            Stmt::If(test, _, _)
            | Stmt::While(test, _)
            | Stmt::Thru(test, _)
            | Stmt::Case(test, _) => {
                self.begin_from(alloc, scopes, Control::Eval(test), Within::Testing(s))
            }
            Stmt::Until(b, _) => self.begin_until(s, b),
            Stmt::For(n, first, _, _, _) => {
                self.begin_for(alloc, scopes, s, n, first)?;
                Ok(true)
            }
            _ => {
                self.act(alloc, scopes, s)?;
                Ok(true)
            }
        }
    }

    /// THRU with its number, before its next turn.
    fn count_on(&mut self, n: Whole, s: &'p Stmt) -> Result<bool, AllocError>
        requires { self.old.frames ≡ [] }
        ensures { (sc : scoping.Scopes) → IfOk result (λ found. Advances sc (settle_items sc (again_item (again.Count n) (stmt s.now) ∷ ahead self.old)) (stmt_size (stmt s.now) + weigh self.old.todo) found self.new) }
    {
        match s {
            Stmt::Thru(_, b) => self.repeat(n, s, b),
            _ => {
                stand(&mut self.point, Point::Deed(Deed::Turn));
                Ok(true)
            }
        }
    }

    /// The test of DO .. UNTIL.
    fn check(&mut self, alloc: Global, scopes: &Scopes<'p>, s: &'p Stmt) -> Result<bool, AllocError>
        requires { self.old.frames ≡ [] }
        ensures { IfOk result (λ found. Advances (scoped scopes.now) (settle_items (scoped scopes.now) (again_item again.Check (stmt s.now) ∷ ahead self.old)) (1 + weigh self.old.todo) found self.new) }
    {
        match s {
            Stmt::Until(_, c) => {
                self.begin_from(alloc, scopes, Control::Eval(c), Within::Testing(s))
            }
            _ => {
                stand(&mut self.point, Point::Deed(Deed::Turn));
                Ok(true)
            }
        }
    }

    /// The stepping of FOR: its control variable gets the sum of its value and the step.
    fn step(&mut self, alloc: Global, scopes: &Scopes<'p>, s: &'p Stmt) -> Result<(), AllocError>
        requires { self.old.frames ≡ [] }
        ensures { IfOk result (λ _. HeadFinds (scoped scopes.now) (settle_items (scoped scopes.now) (again_item again.Step (stmt s.now) ∷ ahead self.old)) self.new) }
    {
        match s {
            Stmt::For(n, _, step, _, _) => {
                self.aim_alone(alloc, scopes, Sought::Aiming(Right::Stepped(n, step)), n)
            }
            _ => {
                stand(&mut self.point, Point::Deed(Deed::Turn));
                Ok(())
            }
        }
    }

    /// The test of FOR: the difference of its control variable and its limit comes first.
    fn test(&mut self, alloc: Global, scopes: &Scopes<'p>, s: &'p Stmt) -> Result<bool, AllocError>
        requires { self.old.frames ≡ [] }
        ensures { IfOk result (λ found. Advances (scoped scopes.now) (settle_items (scoped scopes.now) (again_item again.Test (stmt s.now) ∷ ahead self.old)) (stmt_size (stmt s.now) + weigh self.old.todo) found self.new) }
    {
        match s {
            Stmt::For(n, _, _, last, _) => {
                surround(&mut self.frames, Frame::Left(Op::Sub, last))?;
                let control = Control::Found(alone(alloc, scopes, n));
                self.begin_from(alloc, scopes, control, Within::Testing(s))
            }
            _ => {
                stand(&mut self.point, Point::Deed(Deed::Turn));
                Ok(true)
            }
        }
    }

    /// What of a loop follows its body.
    fn again(
        &mut self,
        alloc: Global,
        scopes: &Scopes<'p>,
        part: Again,
        s: &'p Stmt,
    ) -> Result<bool, AllocError>
        requires { self.old.frames ≡ [] }
        ensures { IfOk result (λ found. Advances (scoped scopes.now) (settle_items (scoped scopes.now) (again_item part (stmt s.now) ∷ ahead self.old)) (again_size part (stmt s.now) + weigh self.old.todo) found self.new) }
    {
        match part {
            Again::Count(n) => self.count_on(n, s),
            Again::Check => self.check(alloc, scopes, s),
            Again::Step => {
                self.step(alloc, scopes, s)?;
                Ok(true)
            }
            Again::Test => self.test(alloc, scopes, s),
        }
    }

    /// One item of what follows.
    fn advance(
        &mut self,
        alloc: Global,
        scopes: &Scopes<'p>,
        next: &Next<'p>,
    ) -> Result<bool, AllocError>
        requires { self.old.frames ≡ [] }
        ensures { IfOk result (λ found. Advances (scoped scopes.now) (settle_items (scoped scopes.now) (item next.now (ahead self.old))) (weigh (next.now ∷ self.old.todo)) found self.new) }
    {
        match next {
            Next::Run(s) => self.begin(alloc, scopes, *s),
            Next::Rest(ss) => self.next_statement(*ss),
            Next::Turn => {
                stand(&mut self.point, Point::Deed(Deed::Turn));
                Ok(true)
            }
            Next::Result(name) => {
                stand(&mut self.point, Point::Reading(*name));
                Ok(true)
            }
            Next::Again(part, s) => self.again(alloc, scopes, *part, *s),
            Next::Events(ns) => self.next_event(*ns),
            Next::Decls(ds) => self.declare(alloc, scopes, *ds),
        }
    }

    /// All that follows, up to the next head.
    pub fn go_on(&mut self, alloc: Global, scopes: &Scopes<'p>) -> Result<(), AllocError>
        ensures { IfOk result (λ _. HeadFinds (scoped scopes.now) (settle_items (scoped scopes.now) (ahead self.old)) self.new) }
    {
        self.frames.clear();
        'going: while let Some(next) = self.todo.pop() {
            if self.advance(alloc, scopes, &next)? {
                return Ok(());
            }
        }
        stand(&mut self.point, Point::Last(Last::Over));
        Ok(())
    }

    /// An expression from there on, what it is evaluated for, and what follows, up to the next head.
    pub fn go_on_from(
        &mut self,
        alloc: Global,
        scopes: &Scopes<'p>,
        from: Control<'p>,
        within: Within<'p>,
    ) -> Result<(), AllocError>
        ensures { IfOk result (λ _. HeadFinds (scoped scopes.now) (held (scoped scopes.now) within.entry (refilled (scoped scopes.now) self.old.frames (half (scoped scopes.now) from.entry)) (ahead self.old)) self.new) }
    {
        if self.begin_from(alloc, scopes, from, within)? {
            Ok(())
        } else {
            self.go_on(alloc, scopes)
        }
    }
}
