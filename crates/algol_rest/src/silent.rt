//! The silent steps of statements up to the next head, one after another: nothing here is recursive, and no
//! statement is copied.

ghost use Rattle.std.specs.Prelude.{◌≡◌, ◌+◌, [], ◌∷◌, ◌++◌, map, length, IfOk};
ghost use Rattle.algol_tree.specs.Plain as tree;
ghost use Rattle.algol_meaning.specs.Rest as rest;
ghost use Rattle.algol_meaning.specs.Settle as settling;
ghost use Rattle.algol_meaning.specs.Statements as statements;
ghost use Rattle.algol_meaning.specs.Statements.{settle_items};
ghost use Rattle.algol_meaning.specs.SeenTree.{expr, exprs, stmt, stmts, pairs, branched};
ghost use Rattle.algol_tree.specs.declared.tree.Named.{Named};
ghost use Rattle.algol_meaning.specs.SeenTree as seen;
ghost use Rattle.algol_tree.specs.Scopes as scoping;
ghost use Rattle.algol_cells.specs.SeenValue.{value};
ghost use Rattle.algol_cells.specs.SeenScope.{scoped};
ghost use Rattle.algol_rest_expr.specs.SeenExpression.{place, all_done, sorts_from, sorts_after, refilled, half, HalfComes};
ghost use Rattle.algol_rest.specs.SeenStatement.{ahead, HeadFinds, Advances, right_side, sought_at, role_at, tested, stepped_by, held, stmt_size, stmts_size, test_size, weigh, within_size};

use crate::standing::{add_value, no_values, stand};
use crate::statement::{Again, Deed, Last, Next, Point, Right, Role, Sought, Target, Within, Work};
use algol_cells::{Scopes, Value, truth_of, whole_of};
use algol_rest_expr::{
    Control, Frame, Given, Head, Outcome, Place, Supplied, add_given, alone, evaluate,
    no_subscripts, supplied, surround,
};
use algol_tree::{
    Body, Decl, Expr, Kind, List, Named, Op, Pair, PhraseText, Stmt, Variable, Whole,
};
use b67_list::discard;
use std::alloc::{AllocError, Global};

impl<'p> Work<'p> {
    /// The right side of an assignment before its silent steps.
    fn right(
        &mut self,
        alloc: Global,
        scopes: &Scopes<'p>,
        right: Right<'p>,
    ) -> Result<Control<'p>, AllocError>
        requires { self.old.frames ≡ [] }
        ensures comes { IfOk result (λ c. settling.settle (scoped scopes.now) (right_side right.entry) ≡ refilled (scoped scopes.now) self.new.frames (half (scoped scopes.now) c)) }
        ensures same { self.new.todo ≡ self.old.todo }
    {
        match right {
            Right::Expr(e) => Ok(Control::Eval(e)),
            Right::Stepped(n, e) => {
                surround(&mut self.frames, Frame::Left(Op::Add, e))?;
                Ok(Control::Found(alone(alloc, scopes, n)))
            }
        }
    }

    /// The right side of an assignment after its silent steps.
    fn compute(
        &mut self,
        alloc: Global,
        scopes: &Scopes<'p>,
        right: Right<'p>,
    ) -> Result<Outcome<'p>, AllocError>
        requires { self.old.frames ≡ [] }
        ensures comes { IfOk result (λ found. HalfComes (scoped scopes.now) (settling.settle (scoped scopes.now) (right_side right.entry)) found self.new.frames) }
        ensures same { self.new.todo ≡ self.old.todo }
    {
        match self.right(alloc, scopes, right) {
            Ok(from) => evaluate(alloc, scopes, from, &mut self.frames),
            Err(error) => Err(error),
        }
    }

    /// The right side of an assignment to this place.
    fn assign(
        &mut self,
        alloc: Global,
        scopes: &Scopes<'p>,
        to: Place<'p>,
        right: Right<'p>,
    ) -> Result<(), AllocError>
        requires { self.old.frames ≡ [] }
        ensures { IfOk result (λ _. HeadFinds (scoped scopes.now) (statements.assigned_of (place to.entry) (settling.settle (scoped scopes.now) (right_side right.entry)) (ahead self.old)) self.new) }
    {
        match self.compute(alloc, scopes, right) {
            Ok(Outcome::Busy(head)) => {
                stand(&mut self.point, Point::In(head, Within::Storing(to)));
                Ok(())
            }
            Ok(Outcome::Value(v)) => {
                stand(&mut self.point, Point::Deed(Deed::Store(to, v)));
                Ok(())
            }
            Err(error) => {
                discard(to);
                Err(error)
            }
        }
    }

    /// The items of a line from the next one on, and the line.
    #[tactic(auto, using(crate::proofs::Following::value_laws))]
    pub fn write(
        &mut self,
        alloc: Global,
        scopes: &Scopes<'p>,
        phrases: &'p [PhraseText],
        before: List<Value>,
        items: &'p [Expr],
    ) -> Result<(), AllocError>
        requires { self.old.frames ≡ [] }
        ensures { IfOk result (λ _. HeadFinds (scoped scopes.now) (statements.settle_line (scoped scopes.now) (exprs items.now) phrases.now (ahead self.old) (map value before)) self.new) }
    {
        let mut vs = before;
        let mut es = items;
        'writing: while let Some((e, rest)) = es.split_first() {
            match evaluate(alloc, scopes, Control::Eval(e), &mut self.frames) {
                Ok(Outcome::Busy(head)) => {
                    stand(
                        &mut self.point,
                        Point::In(head, Within::Writing(phrases, vs, rest)),
                    );
                    return Ok(());
                }
                Ok(Outcome::Value(v)) => add_value(&mut vs, v)?,
                Err(error) => return Err(error),
            }
            es = rest;
        }
        stand(&mut self.point, Point::Deed(Deed::Line(phrases, vs)));
        Ok(())
    }

    /// The upper bounds of arrays from the next one on, and their making.
    #[tactic(auto, using(crate::proofs::Following::value_laws))]
    fn bound(
        &mut self,
        alloc: Global,
        scopes: &Scopes<'p>,
        kind: Kind,
        ns: &'p [Named],
        all: &'p [Pair],
        before: List<Value>,
        left: &'p [Pair],
    ) -> Result<(), AllocError>
        requires { self.old.frames ≡ [] }
        ensures { IfOk result (λ _. HeadFinds (scoped scopes.now) (statements.settle_bounds (scoped scopes.now) (pairs left.now) kind ns.now (pairs all.now) (ahead self.old) (map value before)) self.new) }
    {
        let mut vs = before;
        let mut ps = left;
        'bounding: while let Some((pair, rest)) = ps.split_first() {
            match evaluate(alloc, scopes, Control::Eval(&pair.high), &mut self.frames) {
                Ok(Outcome::Busy(head)) => {
                    let within = Within::Bounding(kind, ns, all, vs, rest);
                    stand(&mut self.point, Point::In(head, within));
                    return Ok(());
                }
                Ok(Outcome::Value(v)) => add_value(&mut vs, v)?,
                Err(error) => return Err(error),
            }
            ps = rest;
        }
        stand(
            &mut self.point,
            Point::Deed(Deed::Arrays(kind, ns, all, vs)),
        );
        Ok(())
    }

    /// A call whose actuals are all done.
    fn call(&mut self, role: Role<'p>, n: &'p Named, gs: List<Given<'p>>)
        ensures { (sc : scoping.Scopes) → HeadFinds sc (role_at role.entry n.now (rest.given (all_done gs.entry)) (ahead self.old)) self.new }
    {
        match role {
            Role::Calls => stand(&mut self.point, Point::Enter(n, gs)),
            Role::Starts(task) => stand(&mut self.point, Point::Deed(Deed::Start(n, gs, task))),
        }
    }

    /// The actuals of a statement from the next one on, and its call.
    #[tactic(auto, using(algol_rest_expr::proofs::Supplying::supply_laws))]
    pub fn prepare(
        &mut self,
        alloc: Global,
        scopes: &Scopes<'p>,
        role: Role<'p>,
        n: &'p Named,
        before: List<Given<'p>>,
        actuals: &'p [Expr],
    ) -> Result<(), AllocError>
        requires { self.old.frames ≡ [] }
        ensures { IfOk result (λ _. HeadFinds (scoped scopes.now) (role_at role.entry n.now (settling.settle_actuals (scoped scopes.now) (exprs actuals.now) (sorts_from (scoped scopes.now) n.now (length before.entry)) (all_done before.entry)) (ahead self.old)) self.new) }
    {
        let mut gs = before;
        let mut es = actuals;
        'preparing: loop {
            match supplied(scopes, n, gs, es) {
                Ok(Supplied::Given(gs)) => {
                    self.call(role, n, gs);
                    return Ok(());
                }
                Ok(Supplied::Pass(gs, m, es)) => {
                    stand(&mut self.point, Point::Pass(role, n, gs, m, es));
                    return Ok(());
                }
                Ok(Supplied::Value(more, e, rest)) => {
                    match evaluate(alloc, scopes, Control::Eval(e), &mut self.frames) {
                        Ok(Outcome::Busy(head)) => {
                            let within = Within::Supplying(role, n, more, rest);
                            stand(&mut self.point, Point::In(head, within));
                            return Ok(());
                        }
                        Ok(Outcome::Value(v)) => {
                            gs = more;
                            add_given(&mut gs, Given::Valued(v))?;
                            es = rest;
                        }
                        Err(error) => return Err(error),
                    }
                }
                Err(error) => return Err(error),
            }
        }
    }

    /// What a place is asked for, once it is known.
    pub fn found(
        &mut self,
        alloc: Global,
        scopes: &Scopes<'p>,
        sought: Sought<'p>,
        at: Place<'p>,
    ) -> Result<(), AllocError>
        requires { self.old.frames ≡ [] }
        ensures { IfOk result (λ _. HeadFinds (scoped scopes.now) (sought_at (scoped scopes.now) sought.entry (rest.at (place at.entry)) (ahead self.old)) self.new) }
    {
        match sought {
            Sought::Aiming(right) => self.assign(alloc, scopes, at, right),
            Sought::Locating => {
                stand(&mut self.point, Point::Last(Last::GivingPlace(at)));
                Ok(())
            }
        }
    }

    /// A subscript of a place, with the subscripts before it and the expressions after it.
    pub fn aim_subscript(
        &mut self,
        alloc: Global,
        scopes: &Scopes<'p>,
        sought: Sought<'p>,
        n: &'p Named,
        ks: List<usize>,
        e: &'p Expr,
        es: &'p [Expr],
    ) -> Result<(), AllocError>
        requires { self.old.frames ≡ [] }
        ensures { IfOk result (λ _. HeadFinds (scoped scopes.now) (sought_at (scoped scopes.now) sought.entry (settling.aimed_of n.now ks (settling.settle (scoped scopes.now) (expr e.now)) (exprs es.now)) (ahead self.old)) self.new) }
    {
        match evaluate(alloc, scopes, Control::Eval(e), &mut self.frames) {
            Ok(Outcome::Busy(head)) => {
                let within = Within::Subscripting(sought, n, ks, es);
                stand(&mut self.point, Point::In(head, within));
                Ok(())
            }
            Ok(Outcome::Value(v)) => {
                stand(
                    &mut self.point,
                    Point::Seek(sought, Target::Index(n, ks, v, es)),
                );
                Ok(())
            }
            Err(error) => Err(error),
        }
    }

    /// A name by itself whose place is asked for.
    pub fn aim_alone(
        &mut self,
        alloc: Global,
        scopes: &Scopes<'p>,
        sought: Sought<'p>,
        n: &'p Named,
    ) -> Result<(), AllocError>
        requires { self.old.frames ≡ [] }
        ensures { IfOk result (λ _. HeadFinds (scoped scopes.now) (sought_at (scoped scopes.now) sought.entry (settling.settle_place (scoped scopes.now) (tree.subscripted n.now tree.none)) (ahead self.old)) self.new) }
    {
        if scopes.is_by_name(n) {
            stand(&mut self.point, Point::Seek(sought, Target::Resolve(n)));
            Ok(())
        } else {
            self.found(alloc, scopes, sought, Place::Own(n))
        }
    }

    /// A place whose head is a name, with its subscripts.
    pub fn aim(
        &mut self,
        alloc: Global,
        scopes: &Scopes<'p>,
        sought: Sought<'p>,
        n: &'p Named,
        es: &'p [Expr],
    ) -> Result<(), AllocError>
        requires { self.old.frames ≡ [] }
        ensures { IfOk result (λ _. HeadFinds (scoped scopes.now) (sought_at (scoped scopes.now) sought.entry (settling.settle_place (scoped scopes.now) (tree.subscripted n.now (exprs es.now))) (ahead self.old)) self.new) }
    {
        match es.split_first() {
            None => self.aim_alone(alloc, scopes, sought, n),
            Some((e, rest)) => {
                self.aim_subscript(alloc, scopes, sought, n, no_subscripts(alloc), e, rest)
            }
        }
    }

    /// The branch of an IF that its test chooses.
    fn choose(
        &mut self,
        v: Value,
        x: &'p Stmt,
        y: &'p Option<Box<Stmt>>,
    ) -> Result<bool, AllocError>
        requires { self.old.frames ≡ [] }
        ensures { (sc : scoping.Scopes) (c : tree.PExpr) → IfOk result (λ found. Advances sc (tested sc (branched c (stmt x.now) y.now) (rest.val (value v)) (ahead self.old)) (test_size (branched c (stmt x.now) y.now) + weigh self.old.todo) found self.new) }
    {
        match y {
            Some(y) => self.todo.push(Next::Run(if truth_of(v) { x } else { y }))?,
            None => {
                if truth_of(v) {
                    self.todo.push(Next::Run(x))?;
                }
            }
        }
        Ok(false)
    }

    /// The body of a WHILE, where its test holds, and what follows it.
    fn turn_while(&mut self, v: Value, s: &'p Stmt, body: &'p Stmt) -> Result<bool, AllocError>
        requires { self.old.frames ≡ [] }
        ensures { (sc : scoping.Scopes) (c : tree.PExpr) → stmt s.now ≡ tree.while c (stmt body.now) → IfOk result (λ found. Advances sc (tested sc (tree.while c (stmt body.now)) (rest.val (value v)) (ahead self.old)) (test_size (tree.while c (stmt body.now)) + weigh self.old.todo) found self.new) }
    {
        if truth_of(v) {
            self.todo.push(Next::Run(s))?;
            self.todo.push(Next::Turn)?;
            self.todo.push(Next::Run(body))?;
        }
        Ok(false)
    }

    /// The next turn of a DO .. UNTIL, where its test does not hold.
    fn turn_until(&mut self, v: Value, s: &'p Stmt) -> Result<bool, AllocError>
        requires { self.old.frames ≡ [] }
        ensures { (sc : scoping.Scopes) (b : tree.PStmt) (c : tree.PExpr) → stmt s.now ≡ tree.until b c → IfOk result (λ found. Advances sc (tested sc (tree.until b c) (rest.val (value v)) (ahead self.old)) (test_size (tree.until b c) + weigh self.old.todo) found self.new) }
    {
        if truth_of(v) {
            Ok(false)
        } else {
            self.todo.push(Next::Run(s))?;
            stand(&mut self.point, Point::Deed(Deed::Turn));
            Ok(true)
        }
    }

    /// The body of a THRU, where its number is at least 1, and what follows it.
    pub fn repeat(&mut self, n: Whole, s: &'p Stmt, b: &'p Stmt) -> Result<bool, AllocError>
        requires { self.old.frames ≡ [] }
        ensures { (sc : scoping.Scopes) (e : tree.PExpr) → stmt s.now ≡ tree.thru e (stmt b.now) → IfOk result (λ found. Advances sc (statements.repeated_of n (statements.counted_body sc (stmt b.now) (ahead self.old)) (settle_items sc (ahead self.old))) (stmt_size (tree.thru e (stmt b.now)) + weigh self.old.todo) found self.new) }
    {
        let number = n.number();
        if 0 < number {
            let left = Whole::fitting(number - 1);
            self.todo.push(Next::Again(Again::Count(left), s))?;
            self.todo.push(Next::Turn)?;
            self.todo.push(Next::Run(b))?;
        }
        Ok(false)
    }

    /// The body of a FOR whose control variable is not past its limit, and what follows it.
    fn turn_for(
        &mut self,
        difference: Value,
        v: Value,
        s: &'p Stmt,
        b: &'p Stmt,
    ) -> Result<bool, AllocError>
        requires { self.old.frames ≡ [] }
        ensures { (sc : scoping.Scopes) (n : Named) (e step last : tree.PExpr) → stmt s.now ≡ tree.for n e step last (stmt b.now) → IfOk result (λ found. Advances sc (stepped_by sc (value difference) (tree.for n e step last (stmt b.now)) (rest.val (value v)) (ahead self.old)) (stmt_size (tree.for n e step last (stmt b.now)) + weigh self.old.todo) found self.new) }
    {
        if !is_past(whole_of(difference).number(), whole_of(v).number()) {
            self.todo.push(Next::Again(Again::Test, s))?;
            self.todo.push(Next::Turn)?;
            self.todo.push(Next::Again(Again::Step, s))?;
            self.todo.push(Next::Run(b))?;
        }
        Ok(false)
    }

    /// A FOR whose difference in its test has this value: its step comes next.
    fn test_for(
        &mut self,
        alloc: Global,
        scopes: &Scopes<'p>,
        v: Value,
        s: &'p Stmt,
        step: &'p Expr,
        b: &'p Stmt,
    ) -> Result<bool, AllocError>
        requires { self.old.frames ≡ [] }
        ensures { (n : Named) (e last : tree.PExpr) → stmt s.now ≡ tree.for n e (expr step.now) last (stmt b.now) → IfOk result (λ found. Advances (scoped scopes.now) (tested (scoped scopes.now) (tree.for n e (expr step.now) last (stmt b.now)) (rest.val (value v)) (ahead self.old)) (test_size (tree.for n e (expr step.now) last (stmt b.now)) + weigh self.old.todo) found self.new) }
    {
        match evaluate(alloc, scopes, Control::Eval(step), &mut self.frames)? {
            Outcome::Busy(head) => {
                stand(&mut self.point, Point::In(head, Within::Stepping(v, s)));
                Ok(true)
            }
            Outcome::Value(by) => self.turn_for(v, by, s, b),
        }
    }

    /// A statement whose test or number has this value.
    #[tactic(auto, using(crate::proofs::Statements::stmt_laws))]
    fn tested(
        &mut self,
        alloc: Global,
        scopes: &Scopes<'p>,
        v: Value,
        s: &'p Stmt,
    ) -> Result<bool, AllocError>
        requires { self.old.frames ≡ [] }
        ensures { IfOk result (λ found. Advances (scoped scopes.now) (tested (scoped scopes.now) (stmt s.now) (rest.val (value v)) (ahead self.old)) (test_size (stmt s.now) + weigh self.old.todo) found self.new) }
    {
        match s {
            Stmt::If(_, x, y) => self.choose(v, x, y),
            Stmt::While(_, b) => self.turn_while(v, s, b),
            Stmt::Until(_, _) => self.turn_until(v, s),
            Stmt::Thru(_, b) => self.repeat(whole_of(v), s, b),
            Stmt::For(_, _, step, _, b) => self.test_for(alloc, scopes, v, s, step, b),
            Stmt::Case(_, ss) => {
                stand(&mut self.point, Point::Select(v, ss.items()));
                Ok(true)
            }
            _ => {
                stand(&mut self.point, Point::Last(Last::Giving(v)));
                Ok(true)
            }
        }
    }

    /// A FOR whose step in its test has this value.
    #[tactic(auto, using(crate::proofs::Statements::stmt_laws))]
    fn stepped(&mut self, difference: Value, v: Value, s: &'p Stmt) -> Result<bool, AllocError>
        requires { self.old.frames ≡ [] }
        ensures { (sc : scoping.Scopes) → IfOk result (λ found. Advances sc (stepped_by sc (value difference) (stmt s.now) (rest.val (value v)) (ahead self.old)) (stmt_size (stmt s.now) + weigh self.old.todo) found self.new) }
    {
        match s {
            Stmt::For(_, _, _, _, b) => self.turn_for(difference, v, s, b),
            _ => {
                stand(&mut self.point, Point::Last(Last::Giving(v)));
                Ok(true)
            }
        }
    }

    /// An actual of a statement has this value, and the actuals after it come next.
    #[tactic(auto, using(crate::proofs::Following::held_laws))]
    fn supply_value(
        &mut self,
        alloc: Global,
        scopes: &Scopes<'p>,
        v: Value,
        role: Role<'p>,
        n: &'p Named,
        mut gs: List<Given<'p>>,
        es: &'p [Expr],
    ) -> Result<bool, AllocError>
        requires { self.old.frames ≡ [] }
        ensures { IfOk result (λ found. Advances (scoped scopes.now) (role_at role.entry n.now (settling.settle_actuals (scoped scopes.now) (exprs es.now) (sorts_after (scoped scopes.now) n.now gs.entry) (all_done gs.entry ++ rest.valued (value v) ∷ [])) (ahead self.old)) (1 + weigh self.old.todo) found self.new) }
    {
        add_given(&mut gs, Given::Valued(v))?;
        self.prepare(alloc, scopes, role, n, gs, es)?;
        Ok(true)
    }

    /// An item of a line has this value, and the items after it come next.
    #[tactic(auto, using(crate::proofs::Following::held_laws))]
    fn write_value(
        &mut self,
        alloc: Global,
        scopes: &Scopes<'p>,
        v: Value,
        phrases: &'p [PhraseText],
        mut vs: List<Value>,
        es: &'p [Expr],
    ) -> Result<bool, AllocError>
        requires { self.old.frames ≡ [] }
        ensures { IfOk result (λ found. Advances (scoped scopes.now) (statements.settle_line (scoped scopes.now) (exprs es.now) phrases.now (ahead self.old) (map value vs ++ value v ∷ [])) (1 + weigh self.old.todo) found self.new) }
    {
        add_value(&mut vs, v)?;
        self.write(alloc, scopes, phrases, vs, es)?;
        Ok(true)
    }

    /// An upper bound has this value, and the bounds after it come next.
    #[tactic(auto, using(crate::proofs::Following::held_laws))]
    fn bound_value(
        &mut self,
        alloc: Global,
        scopes: &Scopes<'p>,
        v: Value,
        kind: Kind,
        ns: &'p [Named],
        all: &'p [Pair],
        mut vs: List<Value>,
        left: &'p [Pair],
    ) -> Result<bool, AllocError>
        requires { self.old.frames ≡ [] }
        ensures { IfOk result (λ found. Advances (scoped scopes.now) (statements.settle_bounds (scoped scopes.now) (pairs left.now) kind ns.now (pairs all.now) (ahead self.old) (map value vs ++ value v ∷ [])) (1 + weigh self.old.todo) found self.new) }
    {
        add_value(&mut vs, v)?;
        self.bound(alloc, scopes, kind, ns, all, vs, left)?;
        Ok(true)
    }

    /// What follows an expression with this value.
    #[tactic(auto, using(crate::proofs::Following::held_laws))]
    fn held_value(
        &mut self,
        alloc: Global,
        scopes: &Scopes<'p>,
        v: Value,
        within: Within<'p>,
    ) -> Result<bool, AllocError>
        requires { self.old.frames ≡ [] }
        ensures { IfOk result (λ found. Advances (scoped scopes.now) (held (scoped scopes.now) within.entry (rest.val (value v)) (ahead self.old)) (within_size within.entry + weigh self.old.todo) found self.new) }
    {
        match within {
            Within::Evaluating => {
                stand(&mut self.point, Point::Last(Last::Giving(v)));
                Ok(true)
            }
            Within::Storing(to) => {
                stand(&mut self.point, Point::Deed(Deed::Store(to, v)));
                Ok(true)
            }
            Within::Testing(s) => self.tested(alloc, scopes, v, s),
            Within::Stepping(difference, s) => self.stepped(difference, v, s),
            Within::Supplying(role, n, gs, es) => {
                self.supply_value(alloc, scopes, v, role, n, gs, es)
            }
            Within::Subscripting(sought, n, ks, es) => {
                stand(
                    &mut self.point,
                    Point::Seek(sought, Target::Index(n, ks, v, es)),
                );
                Ok(true)
            }
            Within::Writing(phrases, vs, es) => {
                self.write_value(alloc, scopes, v, phrases, vs, es)
            }
            Within::Bounding(kind, ns, all, vs, left) => {
                self.bound_value(alloc, scopes, v, kind, ns, all, vs, left)
            }
        }
    }

    /// An expression from there on, and what it is evaluated for.
    pub fn begin_from(
        &mut self,
        alloc: Global,
        scopes: &Scopes<'p>,
        from: Control<'p>,
        within: Within<'p>,
    ) -> Result<bool, AllocError>
        ensures { IfOk result (λ found. Advances (scoped scopes.now) (held (scoped scopes.now) within.entry (refilled (scoped scopes.now) self.old.frames (half (scoped scopes.now) from.entry)) (ahead self.old)) (within_size within.entry + weigh self.old.todo) found self.new) }
    {
        match evaluate(alloc, scopes, from, &mut self.frames) {
            Ok(Outcome::Busy(head)) => {
                stand(&mut self.point, Point::In(head, within));
                Ok(true)
            }
            Ok(Outcome::Value(v)) => self.held_value(alloc, scopes, v, within),
            Err(error) => {
                discard(within);
                Err(error)
            }
        }
    }

    /// The making of arrays: their upper bounds come first.
    pub fn make_arrays(
        &mut self,
        alloc: Global,
        scopes: &Scopes<'p>,
        kind: Kind,
        ns: &'p [Named],
        ps: &'p [Pair],
    ) -> Result<bool, AllocError>
        requires { self.old.frames ≡ [] }
        ensures { IfOk result (λ found. Advances (scoped scopes.now) (settle_items (scoped scopes.now) (rest.make_arrays kind ns.now (pairs ps.now) ∷ ahead self.old)) (3 + weigh self.old.todo) found self.new) }
    {
        self.bound(alloc, scopes, kind, ns, ps, no_values(alloc), ps)?;
        Ok(true)
    }

    /// The making of events.
    pub fn make_events(&mut self, ns: &'p [Named]) -> Result<bool, AllocError>
        requires { self.old.frames ≡ [] }
        ensures { (sc : scoping.Scopes) → IfOk result (λ found. Advances sc (settle_items sc (statements.event_items ns.now ++ ahead self.old)) (3 + length ns.now + weigh self.old.todo) found self.new) }
    {
        self.todo.push(Next::Events(ns))?;
        Ok(false)
    }

    /// A BEGIN with these declarations and statements: a block is entered, a compound is not.
    #[tactic(auto, using(crate::proofs::Following::list_laws))]
    pub fn open(&mut self, b: &'p Body, ds: &'p [Decl], ss: &'p [Stmt]) -> Result<bool, AllocError>
        requires empty { self.old.frames ≡ [] }
        requires whole { seen.body b.now ≡ tree.body b.now.spot (seen.decls ds.now) (stmts ss.now) }
        ensures { (sc : scoping.Scopes) → IfOk result (λ found. Advances sc (settle_items sc (rest.run (tree.block (tree.body b.now.spot (seen.decls ds.now) (stmts ss.now))) ∷ ahead self.old)) (2 + stmts_size (stmts ss.now) + weigh self.old.todo) found self.new) }
    {
        match ds.split_first() {
            Some(_) => {
                stand(&mut self.point, Point::EnterBlock(b));
                Ok(true)
            }
            None => {
                self.todo.push(Next::Rest(ss))?;
                Ok(false)
            }
        }
    }

    /// The statements of a list from there on.
    pub fn next_statement(&mut self, ss: &'p [Stmt]) -> Result<bool, AllocError>
        requires { self.old.frames ≡ [] }
        ensures { (sc : scoping.Scopes) → IfOk result (λ found. Advances sc (settle_items sc (statements.items (stmts ss.now) (ahead self.old))) (1 + stmts_size (stmts ss.now) + weigh self.old.todo) found self.new) }
    {
        if let Some((first, rest)) = ss.split_first() {
            self.todo.push(Next::Rest(rest))?;
            self.todo.push(Next::Run(first))?;
        }
        Ok(false)
    }

    /// An event for each of these names.
    pub fn next_event(&mut self, ns: &'p [Named]) -> Result<bool, AllocError>
        requires { self.old.frames ≡ [] }
        ensures { (sc : scoping.Scopes) → IfOk result (λ found. Advances sc (settle_items sc (statements.event_items ns.now ++ ahead self.old)) (1 + length ns.now + weigh self.old.todo) found self.new) }
    {
        match ns.split_first() {
            None => Ok(false),
            Some((n, rest)) => {
                self.todo.push(Next::Events(rest))?;
                stand(&mut self.point, Point::Deed(Deed::MakeEvent(n)));
                Ok(true)
            }
        }
    }
}

/// Tests that a control variable is past its limit: the product of the difference with the sign of the step is
/// above 0.
fn is_past(difference: i64, step: i64) -> bool
    ensures { result ≡ statements.is_past difference step }
{
    if step < 0 {
        difference < 0
    } else if 0 < step {
        0 < difference
    } else {
        false
    }
}
