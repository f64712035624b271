//! The walk over a tree, in the order of the text.

ghost use Rattle.std.specs.Prelude.{◌≡◌, [], Bool, List, Err, Some, OnOk, IfOk, option_copied};
ghost use Rattle.algol_tree.specs.declared.token.Spot.{Spot};
ghost use Rattle.algol_tree.specs.declared.refusal.Code.{Code};
ghost use Rattle.algol_tree.specs.declared.refusal.Refusal.TheVariants.{At};
ghost use Rattle.algol_tree.specs.Accepted.{check_faults, first_fault};
ghost use Rattle.algol_tree.specs.Ascending.{IsInOrder};
ghost use Rattle.algol_tree.specs.Blocks as blocks;
ghost use Rattle.algol_tree.specs.Image.{body, decl, expr, program, stmt, stmts};
ghost use Rattle.algol_tree.specs.Plain as tree;
ghost use Rattle.algol_tree.specs.Plain.{PDecls};
ghost use Rattle.algol_tree.specs.Sites.{has_decls};
ghost use Rattle.algol_scope.specs.Resolved.{AreOf};
ghost use Rattle.algol_check.specs.Announced.{body_for};
ghost use Rattle.algol_check.specs.Declaring.{WalksDecl, decls_in};
ghost use Rattle.algol_check.specs.Walking.{WalksBody, WalksGuarded, WalksStmt, WalksStmts, begin_as};

use crate::announced::{announced, body_at};
use crate::checker::{Begin, Checker, has_declarations};
use algol_frames::Scopes;
use algol_rules::{boxed_stmt, decls_in, exprs_in, stmts_in};
use algol_tree::{Body, Decl, Expr, Heading, Kind, Named, Program, Refusal, Stmt};
use std::alloc::{AllocError, Global};

impl Checker {
    /// A statement.
    #[cycle(statements)]
    fn stmt(
        &mut self,
        scopes: &Scopes,
        s: &Stmt,
        begin: Begin,
        listed: bool,
    ) -> Result<(), AllocError>
        ensures { OnOk result (WalksStmt scopes.now self.old self.new (stmt s.now) (begin_as begin) listed) }
    {
        match s {
            Stmt::Empty => Ok(()),
            Stmt::Label(n, s) => self.labelled(scopes, n, boxed_stmt(s), listed),
            Stmt::Assign(v, e) => {
                self.assign(scopes, v, e);
                Ok(())
            }
            Stmt::Call(c) => {
                self.call(scopes, c);
                Ok(())
            }
            Stmt::GoTo(n) => {
                self.go_to(scopes, n);
                Ok(())
            }
            Stmt::Block(b) => self.block(scopes, b, begin),
            Stmt::If(c, x, other) => {
                self.guarded(scopes, Kind::Truth, boxed_stmt(x), c)?;
                match other {
                    None => Ok(()),
                    Some(y) => self.stmt(scopes, boxed_stmt(y), Begin::OfStatement, false),
                }
            }
            Stmt::While(c, b) => self.guarded(scopes, Kind::Truth, boxed_stmt(b), c),
            Stmt::Until(b, c) => self.until(scopes, boxed_stmt(b), c),
            Stmt::For(v, x, step, last, b) => self.counted(scopes, boxed_stmt(b), v, x, step, last),
            Stmt::Thru(e, b) => self.guarded(scopes, Kind::Number, boxed_stmt(b), e),
            Stmt::Case(e, ss) => self.case(scopes, stmts_in(ss), e),
            Stmt::Process(c, task) => {
                self.process(scopes, c, task);
                Ok(())
            }
            Stmt::Event(_, e) => {
                self.event(scopes, e);
                Ok(())
            }
            Stmt::Write(file, spot, phrases, items) => {
                self.write(scopes, file, *spot, phrases.items(), exprs_in(items));
                Ok(())
            }
        }
    }

    /// A statement after a label.
    #[cycle(statements)]
    fn labelled(
        &mut self,
        scopes: &Scopes,
        n: &Named,
        s: &Stmt,
        listed: bool,
    ) -> Result<(), AllocError>
        ensures { OnOk result ((begin : blocks.Begin) → WalksStmt scopes.now self.old self.new (tree.label n.now (stmt s.now)) begin listed) }
    {
        self.label(scopes, n, listed)?;
        self.stmt(scopes, s, Begin::OfStatement, listed)
    }

    /// A BEGIN that is a statement.
    #[cycle(statements)]
    fn block(&mut self, scopes: &Scopes, b: &Body, begin: Begin) -> Result<(), AllocError>
        ensures { OnOk result ((listed : Bool) → WalksStmt scopes.now self.old self.new (tree.block (body b.now)) (begin_as begin) listed) }
    {
        let opened = self.begin(b, begin)?;
        self.body(scopes, b)?;
        self.end(opened);
        Ok(())
    }

    /// A statement after its condition or its count.
    #[cycle(statements)]
    fn guarded(&mut self, scopes: &Scopes, kind: Kind, s: &Stmt, e: &Expr) -> Result<(), AllocError>
        ensures { OnOk result (WalksGuarded scopes.now self.old self.new kind (expr e.now) (stmt s.now)) }
    {
        self.typed(scopes, kind, e);
        self.stmt(scopes, s, Begin::OfStatement, false)
    }

    #[cycle(statements)]
    fn until(&mut self, scopes: &Scopes, s: &Stmt, e: &Expr) -> Result<(), AllocError>
        ensures { OnOk result ((begin : blocks.Begin) (listed : Bool) → WalksStmt scopes.now self.old self.new (tree.until (stmt s.now) (expr e.now)) begin listed) }
    {
        self.stmt(scopes, s, Begin::OfStatement, false)?;
        self.typed(scopes, Kind::Truth, e);
        Ok(())
    }

    #[cycle(statements)]
    fn counted(
        &mut self,
        scopes: &Scopes,
        s: &Stmt,
        v: &Named,
        x: &Expr,
        step: &Expr,
        last: &Expr,
    ) -> Result<(), AllocError>
        ensures { OnOk result ((begin : blocks.Begin) (listed : Bool) → WalksStmt scopes.now self.old self.new (tree.for v.now (expr x.now) (expr step.now) (expr last.now) (stmt s.now)) begin listed) }
    {
        self.counting(scopes, v, x, step, last);
        self.stmt(scopes, s, Begin::OfStatement, false)
    }

    #[cycle(statements)]
    fn case(&mut self, scopes: &Scopes, ss: &[Stmt], e: &Expr) -> Result<(), AllocError>
        ensures { OnOk result ((begin : blocks.Begin) (listed : Bool) → WalksStmt scopes.now self.old self.new (tree.case (expr e.now) (stmts ss.now)) begin listed) }
    {
        self.typed(scopes, Kind::Number, e);
        self.stmts(scopes, ss, false)
    }

    /// Statements, which are the list of statements of their block or are not.
    #[cycle(statements)]
    fn stmts(&mut self, scopes: &Scopes, ss: &[Stmt], listed: bool) -> Result<(), AllocError>
        ensures { OnOk result (WalksStmts scopes.now self.old self.new (stmts ss.now) listed) }
    {
        'statements: for s in ss {
            self.stmt(scopes, s, Begin::OfStatement, listed)?;
        }
        Ok(())
    }

    /// The statements of a body, which are the list of its block where it has declarations.
    #[cycle(statements)]
    fn list(&mut self, scopes: &Scopes, b: &Body) -> Result<(), AllocError>
        ensures { OnOk result (WalksStmts scopes.now self.old self.new (stmts b.now.stmts) (has_decls (decls_in (body b.now)))) }
    {
        self.stmts(scopes, stmts_in(&b.stmts), has_declarations(b))
    }

    /// Declarations and statements.
    #[cycle(statements)]
    fn body(&mut self, scopes: &Scopes, b: &Body) -> Result<(), AllocError>
        ensures { OnOk result (WalksBody scopes.now self.old self.new (body b.now)) }
    {
        let ds = decls_in(&b.decls);
        let bodies = announced(self.alloc, ds)?;
        'declarations: for (at, d) in ds.iter().enumerate() {
            self.decl(scopes, d, body_at(bodies.as_slice(), at))?;
        }
        self.list(scopes, b)
    }

    /// A declaration, and of a FORWARD the heading with the body.
    #[cycle(statements)]
    fn decl(&mut self, scopes: &Scopes, d: &Decl, body: Option<&Heading>) -> Result<(), AllocError>
        ensures { OnOk result ((later : PDecls) → body_for (decl d.now) later ≡ option_copied body.entry → WalksDecl scopes.now self.old self.new (decl d.now) later) }
    {
        match d {
            Decl::Simple(_, _) => Ok(()),
            Decl::Files(_) => Ok(()),
            Decl::Events(_) => Ok(()),
            Decl::Tasks(_) => Ok(()),
            Decl::Labels(ns) => self.keep_labels(ns.items()),
            Decl::Arrays(_, _, pairs) => {
                self.bounds(scopes, pairs.items());
                Ok(())
            }
            Decl::Forward(h) => self.forward(h, body),
            Decl::Procedure(h, s) => self.procedure(scopes, h, boxed_stmt(s)),
        }
    }

    /// A heading with its body.
    #[cycle(statements)]
    fn procedure(&mut self, scopes: &Scopes, h: &Heading, s: &Stmt) -> Result<(), AllocError>
        ensures { OnOk result ((later : PDecls) → WalksDecl scopes.now self.old self.new (tree.procedure h.now (stmt s.now)) later) }
    {
        self.heading(h)?;
        self.enter(h)?;
        self.stmt(scopes, s, Begin::OfProcedure, false)?;
        self.leave();
        Ok(())
    }
}

/// Checks the rules of types, counts, lines and labels, by the scopes of the tree. The places in the tree are in the order of the text,
/// so that no two blocks begin at one place: a place is known by the blocks that it is in.
///
/// # Errors
/// The first fault in the order of the text, and at one place that of the rule with the lowest number; or want of memory.
pub fn check(alloc: Global, tree: &Program, scopes: &Scopes) -> Result<(), Refusal>
    requires order { IsInOrder (program tree.now) }
    requires scopes { AreOf (program tree.now) scopes.now }
    ensures refused { (spot : Spot) (code : Code) → result ≡ Err (At spot code) → first_fault (check_faults (program tree.now)) ≡ Some (record { spot = spot; code = code }) }
    ensures passed { IfOk result (λ _. check_faults (program tree.now) ≡ []) }
{
    let mut checker = Checker::new(alloc, tree.body.spot);
    checker.body(scopes, &tree.body)?;
    checker.finish()?;
    checker.faults.refusal()
}
