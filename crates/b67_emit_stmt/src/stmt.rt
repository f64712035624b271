//! Statements.

ghost use Rattle.std.specs.Prelude.{◌+◌, OnOk};
ghost use Rattle.algol_tree.specs.Image.{expr, stmt, stmts};
ghost use Rattle.algol_tree.specs.Plain as tree;
ghost use Rattle.b67_emit_stmt.specs.Lengths.{expr_syllables, stmt_syllables, stmts_syllables};
ghost use Rattle.b67_emit_stmt.specs.Drafts.{AddsStmt, AddsStmts, DraftIsAt, IsReady, draft_noted};
ghost use Rattle.b67_emit_stmt.specs.Emits.{HasFit, HaveFit, EmitsStmt, EmitsStmts, EmitsThen, HasFitThen};

use crate::draft::{Draft, Label, StmtEmitter};
use algol_tree::{Expr, Named, Stmt};
use b67_emitter::{ExprEmitter, aim, aim_exits, append_branch, append_exit};
use b67_ops::BranchKind;
use std::alloc::AllocError;

impl<'a, E: ExprEmitter> StmtEmitter<'a, E> {
    /// IF without ELSE.
    #[cycle(statements)]
    fn if_then(&self, x: &Stmt, c: &Expr, to: &mut Draft) -> Result<(), AllocError>
        requires level { DraftIsAt self.now.level to.old }
        requires ready { IsReady self.now.known.now to.old (stmt_syllables self.now.known.now (tree.if_then (expr c.now) (stmt x.now))) }
        requires fits { HasFit self.now.known.now to.old (tree.if_then (expr c.now) (stmt x.now)) }
        ensures code { OnOk result (EmitsStmt self.now.known.now to.old to.new (tree.if_then (expr c.now) (stmt x.now))) }
        ensures lines { OnOk result (AddsStmt to.old to.new (tree.if_then (expr c.now) (stmt x.now))) }
    {
        self.exprs.value(c, self.known.names, &mut to.out)?;
        append_exit(&mut to.out, BranchKind::Brfl, &mut to.exits)?;
        self.stmt(x, to)
    }

    /// IF with ELSE, up to its second statement.
    #[cycle(statements)]
    fn then_part(&self, x: &Stmt, c: &Expr, to: &mut Draft) -> Result<(), AllocError>
        requires level { DraftIsAt self.now.level to.old }
        requires ready { IsReady self.now.known.now to.old (expr_syllables self.now.known.now (expr c.now) + stmt_syllables self.now.known.now (stmt x.now) + 6) }
        requires fits { HasFitThen self.now.known.now to.old (expr c.now) (stmt x.now) }
        ensures code { OnOk result (EmitsThen self.now.known.now to.old to.new (expr c.now) (stmt x.now)) }
        ensures lines { OnOk result (AddsStmt to.old to.new (stmt x.now)) }
    {
        self.exprs.value(c, self.known.names, &mut to.out)?;
        let otherwise = append_branch(&mut to.out, BranchKind::Brfl)?;
        self.stmt(x, to)?;
        append_exit(&mut to.out, BranchKind::Brun, &mut to.exits)?;
        aim(&mut to.out, &[otherwise]);
        Ok(())
    }

    /// A statement after a label. Where it begins is noted.
    #[cycle(statements)]
    fn labelled(&self, s: &Stmt, n: &Named, to: &mut Draft) -> Result<(), AllocError>
        requires level { DraftIsAt self.now.level to.old }
        requires ready { IsReady self.now.known.now to.old (stmt_syllables self.now.known.now (tree.label n.now (stmt s.now))) }
        requires fits { HasFit self.now.known.now to.old (tree.label n.now (stmt s.now)) }
        ensures code { OnOk result (EmitsStmt self.now.known.now to.old to.new (tree.label n.now (stmt s.now))) }
        ensures lines { OnOk result (AddsStmt to.old to.new (tree.label n.now (stmt s.now))) }
    {
        let place = to.out.place();
        to.labels.push(Label {
            spot: n.spot,
            place,
        })?;
        self.stmt(s, to)
    }

    /// A statement.
    #[cycle(statements)]
    pub fn stmt(&self, s: &Stmt, to: &mut Draft) -> Result<(), AllocError>
        requires level { DraftIsAt self.now.level to.old }
        requires ready { IsReady self.now.known.now to.old (stmt_syllables self.now.known.now (stmt s.now)) }
        requires fits { HasFit self.now.known.now to.old (stmt s.now) }
        ensures code { OnOk result (EmitsStmt self.now.known.now to.old to.new (stmt s.now)) }
        ensures lines { OnOk result (AddsStmt to.old to.new (stmt s.now)) }
    {
        match s {
            Stmt::Empty => Ok(()),
            Stmt::Call(c) => self.call(c, &mut to.out),
            Stmt::Assign(v, e) => self.store(v, e, &mut to.out),
            Stmt::Block(b) => {
                if b.decls.items().is_empty() {
                    self.stmts(b.stmts.items(), to)
                } else {
                    self.inner_block(b.stmts.items(), b.decls.items(), to)
                }
            }
            Stmt::If(c, x, other) => match other {
                None => self.if_then(x, c, to),
                Some(y) => {
                    self.then_part(x, c, to)?;
                    self.stmt(y, to)
                }
            },
            Stmt::While(c, b) => self.while_loop(b, c, to),
            Stmt::Until(b, c) => self.until_loop(b, c, to),
            Stmt::For(v, a, s, l, b) => self.for_loop(b, v, a, s, l, to),
            Stmt::Thru(e, b) => self.thru_loop(b, e, to),
            Stmt::Case(e, ss) => self.case(ss.items(), e, to),
            Stmt::Write(_, _, phrases, items) => self.write(phrases.items(), items.items(), to),
            Stmt::Label(n, s) => self.labelled(s, n, to),
            Stmt::GoTo(n) => self.go_to(n, &mut to.out),
            Stmt::Event(act, e) => self.act(*act, e, &mut to.out),
            Stmt::Process(c, task) => self.start(c, task, &mut to.out),
        }
    }

    /// Statements one after another. Each but the last goes on at the next.
    #[cycle(statements)]
    pub fn stmts(&self, ss: &[Stmt], to: &mut Draft) -> Result<(), AllocError>
        requires level { DraftIsAt self.now.level to.old }
        requires ready { IsReady self.now.known.now to.old (stmts_syllables self.now.known.now (stmts ss.now)) }
        requires fits { HaveFit self.now.known.now to.old (stmts ss.now) }
        ensures code { OnOk result (EmitsStmts self.now.known.now to.old to.new (stmts ss.now)) }
        ensures lines { OnOk result (AddsStmts to.old to.new (stmts ss.now)) }
    {
        let first = to.exits.len();
        'statements: for s in ss {
            aim_exits(&mut to.out, &mut to.exits, first);
            self.stmt(s, to)?;
        }
        Ok(())
    }
}
