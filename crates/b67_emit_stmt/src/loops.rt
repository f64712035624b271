//! Loops. Each turn of a loop ends with a branch back to its test.

ghost use Rattle.std.specs.Prelude.{OnOk};
ghost use Rattle.algol_tree.specs.Image.{expr, stmt};
ghost use Rattle.algol_tree.specs.Plain as tree;
ghost use Rattle.b67_emit_stmt.specs.Lengths.{stmt_syllables};
ghost use Rattle.b67_emit_stmt.specs.Drafts.{AddsStmt, DraftIsAt, IsReady};
ghost use Rattle.b67_emit_stmt.specs.Emits.{HasFit, EmitsStmt, EmitsBody};

use crate::draft::{Draft, StmtEmitter};
use algol_tree::{Expr, Named, Stmt};
use b67_emitter::{
    ExprEmitter, aim, aim_exits, append_all, append_branch, append_exit, append_plain, append_turn,
};
use b67_ops::{BranchKind, PlainKind};
use std::alloc::AllocError;

impl<'a, E: ExprEmitter> StmtEmitter<'a, E> {
    /// A body, whose exits go to the place after it.
    #[cycle(statements)]
    fn loop_body(&self, b: &Stmt, to: &mut Draft) -> Result<(), AllocError>
        requires level { DraftIsAt self.now.level to.old }
        requires ready { IsReady self.now.known.now to.old (stmt_syllables self.now.known.now (stmt b.now)) }
        requires fits { HasFit self.now.known.now to.old (stmt b.now) }
        ensures code { OnOk result (EmitsBody self.now.known.now to.old to.new (stmt b.now)) }
        ensures lines { OnOk result (AddsStmt to.old to.new (stmt b.now)) }
    {
        let first = to.exits.len();
        self.stmt(b, to)?;
        aim_exits(&mut to.out, &mut to.exits, first);
        Ok(())
    }

    /// WHILE.
    #[cycle(statements)]
    pub(crate) fn while_loop(&self, b: &Stmt, c: &Expr, to: &mut Draft) -> Result<(), AllocError>
        requires level { DraftIsAt self.now.level to.old }
        requires ready { IsReady self.now.known.now to.old (stmt_syllables self.now.known.now (tree.while (expr c.now) (stmt b.now))) }
        requires fits { HasFit self.now.known.now to.old (tree.while (expr c.now) (stmt b.now)) }
        ensures code { OnOk result (EmitsStmt self.now.known.now to.old to.new (tree.while (expr c.now) (stmt b.now))) }
        ensures lines { OnOk result (AddsStmt to.old to.new (tree.while (expr c.now) (stmt b.now))) }
    {
        let start = to.out.place();
        self.exprs.value(c, self.known.names, &mut to.out)?;
        append_exit(&mut to.out, BranchKind::Brfl, &mut to.exits)?;
        self.loop_body(b, to)?;
        append_turn(&mut to.out, start)
    }

    /// DO with UNTIL.
    #[cycle(statements)]
    pub(crate) fn until_loop(&self, b: &Stmt, c: &Expr, to: &mut Draft) -> Result<(), AllocError>
        requires level { DraftIsAt self.now.level to.old }
        requires ready { IsReady self.now.known.now to.old (stmt_syllables self.now.known.now (tree.until (stmt b.now) (expr c.now))) }
        requires fits { HasFit self.now.known.now to.old (tree.until (stmt b.now) (expr c.now)) }
        ensures code { OnOk result (EmitsStmt self.now.known.now to.old to.new (tree.until (stmt b.now) (expr c.now))) }
        ensures lines { OnOk result (AddsStmt to.old to.new (tree.until (stmt b.now) (expr c.now))) }
    {
        let start = to.out.place();
        self.loop_body(b, to)?;
        self.exprs.value(c, self.known.names, &mut to.out)?;
        append_exit(&mut to.out, BranchKind::Brtr, &mut to.exits)?;
        append_turn(&mut to.out, start)
    }

    /// FOR: the first value, the test of each turn, the body, the next value.
    #[cycle(statements)]
    pub(crate) fn for_loop(
        &self,
        b: &Stmt,
        v: &Named,
        a: &Expr,
        s: &Expr,
        l: &Expr,
        to: &mut Draft,
    ) -> Result<(), AllocError>
        requires level { DraftIsAt self.now.level to.old }
        requires ready { IsReady self.now.known.now to.old (stmt_syllables self.now.known.now (tree.for v.now (expr a.now) (expr s.now) (expr l.now) (stmt b.now))) }
        requires fits { HasFit self.now.known.now to.old (tree.for v.now (expr a.now) (expr s.now) (expr l.now) (stmt b.now)) }
        ensures code { OnOk result (EmitsStmt self.now.known.now to.old to.new (tree.for v.now (expr a.now) (expr s.now) (expr l.now) (stmt b.now))) }
        ensures lines { OnOk result (AddsStmt to.old to.new (tree.for v.now (expr a.now) (expr s.now) (expr l.now) (stmt b.now))) }
    {
        self.assign(v, a, &mut to.out)?;
        let start = to.out.place();
        self.difference(v, l, &mut to.out)?;
        self.step(s, to)?;
        self.loop_body(b, to)?;
        self.advance(v, s, &mut to.out)?;
        append_turn(&mut to.out, start)
    }

    /// THRU: one is taken off the count before the body.
    #[cycle(statements)]
    pub(crate) fn thru_loop(&self, b: &Stmt, e: &Expr, to: &mut Draft) -> Result<(), AllocError>
        requires level { DraftIsAt self.now.level to.old }
        requires ready { IsReady self.now.known.now to.old (stmt_syllables self.now.known.now (tree.thru (expr e.now) (stmt b.now))) }
        requires fits { HasFit self.now.known.now to.old (tree.thru (expr e.now) (stmt b.now)) }
        ensures code { OnOk result (EmitsStmt self.now.known.now to.old to.new (tree.thru (expr e.now) (stmt b.now))) }
        ensures lines { OnOk result (AddsStmt to.old to.new (tree.thru (expr e.now) (stmt b.now))) }
    {
        self.exprs.value(e, self.known.names, &mut to.out)?;
        let start = to.out.place();
        append_all(
            &mut to.out,
            &[PlainKind::Dupl, PlainKind::One, PlainKind::Less],
        )?;
        let over = append_branch(&mut to.out, BranchKind::Brtr)?;
        append_all(&mut to.out, &[PlainKind::One, PlainKind::Subt])?;
        self.loop_body(b, to)?;
        append_turn(&mut to.out, start)?;
        aim(&mut to.out, &[over]);
        append_plain(&mut to.out, PlainKind::Dlet)
    }
}
