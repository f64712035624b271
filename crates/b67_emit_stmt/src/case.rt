//! CASE: the number selects a branch of a table, and the branch goes to its statement.

ghost use Rattle.std.specs.Prelude.{◌≡◌, ◌+◌, ◌*◌, ◌≤◌, IsSome, OnOk};
ghost use Rattle.algol_tree.specs.Image.{expr, stmts};
ghost use Rattle.algol_tree.specs.Plain as tree;
ghost use Rattle.b67_emit_stmt.specs.Lengths.{expr_syllables, stmt_syllables, stmts_syllables};
ghost use Rattle.b67_emit_stmt.specs.Drafts.{AddsStmt, AddsStmts, DraftIsAt, IsReady};
ghost use Rattle.b67_emit_stmt.specs.Emits.{HasFit, HaveFit, EmitsStmt, EmitsCases};
ghost use Rattle.algol_tree.specs.declared.tree.Kind.TheVariants as types;
ghost use Rattle.b67_emit_stmt.specs.Places.{Later, Place};
ghost use Rattle.b67_segment.specs.declared.TheConstants.{MOST_SEGMENT_SYLLABLES};
ghost use Rattle.b67_segment.specs.Operators.{size};
ghost use Rattle.b67_segment.specs.Building.{level_set};
ghost use Rattle.b67_emit_stmt.specs.Fits.{EmittedExprFits};
ghost use Rattle.b67_templates.specs.Emitting.{Emitted};
ghost use Rattle.b67_emitter.specs.Values.{AreNear};
ghost use Rattle.b67_emit_stmt.specs.Cases.{EntriesAt, SelectAt};

use crate::draft::{Draft, StmtEmitter};
use algol_tree::{Expr, Stmt, Whole};
use b67_emitter::{
    ExprEmitter, aim, append_exit, append_intrinsic, append_number, append_operator, append_plain,
};
use b67_ops::{BranchKind, Intrinsic, Operator, PlainKind};
use b67_segment::Builder;
use std::alloc::AllocError;

/// The syllables of a branch, and so of an entry of the table.
const ENTRY: u16 = 3;

/// The syllables of the table's place as a literal and of ENTR after it.
const TO_TABLE: u16 = 4;

/// A branch for each of so many statements, to be aimed when the statement begins.
fn append_entries(many: usize, out: &mut Builder) -> Result<(), AllocError>
    requires set { IsSome out.old.level }
    requires room { size out.old.operators + 3 * many ≤ MOST_SEGMENT_SYLLABLES }
    ensures code { OnOk result (Emitted out.old out.new (λ qs. EntriesAt qs (level_set out.old) many (size out.old.operators) (size out.new.operators))) }
    ensures level { OnOk result (out.new.level ≡ out.old.level) }
    ensures size { OnOk result (size out.new.operators ≡ size out.old.operators + 3 * many) }
{
    'entries: for _ in 0..many {
        append_operator(out, &Operator::Branch(BranchKind::Brun, 0))?;
    }
    Ok(())
}

impl<'a, E: ExprEmitter> StmtEmitter<'a, E> {
    /// The mark, the reference of SELECT, the number, how many statements there are, the place of their table, and ENTR, after
    /// which the table begins.
    fn select(&self, e: &Expr, many: usize, out: &mut Builder) -> Result<(), AllocError>
        requires set { IsSome out.old.level }
        requires near { AreNear self.now.known.now.names.now }
        requires few { many ≤ MOST_SEGMENT_SYLLABLES }
        requires fits { (sc : Place) × EmittedExprFits sc self.now.known.now (level_set out.old) types.Number (expr e.now) }
        requires room { size out.old.operators + (19 + expr_syllables self.now.known.now (expr e.now)) ≤ MOST_SEGMENT_SYLLABLES }
        ensures code { OnOk result ((sc : Place) (later : Later) → EmittedExprFits sc self.now.known.now (level_set out.old) types.Number (expr e.now) → Emitted out.old out.new (λ qs. SelectAt sc later qs (level_set out.old) (expr e.now) many (size out.old.operators) (size out.new.operators))) }
        ensures level { OnOk result (out.new.level ≡ out.old.level) }
        ensures size { OnOk result (size out.new.operators ≤ size out.old.operators + (19 + expr_syllables self.now.known.now (expr e.now))) }
    {
        append_intrinsic(out, Intrinsic::Select)?;
        self.exprs.value(e, self.known.names, out)?;
        append_number(out, Whole::fitting(many as i64))?;
        let table = out.place() + TO_TABLE;
        append_operator(out, &Operator::Lt16(table))?;
        append_plain(out, PlainKind::Entr)
    }

    /// The table of branches, and after it the statements to which they go.
    #[cycle(statements)]
    fn cases(&self, ss: &[Stmt], to: &mut Draft) -> Result<(), AllocError>
        requires level { DraftIsAt self.now.level to.old }
        requires ready { IsReady self.now.known.now to.old (stmts_syllables self.now.known.now (stmts ss.now)) }
        requires fits { HaveFit self.now.known.now to.old (stmts ss.now) }
        ensures code { OnOk result (EmitsCases self.now.known.now to.old to.new (stmts ss.now)) }
        ensures lines { OnOk result (AddsStmts to.old to.new (stmts ss.now)) }
    {
        let mut entry = to.out.place();
        append_entries(ss.len(), &mut to.out)?;
        'statements: for s in ss {
            aim(&mut to.out, &[entry]);
            self.stmt(s, to)?;
            append_exit(&mut to.out, BranchKind::Brun, &mut to.exits)?;
            entry += ENTRY;
        }
        Ok(())
    }

    /// CASE.
    #[cycle(statements)]
    pub(crate) fn case(&self, ss: &[Stmt], e: &Expr, to: &mut Draft) -> Result<(), AllocError>
        requires level { DraftIsAt self.now.level to.old }
        requires ready { IsReady self.now.known.now to.old (stmt_syllables self.now.known.now (tree.case (expr e.now) (stmts ss.now))) }
        requires fits { HasFit self.now.known.now to.old (tree.case (expr e.now) (stmts ss.now)) }
        ensures code { OnOk result (EmitsStmt self.now.known.now to.old to.new (tree.case (expr e.now) (stmts ss.now))) }
        ensures lines { OnOk result (AddsStmt to.old to.new (tree.case (expr e.now) (stmts ss.now))) }
    {
        self.select(e, ss.len(), &mut to.out)?;
        self.cases(ss, to)
    }
}
