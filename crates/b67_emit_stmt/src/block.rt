//! Blocks, those of texts and those within others.

ghost use Rattle.std.specs.Prelude.{◌≡◌, ℕ, ◌+◌, ◌<◌, ◌≤◌, length, IfOk, OnOk};
ghost use Rattle.std.specs.List.{All};
ghost use Rattle.algol_tree.specs.Image.{decls, stmts};
ghost use Rattle.b67_ops.specs.declared.TheConstants.{MOST_LEVEL};
ghost use Rattle.b67_segment.specs.declared.TheConstants.{MOST_SEGMENT_SYLLABLES};
ghost use Rattle.b67_segment.specs.Operators.{size};
ghost use Rattle.b67_segment.specs.Building.{level_set};
ghost use Rattle.b67_emit_stmt.specs.Drafts.{AddsStmts, DraftIsAt, IsReady};
ghost use Rattle.b67_emit_stmt.specs.Actuals.{images};
ghost use Rattle.b67_emit_stmt.specs.Bodies.{EmitsBlock, EmitsEnded, EmitsInner, EmitsInside, HaveFitInside, HaveInside, IsSmallBlock, block_syllables, ended_syllables, inner_syllables, inside_syllables, variables_in};
ghost use Rattle.b67_emit_stmt.specs.Lengths.{celled_in};

use crate::actuals::actuals_of;
use crate::cells::variables_of;
use crate::draft::{Draft, StmtEmitter};
use algol_tree::{Decl, Expr, Stmt};
use b67_emitter::{ExprEmitter, aim, aim_exits, append_branch, append_entry, append_plain};
use b67_ops::{BranchKind, PlainKind};
use std::alloc::AllocError;

impl<'a, E: ExprEmitter> StmtEmitter<'a, E> {
    /// The code of a block up to its end, at the level that is set: what it begins with, where the code of its actuals begins at these
    /// places, and its statements, whose exits go to the place after them.
    #[cycle(statements)]
    pub fn inside(
        &self,
        ss: &[Stmt],
        ds: &[Decl],
        many: usize,
        actuals: &[&Expr],
        places: &[u16],
        to: &mut Draft,
    ) -> Result<(), AllocError>
        requires level { DraftIsAt self.now.level to.old }
        requires ready { IsReady self.now.known.now to.old (inside_syllables self.now.known.now many (decls ds.now) (stmts ss.now) (images actuals.now)) }
        requires few { IsSmallBlock many (decls ds.now) (images actuals.now) }
        requires inner { 1 ≤ length actuals.now → self.now.level + 1 ≤ MOST_LEVEL }
        requires placed { length places.now ≡ length actuals.now }
        requires places { All (λ (at : ℕ). at < MOST_SEGMENT_SYLLABLES) places.now }
        requires fits { HaveInside self.now.known.now self.now.level (decls ds.now) (stmts ss.now) }
        ensures code { OnOk result (EmitsInside self.now.known.now self.now.level to.old to.new many (decls ds.now) (stmts ss.now) (images actuals.now) places.now) }
        ensures exits { OnOk result (to.new.exits.items ≡ to.old.exits.items) }
        ensures lines { OnOk result (AddsStmts to.old to.new (stmts ss.now)) }
    {
        let first = to.exits.len();
        self.begin(many, ds, actuals, places, to)?;
        self.stmts(ss, to)?;
        aim_exits(&mut to.out, &mut to.exits, first);
        Ok(())
    }

    /// The code of a block the code of whose actuals begins at these places, with its end, and where it begins.
    #[cycle(statements)]
    fn ended(
        &self,
        ss: &[Stmt],
        ds: &[Decl],
        actuals: &[&Expr],
        places: &[u16],
        to: &mut Draft,
    ) -> Result<u16, AllocError>
        requires level { DraftIsAt self.now.level to.old }
        requires ready { IsReady self.now.known.now to.old (ended_syllables self.now.known.now (decls ds.now) (stmts ss.now) (images actuals.now)) }
        requires few { IsSmallBlock (variables_in (decls ds.now)) (decls ds.now) (images actuals.now) }
        requires inner { 1 ≤ length actuals.now → self.now.level + 1 ≤ MOST_LEVEL }
        requires placed { length places.now ≡ length actuals.now }
        requires places { All (λ (at : ℕ). at < MOST_SEGMENT_SYLLABLES) places.now }
        requires fits { HaveInside self.now.known.now self.now.level (decls ds.now) (stmts ss.now) }
        ensures code { IfOk result (EmitsEnded self.now.known.now self.now.level to.old to.new (decls ds.now) (stmts ss.now) (images actuals.now) places.now) }
        ensures lines { OnOk result (AddsStmts to.old to.new (stmts ss.now)) }
    {
        let begin = to.out.place();
        self.inside(ss, ds, variables_of(ds), actuals, places, to)?;
        append_plain(&mut to.out, PlainKind::Exit)?;
        Ok(begin)
    }

    /// The code of a block within another, at its level: that of its actuals, and the block, which begins at the place that is given.
    #[cycle(statements)]
    fn block(&self, ss: &[Stmt], ds: &[Decl], to: &mut Draft) -> Result<u16, AllocError>
        requires level { DraftIsAt self.now.level to.old }
        requires ready { IsReady self.now.known.now to.old (block_syllables self.now.known.now (decls ds.now) (stmts ss.now)) }
        requires few { IsSmallBlock (variables_in (decls ds.now)) (decls ds.now) (celled_in self.now.known.now (decls ds.now) (stmts ss.now)) }
        requires fits { HaveInside self.now.known.now self.now.level (decls ds.now) (stmts ss.now) }
        ensures code { IfOk result (EmitsBlock self.now.known.now self.now.level to.old to.new (decls ds.now) (stmts ss.now)) }
        ensures begin { IfOk result (λ begin. begin < size to.new.out.operators) }
        ensures lines { OnOk result (AddsStmts to.old to.new (stmts ss.now)) }
    {
        let actuals = actuals_of(*to.exits.allocator(), ds, ss, self.known.names)?;
        let places = self.routines(&actuals, to)?;
        self.ended(ss, ds, &actuals, &places, to)
    }

    /// The code of a block one level further in, and where the block begins.
    #[cycle(statements)]
    fn block_inside(&self, ss: &[Stmt], ds: &[Decl], to: &mut Draft) -> Result<u16, AllocError>
        requires level { DraftIsAt self.now.level to.old }
        requires inner { self.now.level + 1 ≤ MOST_LEVEL }
        requires ready { IsReady self.now.known.now to.old (block_syllables self.now.known.now (decls ds.now) (stmts ss.now)) }
        requires few { IsSmallBlock (variables_in (decls ds.now)) (decls ds.now) (celled_in self.now.known.now (decls ds.now) (stmts ss.now)) }
        requires fits { HaveFitInside self.now.known.now to.old (decls ds.now) (stmts ss.now) }
        ensures code { IfOk result (EmitsBlock self.now.known.now (level_set to.old.out + 1) to.old to.new (decls ds.now) (stmts ss.now)) }
        ensures begin { IfOk result (λ begin. begin < size to.new.out.operators) }
        ensures lines { OnOk result (AddsStmts to.old to.new (stmts ss.now)) }
    {
        let inner = StmtEmitter {
            exprs: self.exprs,
            known: self.known,
            level: self.level + 1,
        };
        to.out.level(inner.level)?;
        let begin = inner.block(ss, ds, to)?;
        to.out.level(self.level)?;
        Ok(begin)
    }

    /// A block within another: a branch over its code, the code, and its entry.
    #[cycle(statements)]
    pub(crate) fn inner_block(
        &self,
        ss: &[Stmt],
        ds: &[Decl],
        to: &mut Draft,
    ) -> Result<(), AllocError>
        requires level { DraftIsAt self.now.level to.old }
        requires inner { self.now.level + 1 ≤ MOST_LEVEL }
        requires ready { IsReady self.now.known.now to.old (inner_syllables self.now.known.now (decls ds.now) (stmts ss.now)) }
        requires few { IsSmallBlock (variables_in (decls ds.now)) (decls ds.now) (celled_in self.now.known.now (decls ds.now) (stmts ss.now)) }
        requires fits { HaveFitInside self.now.known.now to.old (decls ds.now) (stmts ss.now) }
        ensures code { OnOk result (EmitsInner self.now.known.now to.old to.new (decls ds.now) (stmts ss.now)) }
        ensures lines { OnOk result (AddsStmts to.old to.new (stmts ss.now)) }
    {
        let over = append_branch(&mut to.out, BranchKind::Brun)?;
        let begin = self.block_inside(ss, ds, to)?;
        aim(&mut to.out, &[over]);
        append_entry(&mut to.out, self.known.segment, begin, self.level + 1)
    }
}
