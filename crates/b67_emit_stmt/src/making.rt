//! What a block begins with: its cells, and what its declarations make by actions.

ghost use Rattle.std.specs.Prelude.{◌≡◌, ℕ, ◌+◌, ◌<◌, ◌≤◌, length, IsSome, OnOk};
ghost use Rattle.std.specs.List.{All};
ghost use Rattle.algol_tree.specs.declared.TheConstants.{MOST_BLOCK_CELLS};
ghost use Rattle.algol_tree.specs.Image as plain;
ghost use Rattle.b67_ops.specs.declared.TheConstants.{MOST_LEVEL};
ghost use Rattle.b67_segment.specs.declared.TheConstants.{MOST_SEGMENT_SYLLABLES};
ghost use Rattle.b67_segment.specs.Operators.{size};
ghost use Rattle.b67_segment.specs.Building.{level_set};
ghost use Rattle.b67_templates.specs.Cells.{made_of, procedures};
ghost use Rattle.b67_templates.specs.Emitting.{Emitted};
ghost use Rattle.b67_emitter.specs.Values.{AreNear};
ghost use Rattle.b67_emit_stmt.specs.Actuals.{images};
ghost use Rattle.b67_emit_stmt.specs.Bodies.{EmitsBegin, IsSmallBlock};
ghost use Rattle.b67_emit_stmt.specs.Drafts.{DraftIsAt, IsReady, draft_noted};
ghost use Rattle.b67_emit_stmt.specs.Fits.{AreNumbered, DeclsFit};
ghost use Rattle.b67_emit_stmt.specs.Lengths.{begin_syllables, decls_syllables};
ghost use Rattle.b67_emit_stmt.specs.Places.{Later, Place, DeclsAt, only};

use crate::draft::{Draft, StmtEmitter};
use crate::events::append_events;
use algol_tree::{Decl, Expr};
use b67_emitter::ExprEmitter;
use b67_segment::Builder;
use std::alloc::AllocError;

impl<'a, E: ExprEmitter> StmtEmitter<'a, E> {
    /// The arrays, the events or the tasks of a declaration.
    fn make(&self, d: &Decl, out: &mut Builder) -> Result<(), AllocError>
        requires set { IsSome out.old.level }
        requires near { AreNear self.now.known.now.names.now }
        requires few { length (made_of (only (plain.decl d.now))) ≤ MOST_BLOCK_CELLS }
        requires fits { (sc : Place) × DeclsFit sc self.now.known.now (level_set out.old) (only (plain.decl d.now)) }
        requires room { size out.old.operators + decls_syllables self.now.known.now (only (plain.decl d.now)) ≤ MOST_SEGMENT_SYLLABLES }
        ensures code { OnOk result ((sc : Place) (later : Later) → DeclsFit sc self.now.known.now (level_set out.old) (only (plain.decl d.now)) → Emitted out.old out.new (λ qs. DeclsAt sc later qs (level_set out.old) (only (plain.decl d.now)) (size out.old.operators) (size out.new.operators))) }
        ensures level { OnOk result (out.new.level ≡ out.old.level) }
        ensures size { OnOk result (size out.new.operators ≤ size out.old.operators + decls_syllables self.now.known.now (only (plain.decl d.now))) }
    {
        match d {
            Decl::Arrays(_, ns, pairs) => self.alike(ns.items().len(), pairs.items(), out),
            Decl::Events(ns) => append_events(ns.items().len(), out),
            Decl::Tasks(ns) => append_events(ns.items().len(), out),
            _ => Ok(()),
        }
    }

    /// Those of declarations, in their order.
    fn make_all(&self, ds: &[Decl], out: &mut Builder) -> Result<(), AllocError>
        requires set { IsSome out.old.level }
        requires near { AreNear self.now.known.now.names.now }
        requires few { length (made_of (plain.decls ds.now)) ≤ MOST_BLOCK_CELLS }
        requires fits { (sc : Place) × DeclsFit sc self.now.known.now (level_set out.old) (plain.decls ds.now) }
        requires room { size out.old.operators + decls_syllables self.now.known.now (plain.decls ds.now) ≤ MOST_SEGMENT_SYLLABLES }
        ensures code { OnOk result ((sc : Place) (later : Later) → DeclsFit sc self.now.known.now (level_set out.old) (plain.decls ds.now) → Emitted out.old out.new (λ qs. DeclsAt sc later qs (level_set out.old) (plain.decls ds.now) (size out.old.operators) (size out.new.operators))) }
        ensures size { OnOk result (size out.new.operators ≤ size out.old.operators + decls_syllables self.now.known.now (plain.decls ds.now)) }
    {
        'decls: for d in ds {
            self.make(d, out)?;
        }
        Ok(())
    }

    /// What a block begins with: a cell of 0 for each of so many, those of the procedures that are declared and of these actuals, whose
    /// code begins at these places, and after them those of the arrays, the events and the tasks.
    pub(crate) fn begin(
        &self,
        many: usize,
        ds: &[Decl],
        actuals: &[&Expr],
        places: &[u16],
        to: &mut Draft,
    ) -> Result<(), AllocError>
        requires level { DraftIsAt self.now.level to.old }
        requires ready { IsReady self.now.known.now to.old (begin_syllables self.now.known.now many (plain.decls ds.now) (images actuals.now)) }
        requires few { IsSmallBlock many (plain.decls ds.now) (images actuals.now) }
        requires inner { 1 ≤ length actuals.now → self.now.level + 1 ≤ MOST_LEVEL }
        requires placed { length places.now ≡ length actuals.now }
        requires places { All (λ (at : ℕ). at < MOST_SEGMENT_SYLLABLES) places.now }
        requires fits { (sc : Place) × (sc.segment ≡ self.now.known.now.segment) × AreNumbered sc.scopes self.now.known.now self.now.level (procedures (plain.decls ds.now)) × DeclsFit sc self.now.known.now self.now.level (plain.decls ds.now) }
        ensures code { OnOk result (EmitsBegin self.now.known.now self.now.level to.old to.new many (plain.decls ds.now) (images actuals.now) places.now) }
        ensures notes { OnOk result (draft_noted to.new ≡ draft_noted to.old) }
    {
        self.cells(many, ds, actuals, places, to)?;
        self.make_all(ds, &mut to.out)
    }
}
