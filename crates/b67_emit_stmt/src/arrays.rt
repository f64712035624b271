//! Arrays: their bounds, and how they are made.

ghost use Rattle.std.specs.Prelude.{◌≡◌, ◌+◌, ◌<◌, ◌≤◌, IsSome, OnOk};
ghost use Rattle.algol_tree.specs.declared.TheConstants.{MOST_BLOCK_CELLS};
ghost use Rattle.algol_tree.specs.Image as plain;
ghost use Rattle.b67_segment.specs.declared.TheConstants.{MOST_SEGMENT_SYLLABLES};
ghost use Rattle.b67_segment.specs.Operators.{size};
ghost use Rattle.b67_segment.specs.Building.{level_set};
ghost use Rattle.b67_templates.specs.Code.{AreDimensions};
ghost use Rattle.b67_templates.specs.Emitting.{Emitted};
ghost use Rattle.b67_emitter.specs.Values.{AreNear};
ghost use Rattle.b67_emit_stmt.specs.Fits.{BoundsFit};
ghost use Rattle.b67_emit_stmt.specs.Lengths.{arrays_syllables, bounds_syllables};
ghost use Rattle.b67_emit_stmt.specs.Places.{Later, Place, ArraysAt, BoundsAt};

use crate::draft::StmtEmitter;
use algol_tree::{Pair, Whole};
use b67_emitter::{ExprEmitter, append_all, append_intrinsic, append_number};
use b67_ops::{Intrinsic, PlainKind};
use b67_segment::Builder;
use std::alloc::AllocError;

impl<'a, E: ExprEmitter> StmtEmitter<'a, E> {
    /// Lower bounds as they stand, and the values of upper bounds.
    fn bounds(&self, pairs: &[Pair], out: &mut Builder) -> Result<(), AllocError>
        requires set { IsSome out.old.level }
        requires near { AreNear self.now.known.now.names.now }
        requires fits { (sc : Place) × BoundsFit sc self.now.known.now (level_set out.old) (plain.pairs pairs.now) }
        requires room { size out.old.operators + bounds_syllables self.now.known.now (plain.pairs pairs.now) ≤ MOST_SEGMENT_SYLLABLES }
        ensures code { OnOk result ((sc : Place) (later : Later) → BoundsFit sc self.now.known.now (level_set out.old) (plain.pairs pairs.now) → Emitted out.old out.new (λ qs. BoundsAt sc later qs (level_set out.old) (plain.pairs pairs.now) (size out.old.operators) (size out.new.operators))) }
        ensures level { OnOk result (out.new.level ≡ out.old.level) }
        ensures size { OnOk result (size out.new.operators ≤ size out.old.operators + bounds_syllables self.now.known.now (plain.pairs pairs.now)) }
    {
        'pairs: for pair in pairs {
            append_number(out, Whole::fitting(pair.low))?;
            self.exprs.value(&pair.high, self.known.names, out)?;
        }
        Ok(())
    }

    /// So many arrays with the same bounds: a mark, the reference of the intrinsic, how many they are, the bounds, the entry, and PUSH,
    /// which makes cells of their descriptors.
    pub(crate) fn alike(
        &self,
        many: usize,
        pairs: &[Pair],
        out: &mut Builder,
    ) -> Result<(), AllocError>
        requires set { IsSome out.old.level }
        requires near { AreNear self.now.known.now.names.now }
        requires some { 1 ≤ many }
        requires few { many ≤ MOST_BLOCK_CELLS }
        requires dimensions { AreDimensions (plain.pairs pairs.now) }
        requires fits { (sc : Place) × BoundsFit sc self.now.known.now (level_set out.old) (plain.pairs pairs.now) }
        requires room { size out.old.operators + arrays_syllables self.now.known.now (plain.pairs pairs.now) ≤ MOST_SEGMENT_SYLLABLES }
        ensures code { OnOk result ((sc : Place) (later : Later) → BoundsFit sc self.now.known.now (level_set out.old) (plain.pairs pairs.now) → Emitted out.old out.new (λ qs. ArraysAt sc later qs (level_set out.old) many (plain.pairs pairs.now) (size out.old.operators) (size out.new.operators))) }
        ensures level { OnOk result (out.new.level ≡ out.old.level) }
        ensures size { OnOk result (size out.new.operators ≤ size out.old.operators + arrays_syllables self.now.known.now (plain.pairs pairs.now)) }
    {
        append_intrinsic(out, Intrinsic::Arrays)?;
        append_number(out, Whole::fitting(many as i64))?;
        self.bounds(pairs, out)?;
        append_all(out, &[PlainKind::Entr, PlainKind::Push])
    }
}
