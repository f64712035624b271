//! Events: how they are made, and what statements do with them.

ghost use Rattle.std.specs.Prelude.{◌≡◌, ◌+◌, ◌*◌, ◌≤◌, List, ◌∷◌, [], length, IsSome, OnOk};
ghost use Rattle.algol_tree.specs.declared.tree.Named.{Named};
ghost use Rattle.b67_segment.specs.declared.TheConstants.{MOST_SEGMENT_SYLLABLES};
ghost use Rattle.b67_segment.specs.Operators.{size};
ghost use Rattle.b67_segment.specs.Building.{level_set};
ghost use Rattle.b67_templates.specs.Emitting.{Emitted};
ghost use Rattle.b67_deeds.specs.Deeds.{acts};
ghost use Rattle.b67_ops.specs.Intrinsics.{intrinsic_of};
ghost use Rattle.b67_emitter.specs.Values.{AreNear};
ghost use Rattle.b67_emit_stmt.specs.Fits.{EventFits};
ghost use Rattle.b67_emit_stmt.specs.Places.{Later, Place, EventsMadeAt, OnEventsAt};

use crate::draft::StmtEmitter;
use algol_tree::{EventAct, EventName};
use b67_emitter::{ExprEmitter, append_all, append_intrinsic, append_on_events};
use b67_ops::{Intrinsic, PlainKind};
use b67_segment::Builder;
use std::alloc::AllocError;
use std::slice::from_ref;

/// The intrinsic that does what a statement does with an event.
fn intrinsic_for(act: EventAct) -> Intrinsic
    ensures { result ≡ intrinsic_of (acts act) }
{
    match act {
        EventAct::Cause => Intrinsic::Cause,
        EventAct::CauseAndReset => Intrinsic::CauseAndReset,
        EventAct::Reset => Intrinsic::Reset,
        EventAct::Wait => Intrinsic::Wait,
        EventAct::Procure => Intrinsic::Procure,
        EventAct::Liberate => Intrinsic::Liberate,
    }
}

/// So many events: for each a mark, the reference of the intrinsic, the entry, and PUSH, which makes a cell of its word.
pub(crate) fn append_events(many: usize, out: &mut Builder) -> Result<(), AllocError>
    requires set { IsSome out.old.level }
    requires room { size out.old.operators + 5 * many ≤ MOST_SEGMENT_SYLLABLES }
    ensures code { OnOk result ((sc : Place) (later : Later) (ns : List Named) → length ns ≡ many → Emitted out.old out.new (λ qs. EventsMadeAt sc later qs (level_set out.old) ns (size out.old.operators) (size out.new.operators))) }
    ensures level { OnOk result (out.new.level ≡ out.old.level) }
    ensures size { OnOk result (size out.new.operators ≡ size out.old.operators + 5 * many) }
{
    'events: for _ in 0..many {
        append_intrinsic(out, Intrinsic::Event)?;
        append_all(out, &[PlainKind::Entr, PlainKind::Push])?;
    }
    Ok(())
}

impl<'a, E: ExprEmitter> StmtEmitter<'a, E> {
    /// What a statement does with an event: CAUSE, CAUSEANDRESET, RESET, WAIT, PROCURE or LIBERATE.
    pub(crate) fn act(
        &self,
        act: EventAct,
        e: &EventName,
        out: &mut Builder,
    ) -> Result<(), AllocError>
        requires set { IsSome out.old.level }
        requires near { AreNear self.now.known.now.names.now }
        requires fits { (sc : Place) × EventFits sc self.now.known.now (level_set out.old) e.now.name }
        requires room { size out.old.operators + 6 ≤ MOST_SEGMENT_SYLLABLES }
        ensures code { OnOk result ((sc : Place) (later : Later) → EventFits sc self.now.known.now (level_set out.old) e.now.name → Emitted out.old out.new (λ qs. OnEventsAt sc later qs (level_set out.old) (intrinsic_of (acts act)) (e.now.name ∷ []) (size out.old.operators) (size out.new.operators))) }
        ensures size { OnOk result (size out.new.operators ≤ size out.old.operators + 6) }
    {
        append_on_events(intrinsic_for(act), from_ref(e), self.known.names, out)
    }
}
