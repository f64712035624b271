//! The statements that have no statement in them, and their parts: variables, assignments, GO TO, calls and PROCESS.

ghost use Rattle.std.specs.Prelude.{◌≡◌, ◌+◌, ◌≤◌, IsSome, OnOk};
ghost use Rattle.algol_tree.specs.declared.tree.Kind.{Kind};
ghost use Rattle.algol_tree.specs.Image.{call, expr, exprs, variable};
ghost use Rattle.algol_tree.specs.Plain as tree;
ghost use Rattle.b67_emit_stmt.specs.Places.{AssignAt, CallStmtAt, GoToAt, Later, Place, PlaceAt, ReadAt, StartAt, StoredAt};
ghost use Rattle.b67_segment.specs.declared.TheConstants.{MOST_SEGMENT_SYLLABLES};
ghost use Rattle.b67_segment.specs.Operators.{size};
ghost use Rattle.b67_segment.specs.Building.{level_set};
ghost use Rattle.b67_emit_stmt.specs.Lengths.{expr_syllables};
ghost use Rattle.b67_emit_stmt.specs.Fits.{AssignFits, CallStmtFits, LabelFits, EmittedPlaceFits, ReadFits, StartFits, StoreFits};
ghost use Rattle.b67_templates.specs.Emitting.{Emitted};
ghost use Rattle.b67_emitter.specs.Values.{AreNear, place_syllables};

use crate::draft::StmtEmitter;
use algol_tree::{Call, Expr, Named, Variable, Whole};
use b67_emitter::{
    ExprEmitter, append_dropped, append_intrinsic, append_number, append_plain, append_reading,
    append_reference, append_task, couple_of, is_name, left_of, result_of, target_of,
};
use b67_ops::{Intrinsic, PlainKind};
use b67_segment::Builder;
use std::alloc::AllocError;

impl<'a, E: ExprEmitter> StmtEmitter<'a, E> {
    /// What an assignment to a name by itself stores through: the reference of a variable or a result, or what EVAL makes of that of a
    /// parameter by name.
    pub(crate) fn reference(&self, v: &Named, out: &mut Builder) -> Result<(), AllocError>
        requires set { IsSome out.old.level }
        requires near { AreNear self.now.known.now.names.now }
        requires fits { (sc : Place) × (k : Kind) × EmittedPlaceFits sc self.now.known.now (level_set out.old) k v.now }
        requires room { size out.old.operators + 3 ≤ MOST_SEGMENT_SYLLABLES }
        ensures code { OnOk result ((sc : Place) (k : Kind) (later : Later) → EmittedPlaceFits sc self.now.known.now (level_set out.old) k v.now → Emitted out.old out.new (λ qs. PlaceAt sc later qs (level_set out.old) v.now k (size out.old.operators) (size out.new.operators))) }
        ensures level { OnOk result (out.new.level ≡ out.old.level) }
        ensures size { OnOk result (size out.new.operators ≤ size out.old.operators + 3) }
    {
        append_reference(out, left_of(self.known.names, v))?;
        if is_name(self.known.names, v) {
            append_plain(out, PlainKind::Eval)
        } else {
            Ok(())
        }
    }

    /// The value of a variable.
    pub(crate) fn read(&self, v: &Named, out: &mut Builder) -> Result<(), AllocError>
        requires set { IsSome out.old.level }
        requires near { AreNear self.now.known.now.names.now }
        requires fits { (sc : Place) × (k : Kind) × ReadFits sc self.now.known.now (level_set out.old) k v.now }
        requires room { size out.old.operators + 2 ≤ MOST_SEGMENT_SYLLABLES }
        ensures code { OnOk result ((sc : Place) (k : Kind) (later : Later) → ReadFits sc self.now.known.now (level_set out.old) k v.now → Emitted out.old out.new (λ qs. ReadAt sc later qs (level_set out.old) v.now k (size out.old.operators) (size out.new.operators))) }
        ensures level { OnOk result (out.new.level ≡ out.old.level) }
        ensures size { OnOk result (size out.new.operators ≡ size out.old.operators + 2) }
    {
        append_reading(out, couple_of(self.known.names, v))
    }

    /// The reference of a variable, the value, the store.
    pub(crate) fn assign(&self, v: &Named, e: &Expr, out: &mut Builder) -> Result<(), AllocError>
        requires set { IsSome out.old.level }
        requires near { AreNear self.now.known.now.names.now }
        requires fits { (sc : Place) × AssignFits sc self.now.known.now (level_set out.old) v.now (expr e.now) }
        requires room { size out.old.operators + (4 + expr_syllables self.now.known.now (expr e.now)) ≤ MOST_SEGMENT_SYLLABLES }
        ensures code { OnOk result ((sc : Place) (later : Later) → AssignFits sc self.now.known.now (level_set out.old) v.now (expr e.now) → Emitted out.old out.new (λ qs. AssignAt sc later qs (level_set out.old) v.now (expr e.now) (size out.old.operators) (size out.new.operators))) }
        ensures level { OnOk result (out.new.level ≡ out.old.level) }
        ensures size { OnOk result (size out.new.operators ≤ size out.old.operators + (4 + expr_syllables self.now.known.now (expr e.now))) }
    {
        self.reference(v, out)?;
        self.exprs.value(e, self.known.names, out)?;
        append_plain(out, PlainKind::Stod)
    }

    /// What an assignment stores through, which is a variable, a result or an element, the value, the store.
    pub(crate) fn store(&self, v: &Variable, e: &Expr, out: &mut Builder) -> Result<(), AllocError>
        requires set { IsSome out.old.level }
        requires near { AreNear self.now.known.now.names.now }
        requires fits { (sc : Place) × StoreFits sc self.now.known.now (level_set out.old) (variable v.now) (expr e.now) }
        requires room { size out.old.operators + (place_syllables self.now.known.now.names.now (variable v.now) + expr_syllables self.now.known.now (expr e.now) + 1) ≤ MOST_SEGMENT_SYLLABLES }
        ensures code { OnOk result ((sc : Place) (later : Later) → StoreFits sc self.now.known.now (level_set out.old) (variable v.now) (expr e.now) → Emitted out.old out.new (λ qs. StoredAt sc later qs (level_set out.old) (variable v.now) (expr e.now) (size out.old.operators) (size out.new.operators))) }
        ensures size { OnOk result (size out.new.operators ≤ size out.old.operators + (place_syllables self.now.known.now.names.now (variable v.now) + expr_syllables self.now.known.now (expr e.now) + 1)) }
    {
        self.exprs.name(v, self.known.names, out)?;
        self.exprs.value(e, self.known.names, out)?;
        append_plain(out, PlainKind::Stod)
    }

    /// GO TO: a mark, the reference of the intrinsic, the level of the label's block, the segment and the place of the label's branch, the
    /// entry.
    pub(crate) fn go_to(&self, n: &Named, out: &mut Builder) -> Result<(), AllocError>
        requires set { IsSome out.old.level }
        requires fits { (sc : Place) × LabelFits sc self.now.known.now (level_set out.old) n.now }
        requires room { size out.old.operators + 40 ≤ MOST_SEGMENT_SYLLABLES }
        ensures code { OnOk result ((sc : Place) (later : Later) → LabelFits sc self.now.known.now (level_set out.old) n.now → Emitted out.old out.new (λ qs. GoToAt sc later qs (level_set out.old) n.now (size out.old.operators) (size out.new.operators))) }
        ensures size { OnOk result (size out.new.operators ≤ size out.old.operators + 40) }
    {
        let target = target_of(self.known.names, n);
        append_intrinsic(out, Intrinsic::GoTo)?;
        append_number(out, Whole::fitting(target.level as i64))?;
        append_number(out, Whole::fitting(target.segment as i64))?;
        append_number(out, Whole::fitting(target.entry as i64))?;
        append_plain(out, PlainKind::Entr)
    }

    /// The call of a procedure. The result of a typed one is dropped.
    pub(crate) fn call(&self, c: &Call, out: &mut Builder) -> Result<(), AllocError>
        requires set { IsSome out.old.level }
        requires near { AreNear self.now.known.now.names.now }
        requires fits { (sc : Place) × CallStmtFits sc self.now.known.now (level_set out.old) c.now.name (exprs c.now.actuals) }
        requires room { size out.old.operators + (expr_syllables self.now.known.now (tree.call (call c.now)) + 1) ≤ MOST_SEGMENT_SYLLABLES }
        ensures code { OnOk result ((sc : Place) (later : Later) → CallStmtFits sc self.now.known.now (level_set out.old) c.now.name (exprs c.now.actuals) → Emitted out.old out.new (λ qs. CallStmtAt sc later qs (level_set out.old) c.now.name (exprs c.now.actuals) (size out.old.operators) (size out.new.operators))) }
        ensures level { OnOk result (out.new.level ≡ out.old.level) }
        ensures size { OnOk result (size out.new.operators ≤ size out.old.operators + (expr_syllables self.now.known.now (tree.call (call c.now)) + 1)) }
    {
        self.exprs.call(c, self.known.names, out)?;
        append_dropped(out, result_of(self.known.names, &c.name).is_some())
    }

    /// PROCESS: a mark, the references of the intrinsic and of the procedure's control word, the task, the actuals, the entry.
    pub(crate) fn start(
        &self,
        c: &Call,
        task: &Option<Named>,
        out: &mut Builder,
    ) -> Result<(), AllocError>
        requires set { IsSome out.old.level }
        requires near { AreNear self.now.known.now.names.now }
        requires fits { (sc : Place) × StartFits sc self.now.known.now (level_set out.old) c.now.name (exprs c.now.actuals) task.now }
        requires room { size out.old.operators + (expr_syllables self.now.known.now (tree.call (call c.now)) + 6) ≤ MOST_SEGMENT_SYLLABLES }
        ensures code { OnOk result ((sc : Place) (later : Later) → StartFits sc self.now.known.now (level_set out.old) c.now.name (exprs c.now.actuals) task.now → Emitted out.old out.new (λ qs. StartAt sc later qs (level_set out.old) c.now.name (exprs c.now.actuals) task.now (size out.old.operators) (size out.new.operators))) }
        ensures level { OnOk result (out.new.level ≡ out.old.level) }
        ensures size { OnOk result (size out.new.operators ≤ size out.old.operators + (expr_syllables self.now.known.now (tree.call (call c.now)) + 6)) }
    {
        append_intrinsic(out, Intrinsic::Start)?;
        append_reference(out, couple_of(self.known.names, &c.name))?;
        append_task(task, self.known.names, out)?;
        self.exprs.filled(c, self.known.names, out)
    }
}
