//! The variable of FOR: how far it is from its limit, and its next value.

ghost use Rattle.std.specs.Prelude.{◌≡◌, ◌+◌, ◌*◌, ◌≤◌, ℕ, [], ◌∷◌, IsSome, OnOk};
ghost use Rattle.b67_ops.specs.declared.PlainKind.TheVariants as kinds;
ghost use Rattle.b67_ops.specs.declared.BranchKind.TheVariants.{Brtr};
ghost use Rattle.algol_tree.specs.declared.tree.Kind.TheVariants as types;
ghost use Rattle.algol_tree.specs.declared.tree.Op.TheVariants as operators;
ghost use Rattle.algol_tree.specs.Image.{expr};
ghost use Rattle.algol_tree.specs.Plain as tree;
ghost use Rattle.b67_emit_stmt.specs.Places.{Later, Place, AssignAt, ExprAt, PastAt, SignedAt, StepAt};
ghost use Rattle.algol_meaning.specs.Statements.{alone};
ghost use Rattle.b67_segment.specs.declared.TheConstants.{MOST_SEGMENT_SYLLABLES};
ghost use Rattle.b67_segment.specs.Operators.{size};
ghost use Rattle.b67_segment.specs.Building.{level_set};
ghost use Rattle.b67_templates.specs.Fragments.{AllAt, BranchAt};
ghost use Rattle.b67_templates.specs.Code.{StepSign, literal_of};
ghost use Rattle.b67_emit_stmt.specs.Lengths.{expr_syllables};
ghost use Rattle.b67_emit_stmt.specs.Fits.{EmittedExprFits, ReadFits, VariableFits};
ghost use Rattle.b67_templates.specs.Emitting.{Emitted};
ghost use Rattle.b67_emitter.specs.Values.{AreNear};
ghost use Rattle.b67_emit_stmt.specs.Drafts.{Emits, HasFew, IsReady, draft_noted};

use crate::draft::{Draft, StmtEmitter};
use algol_tree::{Expr, Named, Whole};
use b67_emitter::{ExprEmitter, append_all, append_exit, append_plain};
use b67_ops::{BranchKind, PlainKind};
use b67_segment::Builder;
use std::alloc::AllocError;

/// The value of a number, or of one after a sign.
fn literal_of(e: &Expr) -> Option<Whole>
    ensures { result ≡ literal_of (expr e.now) }
{
    match e {
        Expr::Number(z, _) => Some(*z),
        Expr::Neg(e, _) => match &**e {
            Expr::Number(z, _) => Some(Whole::fitting(-z.number())),
            _ => None,
        },
        _ => None,
    }
}

/// Leaves where the difference on top compares so with 0.
fn append_comparison(kind: PlainKind, to: &mut Draft) -> Result<(), AllocError>
    requires set { IsSome to.old.out.level }
    requires few { HasFew to.old }
    requires room { size to.old.out.operators + 5 ≤ MOST_SEGMENT_SYLLABLES }
    ensures code { OnOk result (Emits 5 to.old to.new (λ later qs target. (m : ℕ) × AllAt qs (level_set to.old.out) (kinds.Zero ∷ kind ∷ []) (size to.old.out.operators) m × BranchAt qs (level_set to.old.out) Brtr m target (size to.new.out.operators))) }
    ensures notes { OnOk result (draft_noted to.new ≡ draft_noted to.old) }
{
    append_all(&mut to.out, &[PlainKind::Zero, kind])?;
    append_exit(&mut to.out, BranchKind::Brtr, &mut to.exits)
}

/// Leaves where the difference on top is past the limit, for a step with this value.
fn append_signed(step: i64, to: &mut Draft) -> Result<(), AllocError>
    requires set { IsSome to.old.out.level }
    requires few { HasFew to.old }
    requires room { size to.old.out.operators + 5 ≤ MOST_SEGMENT_SYLLABLES }
    ensures code { OnOk result ((sc : Place) → Emits 5 to.old to.new (λ later qs target. (sign : StepSign step) × SignedAt sc later qs (level_set to.old.out) sign (size to.old.out.operators) target (size to.new.out.operators))) }
    ensures notes { OnOk result (draft_noted to.new ≡ draft_noted to.old) }
{
    if step > 0 {
        append_comparison(PlainKind::Grtr, to)
    } else if step < 0 {
        append_comparison(PlainKind::Less, to)
    } else {
        append_plain(&mut to.out, PlainKind::Dlet)
    }
}

/// Leaves where the difference below the step on top is past the limit, by the sign of the step.
fn append_past(to: &mut Draft) -> Result<(), AllocError>
    requires set { IsSome to.old.out.level }
    requires few { HasFew to.old }
    requires room { size to.old.out.operators + 13 ≤ MOST_SEGMENT_SYLLABLES }
    ensures code { OnOk result ((sc : Place) → Emits 13 to.old to.new (λ later qs target. PastAt sc later qs (level_set to.old.out) (size to.old.out.operators) target (size to.new.out.operators))) }
    ensures notes { OnOk result (draft_noted to.new ≡ draft_noted to.old) }
{
    let operators = [
        PlainKind::Dupl,
        PlainKind::Zero,
        PlainKind::Grtr,
        PlainKind::Exch,
        PlainKind::Zero,
        PlainKind::Less,
        PlainKind::Subt,
        PlainKind::Mult,
        PlainKind::Zero,
        PlainKind::Grtr,
    ];
    append_all(&mut to.out, &operators)?;
    append_exit(&mut to.out, BranchKind::Brtr, &mut to.exits)
}

impl<'a, E: ExprEmitter> StmtEmitter<'a, E> {
    /// The difference of a variable and a limit.
    pub(crate) fn difference(
        &self,
        v: &Named,
        l: &Expr,
        out: &mut Builder,
    ) -> Result<(), AllocError>
        requires set { IsSome out.old.level }
        requires near { AreNear self.now.known.now.names.now }
        requires fits { (sc : Place) × ReadFits sc self.now.known.now (level_set out.old) types.Number v.now × EmittedExprFits sc self.now.known.now (level_set out.old) types.Number (expr l.now) }
        requires room { size out.old.operators + (3 + expr_syllables self.now.known.now (expr l.now)) ≤ MOST_SEGMENT_SYLLABLES }
        ensures code { OnOk result ((sc : Place) (later : Later) → ReadFits sc self.now.known.now (level_set out.old) types.Number v.now → EmittedExprFits sc self.now.known.now (level_set out.old) types.Number (expr l.now) → Emitted out.old out.new (λ qs. ExprAt sc later qs (level_set out.old) types.Number (tree.two operators.Sub (alone v.now) (expr l.now)) (size out.old.operators) (size out.new.operators) (size out.new.operators))) }
        ensures level { OnOk result (out.new.level ≡ out.old.level) }
        ensures size { OnOk result (size out.new.operators ≤ size out.old.operators + (3 + expr_syllables self.now.known.now (expr l.now))) }
    {
        self.read(v, out)?;
        self.exprs.value(l, self.known.names, out)?;
        append_plain(out, PlainKind::Subt)
    }

    /// The next value of a variable.
    pub(crate) fn advance(&self, v: &Named, s: &Expr, out: &mut Builder) -> Result<(), AllocError>
        requires set { IsSome out.old.level }
        requires near { AreNear self.now.known.now.names.now }
        requires fits { (sc : Place) × VariableFits sc self.now.known.now (level_set out.old) v.now × EmittedExprFits sc self.now.known.now (level_set out.old) types.Number (expr s.now) }
        requires room { size out.old.operators + (7 + expr_syllables self.now.known.now (expr s.now)) ≤ MOST_SEGMENT_SYLLABLES }
        ensures code { OnOk result ((sc : Place) (later : Later) → VariableFits sc self.now.known.now (level_set out.old) v.now → EmittedExprFits sc self.now.known.now (level_set out.old) types.Number (expr s.now) → Emitted out.old out.new (λ qs. AssignAt sc later qs (level_set out.old) v.now (tree.two operators.Add (alone v.now) (expr s.now)) (size out.old.operators) (size out.new.operators))) }
        ensures level { OnOk result (out.new.level ≡ out.old.level) }
        ensures size { OnOk result (size out.new.operators ≤ size out.old.operators + (7 + expr_syllables self.now.known.now (expr s.now))) }
    {
        self.reference(v, out)?;
        self.read(v, out)?;
        self.exprs.value(s, self.known.names, out)?;
        append_plain(out, PlainKind::Add)?;
        append_plain(out, PlainKind::Stod)
    }

    /// Leaves the loop where the difference on top is past the limit. Where the step is a literal, its sign is known.
    pub(crate) fn step(&self, s: &Expr, to: &mut Draft) -> Result<(), AllocError>
        requires ready { IsReady self.now.known.now to.old (13 + expr_syllables self.now.known.now (expr s.now)) }
        requires fits { (sc : Place) × EmittedExprFits sc self.now.known.now (level_set to.old.out) types.Number (expr s.now) }
        ensures code { OnOk result ((sc : Place) → EmittedExprFits sc self.now.known.now (level_set to.old.out) types.Number (expr s.now) → Emits (13 + expr_syllables self.now.known.now (expr s.now)) to.old to.new (λ later qs target. StepAt sc later qs (level_set to.old.out) (expr s.now) (size to.old.out.operators) target (size to.new.out.operators))) }
        ensures notes { OnOk result (draft_noted to.new ≡ draft_noted to.old) }
    {
        match literal_of(s) {
            Some(step) => append_signed(step.number(), to),
            None => {
                self.exprs.value(s, self.known.names, &mut to.out)?;
                append_past(to)
            }
        }
    }
}
