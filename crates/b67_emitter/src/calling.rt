//! The beginning of a call, of a procedure or of an intrinsic, an array or an event among its actuals, and what a statement does with its
//! result.

ghost use Rattle.std.specs.Prelude.{◌≡◌, ℕ, ◌+◌, ◌≤◌, Option, is_some, IsSome, OnOk};
ghost use Rattle.algol_tree.specs.declared.tree.Kind.{Kind};
ghost use Rattle.algol_tree.specs.declared.tree.Named.{Named};
ghost use Rattle.algol_tree.specs.Scopes as names;
ghost use Rattle.algol_tree.specs.Sorts.{is_formal};
ghost use Rattle.algol_paths.specs.Arrays.{Shape};
ghost use Rattle.b67_ops.specs.Spelling.{CoupleIsSeen};
ghost use Rattle.b67_segment.specs.declared.TheConstants.{MOST_SEGMENT_SYLLABLES};
ghost use Rattle.b67_segment.specs.Operators.{size};
ghost use Rattle.b67_segment.specs.Building.{level_set};
ghost use Rattle.b67_templates.specs.Contexts.{Context};
ghost use Rattle.b67_templates.specs.Cells.{ShapeAgrees, IsArray, IsEvent, IsProcedure};
ghost use Rattle.b67_templates.specs.Code.{ArrayActualAt, BegunAt, DroppedAt};
ghost use Rattle.b67_templates.specs.Events.{EventActualAt};
ghost use Rattle.b67_templates.specs.Fragments.{IntrinsicAt};
ghost use Rattle.b67_templates.specs.Emitting.{Emitted};

use crate::appending::{append_plain, append_reference};
use b67_ops::{Couple, Intrinsic, PlainKind};
use b67_segment::Builder;
use std::alloc::AllocError;

/// Appends the beginning of the call of the procedure whose control word lies at a couple: a mark, the reference of the control word.
pub fn append_begun(out: &mut Builder, couple: Couple) -> Result<(), AllocError>
    requires set { IsSome out.old.level }
    requires seen { CoupleIsSeen (level_set out.old) couple }
    requires room { size out.old.operators + 3 ≤ MOST_SEGMENT_SYLLABLES }
    ensures code { OnOk result ((sc : names.Scopes) (context : Context) (n : Named) (callee : ℕ) → IsProcedure sc context.level n callee couple →
        Emitted out.old out.new (λ qs. BegunAt sc context qs (level_set out.old) n callee (size out.old.operators) (size out.new.operators))) }
    ensures level { OnOk result (out.new.level ≡ out.old.level) }
    ensures size { OnOk result (size out.new.operators ≡ size out.old.operators + 3) }
{
    append_plain(out, PlainKind::Mkst)?;
    append_reference(out, couple)
}

/// Appends a mark, and the reference of an intrinsic.
pub fn append_intrinsic(out: &mut Builder, intrinsic: Intrinsic) -> Result<(), AllocError>
    requires set { IsSome out.old.level }
    requires room { size out.old.operators + 3 ≤ MOST_SEGMENT_SYLLABLES }
    ensures code { OnOk result (Emitted out.old out.new (λ qs. IntrinsicAt qs (level_set out.old) intrinsic (size out.old.operators) (size out.new.operators))) }
    ensures level { OnOk result (out.new.level ≡ out.old.level) }
    ensures size { OnOk result (size out.new.operators ≡ size out.old.operators + 3) }
{
    append_plain(out, PlainKind::Mkst)?;
    append_reference(out, intrinsic.couple())
}

/// Appends the actual of an array or an event parameter. The reference to the cell of a declared array or event becomes one that is read
/// alike everywhere; the cell of a parameter has one.
pub fn append_passed(out: &mut Builder, couple: Couple, formal: bool) -> Result<(), AllocError>
    requires set { IsSome out.old.level }
    requires seen { CoupleIsSeen (level_set out.old) couple }
    requires room { size out.old.operators + 3 ≤ MOST_SEGMENT_SYLLABLES }
    ensures array { OnOk result ((sc : names.Scopes) (context : Context) (shape a : Shape) (n : Named) → IsArray sc context.level n a couple →
        formal ≡ is_formal ((names.use_of sc n).sort) → ShapeAgrees shape a →
        Emitted out.old out.new (λ qs. ArrayActualAt sc context qs (level_set out.old) shape n (size out.old.operators) (size out.new.operators))) }
    ensures event { OnOk result ((sc : names.Scopes) (context : Context) (n : Named) → IsEvent sc context.level n couple →
        formal ≡ is_formal ((names.use_of sc n).sort) →
        Emitted out.old out.new (λ qs. EventActualAt sc context qs (level_set out.old) n (size out.old.operators) (size out.new.operators))) }
    ensures level { OnOk result (out.new.level ≡ out.old.level) }
    ensures size { OnOk result (size out.new.operators ≡ size out.old.operators + 3) }
{
    append_reference(out, couple)?;
    if formal {
        append_plain(out, PlainKind::Lodt)
    } else {
        append_plain(out, PlainKind::Stff)
    }
}

/// Drops the result of a call that a statement makes, where the procedure is typed.
pub fn append_dropped(out: &mut Builder, typed: bool) -> Result<(), AllocError>
    requires set { IsSome out.old.level }
    requires room { size out.old.operators + 1 ≤ MOST_SEGMENT_SYLLABLES }
    ensures code { OnOk result ((sc : names.Scopes) (context : Context) (result : Option Kind) → typed ≡ is_some result →
        Emitted out.old out.new (λ qs. DroppedAt sc context qs (level_set out.old) result (size out.old.operators) (size out.new.operators))) }
    ensures level { OnOk result (out.new.level ≡ out.old.level) }
    ensures size { OnOk result (size out.new.operators ≤ size out.old.operators + 1) }
{
    if typed {
        append_plain(out, PlainKind::Dlet)
    } else {
        Ok(())
    }
}
