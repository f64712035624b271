//! A name by itself, in an expression or on the left of an assignment.

ghost use Rattle.std.specs.Prelude.{◌≡◌, ◌+◌, ◌≤◌, IsSome, OnOk};
ghost use Rattle.b67_segment.specs.declared.TheConstants.{MOST_SEGMENT_SYLLABLES};
ghost use Rattle.b67_segment.specs.Operators.{size};
ghost use Rattle.b67_segment.specs.Building.{level_set};
ghost use Rattle.b67_emitter.specs.Values.{AreNear};
ghost use Rattle.b67_emit_expr.specs.Naming.{NameHasCode, NameEmitted, NameHasPlace, PlaceEmitted};

use algol_tree::Named;
use b67_emitter::{
    Names, append_begun, append_plain, append_reading, append_reference, couple_of, is_name,
    left_of, result_of,
};
use b67_ops::PlainKind;
use b67_segment::Builder;
use std::alloc::AllocError;

/// A variable or a parameter by name is read, and a typed procedure is called.
pub fn append_name(name: &Named, names: &Names, out: &mut Builder) -> Result<(), AllocError>
    requires set { IsSome out.old.level }
    requires near { AreNear names.now }
    requires code { NameHasCode names.now (level_set out.old) name.now }
    requires room { size out.old.operators + 4 ≤ MOST_SEGMENT_SYLLABLES }
    ensures code { OnOk result (NameEmitted names.now (level_set out.old) out.old out.new name.now) }
    ensures level { OnOk result (out.new.level ≡ out.old.level) }
    ensures size { OnOk result (size out.new.operators ≤ size out.old.operators + 4) }
{
    let couple = couple_of(names, name);
    match result_of(names, name) {
        Some(_) => {
            append_begun(out, couple)?;
            append_plain(out, PlainKind::Entr)
        }
        None => append_reading(out, couple),
    }
}

/// What an assignment stores through: the reference of a variable or a result, or what EVAL makes of that of a parameter by name.
pub fn append_place(name: &Named, names: &Names, out: &mut Builder) -> Result<(), AllocError>
    requires set { IsSome out.old.level }
    requires near { AreNear names.now }
    requires code { NameHasPlace names.now (level_set out.old) name.now }
    requires room { size out.old.operators + 3 ≤ MOST_SEGMENT_SYLLABLES }
    ensures code { OnOk result (PlaceEmitted names.now (level_set out.old) out.old out.new name.now) }
    ensures level { OnOk result (out.new.level ≡ out.old.level) }
    ensures size { OnOk result (size out.new.operators ≤ size out.old.operators + 3) }
{
    append_reference(out, left_of(names, name))?;
    if is_name(names, name) {
        append_plain(out, PlainKind::Eval)
    } else {
        Ok(())
    }
}
