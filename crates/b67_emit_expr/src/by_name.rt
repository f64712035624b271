//! What is given for a parameter by name.

ghost use Rattle.std.specs.Prelude.{◌≡◌, ◌+◌, ◌≤◌, true, IsSome, OnOk};
ghost use Rattle.algol_tree.specs.Image.{expr};
ghost use Rattle.b67_segment.specs.declared.TheConstants.{MOST_SEGMENT_SYLLABLES};
ghost use Rattle.b67_segment.specs.Operators.{size};
ghost use Rattle.b67_segment.specs.Building.{level_set};
ghost use Rattle.b67_emitter.specs.Values.{AreNear};
ghost use Rattle.b67_emit_expr.specs.Passing.{HasActual, ActualEmitted, reaching};

use algol_tree::Expr;
use b67_emitter::{Given, Names, append_plain, append_reference, given_of};
use b67_ops::PlainKind;
use b67_segment::Builder;
use std::alloc::AllocError;

/// What makes the reference of a cell one that is read alike everywhere: where the cell has such a reference, that is loaded.
fn reaching(loads: bool) -> PlainKind
    ensures { result ≡ reaching loads }
{
    if loads {
        PlainKind::Lodt
    } else {
        PlainKind::Stff
    }
}

/// A variable's reference, what the cell of another parameter by name has, or the reference to the cell of the actual's code.
pub fn append_given(e: &Expr, names: &Names, out: &mut Builder) -> Result<(), AllocError>
    requires set { IsSome out.old.level }
    requires near { AreNear names.now }
    requires code { HasActual names.now (level_set out.old) true (expr e.now) }
    requires room { size out.old.operators + 3 ≤ MOST_SEGMENT_SYLLABLES }
    ensures code { OnOk result (ActualEmitted names.now (level_set out.old) out.old out.new true (expr e.now)) }
    ensures level { OnOk result (out.new.level ≡ out.old.level) }
    ensures size { OnOk result (size out.new.operators ≡ size out.old.operators + 3) }
{
    let Given { couple, loads } = given_of(names, e);
    append_reference(out, couple)?;
    append_plain(out, reaching(loads))
}
