//! The operators of the language in the machine's.

ghost use Rattle.std.specs.Prelude.{◌≡◌, ◌+◌, ◌≤◌, IsSome, OnOk};
ghost use Rattle.b67_segment.specs.declared.TheConstants.{MOST_SEGMENT_SYLLABLES};
ghost use Rattle.b67_segment.specs.Operators.{size};
ghost use Rattle.b67_segment.specs.Building.{level_set};
ghost use Rattle.b67_templates.specs.Fragments as fragments;
ghost use Rattle.b67_templates.specs.Fragments.{ReadyAt};
ghost use Rattle.b67_templates.specs.Emitting.{Emitted};

use algol_tree::Op;
use b67_emitter::append_plain;
use b67_ops::PlainKind;
use b67_segment::Builder;
use std::alloc::AllocError;

/// The literal of a truth value.
pub fn truth_literal(value: bool) -> PlainKind
    ensures { result ≡ fragments.truth_literal value }
{
    if value {
        PlainKind::One
    } else {
        PlainKind::Zero
    }
}

/// The operator for two operands. Of an implication the first operand is inverted before.
pub fn operator_for(op: Op) -> PlainKind
    ensures { result ≡ fragments.operator_for op }
{
    match op {
        Op::Add => PlainKind::Add,
        Op::Sub => PlainKind::Subt,
        Op::Mul => PlainKind::Mult,
        Op::Over => PlainKind::Divd,
        Op::Div => PlainKind::Idiv,
        Op::Mod => PlainKind::Rdiv,
        Op::Lss => PlainKind::Less,
        Op::Leq => PlainKind::Lseq,
        Op::Eql => PlainKind::Equl,
        Op::Neq => PlainKind::Neql,
        Op::Geq => PlainKind::Greq,
        Op::Gtr => PlainKind::Grtr,
        Op::And => PlainKind::Land,
        Op::Or | Op::Imp => PlainKind::Lor,
        Op::Eqv => PlainKind::Leqv,
    }
}

/// Inverts the first operand of an implication.
pub fn append_ready(out: &mut Builder, op: Op) -> Result<(), AllocError>
    requires set { IsSome out.old.level }
    requires room { size out.old.operators + 1 ≤ MOST_SEGMENT_SYLLABLES }
    ensures code { OnOk result (Emitted out.old out.new
        (λ qs. ReadyAt qs (level_set out.old) (fragments.is_implication op) (size out.old.operators) (size out.new.operators))) }
    ensures level { OnOk result (out.new.level ≡ out.old.level) }
    ensures size { OnOk result (size out.new.operators ≤ size out.old.operators + 1) }
{
    match op {
        Op::Imp => append_plain(out, PlainKind::Lnot),
        _ => Ok(()),
    }
}
