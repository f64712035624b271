//! Numbers in code.

ghost use Rattle.std.specs.Prelude.{◌≡◌, ℕ, pos};
ghost use Rattle.b67_ops.specs.Spelling.{Fits};
ghost use Rattle.b67_word.specs.Word as machine;
ghost use Rattle.b67_templates.specs.Fragments.{IsLiteral, IsWholeNumber};
ghost use Rattle.b67_emitter.specs.Literals.{short_literal, literal};

use algol_tree::Whole;
use b67_ops::{Operator, PlainKind};
use b67_word::operand;

/// The shortest operator that pushes this number.
#[tactic(auto, unfolding(crate::specs::Literals::short_literal))]
fn short_literal(value: u16) -> Operator
    ensures value { result ≡ short_literal value }
    ensures pushes { IsLiteral result (machine.operand (pos value)) }
    ensures fits { (level : ℕ) → Fits level result }
{
    match value {
        0 => Operator::Plain(PlainKind::Zero),
        1 => Operator::Plain(PlainKind::One),
        2..=0xff => Operator::Lt8(value as u8),
        _ => Operator::Lt16(value),
    }
}

/// The shortest operator that pushes this whole number.
#[tactic(auto, unfolding(crate::specs::Literals::literal))]
pub fn literal(value: Whole) -> Operator
    ensures value { result ≡ literal value }
    ensures pushes { IsLiteral result (machine.operand value) }
    ensures whole { IsWholeNumber value }
    ensures fits { (level : ℕ) → Fits level result }
{
    match u16::try_from(value.number()) {
        Ok(value) => short_literal(value),
        Err(_) => Operator::Lt48(operand(value.number()).bits()),
    }
}
