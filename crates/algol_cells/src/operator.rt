//! What the operators of the language give.

ghost use Rattle.std.specs.Prelude.{◌≡◌, not};
ghost use Rattle.algol_meaning.specs.Value as plain;
ghost use Rattle.algol_meaning.specs.Value.{whole_of, truth_of};
ghost use Rattle.algol_meaning.specs.Operators as operators;
ghost use Rattle.b67_num.specs.Whole.{calculated, related, negation_of};
ghost use Rattle.algol_cells.specs.SeenValue.{value, resulting};

use crate::value::Value;
use algol_tree::{Op, Whole};
use b67_num::{Calculation, NumFault, Relation, calculate, compare, neg};

/// The number of a value, 0 where it is a truth value.
pub fn whole_of(v: Value) -> Whole
    ensures { result ≡ plain.whole_of (value v) }
{
    match v {
        Value::Number(number) => number,
        Value::Truth(_) => Whole::zero(),
    }
}

/// The truth of a value, false where it is a number.
pub fn truth_of(v: Value) -> bool
    ensures { result ≡ plain.truth_of (value v) }
{
    match v {
        Value::Number(_) => false,
        Value::Truth(truth) => truth,
    }
}

/// The value with the other sign.
pub fn negated(v: Value) -> Value
    ensures { value result ≡ plain.number (negation_of (whole_of (value v))) }
{
    Value::Number(Whole::fitting(neg(whole_of(v).number())))
}

/// The other truth value.
pub fn inverted(v: Value) -> Value
    ensures { value result ≡ plain.truth (not (truth_of (value v))) }
{
    Value::Truth(!truth_of(v))
}

/// What a calculation gives, or the fault that says why it has no result.
pub fn calculation(calculation: Calculation, v: Value, w: Value) -> Result<Value, NumFault>
    ensures { resulting result ≡ operators.numeric (calculated calculation (whole_of (value v)) (whole_of (value w))) }
{
    let number = calculate(calculation, whole_of(v).number(), whole_of(w).number())?;
    Ok(Value::Number(Whole::fitting(number)))
}

/// Whether a relation holds.
pub fn relation(relation: Relation, v: Value, w: Value) -> Result<Value, NumFault>
    ensures { resulting result ≡ operators.logical (related relation (whole_of (value v)) (whole_of (value w))) }
{
    Ok(Value::Truth(compare(relation, whole_of(v).number(), whole_of(w).number())))
}

/// What an operator gives, or the fault that says why it has no result.
pub fn result_of(op: Op, v: &Value, w: &Value) -> Result<Value, NumFault>
    ensures { resulting result ≡ operators.result_of op (value v.now) (value w.now) }
{
    match op {
        Op::Add => calculation(Calculation::Sum, *v, *w),
        Op::Sub => calculation(Calculation::Difference, *v, *w),
        Op::Mul => calculation(Calculation::Product, *v, *w),
        Op::Over => calculation(Calculation::WholeQuotient, *v, *w),
        Op::Div => calculation(Calculation::TruncatedQuotient, *v, *w),
        Op::Mod => calculation(Calculation::Remainder, *v, *w),
        Op::Lss => relation(Relation::Less, *v, *w),
        Op::Leq => relation(Relation::LessOrEqual, *v, *w),
        Op::Eql => relation(Relation::Equal, *v, *w),
        Op::Neq => relation(Relation::NotEqual, *v, *w),
        Op::Geq => relation(Relation::GreaterOrEqual, *v, *w),
        Op::Gtr => relation(Relation::Greater, *v, *w),
        Op::And => Ok(Value::Truth(truth_of(*v) && truth_of(*w))),
        Op::Or => Ok(Value::Truth(truth_of(*v) || truth_of(*w))),
        Op::Imp => Ok(Value::Truth(!truth_of(*v) || truth_of(*w))),
        Op::Eqv => Ok(Value::Truth(truth_of(*v) == truth_of(*w))),
    }
}
