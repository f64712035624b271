//! Whole numbers at their limits.

use b67_num::{Calculation, NumFault, Relation, add, calculate, compare, div_exact, idiv, rdiv};

/// Results, and faults.
fn are_results() -> bool {
    idiv(-7, 2) == Ok(-3)
        && rdiv(-7, 2) == Ok(-1)
        && calculate(Calculation::Product, -3, 5) == Ok(-15)
        && add(549_755_813_887, 1) == Err(NumFault::RealResult)
        && div_exact(7, 2) == Err(NumFault::RealResult)
        && rdiv(1, 0) == Err(NumFault::DivideByZero)
}

/// Tests the results, the faults and two comparisons.
pub(crate) fn are_right() -> bool {
    are_results() && compare(Relation::LessOrEqual, -3, -3) && !compare(Relation::Greater, -3, 3)
}
