/// The levels of operators with two operands, from the one that binds least. Relations stand between `And` and
/// `Sum` and are no level, since one operand of a relation is never a relation.
#[derive(Clone, Copy, PartialEq, Eq)]
pub enum Level {
    Eqv,
    Imp,
    Or,
    And,
    Sum,
    Term,
}
