//! Whole-number arithmetic of the machine, and the kinds of fault that end a run.
//!
//! A whole number is what the mantissa of an operand holds: a sign and 39 bits, as in the B6700's word. That
//! an operation whose exact result is no such number ends the run is this project's profile.
#![tactic(auto)]

ghost use Rattle.std.specs.Prelude.{◌≡◌, ℤ, ◌*ℤ◌, ◌-◌, ◌^◌, ◌≤◌, pos, unsigned_abs, IfOk, Ok};
ghost use Rattle.b67_num.specs.Whole.{most, whole, calculated, related, negation_of, IsDivision};
ghost use Rattle.b67_num.specs.declared.TheConstants.{MOST};
ghost use Rattle.b67_num.specs.declared.Calculation.{Calculation};
ghost use Rattle.b67_num.specs.declared.Calculation.TheVariants.{Sum, Difference, Product, WholeQuotient, TruncatedQuotient, Remainder};

/// The greatest magnitude of a whole number: an operand's mantissa has 39 bits.
pub const MOST: i64 = 549_755_813_887;

/// Why an operation on whole numbers has no result.
#[derive(Clone, Copy, PartialEq, Eq, Debug)]
pub enum NumFault {
    /// The exact result is not whole, or its magnitude is more than [`MOST`].
    RealResult,
    /// The divisor is 0.
    DivideByZero,
}

/// The calculations with two whole numbers.
#[derive(Clone, Copy, PartialEq, Eq, Debug)]
pub enum Calculation {
    Sum,
    Difference,
    Product,
    /// The quotient, which has to be whole.
    WholeQuotient,
    /// The quotient without its fraction.
    TruncatedQuotient,
    /// What the truncated quotient leaves, with the dividend's sign.
    Remainder,
}

/// The relations between two whole numbers.
#[derive(Clone, Copy, PartialEq, Eq, Debug)]
pub enum Relation {
    Less,
    LessOrEqual,
    Equal,
    NotEqual,
    GreaterOrEqual,
    Greater,
}

/// The faults that end a run, each with the process that made it.
#[derive(Clone, Copy, PartialEq, Eq, Debug)]
pub enum FaultKind {
    /// A quotient by `/` is not whole, or the magnitude of a result is more than [`MOST`].
    RealResult,
    /// The divisor of `/`, DIV or MOD is 0.
    DivideByZero,
    /// A subscript is outside its bounds.
    InvalidIndex,
    /// A block is left on which a process that still lives depends.
    CriticalBlockExit,
    /// The label of a GO TO stands in a block of another process's stack.
    BadGoTo,
    /// As many processes as a run may start were started before.
    ProcessLimit,
    /// The live elements of arrays and those asked for are more than the machine has room for.
    CoreFull,
    /// An upper bound is below its lower bound, or one array has too many elements.
    ArraySize,
    /// A store to a name parameter whose actual is an expression.
    NotAVariable,
    /// A CASE has no statement with the number that was computed.
    CaseIndex,
}

impl From<NumFault> for FaultKind {
    ghost use Rattle.b67_num.specs.Whole.{fault_of};

    ghost from_gives = { λ fault kind. kind ≡ fault_of fault };

    fn from(fault: NumFault) -> Self {
        match fault {
            NumFault::RealResult => FaultKind::RealResult,
            NumFault::DivideByZero => FaultKind::DivideByZero,
        }
    }
}

// An exact result that is a whole number, or RealResult.
#[tactic(auto, unfolding(crate::specs::Whole::whole))]
fn fitted(exact: i64) -> Result<i64, NumFault>
    ensures value { result ≡ whole exact }
    ensures fits { IfOk result (λ z. unsigned_abs z ≤ most) }
{
    if -MOST <= exact && exact <= MOST {
        Ok(exact)
    } else {
        Err(NumFault::RealResult)
    }
}

/// The sum. RealResult comes exactly where its magnitude is more than [`MOST`].
#[tactic(auto, unfolding(crate::specs::Whole::calculated))]
pub fn add(a: i64, b: i64) -> Result<i64, NumFault>
    requires left { unsigned_abs a ≤ most }
    requires right { unsigned_abs b ≤ most }
    ensures value { result ≡ calculated Sum a b }
    ensures fits { IfOk result (λ z. unsigned_abs z ≤ most) }
{
    fitted(a + b)
}

/// The difference. RealResult comes exactly where its magnitude is more than [`MOST`].
#[tactic(auto, unfolding(crate::specs::Whole::calculated))]
pub fn sub(a: i64, b: i64) -> Result<i64, NumFault>
    requires left { unsigned_abs a ≤ most }
    requires right { unsigned_abs b ≤ most }
    ensures value { result ≡ calculated Difference a b }
    ensures fits { IfOk result (λ z. unsigned_abs z ≤ most) }
{
    fitted(a - b)
}

/// The product. RealResult comes exactly where its magnitude is more than [`MOST`].
#[tactic(auto, unfolding(crate::specs::Whole::calculated, crate::specs::Whole::whole))]
pub fn mul(a: i64, b: i64) -> Result<i64, NumFault>
    requires left { unsigned_abs a ≤ most }
    requires right { unsigned_abs b ≤ most }
    ensures value { result ≡ calculated Product a b }
    ensures fits { IfOk result (λ z. unsigned_abs z ≤ most) }
{
    match a.checked_mul(b) {
        Some(product) => fitted(product),
        None => Err(NumFault::RealResult),
    }
}

/// The quotient where `b` divides `a`. DivideByZero comes exactly where `b` is 0, and RealResult exactly
/// where `b` is not 0 and leaves a remainder.
#[tactic(auto, unfolding(crate::specs::Whole::calculated, crate::specs::Whole::over, crate::specs::Whole::whole))]
pub fn div_exact(a: i64, b: i64) -> Result<i64, NumFault>
    requires left { unsigned_abs a ≤ most }
    requires right { unsigned_abs b ≤ most }
    ensures value { result ≡ calculated WholeQuotient a b }
    ensures fits { IfOk result (λ z. unsigned_abs z ≤ most) }
{
    if rdiv(a, b)? == 0 {
        idiv(a, b)
    } else {
        Err(NumFault::RealResult)
    }
}

/// The quotient without its fraction. DivideByZero comes exactly where `b` is 0.
#[tactic(auto, unfolding(crate::specs::Whole::calculated, crate::specs::Whole::over, crate::specs::Whole::whole))]
pub fn idiv(a: i64, b: i64) -> Result<i64, NumFault>
    requires left { unsigned_abs a ≤ most }
    requires right { unsigned_abs b ≤ most }
    ensures value { result ≡ calculated TruncatedQuotient a b }
    ensures fits { IfOk result (λ z. unsigned_abs z ≤ most) }
{
    a.checked_div(b).ok_or(NumFault::DivideByZero)
}

/// The remainder of [`idiv`], with the sign of `a`. DivideByZero comes exactly where `b` is 0.
#[tactic(auto, unfolding(crate::specs::Whole::calculated, crate::specs::Whole::over, crate::specs::Whole::whole))]
pub fn rdiv(a: i64, b: i64) -> Result<i64, NumFault>
    requires left { unsigned_abs a ≤ most }
    requires right { unsigned_abs b ≤ most }
    ensures value { result ≡ calculated Remainder a b }
    ensures fits { IfOk result (λ z. unsigned_abs z ≤ most) }
{
    a.checked_rem(b).ok_or(NumFault::DivideByZero)
}

/// The number with the other sign.
pub fn neg(a: i64) -> i64
    requires { unsigned_abs a ≤ most }
    ensures value { result ≡ negation_of a }
    ensures fits { unsigned_abs result ≤ most }
{
    -a
}

/// What a calculation gives: the function of its name, with the same faults.
pub fn calculate(calculation: Calculation, a: i64, b: i64) -> Result<i64, NumFault>
    requires left { unsigned_abs a ≤ most }
    requires right { unsigned_abs b ≤ most }
    ensures value { result ≡ calculated calculation a b }
    ensures fits { IfOk result (λ z. unsigned_abs z ≤ most) }
{
    match calculation {
        Calculation::Sum => add(a, b),
        Calculation::Difference => sub(a, b),
        Calculation::Product => mul(a, b),
        Calculation::WholeQuotient => div_exact(a, b),
        Calculation::TruncatedQuotient => idiv(a, b),
        Calculation::Remainder => rdiv(a, b),
    }
}

/// Tests that a relation holds.
#[tactic(auto, unfolding(crate::specs::Whole::related))]
pub fn compare(relation: Relation, a: i64, b: i64) -> bool
    ensures { result ≡ related relation a b }
{
    match relation {
        Relation::Less => a < b,
        Relation::LessOrEqual => a <= b,
        Relation::Equal => a == b,
        Relation::NotEqual => a != b,
        Relation::GreaterOrEqual => a >= b,
        Relation::Greater => a > b,
    }
}

/// Law: the quotient is the truncated one, the remainder has the dividend's sign, and the exact quotient
/// leaves nothing.
pub fn division_truncates()
    ensures truncated { (a b q r : ℤ) → calculated TruncatedQuotient a b ≡ Ok q → calculated Remainder a b ≡ Ok r → IsDivision a b q r }
    ensures exact { (a b q : ℤ) → calculated WholeQuotient a b ≡ Ok q → q *ℤ b ≡ a }
{}

/// Law: what a calculation gives is a whole number.
pub fn results_are_whole()
    ensures { (calculation : Calculation) (a b z : ℤ) → calculated calculation a b ≡ Ok z → unsigned_abs z ≤ most }
{}

/// Law: the number of this crate, which whole numbers are defined with: the mantissa of an operand has 39 bits, as in the B6700's word.
pub fn numbers_are_told()
    ensures { MOST ≡ pos (2 ^ 39 - 1) }
{}
