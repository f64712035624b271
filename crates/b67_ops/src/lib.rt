//! The operators of the machine, and their spelling in syllables of code.
//!
//! Code is a list of syllables of eight bits, six to a word. An operator is one syllable that names it
//! and then its operand, if it has one: a byte, two bytes with the high one first, or the next whole
//! word of the code, with syllables of 0 up to there. `VALC` and `NAMC` are two syllables, of which two
//! bits name the operator and 14 spell a couple: the bits of the level first, of which there are more
//! the deeper the current level, then the index. The codes are this project's profile of the B6700.
//!
//! Each operator has one spelling at each place and level, of 1 to 12 syllables, and none begins
//! another. So what `encode` appends is what `decode` reads there, whatever follows it.
#![tactic(auto)]

ghost use Rattle.std.specs.Prelude.{◌≡◌, ℕ, ◌+◌, ◌-◌, ◌*◌, ◌/◌, ◌%◌, ◌^◌, ◌<◌, ◌≤◌, ◌++◌, length, ◌∷◌, replicate, OnOk, OnErr, IfOk, ◌↔◌, nat_eq, if◌then◌else◌};
ghost use Rattle.std.specs.List.{list_all};
ghost use Rattle.std.specs.Int.{w16, to_be_bytes, bytes_high_first};
ghost use Rattle.b67_ops.specs.Spelling.{kind_of, index_bits, couple_bits, couple_spelling, filling, spelling, CoupleIsSeen, Fits, level_named, OperatorStands};
ghost use Rattle.b67_ops.specs.Refusals.{IsCutShort, NamesLevelAbove, IsUnknown};
ghost use Rattle.b67_ops.specs.declared.Operator.{Operator};
ghost use Rattle.b67_ops.specs.Decoding.{couple_of, byte_front, place_front, six_front, word_front, couple_front, code_in, operator_front, front, decoded};

mod intrinsic;
mod table;

pub use intrinsic::{FIRST_INTRINSIC, INTRINSICS, Intrinsic, LAST_INTRINSIC};
use std::alloc::AllocError;
pub use table::{OperatorKind, numbers_are_told, operators_are_told, operators_are_told_apart};

/// The level of the outer block.
pub const OUTER_LEVEL: u8 = b67_limits::OUTER_LEVEL;

/// The deepest level that a block can have.
pub const MOST_LEVEL: u8 = b67_limits::MOST_LEVEL;

/// Where a cell is found: in the block of this level that can be seen, at this index.
#[derive(Clone, Copy)]
pub struct Couple {
    pub level: u8,
    pub index: u16,
}

/// The operators that go to a place of their segment.
#[derive(Clone, Copy)]
pub enum BranchKind {
    /// Goes there where the word popped is false.
    Brfl,
    /// Goes there where the word popped is true.
    Brtr,
    /// Goes there always.
    Brun,
}

/// The operators that have no operand. Their effects are this project's profile of the B6700.
#[derive(Clone, Copy)]
pub enum PlainKind {
    /// Replaces the two whole numbers on top by their sum.
    Add,
    /// By their difference, of the lower one and the top one.
    Subt,
    /// By their product.
    Mult,
    /// By their quotient, which has to be whole.
    Divd,
    /// By their quotient without its fraction.
    Idiv,
    /// By their remainder.
    Rdiv,
    /// Replaces the two whole numbers on top by 1 where the lower one is less, else by 0.
    Less,
    /// By 1 where it is greater or equal.
    Greq,
    /// By 1 where it is greater.
    Grtr,
    /// By 1 where it is less or equal.
    Lseq,
    /// By 1 where they are equal.
    Equl,
    /// By 1 where they are not equal.
    Neql,
    /// Changes the sign of the number on top.
    Chsn,
    /// Replaces the two operands on top by those bits that both have.
    Land,
    /// By those bits that either has.
    Lor,
    /// Exchanges the bits of the operand on top.
    Lnot,
    /// Replaces the two operands on top by those bits in which they agree.
    Leqv,
    /// Leaves a procedure.
    Exit,
    /// Indexes an array of rows, and leaves the row's descriptor.
    Nxln,
    /// Indexes an array, and leaves an indexed descriptor.
    Indx,
    /// Leaves a procedure with a result.
    Retn,
    /// Enters a procedure, or does what an intrinsic does.
    Entr,
    /// Makes of a reference the cell that it leads to.
    Eval,
    /// Indexes an array, and leaves the element.
    Nxlv,
    /// Marks the stack, before a call's parameters.
    Mkst,
    /// Makes of a couple a reference that holds in any stack.
    Stff,
    /// Pushes 0.
    Zero,
    /// Pushes 1.
    One,
    /// Makes cells of what the block has pushed.
    Push,
    /// Drops the word on top.
    Dlet,
    /// Exchanges the two words on top.
    Exch,
    /// Pushes the word on top again.
    Dupl,
    /// Stores the word on top, and drops it.
    Stod,
    /// Stores the word on top, and keeps it.
    Ston,
    /// Loads the word that a reference names, as it is.
    Lodt,
    /// Loads the operand that a reference leads to.
    Load,
    /// Does nothing.
    Noop,
}

/// An operator with its operand.
#[derive(Clone, Copy)]
pub enum Operator {
    /// Pushes the value of the cell at a couple.
    Valc(Couple),
    /// Pushes a reference to the cell at a couple.
    Namc(Couple),
    /// Pushes a literal of one syllable.
    Lt8(u8),
    /// Pushes a literal of two syllables.
    Lt16(u16),
    /// Pushes a literal word, of 48 bits.
    Lt48(u64),
    /// Pushes a program control word, of 48 bits.
    Mpcw(u64),
    /// Goes to a place, which is two syllables.
    Branch(BranchKind, u16),
    /// Has no operand.
    Plain(PlainKind),
}

impl Operator {
    /// The operator without its operand.
    pub fn kind(&self) -> OperatorKind
        ensures { result ≡ kind_of self.now }
    {
        match *self {
            Operator::Valc(_) => OperatorKind::Valc,
            Operator::Namc(_) => OperatorKind::Namc,
            Operator::Lt8(_) => OperatorKind::Lt8,
            Operator::Lt16(_) => OperatorKind::Lt16,
            Operator::Lt48(_) => OperatorKind::Lt48,
            Operator::Mpcw(_) => OperatorKind::Mpcw,
            Operator::Branch(kind, _) => OperatorKind::Branch(kind),
            Operator::Plain(kind) => OperatorKind::Plain(kind),
        }
    }
}

/// Why no operator stands at a place.
#[derive(Clone, Copy)]
pub enum BadCode {
    /// However the code might go on, no operator is spelled so.
    Unknown,
    /// The code ends before the operator does.
    CutShort,
    /// The operator's couple names a level above the current one.
    BadLevel,
}

/// How many of the 14 bits of a couple are left for its index.
#[tactic(auto, unfolding(crate::specs::Spelling::level_bits))]
fn index_bits(level: u8) -> u16
    ensures value { result ≡ index_bits level }
    ensures least { 9 ≤ result }
    ensures most { result ≤ 13 }
{
    match level {
        0..=1 => 13,
        2..=3 => 12,
        4..=7 => 11,
        8..=15 => 10,
        _ => 9,
    }
}

/// A couple as a number of 14 bits, with the level above the index.
fn couple_bits(couple: Couple, level: u8) -> u16
    requires level { level ≤ MOST_LEVEL }
    requires seen { CoupleIsSeen level couple }
    ensures value { result ≡ couple_bits level couple }
    ensures most { result < 2 ^ 14 }
{
    u16::from(couple.level) << index_bits(level) | couple.index
}

/// Appends an operator that is the first two bits of a code, and a couple.
fn push_couple(out: &mut Vec<u8>, code: u8, couple: Couple, level: u8) -> Result<(), AllocError>
    requires level { level ≤ MOST_LEVEL }
    requires seen { CoupleIsSeen level couple }
    requires code { code < 0x80 }
    ensures ok { OnOk result (out.new.items ≡ out.old.items ++ couple_spelling code level couple) }
    ensures err { OnErr result (out.new.items ≡ out.old.items) }
{
    let first = u16::from(code) << 8;
    out.extend_from_slice(&(first + couple_bits(couple, level)).to_be_bytes())
}

/// Appends an operator that is a code and two syllables.
fn push_place(out: &mut Vec<u8>, code: u8, place: u16) -> Result<(), AllocError>
    ensures ok { OnOk result (out.new.items ≡ out.old.items ++ code ∷ to_be_bytes w16 place) }
    ensures err { OnErr result (out.new.items ≡ out.old.items) }
{
    let [high, low] = place.to_be_bytes();
    out.extend_from_slice(&[code, high, low])
}

/// Appends an operator that is a code, and the next whole word.
#[tactic(auto, using(crate::proofs::Words::word_appended))]
fn push_word(out: &mut Vec<u8>, code: u8, word: u64) -> Result<(), AllocError>
    ensures ok { OnOk result (out.new.items ≡ out.old.items
        ++ code ∷ (replicate (filling (length out.old.items)) 0 ++ bytes_high_first 6 word)) }
    ensures err { OnErr result (out.new.items ≡ out.old.items) }
{
    let filling = 5 - out.len() % 6;
    out.reserve(12)?;
    out.extend_from_slice(&[code, 0, 0, 0, 0, 0][..1 + filling])?;
    out.extend_from_slice(&word.to_be_bytes()[2..])
}

/// Appends the one spelling of an operator, where the current level is this one. On `Err` nothing
/// is appended.
pub fn encode(op: &Operator, level: u8, out: &mut Vec<u8>) -> Result<(), AllocError>
    requires level { level ≤ MOST_LEVEL }
    requires fits { Fits level op.now }
    ensures ok { OnOk result (out.new.items
        ≡ out.old.items ++ spelling (length out.old.items) level op.now) }
    ensures err { OnErr result (out.new.items ≡ out.old.items) }
{
    let code = op.kind().code();
    match *op {
        Operator::Valc(couple) | Operator::Namc(couple) => push_couple(out, code, couple, level),
        Operator::Lt8(n) => out.extend_from_slice(&[code, n]),
        Operator::Lt16(n) | Operator::Branch(_, n) => push_place(out, code, n),
        Operator::Lt48(word) | Operator::Mpcw(word) => push_word(out, code, word),
        Operator::Plain(_) => out.extend_from_slice(&[code]),
    }
}

/// The operand of one syllable.
fn byte(rest: &[u8]) -> Result<u8, BadCode>
    ensures { result ≡ byte_front rest.now }
{
    match rest {
        [n, ..] => Ok(*n),
        _ => Err(BadCode::CutShort),
    }
}

/// The operand of two syllables, the high one first.
fn place(rest: &[u8]) -> Result<u16, BadCode>
    ensures { result ≡ place_front rest.now }
{
    match rest {
        [high, low, ..] => Ok(u16::from_be_bytes([*high, *low])),
        _ => Err(BadCode::CutShort),
    }
}

/// The operand of six syllables, the high one first.
fn six(rest: &[u8]) -> Result<u64, BadCode>
    ensures { result ≡ six_front rest.now }
{
    match rest {
        [a, b, c, d, e, f, ..] => Ok(u64::from_be_bytes([0, 0, *a, *b, *c, *d, *e, *f])),
        _ => Err(BadCode::CutShort),
    }
}

/// Tests that each syllable is 0.
fn are_zero(syllables: &[u8]) -> bool
    ensures { result ≡ list_all (λ n. nat_eq n 0) syllables.now }
{
    syllables.iter().all(|n| *n == 0)
}

/// The next whole word, after so many syllables of 0.
#[tactic(auto, using(std::proofs::lemmas::List::take_min, std::proofs::lemmas::List::drop_min), unfolding(crate::specs::Decoding::word_front))]
fn word(rest: &[u8], filling: usize) -> Result<u64, BadCode>
    ensures { result ≡ word_front filling rest.now }
{
    let (zeros, rest) = rest.split_at(filling.min(rest.len()));
    if !are_zero(zeros) {
        return Err(BadCode::Unknown);
    }
    six(rest)
}

/// The lowest bits of a number, so many.
fn low_bits(n: u16, count: u16) -> u16
    requires { count < 16 }
    ensures { result ≡ n % 2 ^ count }
{
    n & ((1 << count) - 1)
}

/// The couple in the last 14 bits of a number.
fn couple_in(n: u16, level: u8) -> Couple
    ensures { result ≡ couple_of level n }
{
    let bits = index_bits(level);
    Couple {
        level: (low_bits(n, 14) >> bits) as u8,
        index: low_bits(n, bits),
    }
}

/// The couple of an operator with this first syllable.
#[tactic(auto, unfolding(crate::specs::Decoding::couple_front))]
fn read_couple(first: u8, rest: &[u8], level: u8) -> Result<Couple, BadCode>
    ensures { result ≡ couple_front level first rest.now }
{
    let n = u16::from_be_bytes([first, byte(rest)?]);
    Ok(couple_in(n, level))
}

/// The code in the first syllable of an operator.
fn code_in(first: u8) -> u8
    ensures { result ≡ code_in first }
{
    if first < 0x80 { first >> 6 << 6 } else { first }
}

/// The operator of this kind that has this first syllable, and how many syllables it is.
fn with_operand(
    kind: OperatorKind,
    first: u8,
    rest: &[u8],
    level: u8,
    filling: usize,
) -> Result<(Operator, usize), BadCode>
    requires { filling < 6 }
    ensures value { result ≡ operator_front kind filling level first rest.now }
    ensures length { IfOk result (λ found. found.1 ≤ 12) }
{
    match kind {
        OperatorKind::Valc => Ok((Operator::Valc(read_couple(first, rest, level)?), 2)),
        OperatorKind::Namc => Ok((Operator::Namc(read_couple(first, rest, level)?), 2)),
        OperatorKind::Lt8 => Ok((Operator::Lt8(byte(rest)?), 2)),
        OperatorKind::Lt16 => Ok((Operator::Lt16(place(rest)?), 3)),
        OperatorKind::Lt48 => Ok((Operator::Lt48(word(rest, filling)?), 7 + filling)),
        OperatorKind::Mpcw => Ok((Operator::Mpcw(word(rest, filling)?), 7 + filling)),
        OperatorKind::Branch(kind) => Ok((Operator::Branch(kind, place(rest)?), 3)),
        OperatorKind::Plain(kind) => Ok((Operator::Plain(kind), 1)),
    }
}

/// The level that the operator's couple names, or 0 where it has no couple.
fn named(operator: &Operator) -> u8
    ensures { result ≡ level_named operator.now }
{
    match operator {
        Operator::Valc(couple) | Operator::Namc(couple) => couple.level,
        _ => 0,
    }
}

/// What `decode` answers.
#[tactic(auto, unfolding(crate::specs::Decoding::decoded, crate::specs::Decoding::front))]
fn decode_at(bytes: &[u8], at: usize, level: u8) -> Result<(Operator, usize), BadCode>
    ensures { result ≡ decoded bytes.now at level }
{
    if at >= bytes.len() {
        return Err(BadCode::CutShort);
    }
    let (_, rest) = bytes.split_at(at);
    let first = rest[0];
    let kind = OperatorKind::with_code(code_in(first)).ok_or(BadCode::Unknown)?;
    let (operator, length) = with_operand(kind, first, &rest[1..], level, 5 - at % 6)?;
    if named(&operator) > level {
        return Err(BadCode::BadLevel);
    }
    Ok((operator, at + length))
}

/// The operator that stands at this place of the code, where the current level is this one, and the
/// place after it.
pub fn decode(bytes: &[u8], at: usize, level: u8) -> Result<(Operator, usize), BadCode>
    requires { level ≤ MOST_LEVEL }

    // The answer as a function of the code.
    ensures value { result ≡ decoded bytes.now at level }

    // An operator comes exactly where it stands.
    ensures ok { (op : Operator) (next : ℕ)
        → (result ≡ Ok (op, next)) ↔ OperatorStands bytes.now at level op next }

    // It lies within the code, and is at most 12 syllables.
    ensures within { IfOk result (λ found.
        (at < found.1) × (found.1 ≤ at + 12) × (found.1 ≤ length bytes.now)) }

    // Each refusal comes exactly where it has its cause.
    ensures cut_short { (result ≡ Err BadCode.CutShort) ↔ IsCutShort bytes.now at level }
    ensures bad_level { (result ≡ Err BadCode.BadLevel) ↔ NamesLevelAbove bytes.now at level }
    ensures unknown { (result ≡ Err BadCode.Unknown) ↔ IsUnknown bytes.now at level }
{
    decode_at(bytes, at, level)
}
