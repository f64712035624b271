//! The table of the operators: what each is called, and the code that spells it.

ghost use Rattle.std.specs.Prelude.{◌≡◌, ◌<◌, Some, [], length, get_or, map};
ghost use Rattle.b67_ops.specs.declared.table.OperatorKind.{OperatorKind};
ghost use Rattle.b67_ops.specs.Codes.{code_of, codes_of, name_of, kind_with, operator_index, first_with};
ghost use Rattle.b67_ops.specs.Printed.{OperatorsAreTold};
ghost use Rattle.b67_ops.specs.declared.TheConstants.{OUTER_LEVEL, MOST_LEVEL};
ghost use Rattle.b67_ops.specs.declared.intrinsic.TheConstants.{FIRST_INTRINSIC};

use crate::{BranchKind, PlainKind};

/// An operator without its operand, which tells what the operand is.
#[derive(Clone, Copy)]
pub enum OperatorKind {
    /// `VALC`, with a couple.
    Valc,
    /// `NAMC`, with a couple.
    Namc,
    /// `LT8`, with a byte.
    Lt8,
    /// `LT16`, with two bytes.
    Lt16,
    /// `LT48`, with the next whole word.
    Lt48,
    /// `MPCW`, with the next whole word.
    Mpcw,
    /// With a place of the segment.
    Branch(BranchKind),
    /// With no operand.
    Plain(PlainKind),
}

/// An operator, its code and its name. The code is the first syllable, of which `VALC` and `NAMC`
/// take the first two bits and leave the others to the couple.
type Row = (OperatorKind, u8, &'static str);

/// The row of each operator, in the order in which the operators are declared. Codes are this
/// project's profile of the B6700.
const TABLE: [Row; 46] = [
    (OperatorKind::Valc, 0x00, "VALC"),
    (OperatorKind::Namc, 0x40, "NAMC"),
    (OperatorKind::Lt8, 0xb2, "LT8"),
    (OperatorKind::Lt16, 0xb3, "LT16"),
    (OperatorKind::Lt48, 0xbe, "LT48"),
    (OperatorKind::Mpcw, 0xbf, "MPCW"),
    (OperatorKind::Branch(BranchKind::Brfl), 0xa0, "BRFL"),
    (OperatorKind::Branch(BranchKind::Brtr), 0xa1, "BRTR"),
    (OperatorKind::Branch(BranchKind::Brun), 0xa2, "BRUN"),
    (OperatorKind::Plain(PlainKind::Add), 0x80, "ADD"),
    (OperatorKind::Plain(PlainKind::Subt), 0x81, "SUBT"),
    (OperatorKind::Plain(PlainKind::Mult), 0x82, "MULT"),
    (OperatorKind::Plain(PlainKind::Divd), 0x84, "DIVD"),
    (OperatorKind::Plain(PlainKind::Idiv), 0x85, "IDIV"),
    (OperatorKind::Plain(PlainKind::Rdiv), 0x86, "RDIV"),
    (OperatorKind::Plain(PlainKind::Less), 0x88, "LESS"),
    (OperatorKind::Plain(PlainKind::Greq), 0x89, "GREQ"),
    (OperatorKind::Plain(PlainKind::Grtr), 0x8a, "GRTR"),
    (OperatorKind::Plain(PlainKind::Lseq), 0x8b, "LSEQ"),
    (OperatorKind::Plain(PlainKind::Equl), 0x8c, "EQUL"),
    (OperatorKind::Plain(PlainKind::Neql), 0x8d, "NEQL"),
    (OperatorKind::Plain(PlainKind::Chsn), 0x8e, "CHSN"),
    (OperatorKind::Plain(PlainKind::Land), 0x90, "LAND"),
    (OperatorKind::Plain(PlainKind::Lor), 0x91, "LOR"),
    (OperatorKind::Plain(PlainKind::Lnot), 0x92, "LNOT"),
    (OperatorKind::Plain(PlainKind::Leqv), 0x93, "LEQV"),
    (OperatorKind::Plain(PlainKind::Exit), 0xa3, "EXIT"),
    (OperatorKind::Plain(PlainKind::Nxln), 0xa5, "NXLN"),
    (OperatorKind::Plain(PlainKind::Indx), 0xa6, "INDX"),
    (OperatorKind::Plain(PlainKind::Retn), 0xa7, "RETN"),
    (OperatorKind::Plain(PlainKind::Entr), 0xab, "ENTR"),
    (OperatorKind::Plain(PlainKind::Eval), 0xac, "EVAL"),
    (OperatorKind::Plain(PlainKind::Nxlv), 0xad, "NXLV"),
    (OperatorKind::Plain(PlainKind::Mkst), 0xae, "MKST"),
    (OperatorKind::Plain(PlainKind::Stff), 0xaf, "STFF"),
    (OperatorKind::Plain(PlainKind::Zero), 0xb0, "ZERO"),
    (OperatorKind::Plain(PlainKind::One), 0xb1, "ONE"),
    (OperatorKind::Plain(PlainKind::Push), 0xb4, "PUSH"),
    (OperatorKind::Plain(PlainKind::Dlet), 0xb5, "DLET"),
    (OperatorKind::Plain(PlainKind::Exch), 0xb6, "EXCH"),
    (OperatorKind::Plain(PlainKind::Dupl), 0xb7, "DUPL"),
    (OperatorKind::Plain(PlainKind::Stod), 0xb8, "STOD"),
    (OperatorKind::Plain(PlainKind::Ston), 0xb9, "STON"),
    (OperatorKind::Plain(PlainKind::Lodt), 0xbc, "LODT"),
    (OperatorKind::Plain(PlainKind::Load), 0xbd, "LOAD"),
    (OperatorKind::Plain(PlainKind::Noop), 0xfe, "NOOP"),
];

/// Where an operator's row stands in the table.
fn index(kind: OperatorKind) -> usize
    ensures value { result ≡ operator_index kind }
    ensures within { result < 46 }
{
    match kind {
        OperatorKind::Valc => 0,
        OperatorKind::Namc => 1,
        OperatorKind::Lt8 => 2,
        OperatorKind::Lt16 => 3,
        OperatorKind::Lt48 => 4,
        OperatorKind::Mpcw => 5,
        OperatorKind::Branch(kind) => 6 + kind as usize,
        OperatorKind::Plain(kind) => 9 + kind as usize,
    }
}

/// The code in the row at this place.
#[tactic(auto, using(crate::proofs::Rows::column))]
fn code_at(rows: &[Row], at: usize) -> u8
    requires { at < length rows.now }
    ensures { result ≡ get_or (codes_of rows.now) at 0 }
{
    rows[at].1
}

/// The name in the row at this place.
#[tactic(auto, using(crate::proofs::Rows::column))]
fn name_at(rows: &[Row], at: usize) -> &'static str
    requires { at < length rows.now }
    ensures { result.now ≡ get_or (map (λ row. row.2.now) rows.now) at [] }
{
    rows[at].2
}

/// The operator of the first row with this code.
fn first_with(rows: &[Row], code: u8) -> Option<OperatorKind>
    ensures { result ≡ first_with code rows.now }
{
    'rows: for row in rows {
        if row.1 == code {
            return Some(row.0);
        }
    }
    None
}

impl OperatorKind {
    /// The code of the operator: its first syllable, or the first two bits of that.
    #[tactic(auto, unfolding(crate::specs::Codes::code_of))]
    pub fn code(self) -> u8
        ensures { result ≡ code_of self }
    {
        code_at(&TABLE, index(self))
    }

    /// The name of the operator, in capital letters and digits.
    #[tactic(auto, unfolding(crate::specs::Codes::name_of))]
    pub fn name(self) -> &'static str
        ensures { result.now ≡ name_of self }
    {
        name_at(&TABLE, index(self))
    }

    /// The operator that has this code.
    #[tactic(auto, unfolding(crate::specs::Codes::kind_with))]
    pub fn with_code(code: u8) -> Option<OperatorKind>
        ensures { result ≡ kind_with code }
    {
        first_with(&TABLE, code)
    }
}

/// The law of the table: each operator is found by its code, and neither a code nor a name is that of
/// two operators.
pub fn operators_are_told_apart()
    ensures found { (kind : OperatorKind) → kind_with (code_of kind) ≡ Some kind }
    ensures codes { (a b : OperatorKind) → code_of a ≡ code_of b → a ≡ b }
    ensures names { (a b : OperatorKind) → name_of a ≡ name_of b → a ≡ b }
{}

/// Law: the operators with their codes, names and kinds of operand are those that docs/MACHINE.md prints.
pub fn operators_are_told()
    ensures { OperatorsAreTold }
{}

/// Law: the other numbers of this crate, which the code is defined with: blocks are at the levels 2 to 31, as the five bits of a level in a
/// control word of the B6700 have it, and the intrinsics are numbered from 2 on.
pub fn numbers_are_told()
    ensures outer { OUTER_LEVEL ≡ 2 }
    ensures deepest { MOST_LEVEL ≡ 31 }
    ensures first { FIRST_INTRINSIC ≡ 2 }
{}
