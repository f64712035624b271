//! The table of the refusals: the letter and the number of each, as they are printed.

ghost use Rattle.std.specs.Prelude.{◌≡◌, ◌<◌, length, get_or, map};
ghost use Rattle.algol_tree.specs.Codes.{code_index, rule_letter, rule_number};

use crate::refusal::Code;

/// A refusal, its letter and its number.
type Row = (Code, u8, u8);

/// The row of each refusal, in the order in which the refusals are declared: L1 to L5 are of the text, S1 to S3 of the
/// grammar, N1 to N6 of names and limits, C7 to C12 of types, counts, lines and labels.
const TABLE: [Row; 20] = [
    (Code::BadCharacter, b'L', 1),
    (Code::LineTooLong, b'L', 2),
    (Code::OpenString, b'L', 3),
    (Code::NumberTooWide, b'L', 4),
    (Code::NameTooLong, b'L', 5),
    (Code::Unexpected, b'S', 1),
    (Code::TooDeep, b'S', 2),
    (Code::TextAfterEnd, b'S', 3),
    (Code::UnknownName, b'N', 1),
    (Code::DeclaredTwice, b'N', 2),
    (Code::TooManyLevels, b'N', 3),
    (Code::TooManyCells, b'N', 4),
    (Code::TooManyProcedures, b'N', 5),
    (Code::SegmentTooLong, b'N', 6),
    (Code::WrongType, b'C', 7),
    (Code::WrongCount, b'C', 8),
    (Code::NotAssignable, b'C', 9),
    (Code::WriteList, b'C', 10),
    (Code::LineTooWide, b'C', 11),
    (Code::BadLabel, b'C', 12),
];

/// Where the row of a refusal stands in the table.
fn index(code: Code) -> usize
    ensures value { result ≡ code_index code }
    ensures within { result < 20 }
{
    code as usize
}

/// The letter in the row at this place.
#[tactic(auto, using(crate::proofs::Rows::column))]
fn letter_at(rows: &[Row], at: usize) -> u8
    requires { at < length rows.now }
    ensures { result ≡ get_or (map (λ row. row.1) rows.now) at 0 }
{
    rows[at].1
}

/// The number in the row at this place.
#[tactic(auto, using(crate::proofs::Rows::column))]
fn number_at(rows: &[Row], at: usize) -> u8
    requires { at < length rows.now }
    ensures { result ≡ get_or (map (λ row. row.2) rows.now) at 0 }
{
    rows[at].2
}

/// The letter of a refusal.
pub fn rule_letter(code: Code) -> u8
    ensures { result ≡ rule_letter code }
{
    letter_at(&TABLE, index(code))
}

/// The number of a refusal. Of the rules that a tree breaks at one place the one with the lowest number is told.
pub fn rule_number(code: Code) -> u8
    ensures { result ≡ rule_number code }
{
    number_at(&TABLE, index(code))
}
