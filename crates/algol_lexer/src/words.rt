//! The table of the reserved words.

ghost use Rattle.std.specs.Prelude.{◌≡◌, MatchOption};
ghost use Rattle.algol_tree.specs.Spelling.{written, IsReserved};
ghost use Rattle.algol_lexer.specs.Words.{reserved_word_in, word_of};

use algol_tree::Reserved;

/// A reserved word, and how it is written.
type Row = (Reserved, &'static str);

/// The rows of the words that begin with each letter.
const TABLE: [&[Row]; 26] = [
    &[
        (Reserved::And, "AND"),
        (Reserved::Array, "ARRAY"),
        (Reserved::Available, "AVAILABLE"),
    ],
    &[(Reserved::Begin, "BEGIN"), (Reserved::Boolean, "BOOLEAN")],
    &[
        (Reserved::Case, "CASE"),
        (Reserved::Cause, "CAUSE"),
        (Reserved::CauseAndReset, "CAUSEANDRESET"),
        (Reserved::Comment, "COMMENT"),
    ],
    &[(Reserved::Div, "DIV"), (Reserved::Do, "DO")],
    &[
        (Reserved::Else, "ELSE"),
        (Reserved::End, "END"),
        (Reserved::Eql, "EQL"),
        (Reserved::Eqv, "EQV"),
        (Reserved::Event, "EVENT"),
    ],
    &[
        (Reserved::False, "FALSE"),
        (Reserved::File, "FILE"),
        (Reserved::Fix, "FIX"),
        (Reserved::For, "FOR"),
        (Reserved::Forward, "FORWARD"),
    ],
    &[
        (Reserved::Geq, "GEQ"),
        (Reserved::Go, "GO"),
        (Reserved::Gtr, "GTR"),
    ],
    &[(Reserved::Happened, "HAPPENED")],
    &[
        (Reserved::If, "IF"),
        (Reserved::Imp, "IMP"),
        (Reserved::Integer, "INTEGER"),
    ],
    &[],
    &[],
    &[
        (Reserved::Label, "LABEL"),
        (Reserved::Leq, "LEQ"),
        (Reserved::Liberate, "LIBERATE"),
        (Reserved::Lss, "LSS"),
    ],
    &[(Reserved::Mod, "MOD")],
    &[(Reserved::Neq, "NEQ"), (Reserved::Not, "NOT")],
    &[(Reserved::Of, "OF"), (Reserved::Or, "OR")],
    &[
        (Reserved::Procedure, "PROCEDURE"),
        (Reserved::Process, "PROCESS"),
        (Reserved::Procure, "PROCURE"),
    ],
    &[],
    &[(Reserved::Real, "REAL"), (Reserved::Reset, "RESET")],
    &[(Reserved::Step, "STEP")],
    &[
        (Reserved::Task, "TASK"),
        (Reserved::Then, "THEN"),
        (Reserved::Thru, "THRU"),
        (Reserved::To, "TO"),
        (Reserved::True, "TRUE"),
    ],
    &[(Reserved::Until, "UNTIL")],
    &[(Reserved::Value, "VALUE")],
    &[
        (Reserved::Wait, "WAIT"),
        (Reserved::While, "WHILE"),
        (Reserved::Write, "WRITE"),
    ],
    &[],
    &[],
    &[],
];

/// The word of the first row that is written so.
fn first_written(rows: &[Row], bytes: &[u8]) -> Option<Reserved>
    ensures { result ≡ reserved_word_in rows.now bytes.now }
{
    'rows: for row in rows {
        if row.1.as_bytes() == bytes {
            return Some(row.0);
        }
    }
    None
}

/// The word that a table of rows by letters has for the text.
fn word_of(table: &[&[Row]], bytes: &[u8]) -> Option<Reserved>
    ensures { result ≡ word_of table.now bytes.now }
{
    let first = bytes.first()?;
    let rows = table.get(usize::from(first.saturating_sub(b'A')))?;
    first_written(rows, bytes)
}

/// The reserved word that is written so, in capitals.
pub(crate) fn reserved(bytes: &[u8]) -> Option<Reserved>
    ensures { MatchOption result (IsReserved bytes.now → ⊥) (λ word. bytes.now ≡ written word) }
{
    word_of(&TABLE, bytes)
}
