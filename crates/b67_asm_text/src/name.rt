//! Names of labels: those of the language.

ghost use Rattle.std.specs.Prelude.{◌≡◌, IsTrue, ◌↔◌, ℕ, List};
ghost use Rattle.std.specs.Borrow.{Bor};
ghost use Rattle.std.specs.List.{list_all};
ghost use Rattle.std.specs.Str.{bytes_eq};
ghost use Rattle.algol_tree.specs.Spelling.{is_letter_or_digit, is_name, IsReserved};
ghost use Rattle.b67_asm_text.specs.Names.{can_name, name_is_among, is_reserved};

use crate::bytes::{is_letter, is_letter_or_digit};
use algol_tree::MOST_NAME_BYTES;

/// The reserved words of the language.
const RESERVED: [&str; 53] = [
    "AND",
    "ARRAY",
    "AVAILABLE",
    "BEGIN",
    "BOOLEAN",
    "CASE",
    "CAUSE",
    "CAUSEANDRESET",
    "COMMENT",
    "DIV",
    "DO",
    "ELSE",
    "END",
    "EQL",
    "EQV",
    "EVENT",
    "FALSE",
    "FILE",
    "FIX",
    "FOR",
    "FORWARD",
    "GEQ",
    "GO",
    "GTR",
    "HAPPENED",
    "IF",
    "IMP",
    "INTEGER",
    "LABEL",
    "LEQ",
    "LIBERATE",
    "LSS",
    "MOD",
    "NEQ",
    "NOT",
    "OF",
    "OR",
    "PROCEDURE",
    "PROCESS",
    "PROCURE",
    "REAL",
    "RESET",
    "STEP",
    "TASK",
    "THEN",
    "THRU",
    "TO",
    "TRUE",
    "UNTIL",
    "VALUE",
    "WAIT",
    "WHILE",
    "WRITE",
];

/// Tests that these bytes can be the name of a label.
pub(crate) fn is_name(word: &[u8]) -> bool
    ensures { result ≡ can_name word.now }
{
    has_form(word) && word.len() <= MOST_NAME_BYTES && !is_reserved(word)
}

/// Tests that these bytes are a letter, and letters and digits.
fn has_form(word: &[u8]) -> bool
    ensures { result ≡ is_name word.now }
{
    match word {
        [first, rest @ ..] => is_letter(*first) && are_letters_or_digits(rest),
        [] => false,
    }
}

/// Tests that these bytes are letters and digits.
fn are_letters_or_digits(bytes: &[u8]) -> bool
    ensures { result ≡ list_all is_letter_or_digit bytes.now }
{
    bytes.iter().all(|byte| is_letter_or_digit(*byte))
}

/// Tests that these bytes are a reserved word.
#[tactic(auto, unfolding(crate::specs::Names::is_reserved))]
fn is_reserved(word: &[u8]) -> bool
    ensures { result ≡ is_reserved word.now }
{
    is_among(&RESERVED, word)
}

/// Tests that these bytes are one of some words.
fn is_among(words: &[&'static str], bytes: &[u8]) -> bool
    ensures { result ≡ name_is_among words.now bytes.now }
{
    'words: for word in words {
        if word.as_bytes() == bytes {
            return true;
        }
    }
    false
}

/// The law of the reserved words: they are those of the language.
pub fn reserved_words_are_those_of_the_language()
    ensures { (word : List ℕ) → IsTrue (is_reserved word) ↔ IsReserved word }
{}
