//! The numbers of the language, as they are told.

ghost use Rattle.std.specs.Prelude.{◌≡◌};
ghost use Rattle.algol_tree.specs.Printed.{RefusalsAreTold};
ghost use Rattle.algol_tree.specs.declared.TheConstants.{MOST_SOURCE_BYTES, LAST_COLUMN, MOST_RECORD_BYTES, MOST_NAME_BYTES, MOST_BLOCK_CELLS, MOST_SEGMENT_TOKENS, MOST_NESTING, MOST_EXPRESSION_TOKENS, MOST_LEVEL, MOST_PROCEDURES, MOST_LINE_WIDTH};

/// Law: the refusals with their letters and numbers are those that docs/GRAMMAR.md prints.
pub fn refusals_are_told()
    ensures { RefusalsAreTold }
{}

/// Law: the numbers of this crate, which the texts and the rules of the language are defined with, as docs/GRAMMAR.md and docs/LANGUAGE.md have
/// them. A card has 80 columns, of which a source uses 72, a name of Extended ALGOL has at most 63 letters and digits, and a line printer
/// has 132 columns; levels and procedures are as many as the five and the ten bits have that a control word of the B6700 has for them. The
/// others are this project's profile.
pub fn numbers_are_told()
    ensures source { MOST_SOURCE_BYTES ≡ 262144 }
    ensures column { LAST_COLUMN ≡ 72 }
    ensures record { MOST_RECORD_BYTES ≡ 80 }
    ensures name { MOST_NAME_BYTES ≡ 63 }
    ensures cells { MOST_BLOCK_CELLS ≡ 400 }
    ensures tokens { MOST_SEGMENT_TOKENS ≡ 2000 }
    ensures nesting { MOST_NESTING ≡ 64 }
    ensures expression { MOST_EXPRESSION_TOKENS ≡ 2000 }
    ensures level { MOST_LEVEL ≡ 31 }
    ensures procedures { MOST_PROCEDURES ≡ 1023 }
    ensures line { MOST_LINE_WIDTH ≡ 132 }
{}
