//! Why a text is not assembled.

ghost use Rattle.std.specs.Prelude.{◌≡◌};
ghost use Rattle.b67_asm.specs.declared.refusal.NotAssembled.TheVariants.{Refused, NoMemory};
ghost use Rattle.b67_asm.specs.Codes.{rule_number_of};

use std::alloc::{AllocError, AllocFailed};

/// The rules of the text of the assembler, in the order of their numbers. The letter of their numbers, which the program prints, is A.
#[derive(Clone, Copy)]
pub enum Rule {
    /// The line is no item.
    BadLine,
    /// It uses a label that its segment does not have.
    UnknownLabel,
    /// It names a label again in its segment.
    DoubleLabel,
    /// It has a couple that does not fit the level, a number beyond its operand's bits, a phrase of width 0, or phrases that do not
    /// fit a line.
    Range,
    /// It has the operator that passes the most words of a segment.
    SegmentTooLong,
    /// It is an item other than SEGMENT or FORMAT before the first SEGMENT; or it is line 1, and there is no SEGMENT.
    NoSegment,
    /// It is a SEGMENT without operators.
    EmptySegment,
}

impl Rule {
    /// The number of the rule. Of the rules that a line breaks the one with the lowest number is told.
    pub fn number(self) -> u8
        ensures { result ≡ rule_number_of self }
    {
        match self {
            Rule::BadLine => 1,
            Rule::UnknownLabel => 2,
            Rule::DoubleLabel => 3,
            Rule::Range => 4,
            Rule::SegmentTooLong => 5,
            Rule::NoSegment => 6,
            Rule::EmptySegment => 7,
        }
    }
}

/// The first line that breaks a rule, counted from 1, and the lowest rule that it breaks.
#[derive(Clone, Copy)]
pub struct Refusal {
    pub line: u32,
    pub rule: Rule,
}

/// Why a text is not assembled: it is refused, or memory ran out.
#[derive(Clone, Copy)]
pub enum NotAssembled {
    Refused(Refusal),
    NoMemory,
}

/// The refusal of a line that breaks a rule.
pub(crate) fn refused(line: u32, rule: Rule) -> NotAssembled
    ensures { result ≡ Refused record { line = line; rule = rule } }
{
    NotAssembled::Refused(Refusal { line, rule })
}

impl From<AllocError> for NotAssembled {
    ghost from_gives = { λ _ e. e ≡ NoMemory };

    fn from(_error: AllocError) -> NotAssembled {
        NotAssembled::NoMemory
    }
}

impl<T: Drop> From<AllocFailed<T>> for NotAssembled {
    ghost from_gives = { λ _ e. e ≡ NoMemory };

    fn from(_error: AllocFailed<T>) -> NotAssembled {
        NotAssembled::NoMemory
    }
}
