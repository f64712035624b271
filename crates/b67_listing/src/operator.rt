//! The lines of operators.

ghost use Rattle.std.specs.Prelude.{◌≡◌, ◌<◌, ◌≤◌, ◌^◌, ◌++◌, codes, IfOk, OnOk};
ghost use Rattle.std.specs.Fmt.{decimal};
ghost use Rattle.b67_ops.specs.Spelling.{spelling};
ghost use Rattle.b67_listing.specs.Digits.{last_digits};
ghost use Rattle.b67_listing.specs.Operators.{couple_text, word_text, operator_text, operator_line};

use crate::text::{push_digits, push_syllables, push_words};
use b67_list::{Line, push_number};
use b67_ops::{Couple, Operator};
use std::alloc::{AllocError, Global};

/// The line of an operator at a place and a level, which is spelled by these syllables.
pub fn operator_line(
    alloc: Global,
    place: usize,
    level: u8,
    operator: &Operator,
    syllables: &[u8],
) -> Result<Line, AllocError>
    requires { syllables.now ≡ spelling place level operator.now }
    ensures { IfOk result (λ line.
        line ≡ operator_line record { place = place; level = level; operator = operator.now }) }
{
    let mut text = Vec::new(alloc);
    push_line(&mut text, place, level, operator, syllables)?;
    Ok(Line::of(text))
}

/// Appends what stands in the line.
fn push_line(
    text: &mut Vec<u8>,
    place: usize,
    level: u8,
    operator: &Operator,
    syllables: &[u8],
) -> Result<(), AllocError>
    requires { syllables.now ≡ spelling place level operator.now }
    ensures { OnOk result (text.new.items ≡ text.old.items
        ++ operator_line record { place = place; level = level; operator = operator.now }) }
{
    push_place(text, place, level)?;
    push_syllables(text, syllables)?;
    push_words(text, b" ")?;
    push_operator(text, operator)
}

/// Appends a place and a level, a blank after each.
fn push_place(text: &mut Vec<u8>, place: usize, level: u8) -> Result<(), AllocError>
    ensures { OnOk result (text.new.items ≡ text.old.items ++ (last_digits 10 5 place ++ codes " " ++ last_digits 10 2 level ++ codes " ")) }
{
    push_digits(text, 10, 5, place as u64)?;
    push_words(text, b" ")?;
    push_digits(text, 10, 2, u64::from(level))?;
    push_words(text, b" ")
}

/// Appends the name of an operator, and its operand if it has one.
pub fn push_operator(text: &mut Vec<u8>, operator: &Operator) -> Result<(), AllocError>
    ensures { OnOk result (text.new.items ≡ text.old.items ++ operator_text operator.now) }
{
    push_words(text, operator.kind().name().as_bytes())?;
    match *operator {
        Operator::Valc(couple) | Operator::Namc(couple) => push_couple(text, couple),
        Operator::Lt8(number) => push_number(text, b" ", number),
        Operator::Lt16(number) | Operator::Branch(_, number) => push_number(text, b" ", number),
        Operator::Lt48(word) | Operator::Mpcw(word) => push_word(text, word),
        Operator::Plain(_) => Ok(()),
    }
}

/// Appends a couple, after a blank.
fn push_couple(text: &mut Vec<u8>, couple: Couple) -> Result<(), AllocError>
    ensures { OnOk result (text.new.items ≡ text.old.items ++ couple_text couple) }
{
    push_number(text, b" ", couple.level)?;
    push_number(text, b",", couple.index)
}

/// Appends a word of 12 hexadecimal digits, after a blank.
fn push_word(text: &mut Vec<u8>, word: u64) -> Result<(), AllocError>
    ensures { OnOk result (text.new.items ≡ text.old.items ++ word_text word) }
{
    push_words(text, b" ")?;
    push_digits(text, 16, 12, word)
}
