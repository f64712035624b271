//! The letters of operators that find by looking what they do.

ghost use Rattle.std.specs.Prelude.{◌≡◌, IfOk};
ghost use Rattle.b67_control.specs.Control.{as_pcw};
ghost use Rattle.b67_table.specs.Arrays.{as_indexed};
ghost use Rattle.b67_table.specs.Program.{Program};
ghost use Rattle.b67_letters.specs.Letters.{entered_or, element_or_not};
ghost use Rattle.b67_reach.specs.Images.{Own};
ghost use Rattle.b67_reach.specs.Answers.{ProgramPerforms};

use b67_control::Pcw;
use b67_deeds::Letter;
use b67_reach::{Stop, as_indexed};
use b67_word::Word;

/// The letter of an operator that enters what it reaches, where that is a procedure, or else has this one.
#[inline(always)]
pub fn entered_or(other: Letter, word: Word) -> Letter
    ensures { result ≡ entered_or other (as_pcw word) }
{
    match Pcw::unpack(word) {
        Some(_) => Letter::Enter,
        None => other,
    }
}

/// The letter of an operator that leads to an element, where a word is an indexed descriptor, or else to a variable.
#[inline(always)]
pub fn element_or_not(element: Letter, variable: Letter, word: Word) -> Letter
    ensures { result ≡ element_or_not element variable (as_indexed word) }
{
    match as_indexed(word) {
        Some(_) => element,
        None => variable,
    }
}

/// The answer of an operator that has this letter where nothing stops it.
#[inline(always)]
pub fn lettered(answer: Result<(), Stop>, letter: Letter) -> Result<Letter, Stop>
    ensures performs { (program : Program) (old new : Own) → ProgramPerforms program old new answer → ProgramPerforms program old new result }
    ensures letter { IfOk result (λ l. l ≡ letter) }
{
    match answer {
        Ok(()) => Ok(letter),
        Err(stop) => Err(stop),
    }
}
