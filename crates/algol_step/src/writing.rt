//! The line that a WRITE adds.

ghost use Rattle.std.specs.Prelude.{◌≡◌, ◌++◌, ◌∷◌, List, ℕ, map, IfOk, OnOk};
ghost use Rattle.algol_tree.specs.Spelling.{value_of};
ghost use Rattle.algol_tree.specs.declared.tree.PhraseText.{PhraseText};
ghost use Rattle.algol_meaning.specs.Value as plain;
ghost use Rattle.algol_meaning.specs.Lines as lines;
ghost use Rattle.algol_meaning.specs.Asks as asks;
ghost use Rattle.algol_cells.specs.SeenValue.{value};
ghost use Rattle.algol_effect.specs.Effects.{asked_choice, effect_choice};

use algol_cells::{Value, whole_of};
use algol_effect::Effect;
use algol_tree::{Line, PhraseText};
use algol_world::{Part, World};
use b67_list::{push_copies, push_justified};
use std::alloc::{AllocError, Global};

/// The columns of a phrase, from its digits. No line has room for more than a `u32` of them.
fn columns(digits: &[u8]) -> Result<u32, AllocError>
    ensures { IfOk result (λ w. w ≡ value_of digits.now) }
{
    let mut columns: u32 = 0;
    'reading: for digit in digits {
        let tens = columns.checked_mul(10).ok_or(AllocError)?;
        let units = u32::from(digit.saturating_sub(b'0'));
        columns = tens.checked_add(units).ok_or(AllocError)?;
    }
    Ok(columns)
}

/// Adds the first value in so many columns, nothing where there is none; answers the values that are left.
fn push_item<'v>(
    text: &mut Vec<u8>,
    digits: &[u8],
    values: &'v [Value],
) -> Result<&'v [Value], AllocError>
    ensures { IfOk result (λ left. (next : List plain.Value → List ℕ) → text.new.items ++ next (map value left.now) ≡ text.old.items ++ lines.number_first (value_of digits.now) (map value values.now) next) }
{
    match values.split_first() {
        None => Ok(values),
        Some((first, left)) => {
            push_justified(text, columns(digits)?, whole_of(*first).number())?;
            Ok(left)
        }
    }
}

/// Adds a phrase that is no text: Iw the first value, another one blanks; answers the values that are left.
fn push_word<'v>(
    text: &mut Vec<u8>,
    word: &[u8],
    values: &'v [Value],
) -> Result<&'v [Value], AllocError>
    ensures { IfOk result (λ left. (next : List plain.Value → List ℕ) → text.new.items ++ next (map value left.now) ≡ text.old.items ++ lines.phrase_with word.now (map value values.now) next) }
{
    match word.split_first() {
        None => Ok(values),
        Some((b'I', digits)) => push_item(text, digits, values),
        Some((_, digits)) => {
            push_copies(text, b' ', columns(digits)?)?;
            Ok(values)
        }
    }
}

/// Adds a phrase; answers the values that are left for the phrases after it.
fn push_phrase<'v>(
    text: &mut Vec<u8>,
    phrase: &PhraseText,
    values: &'v [Value],
) -> Result<&'v [Value], AllocError>
    ensures { IfOk result (λ left. (after : List PhraseText) → text.new.items ++ lines.line_of after (map value left.now) ≡ text.old.items ++ lines.line_of (phrase.now ∷ after) (map value values.now)) }
{
    match phrase {
        PhraseText::Text(words) => {
            text.extend_from_slice(words.bytes())?;
            Ok(values)
        }
        PhraseText::Word(word) => push_word(text, word.bytes(), values),
    }
}

/// Adds the line that phrases make of values.
fn push_phrases(
    text: &mut Vec<u8>,
    phrases: &[PhraseText],
    values: &[Value],
) -> Result<(), AllocError>
    ensures { OnOk result (text.new.items ≡ text.old.items ++ lines.line_of phrases.now (map value values.now)) }
{
    let mut left = values;
    'writing: for phrase in phrases {
        left = push_phrase(text, phrase, left)?;
    }
    Ok(())
}

/// The line that phrases make of values.
fn line_of(alloc: Global, phrases: &[PhraseText], values: &[Value]) -> Result<Line, AllocError>
    ensures { IfOk result (λ line. line ≡ lines.line_of phrases.now (map value values.now)) }
{
    let mut text = Vec::new(alloc);
    push_phrases(&mut text, phrases, values)?;
    Ok(Line::of(text))
}

/// A line.
pub fn decide_line<'p>(
    world: &World<'p>,
    alloc: Global,
    process: usize,
    part: &Part<'p>,
    phrases: &'p [PhraseText],
    values: &[Value],
) -> Result<Effect<'p>, AllocError>
    ensures { IfOk result (λ e. asked_choice world.now process part.now (asks.writes phrases.now (map value values.now)) ≡ effect_choice world.now process part.now e) }
{
    Ok(Effect::Writes(line_of(alloc, phrases, values)?))
}
