//! The lines of the races of a schedule.

ghost use Rattle.std.specs.Prelude.{◌≡◌, ◌++◌, IfOk, OnOk, map};
ghost use Rattle.b67_races.specs.Texts.{element_words, race_text, races_text};
ghost use Rattle.b67_races.specs.Told.{race_of};

use crate::telling::Race;
use b67_list::push_number;
use std::alloc::{AllocError, Global};

/// Appends the number of an element in brackets, where there is one.
fn push_element(text: &mut Vec<u8>, at: Option<usize>) -> Result<(), AllocError>
    ensures { OnOk result (text.new.items ≡ text.old.items ++ element_words at) }
{
    match at {
        None => Ok(()),
        Some(at) => {
            push_number(text, b"[", at)?;
            text.extend_from_slice(b"]")
        }
    }
}

/// Appends the line of a race.
fn push_race(text: &mut Vec<u8>, race: &Race) -> Result<(), AllocError>
    ensures { OnOk result (text.new.items ≡ text.old.items ++ race_text (race_of race.now)) }
{
    push_number(text, b"RACE ", race.first)?;
    push_number(text, b" ", race.second)?;
    text.extend_from_slice(b" ")?;
    text.extend_from_slice(race.cell.name.bytes())?;
    push_element(text, race.cell.at)?;
    text.extend_from_slice(b"\n")
}

/// The lines of races, with their number before them.
pub fn races_lines(alloc: Global, races: &[Race]) -> Result<Vec<u8>, AllocError>
    ensures { IfOk result (λ text. text.items ≡ races_text (map race_of races.now)) }
{
    let mut text = Vec::new(alloc);
    push_number(&mut text, b"RACES ", races.len())?;
    text.extend_from_slice(b"\n")?;
    'races: for race in races {
        push_race(&mut text, race)?;
    }
    Ok(text)
}
