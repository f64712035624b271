//! Operators from their lines.

ghost use Rattle.std.specs.Prelude.{◌≡◌, ◌*◌, ◌<◌, ◌≤◌, ◌++◌, [], length, Some, None, MatchOption, IfSome, IfOk, OnOk};
ghost use Rattle.b67_ops.specs.declared.TheConstants.{OUTER_LEVEL, MOST_LEVEL};
ghost use Rattle.b67_segment.specs.declared.TheConstants.{MOST_SEGMENT_WORDS};
ghost use Rattle.b67_listing_reader.specs.Reading.{two_digits, level_part, hex_value, syllables_in, TellsNone, LinesTell, TellsOperators};

use b67_list::Line;
use b67_ops::{MOST_LEVEL, OUTER_LEVEL, Operator, decode};
use b67_segment::Builder;
use std::alloc::{AllocError, Global};

/// What the line of an operator tells: its level, the operator, and how many syllables it is.
#[derive(Clone, Copy)]
pub struct Told {
    pub level: u8,
    pub operator: Operator,
    pub width: usize,
}

/// Appends the operators that the lines from a place on tell, as far as each stands after the one before and they are
/// no more than so many syllables, and answers the place of the line after theirs.
pub fn read_operators(
    alloc: Global,
    lines: &[Line],
    at: usize,
    most: usize,
    builder: &mut Builder,
) -> Result<usize, AllocError>
    requires place { at ≤ length lines.now }
    requires most { most ≤ 6 * MOST_SEGMENT_WORDS }
    requires empty { builder.old.operators ≡ [] }
    ensures { IfOk result (λ next. TellsOperators lines.now at most builder.new.operators next) }
{
    let mut next = at;
    'operators: while next < lines.len() {
        let place = builder.place();
        let Some(told) = read_operator(alloc, lines[next].bytes(), place)? else {
            return Ok(next);
        };
        if usize::from(place) + told.width > most {
            return Ok(next);
        }
        builder.level(told.level)?;
        builder.append(&told.operator)?;
        next += 1;
    }
    Ok(next)
}

/// What a line tells of the operator whose line it is, where one at this place has it: of its level and its syllables
/// only. Where the rest of the line is another, it is that of none.
fn read_operator(alloc: Global, line: &[u8], place: u16) -> Result<Option<Told>, AllocError>
    ensures tells { IfOk result (λ told. MatchOption told (TellsNone line.now place) (λ told. LinesTell line.now place told)) }
    ensures short { IfOk result (λ told. IfSome told (λ told. told.width ≤ 12)) }
{
    let Some((level, digits)) = level_part(line) else {
        return Ok(None);
    };
    // The syllables before it in its word decide how it is filled.
    let before = usize::from(place % 6);
    let mut syllables = Vec::from_slice(alloc, &[0; 5][..before])?;
    push_syllables_in(&mut syllables, digits, 12)?;
    let Ok((operator, next)) = decode(syllables.as_slice(), before, level) else {
        return Ok(None);
    };
    if next < syllables.len() {
        return Ok(None);
    }
    Ok(Some(Told {
        level,
        operator,
        width: next - before,
    }))
}

/// The level in an operator's line, from the outer block's to the deepest, and what stands after it and a blank.
fn level_part(line: &[u8]) -> Option<(u8, &[u8])>
    ensures value { MatchOption result (level_part line.now ≡ None) (λ found. level_part line.now ≡ Some (found.0, found.1.now)) }
    ensures least { IfSome result (λ found. OUTER_LEVEL ≤ found.0) }
    ensures most { IfSome result (λ found. found.0 ≤ MOST_LEVEL) }
{
    match line {
        [_, _, _, _, _, _, tens, units, _, rest @ ..] => {
            let level = two_digits(*tens, *units);
            if level < u16::from(OUTER_LEVEL) || level > u16::from(MOST_LEVEL) {
                return None;
            }
            Some((level as u8, rest))
        }
        _ => None,
    }
}

/// The number of two decimal digits.
fn two_digits(tens: u8, units: u8) -> u16
    ensures { result ≡ two_digits tens units }
{
    10 * u16::from(tens.saturating_sub(b'0')) + u16::from(units.saturating_sub(b'0'))
}

/// Appends the syllables whose hexadecimal digits stand at the front of a text, so many at most.
fn push_syllables_in(syllables: &mut Vec<u8>, text: &[u8], most: u32) -> Result<(), AllocError>
    ensures { OnOk result (syllables.new.items ≡ syllables.old.items ++ syllables_in most text.now) }
{
    if most == 0 {
        return Ok(());
    }
    match text {
        [high, low, rest @ ..] => {
            let Some(high) = hex_value(*high) else {
                return Ok(());
            };
            let Some(low) = hex_value(*low) else {
                return Ok(());
            };
            syllables.push(16 * high + low)?;
            push_syllables_in(syllables, rest, most - 1)?;
            Ok(())
        }
        _ => Ok(()),
    }
}

/// The value of a hexadecimal digit.
fn hex_value(byte: u8) -> Option<u8>
    ensures value { result ≡ hex_value byte }
    ensures small { IfSome result (λ value. value < 16) }
{
    match byte {
        b'0'..=b'9' => Some(byte - b'0'),
        b'A'..=b'F' => Some(byte - b'A' + 10),
        _ => None,
    }
}
