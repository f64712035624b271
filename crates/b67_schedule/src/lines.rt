//! The lines of version 2 of the text.

ghost use Rattle.std.specs.Prelude.{◌≡◌, ◌↔◌, ℕ, ◌<◌, ◌≤◌, ◌++◌, None, List, length, map, IfOk, IfErr, IfSome, IfNone, IsTrue, codes};
ghost use Rattle.std.specs.List.{flat_map};
ghost use Rattle.b67_text.specs.Texts.{PartStands, HasByte};
ghost use Rattle.b67_deeds.specs.declared.Letter.{Letter as TheLetter};
ghost use Rattle.b67_deeds.specs.Letters.{byte_of};
ghost use Rattle.b67_schedule.specs.Letters.{bytes_of};
ghost use Rattle.b67_schedule.specs.Schedules.{most_in_schedule};
ghost use Rattle.b67_schedule.specs.Reading.{Lettered, run_in, letters_in, line_in, EntryCanStand, IsLetterLine, Stand, AreLetterLines, AreLetters, AreMost, RefusesAt, numbers_of_schedule};

use crate::letter::letter_of;
use crate::reading::numbers;
use crate::{Letter, MOST_NUMBER, ReadSchedule, Run};
use b67_text::{BadText, read_number};
use std::alloc::{AllocFailed, Global};

/// So many runs and the letters of their actions, whose lines stand at a place, and the place after them.
pub fn read_lines(
    alloc: Global,
    bytes: &[u8],
    at: usize,
    count: u64,
) -> Result<(Vec<Run>, Vec<Letter>, usize), ReadSchedule>
    requires { at ≤ length bytes.now }
    ensures read { IfOk result (λ found. (items : List Lettered) × Stand None items × (length items ≡ count) × (found.0.items ≡ map run_in items)
        × (found.1.items ≡ flat_map letters_in items) × PartStands (flat_map line_in items) bytes.now at found.2) }
    ensures refused { IfErr result (λ e. RefusesAt e (AreLetterLines None count) bytes.now at) }
{
    let mut runs = Vec::new(alloc);
    let mut letters = Vec::new(alloc);
    let mut before = None;
    let mut next = at;
    'lines: while (runs.len() as u64) < count {
        let (run, after) = read_line(bytes, next, before, &mut letters)?;
        runs.push(run)?;
        before = Some(u64::from(run.process));
        next = after;
    }
    Ok((runs, letters, next))
}

/// The run whose line stands at a place, of another process than the one before, and the place after it. The letters of its actions are
/// added to the others.
fn read_line(
    bytes: &[u8],
    at: usize,
    before: Option<u64>,
    letters: &mut Vec<Letter>,
) -> Result<(Run, usize), ReadSchedule>
    requires { at ≤ length bytes.now }
    ensures read { IfOk result (λ found. (item : Lettered) × EntryCanStand before item × (found.0 ≡ run_in item)
        × (letters.new.items ≡ letters.old.items ++ item.letters) × PartStands (line_in item) bytes.now at found.1) }
    ensures refused { IfErr result (λ e. RefusesAt e (IsLetterLine before) bytes.now at) }
{
    let (process, next) = read_number(bytes, at, &numbers(1, before), b' ')?;
    let (times, next) = read_letters(bytes, next, letters)?;
    let run = Run {
        process: process as u32,
        times,
    };
    Ok((run, next))
}

/// The letters at a place up to the end of the line are added to the others; how many they are, and the place after the line.
fn read_letters(
    bytes: &[u8],
    at: usize,
    letters: &mut Vec<Letter>,
) -> Result<(u32, usize), ReadSchedule>
    requires { at ≤ length bytes.now }
    ensures read { IfOk result (λ found. (more : List TheLetter) × (1 ≤ length more) × (length more ≤ most_in_schedule) × (found.0 ≡ length more)
        × (letters.new.items ≡ letters.old.items ++ more) × PartStands (bytes_of more ++ codes "\n") bytes.now at found.1) }
    ensures refused { IfErr result (λ e. RefusesAt e AreLetters bytes.now at) }
{
    let (times, next) = read_most(bytes, at, letters)?;
    if times == 0 {
        return Err(ReadSchedule::Bad(BadText { byte: next }));
    }
    if !ends_at(bytes, next) {
        return Err(ReadSchedule::Bad(BadText { byte: next }));
    }
    Ok((times, next + 1))
}

/// Tests that a line ends at a place.
fn ends_at(bytes: &[u8], at: usize) -> bool
    ensures { IsTrue result ↔ HasByte 10 bytes.now at }
{
    match bytes.get(at) {
        Some(here) => *here == b'\n',
        None => false,
    }
}

/// As many letters as stand at a place, and no more than a line can have, are added to the others; how many they are, and the place after
/// them.
fn read_most(
    bytes: &[u8],
    at: usize,
    letters: &mut Vec<Letter>,
) -> Result<(u32, usize), AllocFailed<Letter>>
    requires { at ≤ length bytes.now }
    ensures { IfOk result (λ found. AreMost bytes.now at letters.old.items letters.new.items found.0 found.1) }
{
    let mut times = 0;
    let mut next = at;
    'letters: while next < bytes.len() {
        let Some(letter) = one_more(bytes[next], times) else {
            return Ok((times, next));
        };
        letters.push(letter)?;
        times += 1;
        next += 1;
    }
    Ok((times, next))
}

/// The letter of a byte, where one more can stand in a line after so many.
#[inline(always)]
fn one_more(byte: u8, times: u32) -> Option<Letter>
    ensures found { IfSome result (λ letter. (byte_of letter ≡ byte) × (times < most_in_schedule)) }
    ensures none { IfNone result ((letter : TheLetter) → byte_of letter ≡ byte → times < most_in_schedule → ⊥) }
{
    if times < MOST_NUMBER {
        letter_of(byte)
    } else {
        None
    }
}
