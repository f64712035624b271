//! The lines of a process.

ghost use Rattle.std.specs.Prelude.{◌≡◌, ◌<◌, ◌≤◌, ◌++◌, OnOk, true};
ghost use Rattle.std.specs.Fmt.{digit_glyph};
ghost use Rattle.b67_listing.specs.Digits.{last_digits};
ghost use Rattle.b67_stack_text.specs.Lines.{at_text, no_process_text, regs_text, stack_text, word_text};

use b67_control::Registers;
use b67_list::push_number;
use b67_word::Word;
use std::alloc::AllocError;

/// The digit of this value, a capital letter from 10 on.
fn digit(value: u8) -> u8
    requires { value < 16 }
    ensures { result ≡ digit_glyph true value }
{
    if value < 10 {
        b'0' + value
    } else {
        b'A' + (value - 10)
    }
}

/// Appends the last digits of a number, so many, in a base up to 16.
fn push_digits(text: &mut Vec<u8>, base: u64, count: u32, number: u64) -> Result<(), AllocError>
    requires least { 2 ≤ base }
    requires most { base ≤ 16 }
    ensures { OnOk result (text.new.items ≡ text.old.items ++ last_digits base count number) }
{
    if count == 0 {
        return Ok(());
    }
    push_digits(text, base, count - 1, number / base)?;
    text.push(digit((number % base) as u8))?;
    Ok(())
}

/// Appends the line of a word at its displacement.
fn push_word(text: &mut Vec<u8>, at: u64, word: Word) -> Result<(), AllocError>
    ensures { OnOk result (text.new.items ≡ text.old.items ++ word_text (at, word)) }
{
    push_digits(text, 10, 5, at)?;
    push_number(text, b" ", word.tag())?;
    text.extend_from_slice(b" ")?;
    push_digits(text, 16, 12, word.bits())?;
    text.extend_from_slice(b"\n")
}

/// Appends the words of a process's stack, the bottom first.
pub fn push_stack(text: &mut Vec<u8>, process: u32, words: &[Word]) -> Result<(), AllocError>
    ensures { OnOk result (text.new.items ≡ text.old.items ++ stack_text process words.now) }
{
    push_number(text, b"STACK ", process)?;
    push_number(text, b" ", words.len())?;
    text.extend_from_slice(b"\n")?;
    'words: for at in 0..words.len() {
        push_word(text, at as u64, words[at])?;
    }
    Ok(())
}

/// Appends the line of a process's registers.
pub fn push_regs(text: &mut Vec<u8>, process: u32, regs: &Registers) -> Result<(), AllocError>
    ensures { OnOk result (text.new.items ≡ text.old.items ++ regs_text process regs.now) }
{
    push_number(text, b"REGS ", process)?;
    push_number(text, b" S ", regs.s)?;
    push_number(text, b" F ", regs.f)?;
    push_number(text, b" LL ", regs.ll)?;
    push_number(text, b" CELLS ", regs.cells)?;
    push_number(text, b" AT ", regs.segment)?;
    push_number(text, b":", regs.place)?;
    text.extend_from_slice(b"\n")
}

/// Appends the line for a process that is not there, or has ended.
pub fn push_no_process(text: &mut Vec<u8>, process: u32) -> Result<(), AllocError>
    ensures { OnOk result (text.new.items ≡ text.old.items ++ no_process_text process) }
{
    push_number(text, b"NO PROCESS ", process)?;
    text.extend_from_slice(b"\n")
}

/// Appends the line of where the console moved to.
pub fn push_at(text: &mut Vec<u8>, k: u64) -> Result<(), AllocError>
    ensures { OnOk result (text.new.items ≡ text.old.items ++ at_text k) }
{
    push_number(text, b"AT ", k)?;
    text.extend_from_slice(b"\n")
}
