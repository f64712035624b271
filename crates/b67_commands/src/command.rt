//! The commands of a console, and the line of each.

ghost use Rattle.std.specs.Prelude.{◌≡◌, ◌↔◌, ℕ, List, IfOk, IsTrue, MatchOption};
ghost use Rattle.std.specs.Fmt.{decimal};
ghost use Rattle.b67_commands.specs.Commands.{IsCommandOrNone, IsNamed, IsNumbered};
ghost use Rattle.b67_commands.specs.declared.command.TheConstants.{MOST_COMMANDS, MOST_NUMBER};

use crate::names::is_name;
use algol_tree::MOST_NAME_BYTES;
use b67_list::Line;
use itoa::Buffer;
use std::alloc::{AllocError, Global};

/// The greatest number of a command.
pub const MOST_NUMBER: u32 = 999_999_999;

/// The most commands that a console takes.
pub const MOST_COMMANDS: usize = 100;

/// What a console is told to do, at the entry of the schedule at which it stands.
#[derive(Drop)]
pub enum Command {
    /// `GO n`: stand after n entries, or after all where there are fewer.
    Go(u32),
    /// `STORE NAME`: stand after the next entry that stores in a cell of that name, or after all where there is none.
    Store(Line),
    /// `SHOW`: show the named cells of the source.
    Show,
    /// `STACK p`: show the words of the stack of process p.
    Stack(u32),
    /// `REGS p`: show the registers of process p.
    Regs(u32),
}

/// The command that a line is, without its end.
pub(crate) fn command_of(alloc: Global, line: &[u8]) -> Result<Option<Command>, AllocError>
    ensures { IfOk result (λ found. IsCommandOrNone line.now found) }
{
    if line == b"SHOW".as_slice() {
        return Ok(Some(Command::Show));
    }
    if let Some(entries) = number_after(line, b"GO ") {
        return Ok(Some(Command::Go(entries)));
    }
    if let Some(process) = number_after(line, b"STACK ") {
        return Ok(Some(Command::Stack(process)));
    }
    if let Some(process) = number_after(line, b"REGS ") {
        return Ok(Some(Command::Regs(process)));
    }
    match name_after_store(alloc, line)? {
        Some(name) => Ok(Some(Command::Store(name))),
        None => Ok(None),
    }
}

/// The name that all of the line is after the word `STORE`.
fn name_after_store(alloc: Global, line: &[u8]) -> Result<Option<Line>, AllocError>
    ensures { IfOk result (λ found. MatchOption found ((name : List ℕ) → IsNamed line.now name → ⊥) (λ name. IsNamed line.now name)) }
{
    let Some(name) = line.strip_prefix(b"STORE ") else {
        return Ok(None);
    };
    if !is_name(name) {
        return Ok(None);
    }
    if name.len() > MOST_NAME_BYTES {
        return Ok(None);
    }
    Ok(Some(Line::of(Vec::from_slice(alloc, name)?)))
}

/// The number that all of the line is after this word: what is parsed there, where it is written so.
fn number_after(line: &[u8], word: &[u8]) -> Option<u32>
    ensures { MatchOption result ((n : ℕ) → IsNumbered word.now line.now n → ⊥) (λ n. IsNumbered word.now line.now n) }
{
    let Some(numeral) = line.strip_prefix(word) else {
        return None;
    };
    let Ok(text) = str::from_utf8(numeral) else {
        return None;
    };
    let Ok(number) = text.parse::<u32>() else {
        return None;
    };
    if number > MOST_NUMBER {
        return None;
    }
    if is_written(number, numeral) {
        Some(number)
    } else {
        None
    }
}

/// Tests that the number is written so, decimal and without sign and leading zeros.
fn is_written(number: u32, numeral: &[u8]) -> bool
    ensures { IsTrue result ↔ (numeral.now ≡ decimal number) }
{
    let mut digits = Buffer::new();
    numeral == digits.format(number).as_bytes()
}

/// Law: the numbers of this crate, by this project's profile, as docs/LANGUAGE.md has them.
pub fn numbers_are_told()
    ensures number { MOST_NUMBER ≡ 999999999 }
    ensures commands { MOST_COMMANDS ≡ 100 }
{}
