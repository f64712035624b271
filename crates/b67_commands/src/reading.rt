//! The commands of a text.

ghost use Rattle.std.specs.Prelude.{◌≡◌, ◌≢◌, ◌≤◌, [], length, IfOk, IfErr, OnOk};
ghost use Rattle.b67_commands.specs.Commands.{IsFirstLine, AreCommands, MayStandNext, CommandsRefuse};
ghost use Rattle.b67_commands.specs.declared.command.TheConstants.{MOST_COMMANDS};

use crate::command::{Command, MOST_COMMANDS, command_of};
use b67_list::{List, discard};
use std::alloc::{AllocError, AllocFailed, Global};

/// Why a text is no commands.
#[derive(Clone, Copy, Debug)]
pub enum BadCommands {
    /// The line of that number, from 1, is the first that is no command, or one more than [`MOST_COMMANDS`].
    BadLine { line: u32 },
    /// Memory ran out.
    NoMemory,
}

impl From<AllocError> for BadCommands {
    ghost use Rattle.std.specs.Prelude.{◌≡◌};
    ghost use Rattle.b67_commands.specs.declared.reading.BadCommands.TheVariants.{NoMemory};

    ghost from_gives = { λ _ e. e ≡ NoMemory };

    fn from(_error: AllocError) -> BadCommands {
        BadCommands::NoMemory
    }
}

impl<T: Drop> From<AllocFailed<T>> for BadCommands {
    ghost use Rattle.std.specs.Prelude.{◌≡◌};
    ghost use Rattle.b67_commands.specs.declared.reading.BadCommands.TheVariants.{NoMemory};

    ghost from_gives = { λ _ e. e ≡ NoMemory };

    fn from(_error: AllocFailed<T>) -> BadCommands {
        BadCommands::NoMemory
    }
}

/// The commands whose lines the bytes are. A line ends with an LF, the last one may end with the bytes, and no bytes are no line.
///
/// # Errors
///
/// [`BadCommands::BadLine`] exactly where a line is the first that is no command, or the first of too many.
pub fn read_commands(alloc: Global, bytes: &[u8]) -> Result<List<Command>, BadCommands>
    ensures read { IfOk result (λ commands. AreCommands bytes.now commands) }
    ensures refused { IfErr result (λ e. CommandsRefuse bytes.now e) }
{
    let mut commands = Vec::new(alloc);
    match push_commands(alloc, &mut commands, bytes) {
        Ok(()) => Ok(List::of(commands)),
        Err(bad) => {
            discard(commands);
            Err(bad)
        }
    }
}

/// Appends the commands of a text to none.
fn push_commands(
    alloc: Global,
    commands: &mut Vec<Command>,
    bytes: &[u8],
) -> Result<(), BadCommands>
    requires none { commands.old.items ≡ [] }
    ensures read { OnOk result (AreCommands bytes.now commands.new.items) }
    ensures refused { IfErr result (λ e. CommandsRefuse bytes.now e) }
{
    let mut rest = bytes;
    'lines: while !rest.is_empty() {
        let (line, after) = first_line(rest);
        match next_command(alloc, line, commands.len())? {
            Some(command) => commands.push(command)?,
            None => {
                return Err(BadCommands::BadLine {
                    line: commands.len() as u32 + 1,
                });
            }
        }
        rest = after;
    }
    Ok(())
}

/// The first line of some bytes, without its LF, and what stands after it.
fn first_line(bytes: &[u8]) -> (&[u8], &[u8])
    requires { bytes.now ≢ [] }
    ensures { IsFirstLine bytes.now result.0.now result.1.now }
{
    match bytes.iter().position(|byte| *byte == b'\n') {
        Some(place) => (&bytes[..place], &bytes[place + 1..]),
        None => (bytes, &bytes[bytes.len()..]),
    }
}

/// The command that a line is, which stands after so many commands; none where these are as many as may be.
fn next_command(alloc: Global, line: &[u8], before: usize) -> Result<Option<Command>, AllocError>
    requires { before ≤ MOST_COMMANDS }
    ensures { IfOk result (λ found. MayStandNext line.now before found) }
{
    if before < MOST_COMMANDS {
        command_of(alloc, line)
    } else {
        Ok(None)
    }
}
