//! The commands of a console, and the text that they are.
#![tactic(auto)]

ghost use Rattle.b67_commands.specs.Commands.{TextsHaveOneReading};
ghost use Rattle.b67_commands.specs.Positions.{PositionsAreWithin, StoresLeadToTheNext};

mod command;
mod names;
mod noting;
mod reading;

pub use command::{Command, MOST_COMMANDS, MOST_NUMBER, numbers_are_told};
pub use noting::{Note, looked_for, notes_lead_to_the_next, positions};
pub use reading::{BadCommands, read_commands};

/// Law: a text is commands or has a first line that is bad, and not both.
pub fn texts_have_one_reading()
    ensures { TextsHaveOneReading }
{}

/// Law: a command that looks for a store leads to the least entry after it that stores under that name, or past all where none does.
pub fn stores_lead_to_the_next()
    ensures { StoresLeadToTheNext }
{}

/// Law: no command leads past the last entry.
pub fn positions_are_within()
    ensures { PositionsAreWithin }
{}
