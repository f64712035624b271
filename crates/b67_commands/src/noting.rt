//! What a walk over a schedule notes for the commands that look for stores, and where the commands lead by it.

ghost use Rattle.std.specs.Prelude.{◌≡◌, ◌<◌, IfOk, length};
ghost use Rattle.algol_tree.specs.Sorts.{same_name};
ghost use Rattle.b67_commands.specs.Noting.{ArePositions, MovesTo, NotesLeadToTheNext, looked_for, looks_for, next_noted};

use crate::Command;
use std::alloc::{AllocError, Global};

/// An entry that stores under a name for which some command looks.
#[derive(Clone, Copy)]
pub struct Note {
    /// The number of the entry, from 1.
    pub entry: u64,
    /// The place of the first command that looks for the name.
    pub name: u64,
}

/// Law: notes lead where the entries themselves do.
pub fn notes_lead_to_the_next()
    ensures { NotesLeadToTheNext }
{}

/// Tests that two names are the same.
fn is_same(a: &[u8], b: &[u8]) -> bool
    ensures { result ≡ same_name a.now b.now }
{
    a == b
}

/// Tests that a command looks for stores under this name.
fn looks_for(command: &Command, name: &[u8]) -> bool
    ensures { result ≡ looks_for command.now name.now }
{
    match command {
        Command::Store(other) => is_same(other.bytes(), name),
        Command::Go(_) | Command::Show | Command::Stack(_) | Command::Regs(_) => false,
    }
}

/// The place of the first command that looks for stores under this name.
pub fn looked_for(commands: &[Command], name: &[u8]) -> Option<usize>
    ensures { result ≡ looked_for commands.now name.now }
{
    let mut place = 0;
    'commands: for command in commands {
        if looks_for(command, name) {
            return Some(place);
        }
        place += 1;
    }
    None
}

/// The first entry after the first k that is noted for the name, and else all.
fn next_noted(notes: &[Note], all: u64, k: u64, name: u64) -> u64
    ensures { result ≡ next_noted notes.now all k name }
{
    'notes: for note in notes {
        if k < note.entry && note.name == name {
            return note.entry;
        }
    }
    all
}

/// Where the command at this place of these leads, given after the first k of so many entries.
fn moved(commands: &[Command], place: usize, notes: &[Note], all: u64, k: u64) -> u64
    requires { place < length commands.now }
    ensures { MovesTo commands.now notes.now all place k result }
{
    match &commands[place] {
        Command::Go(entries) => all.min(u64::from(*entries)),
        Command::Store(name) => match looked_for(commands, name.bytes()) {
            Some(first) => next_noted(notes, all, k, first as u64),
            None => k,
        },
        Command::Show | Command::Stack(_) | Command::Regs(_) => k,
    }
}

/// Where a console stands when it answers each of the commands, by the notes of a schedule of so many entries.
pub fn positions(
    alloc: Global,
    commands: &[Command],
    notes: &[Note],
    all: u64,
) -> Result<Vec<u64>, AllocError>
    ensures { IfOk result (λ at. ArePositions commands.now notes.now all at.items) }
{
    let mut at = Vec::new(alloc);
    let mut k = 0;
    'commands: for place in 0..commands.len() {
        k = moved(commands, place, notes, all, k);
        at.push(k)?;
    }
    Ok(at)
}
