//! The answer to a command where a console stands.

ghost use Rattle.std.specs.Prelude.{◌≡◌, ◌++◌, codes, OnOk};
ghost use Rattle.algol_cells.specs.SeenScope.{scoped};
ghost use Rattle.algol_world.specs.SeenWorld.{world_of};
ghost use Rattle.b67_report.specs.Texts.{lines_text};
ghost use Rattle.b67_dump.specs.Snapshots.{snapshot};
ghost use Rattle.b67_console.specs.Telling.{answer_text};

use algol_world::World;
use b67_commands::Command;
use b67_dump::snapshot;
use b67_list::discard;
use b67_machine::Machine;
use b67_midway::{push_registers, push_words};
use b67_report::push_lines;
use b67_stack_text::push_at;
use b67_store::Core;
use std::alloc::{AllocError, Global};

/// Appends the named cells of the source.
fn push_cells(text: &mut Vec<u8>, alloc: Global, world: &World<'_>) -> Result<(), AllocError>
    ensures { OnOk result (text.new.items ≡ text.old.items ++ lines_text (codes "DUMP ") (snapshot (scoped world.now.scopes) (world_of world.now))) }
{
    let lines = snapshot(alloc, world)?;
    let told = push_lines(text, b"DUMP ", lines.items().as_slice());
    discard(lines);
    told
}

/// Appends the answer to a command that is given after the first k entries.
pub(crate) fn push_answer<C: Core>(
    text: &mut Vec<u8>,
    alloc: Global,
    world: &World<'_>,
    machine: &Machine<C>,
    k: u64,
    command: &Command,
) -> Result<(), AllocError>
    ensures { OnOk result (text.new.items ≡ text.old.items ++ answer_text (scoped world.now.scopes) k (world_of world.now) machine.now.image command.now) }
{
    match command {
        Command::Go(_) | Command::Store(_) => push_at(text, k),
        Command::Show => push_cells(text, alloc, world),
        Command::Stack(process) => push_words(text, alloc, machine, *process),
        Command::Regs(process) => push_registers(text, machine, *process),
    }
}
