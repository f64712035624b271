//! Where the commands of a console lead in a schedule of a source.

ghost use Rattle.std.specs.Prelude.{◌≡◌, ◌-◌, ◌<◌, ◌^◌, length, Some, IfOk};
ghost use Rattle.algol_tree.specs.Image.{program as plain};
ghost use Rattle.algol_meaning.specs.World as meaning;
ghost use Rattle.algol_meaning.specs.Run.{run};
ghost use Rattle.b67_schedule.specs.Schedules.{entries};
ghost use Rattle.b67_commands.specs.Positions.{positions};
ghost use Rattle.b67_storing.specs.Stores.{stored_by};

use algol_front::Checked;
use b67_commands::{Command, positions};
use b67_judge::{first, lows_of};
use b67_list::discard;
use b67_schedule::Run;
use b67_storing::note_all;
use std::alloc::{AllocError, Global};

/// After how many entries of a schedule, which is legal for an accepted source, each of the commands is answered.
pub(crate) fn positions_of(
    alloc: Global,
    checked: &Checked,
    runs: &[Run],
    commands: &[Command],
) -> Result<Vec<u64>, AllocError>
    requires few { length (entries runs.now) < 2 ^ 64 - 1 }
    ensures { IfOk result (λ at. (after : meaning.World) → run (plain checked.now.program) (entries runs.now) ≡ Some after
        → at.items ≡ positions (stored_by (plain checked.now.program) (entries runs.now)) 0 commands.now) }
{
    let lows = lows_of(alloc, checked)?;
    let mut world = first(alloc, checked, &lows)?;
    let mut notes = Vec::new(alloc);
    let noted = note_all(&mut world, &mut notes, alloc, commands, runs);
    discard(world);
    let all = noted?;
    let at = positions(alloc, commands, notes.as_slice(), all)?;
    Ok(at)
}
