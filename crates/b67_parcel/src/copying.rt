// Parts of processes: taken from a machine, and copied.
ghost use Rattle.std.specs.Prelude.{◌≡◌, Some, true};
ghost use Rattle.b67_list.specs.Numbered.{numbered};
ghost use Rattle.b67_private.specs.Parts.{IsPrivatePart};
ghost use Rattle.b67_table.specs.Image.{is_live};
ghost use Rattle.b67_parcel.specs.Parcels.{part_for, IsComplete};

use b67_machine::Machine;
use b67_store::Core;
use b67_table::Private;

/// Copies the part of a process that lives which a parcel has that may have so many entries. Takes no memory.
pub fn take_part<C: Core>(machine: &Machine<C>, process: u32, room: u32, into: &mut Private)
    requires { is_live (numbered machine.now.image.states process) ≡ true }
    ensures part { part_for room machine.now.image process ≡ Some into.new }
    ensures complete { IsComplete room into.new }
    ensures is_part { IsPrivatePart into.new }
{
    if room == 0 {
        machine.copy_private(process, into);
    } else {
        machine.copy_whole(process, into);
    }
}

/// One part becomes the other. Takes no memory.
pub fn copy_part(from: &Private, into: &mut Private)
    ensures { into.new ≡ from.now }
{
    into.words.begin(0);
    let mut at = from.words.len();
    'copying: while at > 0 {
        at -= 1;
        into.words.push(from.words.from_top(at).unwrap());
    }
    into.regs = from.regs;
}
