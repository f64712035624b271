// Cells of a process's own stack, on its lent room.
ghost use Rattle.std.specs.Prelude.{◌<◌, IfSome, length};
ghost use Rattle.b67_control.specs.Display.{levels};
ghost use Rattle.b67_action.specs.OnRoom.{IsRoom, HoldsWord};

use b67_reach::{Registers, frame_at};
use b67_word::Word;

/// The place in its own stack of the cell that a couple names, where the stack has it.
#[inline(always)]
pub fn cell_at(regs: &Registers, room: &[Word], level: u8, index: u16) -> Option<u32>
    requires level { level < levels }
    requires room { IsRoom regs.now room.now }
    ensures holds { IfSome result (λ at. HoldsWord regs.now room.now level index at) }
    ensures within { IfSome result (λ at. at < length room.now) }
{
    let frame = frame_at(regs, level)?;
    let at = u32::from(frame.at) + u32::from(index);
    if frame.stack == regs.stack && at < regs.s {
        Some(at)
    } else {
        None
    }
}
