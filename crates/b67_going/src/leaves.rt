//! The frames that GOTO leaves.

ghost use Rattle.std.specs.Prelude.{◌≡◌, ◌||◌, [], ◌∷◌, Ok, IsOk};
ghost use Rattle.b67_table.specs.Look.{look_seen};
ghost use Rattle.b67_table.specs.Linkage.{is_critical};
ghost use Rattle.b67_table.specs.Questions.{live_criticals};
ghost use Rattle.b67_linkage.specs.Leaving.{target_cells};
ghost use Rattle.b67_reach.specs.Answers.{looked};
ghost use Rattle.b67_going.specs.Leaves.{passes_critical, target_events};

use crate::paths::broken;
use b67_events::Kernel;
use b67_linkage::left_to;
use b67_reach::{ProcessState, Registers, Stop, is_critical};
use b67_store::Core;
use b67_word::Place;

// Tests that a frame is the critical place of a live process, or that one before it was.
fn is_so(states: &[ProcessState], regs: &[Registers], frame: Place, before: bool) -> bool
    ensures { result ≡ (is_critical frame.stack (frame.at ∷ []) (live_criticals states.now regs.now) || before) }
{
    is_critical(states, regs, frame) || before
}

/// Tests that one of the frames from one with so many cells down to a target, which is met on the way, is the critical
/// place of a live process; the target is not left. BrokenChain comes exactly where the way down does not meet it.
pub fn passes_critical<C: Core>(
    core: &C,
    states: &[ProcessState],
    regs: &[Registers],
    from: Place,
    cells: u16,
    target: u16,
) -> Result<bool, Stop>
    ensures { result ≡ looked (look_seen (C.Core.stacks core.now) (passes_critical (live_criticals states.now regs.now) from cells target)) }
{
    let mut at = from.at;
    let mut count = cells;
    let mut critical = false;
    let mut steps = u32::from(from.at) + 1;
    'down: while steps > 0 {
        if at == target {
            return Ok(critical);
        }
        if at < target {
            return Err(broken());
        }
        let frame = Place {
            stack: from.stack,
            at,
        };
        let below = match left_to(core, frame) {
            Ok(below) => below,
            Err(_) => return Err(broken()),
        };
        critical = is_so(states, regs, frame, critical);
        at = below.frame;
        count = below.control.caller_cells;
        steps -= 1;
    }
    Err(broken())
}

// Each frame from one with so many cells down to a target, which is met on the way, is left with its events; the target is
// not left.
pub fn close_events<C: Core>(core: &C, kernel: &mut Kernel, from: Place, cells: u16, target: u16)
    requires { IsOk (look_seen (C.Core.stacks core.now) (target_cells from cells target)) }
    ensures events { look_seen (C.Core.stacks core.now) (target_events kernel.old.events from cells target) ≡ Ok kernel.new.events }
    ensures lists { kernel.new.lists ≡ kernel.old.lists }
    ensures processes { kernel.new.room ≡ kernel.old.room }
{
    let mut at = from.at;
    let mut steps = u32::from(from.at) + 1;
    'down: while steps > 0 {
        if at <= target {
            return;
        }
        let frame = Place {
            stack: from.stack,
            at,
        };
        let below = match left_to(core, frame) {
            Ok(below) => below,
            Err(_) => return,
        };
        kernel.close_from(from.stack, u32::from(at));
        at = below.frame;
        steps -= 1;
    }
}
