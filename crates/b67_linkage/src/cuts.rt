// Leaving all frames above one.
ghost use Rattle.std.specs.Prelude.{◌≡◌, ◌+◌, ◌<◌, ◌≤◌, ◌^◌, IfOk, IsOk, OnErr, Ok, Some};
ghost use Rattle.b67_control.specs.Display.{levels};
ghost use Rattle.b67_store.specs.Store.{words_of};
ghost use Rattle.b67_table.specs.Look.{look_seen};
ghost use Rattle.b67_table.specs.Private.{display_at, at_or};
ghost use Rattle.b67_display.specs.Found.{chain_shown};
ghost use Rattle.b67_linkage.specs.Held.{held, IsLinked, Does};
ghost use Rattle.b67_linkage.specs.Closing.{AreShort};
ghost use Rattle.b67_linkage.specs.Leaving.{frame_at, cuts, target_cells, target_rows};

use crate::LinkFault;
use crate::arrays::close_arrays;
use crate::exits::left_to;
use crate::words::{cut_words, frame_of};
use b67_control::Registers;
use b67_display::{BrokenChain, rebuild};
use b67_store::Core;
use b67_word::Place;

// How many cells the frame at the target has, which is met on the way down from a frame with so many cells.
fn target_cells<C: Core>(core: &C, from: Place, cells: u16, target: u16) -> Result<u16, BrokenChain>
    ensures value { chain_shown result ≡ look_seen (C.Core.stacks core.now) (target_cells from cells target) }
    ensures within { IfOk result (λ n. target + 2 + n ≤ from.at + 2 + cells) }
{
    let mut at = from.at;
    let mut count = cells;
    let mut steps = u32::from(from.at) + 1;
    'down: while steps > 0 {
        if at == target {
            return Ok(count);
        }
        if at < target {
            return Err(BrokenChain);
        }
        let frame = Place {
            stack: from.stack,
            at,
        };
        let below = match left_to(core, frame) {
            Ok(below) => below,
            Err(_) => return Err(BrokenChain),
        };
        at = below.frame;
        count = below.control.caller_cells;
        steps -= 1;
    }
    Err(BrokenChain)
}

// Closes the rows of the cells of all frames on the way down to the target, where it is met.
fn close_frames<C: Core>(core: &mut C, from: Place, cells: u16, target: u16)
    requires cells { from.at + 2 + cells ≤ 2 ^ 16 }
    requires short { AreShort (C.Core.rows core.old) }
    requires met { IsOk (look_seen (C.Core.stacks core.old) (target_cells from cells target)) }
    ensures rows { look_seen (C.Core.stacks core.old) (target_rows (words_of (C.Core.stacks core.old) from.stack) (C.Core.rows core.old) from cells target) ≡ Ok (C.Core.rows core.new) }
    ensures stacks { C.Core.stacks core.new ≡ C.Core.stacks core.old }
{
    let mut at = from.at;
    let mut count = cells;
    let mut steps = u32::from(from.at) + 1;
    'down: while steps > 0 {
        if at <= target {
            return;
        }
        let frame = Place {
            stack: from.stack,
            at,
        };
        let below = match left_to(core, frame) {
            Ok(below) => below,
            Err(_) => return,
        };
        close_arrays(core, frame, count);
        at = below.frame;
        count = below.control.caller_cells;
        steps -= 1;
    }
}

// Where the display register of a level points.
fn place_of(regs: &Registers, level: u8) -> u16
    requires { level < levels }
    ensures { result ≡ at_or (display_at regs.now level) }
{
    match regs.display.get(level) {
        Some(place) => place.at,
        None => 0,
    }
}

/// Leaves all frames above the one that the display names at a level, which is from 2 to the process's level and lies in
/// its own stack: the rows of their cells are closed, the words above its cells are taken off, and the registers are in
/// it. The pointer stays as it is. BrokenChain comes exactly where the way down does not meet the frame, or the display
/// can not be rebuilt from it.
pub fn cut_to<C: Core>(core: &mut C, regs: &mut Registers, level: u8) -> Result<(), LinkFault>
    requires linked { IsLinked (C.Core.stacks core.old) (C.Core.rows core.old) regs.old }
    requires low { 2 ≤ level }
    requires high { level ≤ regs.old.ll }
    requires own { display_at regs.old level ≡ Some (frame_at regs.old level) }
    ensures answer { Does (cuts (held (C.Core.stacks core.old) (C.Core.rows core.old) regs.old) level) result (held (C.Core.stacks core.new) (C.Core.rows core.new) regs.new) }
    ensures unchanged { OnErr result (held (C.Core.stacks core.new) (C.Core.rows core.new) regs.new ≡ held (C.Core.stacks core.old) (C.Core.rows core.old) regs.old) }
{
    let from = Place {
        stack: regs.stack,
        at: frame_of(regs),
    };
    let target = Place {
        stack: regs.stack,
        at: place_of(regs, level),
    };
    let cells = match target_cells(core, from, regs.cells, target.at) {
        Ok(cells) => cells,
        Err(_) => return Err(LinkFault::BrokenChain),
    };
    let display = match rebuild(core, target, level) {
        Ok(display) => display,
        Err(_) => return Err(LinkFault::BrokenChain),
    };
    close_frames(core, from, regs.cells, target.at);
    let s = u32::from(target.at) + 2 + u32::from(cells);
    cut_words(core, regs.stack, s);
    regs.s = s;
    regs.f = target.at;
    regs.ll = level;
    regs.display = display;
    regs.cells = cells;
    Ok(())
}
