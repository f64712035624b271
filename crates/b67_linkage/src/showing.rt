// Entering and leaving frames where the display stays as it is below the level of the frame that is entered or come back to: it is set
// at that level, and names nothing above.
ghost use Rattle.std.specs.Prelude.{◌≡◌, ◌<◌, IfSome, Some, Ok, [], true};
ghost use Rattle.b67_word.specs.declared.Place.{Place};
ghost use Rattle.b67_control.specs.Control.{Fits_pcw, Fits_rcw};
ghost use Rattle.b67_control.specs.Display.{levels};
ghost use Rattle.b67_table.specs.Chains.{place};
ghost use Rattle.b67_table.specs.Limits.{end_of_code};
ghost use Rattle.b67_table.specs.Linkage.{entering, entered, leaving, registers_left};
ghost use Rattle.b67_table.specs.Look.{look_seen};
ghost use Rattle.b67_display.specs.Shown.{IsShown};
ghost use Rattle.b67_linkage.specs.Held.{held, IsLinked};
ghost use Rattle.b67_linkage.specs.Leaving.{frame_left};
ghost use Rattle.b67_linkage.specs.Showing.{entry_shown, leaving_shown};

use crate::arrays::close_arrays;
use crate::entries::is_home;
use crate::exits::left_to;
use crate::words::{cut_words, frame_of};
use b67_control::{Pcw, Registers};
use b67_display::{links_as, mark_at, show};
use b67_store::Core;
use b67_table::Below;
use b67_word::Place;

/// Tests that a procedure that lies in the frame home can be entered at a mark, and that its display is the present one below its level.
/// The place after the operator can be held by a control word, and the frame fits.
pub fn enters_shown<C: Core>(
    core: &C,
    regs: &Registers,
    next: u16,
    mark: u16,
    pcw: &Pcw,
    home: Place,
) -> bool
    requires place { next < end_of_code }
    requires procedure { Fits_pcw pcw.now }
    requires shown { IsShown regs.now.ll regs.now.display }
    ensures { result ≡ true → look_seen (C.Core.stacks core.now) (entering regs.now next true mark pcw.now (Some home)) ≡ Ok (entry_shown regs.now mark pcw.now home) }
{
    is_home(core, home, pcw.level) && links_as(core, &regs.display, home, pcw.level)
}

/// The registers become those of a frame of so many cells that was entered at a mark.
pub fn go_in_shown(regs: &mut Registers, s: u32, mark: u16, pcw: &Pcw, cells: u16)
    requires procedure { Fits_pcw pcw.now }
    requires level { regs.old.ll < levels }
    requires shown { IsShown regs.old.ll regs.old.display }
    ensures { regs.new ≡ entered regs.old s mark pcw.now (entry_shown regs.old mark pcw.now (place regs.old.stack mark)) cells }
{
    let top = Place {
        stack: regs.stack,
        at: mark,
    };
    let high = regs.ll;
    show(&mut regs.display, top, pcw.level, high);
    regs.s = s;
    regs.f = mark;
    regs.ll = pcw.level;
    regs.cells = cells;
    regs.segment = pcw.segment;
    regs.place = 6 * pcw.pir + u16::from(pcw.psr);
}

/// What is there to come back to where the frame at a place of the own stack is left, which is no base frame, where the display of the
/// frame below is the present one below its level.
pub fn below_shown<C: Core>(core: &C, regs: &Registers, frame: Place) -> Option<Below>
    requires stack { frame.stack ≡ regs.now.stack }
    requires shown { IsShown regs.now.ll regs.now.display }
    ensures value { IfSome result (λ b. look_seen (C.Core.stacks core.now) (leaving frame) ≡ Ok (leaving_shown regs.now b)) }
    ensures fits { IfSome result (λ b. Fits_rcw b.control) }
{
    let Ok(below) = left_to(core, frame) else {
        return None;
    };
    let level = below.control.caller_level;
    if level < 2 {
        return None;
    }
    let lower = Place {
        stack: frame.stack,
        at: below.frame,
    };
    let Ok(mark) = mark_at(core, lower) else {
        return None;
    };
    let link = Place {
        stack: mark.stack,
        at: mark.displacement,
    };
    if links_as(core, &regs.display, link, level) {
        Some(below)
    } else {
        None
    }
}

// The registers are those of the frame below one at f that was left.
fn go_out_shown(regs: &mut Registers, f: u16, below: &Below)
    requires fits { Fits_rcw below.now.control }
    requires level { regs.old.ll < levels }
    requires shown { IsShown regs.old.ll regs.old.display }
    ensures { regs.new ≡ registers_left regs.old f f (leaving_shown regs.old below.now) }
{
    let control = &below.control;
    let lower = Place {
        stack: regs.stack,
        at: below.frame,
    };
    let high = regs.ll;
    show(&mut regs.display, lower, control.caller_level, high);
    regs.s = u32::from(f);
    regs.f = below.mark;
    regs.ll = control.caller_level;
    regs.cells = control.caller_cells;
    regs.segment = control.segment;
    regs.place = 6 * control.pir + u16::from(control.psr);
}

/// Leaves the frame of a process, where [`below_shown`] has found what is below it: the rows of its cells are closed, its words are taken
/// off, and the registers are those of the frame below.
pub fn leave_shown<C: Core>(core: &mut C, regs: &mut Registers, below: &Below)
    requires linked { IsLinked (C.Core.stacks core.old) (C.Core.rows core.old) regs.old }
    requires fits { Fits_rcw below.now.control }
    requires shown { IsShown regs.old.ll regs.old.display }
    ensures { held (C.Core.stacks core.new) (C.Core.rows core.new) regs.new ≡ frame_left (held (C.Core.stacks core.old) (C.Core.rows core.old) regs.old) [] (leaving_shown regs.old below.now) }
{
    let f = frame_of(regs);
    let frame = Place {
        stack: regs.stack,
        at: f,
    };
    close_arrays(core, frame, regs.cells);
    cut_words(core, regs.stack, u32::from(f));
    go_out_shown(regs, f, below);
}
