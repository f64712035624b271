//! ENTR, EXIT and RETN at once: where nothing stops them, and the display stays as it is below the level of the frame that is entered or
//! come back to. Each answers whether it was performed; else nothing has changed.

ghost use Rattle.std.specs.Prelude.{◌≡◌, ◌<◌, ◌≤◌, ◌+◌, ◌-◌, ◌^◌, ℕ, List, Ok, Some, IfSome, true, false, vec_capacity};
ghost use Rattle.b67_list.specs.Numbered.{numbered};
ghost use Rattle.b67_control.specs.declared.Registers.{Registers};
ghost use Rattle.b67_control.specs.Control.{Fits_pcw, Fits_rcw};
ghost use Rattle.b67_segment.specs.declared.code.Code.{Code};
ghost use Rattle.b67_table.specs.Limits.{end_of_code, most_cells};
ghost use Rattle.b67_table.specs.Program.{answer};
ghost use Rattle.b67_table.specs.Rows.{enter, exit, return_value};
ghost use Rattle.b67_display.specs.Shown.{IsShown};
ghost use Rattle.b67_linkage.specs.Held.{held, IsLinked};
ghost use Rattle.b67_linkage.specs.Leaving.{frame_left};
ghost use Rattle.b67_linkage.specs.Showing.{entry_shown, leaving_shown};
ghost use Rattle.b67_reach.specs.Images.{own_of_image, image_of};
ghost use Rattle.b67_reach.specs.Answers.{ProgramActs, ProgramPerforms};
ghost use Rattle.b67_table.specs.Private.{frame};
ghost use Rattle.b67_deeds.specs.declared.Letter.TheVariants.{Leave};
ghost use Rattle.b67_letters.specs.Letters.{left_letter};
ghost use Rattle.b67_operators.specs.Entries.{entry_opening, CallsProcedure};
ghost use Rattle.b67_operators.specs.Leaves.{IsLinkedIn, program_in, valued, leaves, HasLeftFrame, released};

use crate::calling::find_called;
use crate::leaving::{frame_of, is_needed, registers, returned};
use b67_control::{Mscw, Pcw};
use b67_events::Kernel;
use b67_linkage::{below_shown, control_word, enters_shown, go_in_shown, leave_shown};
use b67_reach::{Parts, Registers};
use b67_segment::MOST_SEGMENT_SYLLABLES;
use b67_store::Core;
use b67_table::Below;
use b67_word::{Place, Word};

// ---- ENTR

// The frame at F is opened.
fn open_shown<C: Core>(
    core: &mut C,
    regs: &mut Registers,
    next: u16,
    df: u16,
    pcw: &Pcw,
    home: Place,
)
    requires linked { IsLinked (C.Core.stacks core.old) (C.Core.rows core.old) regs.old }
    requires shown { IsShown regs.old.ll regs.old.display }
    requires above { regs.old.f + 2 ≤ regs.old.s }
    requires cells { regs.old.s - (regs.old.f + 2) ≤ most_cells }
    requires next { next < end_of_code }
    requires procedure { Fits_pcw pcw.now }
    requires home { home.stack < 2 ^ 10 }
    ensures { ProgramPerforms (answer (entry_opening regs.old next df pcw.now (entry_shown regs.old regs.old.f pcw.now home))) (own_of_image (C.Core.stacks core.old) (C.Core.rows core.old) regs.old) (own_of_image (C.Core.stacks core.new) (C.Core.rows core.new) regs.new) (Ok result) }
{
    let mscw = Mscw {
        entered: true,
        stack: home.stack,
        displacement: home.at,
        df,
    };
    let at = Place {
        stack: regs.stack,
        at: regs.f,
    };
    let above = Place {
        stack: regs.stack,
        at: regs.f + 1,
    };
    regs.place = next;
    let control = control_word(regs, pcw.level);
    core.write(at, mscw.pack()).unwrap();
    core.write(above, control).unwrap();
    let cells = (regs.s - (u32::from(regs.f) + 2)) as u16;
    go_in_shown(regs, regs.s, regs.f, pcw, cells);
}

/// ENTR of a procedure that is no intrinsic's.
pub fn enter_at_once<C: Core>(core: &mut C, regs: &mut Registers, next: u16) -> bool
    requires linked { IsLinked (C.Core.stacks core.old) (C.Core.rows core.old) regs.old }
    requires shown { IsShown regs.old.ll regs.old.display }
    ensures entered { result ≡ true → (code : Code) → ProgramPerforms (enter code regs.old next) (own_of_image (C.Core.stacks core.old) (C.Core.rows core.old) regs.old) (own_of_image (C.Core.stacks core.new) (C.Core.rows core.new) regs.new) (Ok (tt {0})) }
    ensures calls { result ≡ true → CallsProcedure (C.Core.stacks core.old) regs.old }
    ensures stays { result ≡ false → own_of_image (C.Core.stacks core.new) (C.Core.rows core.new) regs.new ≡ own_of_image (C.Core.stacks core.old) (C.Core.rows core.old) regs.old }
{
    let Ok(called) = find_called(core, regs) else {
        return false;
    };
    if called.pcw.intrinsic || usize::from(next) >= MOST_SEGMENT_SYLLABLES {
        return false;
    }
    let Some(home) = called.home else {
        return false;
    };
    if regs.s - (u32::from(regs.f) + 2) > 511 {
        return false;
    }
    if !enters_shown(core, regs, next, regs.f, &called.pcw, home) {
        return false;
    }
    open_shown(core, regs, next, called.mark.df, &called.pcw, home);
    true
}

// ---- EXIT and RETN

// The frame of a process is left, and a value stands in its place, or nothing.
fn leave_shown_for<C: Core>(core: &mut C, regs: &mut Registers, below: &Below, value: Option<Word>)
    requires linked { IsLinked (C.Core.stacks core.old) (C.Core.rows core.old) regs.old }
    requires shown { IsShown regs.old.ll regs.old.display }
    requires fits { Fits_rcw below.now.control }
    ensures { held (C.Core.stacks core.new) (C.Core.rows core.new) regs.new ≡ frame_left (held (C.Core.stacks core.old) (C.Core.rows core.old) regs.old) (valued value) (leaving_shown regs.old below.now) }
{
    leave_shown(core, regs, below);
    if let Some(word) = value {
        core.push(regs.stack, word).unwrap();
        regs.s += 1;
    }
}

// So it is in a process.
fn leave_shown_in<C: Core>(
    core: &mut C,
    all: &mut Vec<Registers>,
    process: u32,
    below: &Below,
    value: Option<Word>,
)
    requires linked { IsLinkedIn (C.Core.stacks core.old) (C.Core.rows core.old) (numbered all.old.items process) }
    requires shown { IfSome (numbered all.old.items process) (λ r. IsShown r.ll r.display) }
    requires fits { Fits_rcw below.now.control }
    ensures left { (r : Registers) → numbered all.old.items process ≡ Some r → HasLeftFrame (C.Core.stacks core.old) (C.Core.rows core.old) all.old.items process (leaving_shown r below.now) value (numbered all.old.items process) (C.Core.stacks core.new) (C.Core.rows core.new) all.new.items }
    ensures room { vec_capacity all.old ≤ vec_capacity all.new }
{
    let regs = &mut all[process as usize - 1];
    leave_shown_for(core, regs, below, value);
}

// A frame that is not the base frame is left, and a value stands in its place, or nothing.
fn leave_at_once<C: Core>(
    core: &mut C,
    kernel: &mut Kernel,
    parts: &mut Parts,
    process: u32,
    value: Option<Word>,
) -> bool
    requires linked { IsLinkedIn (C.Core.stacks core.old) (C.Core.rows core.old) (numbered parts.old.regs.items process) }
    requires shown { IfSome (numbered parts.old.regs.items process) (λ r. IsShown r.ll r.display) }
    ensures left { result ≡ true → (next : ℕ) → ProgramActs process (program_in (leaves (C.Core.stacks core.old) (C.Core.rows core.old) value) (numbered parts.old.regs.items process) next) (image_of (C.Core.stacks core.old) (C.Core.rows core.old) kernel.old parts.old) (image_of (C.Core.stacks core.new) (C.Core.rows core.new) kernel.new parts.new) (Ok (tt {0})) }
    ensures stays { result ≡ false → image_of (C.Core.stacks core.new) (C.Core.rows core.new) kernel.new parts.new ≡ image_of (C.Core.stacks core.old) (C.Core.rows core.old) kernel.old parts.old }
    ensures states { parts.new.states ≡ parts.old.states }
    ensures started { parts.new.started ≡ parts.old.started }
    ensures processes { kernel.new.room ≡ kernel.old.room }
    ensures code { parts.new.code ≡ parts.old.code }
    ensures woken { parts.new.woken ≡ parts.old.woken }
{
    let regs = registers(&parts.regs, process);
    let frame = Place {
        stack: regs.stack,
        at: frame_of(regs),
    };
    let Some(below) = below_shown(core, regs, frame) else {
        return false;
    };
    if is_needed(&parts.states, &parts.regs, frame) {
        return false;
    }
    leave_shown_in(core, &mut parts.regs, process, &below, value);
    kernel.close_from(frame.stack, u32::from(frame.at));
    true
}

/// EXIT of a frame that is not the base frame.
pub fn exit_at_once<C: Core>(
    core: &mut C,
    kernel: &mut Kernel,
    parts: &mut Parts,
    process: u32,
) -> bool
    requires linked { IsLinkedIn (C.Core.stacks core.old) (C.Core.rows core.old) (numbered parts.old.regs.items process) }
    requires shown { IfSome (numbered parts.old.regs.items process) (λ r. IsShown r.ll r.display) }
    ensures left { result ≡ true → (next : ℕ) → ProgramActs process (program_in exit (numbered parts.old.regs.items process) next) (image_of (C.Core.stacks core.old) (C.Core.rows core.old) kernel.old parts.old) (image_of (C.Core.stacks core.new) (C.Core.rows core.new) kernel.new parts.new) (Ok (tt {0})) }
    ensures nobody { result ≡ true → (before : List ℕ) → released (numbered parts.old.regs.items process) kernel.old.events before ≡ before }
    ensures letter { result ≡ true → IfSome (numbered parts.old.regs.items process) (λ r. left_letter (frame r) ≡ Leave) }
    ensures stays { result ≡ false → image_of (C.Core.stacks core.new) (C.Core.rows core.new) kernel.new parts.new ≡ image_of (C.Core.stacks core.old) (C.Core.rows core.old) kernel.old parts.old }
    ensures states { parts.new.states ≡ parts.old.states }
    ensures started { parts.new.started ≡ parts.old.started }
    ensures processes { kernel.new.room ≡ kernel.old.room }
    ensures code { parts.new.code ≡ parts.old.code }
    ensures woken { parts.new.woken ≡ parts.old.woken }
{
    if frame_of(registers(&parts.regs, process)) == 0 {
        false
    } else {
        leave_at_once(core, kernel, parts, process, None)
    }
}

/// RETN.
pub fn return_at_once<C: Core>(
    core: &mut C,
    kernel: &mut Kernel,
    parts: &mut Parts,
    process: u32,
) -> bool
    requires linked { IsLinkedIn (C.Core.stacks core.old) (C.Core.rows core.old) (numbered parts.old.regs.items process) }
    requires shown { IfSome (numbered parts.old.regs.items process) (λ r. IsShown r.ll r.display) }
    ensures left { result ≡ true → (next : ℕ) → ProgramActs process (program_in return_value (numbered parts.old.regs.items process) next) (image_of (C.Core.stacks core.old) (C.Core.rows core.old) kernel.old parts.old) (image_of (C.Core.stacks core.new) (C.Core.rows core.new) kernel.new parts.new) (Ok (tt {0})) }
    ensures stays { result ≡ false → image_of (C.Core.stacks core.new) (C.Core.rows core.new) kernel.new parts.new ≡ image_of (C.Core.stacks core.old) (C.Core.rows core.old) kernel.old parts.old }
    ensures states { parts.new.states ≡ parts.old.states }
    ensures started { parts.new.started ≡ parts.old.started }
    ensures processes { kernel.new.room ≡ kernel.old.room }
    ensures code { parts.new.code ≡ parts.old.code }
    ensures woken { parts.new.woken ≡ parts.old.woken }
{
    match returned(core, registers(&parts.regs, process)) {
        Ok(word) => leave_at_once(core, kernel, parts, process, Some(word)),
        Err(_) => false,
    }
}
