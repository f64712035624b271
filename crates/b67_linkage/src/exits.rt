// Leaving a frame.
ghost use Rattle.std.specs.Prelude.{◌≡◌, ◌+◌, ◌≤◌, nat_eq, IfOk, OnErr, []};
ghost use Rattle.b67_control.specs.Control.{Fits_rcw};
ghost use Rattle.b67_table.specs.Chains.{entered_below, left_to};
ghost use Rattle.b67_table.specs.Linkage.{leaving, registers_left};
ghost use Rattle.b67_table.specs.Look.{look_seen};
ghost use Rattle.b67_table.specs.Private.{frame};
ghost use Rattle.b67_table.specs.Rows.{is_result};
ghost use Rattle.b67_display.specs.Found.{chain_shown};
ghost use Rattle.b67_linkage.specs.Held.{held, IsLinked, Does};
ghost use Rattle.b67_linkage.specs.Leaving.{exits, returns, frame_left, base_left};

use crate::LinkFault;
use crate::arrays::close_arrays;
use crate::words::{close_stack, cut_words, frame_of, push_word};
use b67_control::{Descriptor, Registers, Sirw};
use b67_display::{BrokenChain, control_at, mark_at, rebuild};
use b67_store::Core;
use b67_table::{Below, Leaving};
use b67_word::{Place, Word};

/// The displacement of the first entered mark at a displacement of a stack or below, along the distances in the marks. An
/// error comes exactly where the chain does not go down to one.
pub fn entered_below<C: Core>(core: &C, stack: u16, start: u16) -> Result<u16, BrokenChain>
    ensures { chain_shown result ≡ look_seen (C.Core.stacks core.now) (entered_below stack start) }
{
    let mut here = start;
    let mut steps = u32::from(start) + 1;
    'down: while steps > 0 {
        let mark = match mark_at(core, Place { stack, at: here }) {
            Ok(mark) => mark,
            Err(_) => return Err(BrokenChain),
        };
        if mark.entered {
            return Ok(here);
        }
        if mark.df == 0 {
            return Err(BrokenChain);
        }
        if here < mark.df {
            return Err(BrokenChain);
        }
        here -= mark.df;
        steps -= 1;
    }
    Err(BrokenChain)
}

/// What is there to come back to where the frame at a place is left, which is no base frame. An error comes exactly where
/// no mark with a control word above it stands there, or the chain below does not lead to an entered mark that has one, or
/// the cells of the frame there do not end at the place or below.
pub fn left_to<C: Core>(core: &C, frame: Place) -> Result<Below, BrokenChain>
    ensures value { chain_shown result ≡ look_seen (C.Core.stacks core.now) (left_to frame) }
    ensures fits { IfOk result (λ b. Fits_rcw b.control) }
    ensures apart { IfOk result (λ b. b.frame + 2 + b.control.caller_cells ≤ frame.at) }
{
    let mark = mark_at(core, frame)?;
    let control = control_at(core, frame)?;
    if frame.at < mark.df {
        return Err(BrokenChain);
    }
    let below = frame.at - mark.df;
    let lower = match entered_below(core, frame.stack, below) {
        Ok(lower) => lower,
        Err(_) => return Err(BrokenChain),
    };
    let there = Place {
        stack: frame.stack,
        at: lower,
    };
    match control_at(core, there) {
        Ok(_) => {}
        Err(_) => return Err(BrokenChain),
    }
    if u32::from(lower) + 2 + u32::from(control.caller_cells) > u32::from(frame.at) {
        return Err(BrokenChain);
    }
    Ok(Below {
        mark: below,
        frame: lower,
        control,
    })
}

/// What leaving the frame at a place finds, which is no base frame. An error comes exactly where [`left_to`] has one, or
/// the display of the frame below can not be rebuilt.
pub fn leaving<C: Core>(core: &C, frame: Place) -> Result<Leaving, BrokenChain>
    ensures value { chain_shown result ≡ look_seen (C.Core.stacks core.now) (leaving frame) }
    ensures fits { IfOk result (λ l. Fits_rcw l.below.control) }
{
    let below = match left_to(core, frame) {
        Ok(below) => below,
        Err(_) => return Err(BrokenChain),
    };
    let lower = Place {
        stack: frame.stack,
        at: below.frame,
    };
    match rebuild(core, lower, below.control.caller_level) {
        Ok(display) => Ok(Leaving { below, display }),
        Err(_) => Err(BrokenChain),
    }
}

// The registers are those of the frame below one at f that was left.
fn go_out(regs: &mut Registers, f: u16, leaving: &Leaving)
    requires { Fits_rcw leaving.now.below.control }
    ensures { regs.new ≡ registers_left regs.old f f leaving.now }
{
    let control = &leaving.below.control;
    regs.s = u32::from(f);
    regs.f = leaving.below.mark;
    regs.ll = control.caller_level;
    regs.display = leaving.display;
    regs.cells = control.caller_cells;
    regs.segment = control.segment;
    regs.place = 6 * control.pir + u16::from(control.psr);
}

/// Leaves the frame of a process, where [`leaving`] has found what is below it: the rows of its cells are closed, its words
/// are taken off, and the registers are those of the frame below.
pub fn leave_frame<C: Core>(core: &mut C, regs: &mut Registers, leaving: &Leaving)
    requires linked { IsLinked (C.Core.stacks core.old) (C.Core.rows core.old) regs.old }
    requires fits { Fits_rcw leaving.now.below.control }
    ensures { held (C.Core.stacks core.new) (C.Core.rows core.new) regs.new ≡ frame_left (held (C.Core.stacks core.old) (C.Core.rows core.old) regs.old) [] leaving.now }
{
    let f = frame_of(regs);
    let frame = Place {
        stack: regs.stack,
        at: f,
    };
    close_arrays(core, frame, regs.cells);
    cut_words(core, regs.stack, u32::from(f));
    go_out(regs, f, leaving);
}

/// Leaves the base frame of a process: the rows of its cells and its stack are closed.
pub fn leave_base<C: Core>(core: &mut C, regs: &Registers)
    requires linked { IsLinked (C.Core.stacks core.old) (C.Core.rows core.old) regs.now }
    ensures { held (C.Core.stacks core.new) (C.Core.rows core.new) regs.now ≡ base_left (held (C.Core.stacks core.old) (C.Core.rows core.old) regs.now) }
{
    let frame = Place {
        stack: regs.stack,
        at: frame_of(regs),
    };
    close_arrays(core, frame, regs.cells);
    close_stack(core, regs.stack);
}

/// Leaves the frame of a process, and answers whether it was the base frame; then the stack is closed. BrokenChain comes
/// exactly where it is no base frame and [`leaving`] has it.
pub fn exit<C: Core>(core: &mut C, regs: &mut Registers) -> Result<bool, LinkFault>
    requires { IsLinked (C.Core.stacks core.old) (C.Core.rows core.old) regs.old }
    ensures answer { Does (exits (held (C.Core.stacks core.old) (C.Core.rows core.old) regs.old)) result (held (C.Core.stacks core.new) (C.Core.rows core.new) regs.new) }
    ensures base { IfOk result (λ b. b ≡ nat_eq (frame regs.old) 0) }
    ensures unchanged { OnErr result (held (C.Core.stacks core.new) (C.Core.rows core.new) regs.new ≡ held (C.Core.stacks core.old) (C.Core.rows core.old) regs.old) }
{
    let f = frame_of(regs);
    if f == 0 {
        leave_base(core, regs);
        return Ok(true);
    }
    let frame = Place {
        stack: regs.stack,
        at: f,
    };
    let below = match leaving(core, frame) {
        Ok(below) => below,
        Err(_) => return Err(LinkFault::BrokenChain),
    };
    leave_frame(core, regs, &below);
    Ok(false)
}

// Whether a word can be a result: an operand, a stuffed reference or an indexed descriptor.
fn is_result(word: Word) -> bool
    ensures { result ≡ is_result word }
{
    if word.tag() == 0 || Sirw::unpack(word).is_some() {
        return true;
    }
    match Descriptor::unpack(word) {
        Some(d) => d.indexed,
        None => false,
    }
}

/// Leaves the frame of a process, and puts a value in its place. StackUnderflow comes exactly where no word lies at the
/// floor or above, else InvalidOperand exactly where the value is no operand, stuffed reference or indexed descriptor or
/// the frame is the base frame, else BrokenChain exactly where [`leaving`] has it.
pub fn return_value<C: Core>(
    core: &mut C,
    regs: &mut Registers,
    value: Word,
) -> Result<(), LinkFault>
    requires { IsLinked (C.Core.stacks core.old) (C.Core.rows core.old) regs.old }
    ensures answer { Does (returns (held (C.Core.stacks core.old) (C.Core.rows core.old) regs.old) value) result (held (C.Core.stacks core.new) (C.Core.rows core.new) regs.new) }
    ensures unchanged { OnErr result (held (C.Core.stacks core.new) (C.Core.rows core.new) regs.new ≡ held (C.Core.stacks core.old) (C.Core.rows core.old) regs.old) }
{
    let f = frame_of(regs);
    if u32::from(f) + 3 + u32::from(regs.cells) > regs.s {
        return Err(LinkFault::StackUnderflow);
    }
    if f == 0 || !is_result(value) {
        return Err(LinkFault::InvalidOperand);
    }
    let frame = Place {
        stack: regs.stack,
        at: f,
    };
    let below = match leaving(core, frame) {
        Ok(below) => below,
        Err(_) => return Err(LinkFault::BrokenChain),
    };
    leave_frame(core, regs, &below);
    push_word(core, regs.stack, value);
    regs.s += 1;
    Ok(())
}
