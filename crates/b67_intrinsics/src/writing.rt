//! WRITE: writes a line.

ghost use Rattle.std.specs.Prelude.{◌≡◌, ◌+◌, ◌≤◌, ◌++◌, [], ◌∷◌, List, OnOk, OnErr};
ghost use Rattle.b67_list.specs.Numbered.{numbered};
ghost use Rattle.b67_events.specs.Events.{Events};
ghost use Rattle.b67_table.specs.Image.{Image};
ghost use Rattle.b67_table.specs.Intrinsics.{write};
ghost use Rattle.b67_reach.specs.Images.{image_of};
ghost use Rattle.b67_reach.specs.Answers.{IsReady};
ghost use Rattle.b67_intrinsics.specs.Called.{arguments, called_in, IsCalled, IsChained, MayLead, Tries};
ghost use Rattle.b67_intrinsics.specs.Lines.{LineGiven, line_tests, line_tests_in};

use crate::happening::{end, registers};
use crate::hindrance::Hindrance;
use crate::lines::line_for;
use crate::marks::{chained, whole_arguments};
use b67_control::Mscw;
use b67_list::Line;
use b67_reach::{Parts, Registers, invalid};
use b67_segment::Code;
use b67_store::Core;
use std::alloc::AllocError;

// The line that the arguments ask for.
fn line_given<C: Core>(core: &C, code: &Code, regs: &Registers) -> Result<Line, Hindrance>
    requires ready { IsReady (C.Core.stacks core.now) regs.now }
    requires above { regs.now.f + 2 ≤ regs.now.s }
    ensures { LineGiven code.now (arguments (C.Core.stacks core.now) regs.now) result }
{
    let alloc = *code.formats.items().allocator();
    let numbers = whole_arguments(core, alloc, regs)?;
    match line_for(alloc, code, numbers.as_slice())? {
        Some(line) => Ok(line),
        None => Err(Hindrance::Stopped(invalid())),
    }
}

// The line that the arguments ask for, where the mark at F is chained.
fn find_line<C: Core>(
    core: &C,
    code: &Code,
    regs: &Registers,
    mark: &Mscw,
) -> Result<Line, Hindrance>
    requires ready { IsReady (C.Core.stacks core.now) regs.now }
    requires above { regs.now.f + 2 ≤ regs.now.s }
    ensures leads { (img : Image) → img.stacks ≡ C.Core.stacks core.now → MayLead img (line_tests code.now regs.now mark.now (arguments img.stacks regs.now)) result }
    ensures within { OnOk result (mark.now.df ≤ regs.now.f) }
{
    let line = line_given(core, code, regs)?;
    chained(core, regs, mark)?;
    Ok(line)
}

// The line that a process's arguments ask for.
fn find<C: Core>(core: &C, parts: &Parts, process: u32, mark: &Mscw) -> Result<Line, Hindrance>
    requires { IsCalled (C.Core.stacks core.now) (numbered parts.now.regs.items process) }
    ensures leads { (img : Image) → img.stacks ≡ C.Core.stacks core.now → MayLead img (line_tests_in parts.now.code (numbered parts.now.regs.items process) mark.now img.stacks) result }
    ensures within { OnOk result (IsChained mark.now (numbered parts.now.regs.items process)) }
{
    find_line(core, &parts.code, registers(&parts.regs, process), mark)
}

// Adds a line to the output.
fn add_line(output: &mut Vec<Line>, line: Line) -> Result<(), AllocError>
    ensures ok { OnOk result (output.new.items ≡ output.old.items ++ line ∷ []) }
    ensures err { OnErr result (output.new.items ≡ output.old.items) }
{
    output.push(line)?;
    Ok(())
}

/// WRITE: given the number of a format and its items, the format's line is added to the output. InvalidOperand comes exactly
/// where an argument is no whole number, there is no format of that number, or it has not as many numbers as there are
/// items. Without memory all is as it was.
pub fn write<C: Core>(
    core: &mut C,
    parts: &mut Parts,
    process: u32,
    mark: &Mscw,
    next: u16,
) -> Result<(), Hindrance>
    requires { IsCalled (C.Core.stacks core.old) (numbered parts.old.regs.items process) }
    ensures acts { (kernel : Events) → Tries process (called_in write parts.old.code (numbered parts.old.regs.items process) next mark.now) (image_of (C.Core.stacks core.old) (C.Core.rows core.old) kernel parts.old) (image_of (C.Core.stacks core.new) (C.Core.rows core.new) kernel parts.new) result }
    ensures stays { (kernel : Events) → OnErr result (image_of (C.Core.stacks core.new) (C.Core.rows core.new) kernel parts.new ≡ image_of (C.Core.stacks core.old) (C.Core.rows core.old) kernel parts.old) }
    ensures code { parts.new.code ≡ parts.old.code }
    ensures woken { parts.new.woken ≡ parts.old.woken }
{
    let line = find(core, parts, process, mark)?;
    match add_line(&mut parts.output, line) {
        Ok(()) => {}
        Err(_) => return Err(Hindrance::NoMemory),
    }
    end(core, &mut parts.regs, process, mark, next);
    Ok(())
}
