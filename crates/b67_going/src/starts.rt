//! What START is given, and with what a new process begins.

ghost use Rattle.std.specs.Prelude.{◌≡◌, ◌+◌, ◌<◌, ◌≤◌, ◌^◌, Ok, IfOk, OnOk, IfSome, length};
ghost use Rattle.b67_control.specs.Control.{Fits_pcw};
ghost use Rattle.b67_control.specs.Display.{levels};
ghost use Rattle.b67_store.specs.Store.{stack_limit};
ghost use Rattle.b67_table.specs.Limits.{most_processes};
ghost use Rattle.b67_table.specs.Look.{look_seen};
ghost use Rattle.b67_table.specs.Private.{frame};
ghost use Rattle.b67_table.specs.Starting.{place_of, process_begun, first_display};
ghost use Rattle.b67_reach.specs.Answers.{looked};
ghost use Rattle.b67_going.specs.Paths.{TestLeads};
ghost use Rattle.b67_going.specs.Starts.{starting_of, StartIsGiven, started_first_registers};

use crate::paths::{Needs, broken, on_path};
use b67_control::{Display, Pcw};
use b67_display::linked;
use b67_num::FaultKind;
use b67_reach::{Cell, Registers, Stop};
use b67_store::Core;
use b67_word::Place;

/// The most processes that a run has.
pub const MOST_PROCESSES: u32 = b67_limits::MOST_PROCESSES;

/// The most cells of a frame, and so the most parameters of a process.
pub const MOST_CELLS: u32 = b67_limits::MOST_FRAME_CELLS as u32;

/// What START is given.
#[derive(Clone, Copy)]
pub struct Given {
    /// The procedure that the new process runs.
    pub procedure: Pcw,
    /// The frames that the new process needs.
    pub needs: Needs,
}

// The display of a process of a number; an intrinsic can not be started.
fn first_display<C: Core>(core: &C, number: u16, start: &Given) -> Result<Display, Stop>
    requires { Fits_pcw start.now.procedure }
    ensures { result ≡ looked (look_seen (C.Core.stacks core.now) (first_display number (starting_of (C.Core.stacks core.now) start.now))) }
{
    if start.procedure.intrinsic {
        return Err(broken());
    }
    let top = Place {
        stack: number,
        at: 0,
    };
    match linked(core, top, start.needs.home, start.procedure.level) {
        Ok(display) => Ok(display),
        Err(_) => Err(broken()),
    }
}

// Where a cell lies.
fn place_of(cell: Option<Cell>) -> Option<Place>
    requires { IfSome cell (λ c. c.frame.at + c.index < stack_limit) }
    ensures { result ≡ place_of cell }
{
    match cell {
        Some(cell) => Some(Place {
            stack: cell.frame.stack,
            at: cell.frame.at + cell.index,
        }),
        None => None,
    }
}

// The registers with which a process of a number begins.
fn begun<C: Core>(
    core: &C,
    number: u16,
    start: &Given,
    display: Display,
    critical: Option<Place>,
) -> Registers
    requires { StartIsGiven (C.Core.stacks core.now) start.now }
    ensures { result ≡ process_begun number (starting_of (C.Core.stacks core.now) start.now) display critical }
{
    Registers {
        stack: number,
        s: start.needs.count + 2,
        f: 0,
        ll: start.procedure.level,
        display,
        cells: start.needs.count as u16,
        segment: start.procedure.segment,
        place: 6 * start.procedure.pir + u16::from(start.procedure.psr),
        task: place_of(start.needs.task),
        critical,
    }
}

// The frame of a process.
pub fn frame_of(regs: &Registers) -> Place
    requires { regs.now.ll < levels }
    ensures { result ≡ record { stack = regs.now.stack; at = frame regs.now } }
{
    Place {
        stack: regs.stack,
        at: match regs.display.get(regs.ll) {
            Some(place) => place.at,
            None => 0,
        },
    }
}

/// The registers with which a new process begins, where there have been so many. BrokenChain comes exactly where the
/// procedure is an intrinsic, or its display can not be found, or a way down the starter's path is broken; then
/// ProcessLimit exactly where there have been as many processes as a run has.
pub fn first_registers<C: Core>(
    core: &C,
    all: &[Registers],
    regs: &Registers,
    started: u32,
    start: &Given,
) -> Result<Registers, Stop>
    requires given { StartIsGiven (C.Core.stacks core.now) start.now }
    requires level { regs.now.ll < levels }
    requires most { started ≤ most_processes }
    ensures leads { TestLeads (started_first_registers regs.now started (starting_of (C.Core.stacks core.now) start.now)) (C.Core.stacks core.now) all.now result }
    ensures number { IfOk result (λ q. q.stack ≡ started + 1) }
    ensures few { OnOk result (started < most_processes) }
{
    let number = (started + 1) as u16;
    let display = match first_display(core, number, start) {
        Ok(display) => display,
        Err(stop) => return Err(stop),
    };
    let critical = match on_path(core, all, &start.needs, regs.stack, frame_of(regs)) {
        Ok(critical) => critical,
        Err(stop) => return Err(stop),
    };
    if started >= MOST_PROCESSES {
        return Err(Stop::Fault(FaultKind::ProcessLimit));
    }
    Ok(begun(core, number, start, display, critical))
}
