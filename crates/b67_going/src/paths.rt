//! The frames that a new process needs, and the first of them on the path of its starter.

ghost use Rattle.std.specs.Prelude.{◌≡◌, [], ◌+◌, ◌≤◌, ◌^◌, Bool, Ok, Err, IfOk, IfSome};
ghost use Rattle.std.specs.List.{list_any};
ghost use Rattle.b67_control.specs.Control.{as_sirw};
ghost use Rattle.b67_events.specs.Events.{same_place};
ghost use Rattle.b67_store.specs.Store.{stack_limit};
ghost use Rattle.b67_table.specs.Image.{critical_of};
ghost use Rattle.b67_table.specs.Look.{look_seen};
ghost use Rattle.b67_table.specs.Chains.{frame_below};
ghost use Rattle.b67_table.specs.Starting.{is_among, sirw_frame, frames_with, named_frames, on_path};
ghost use Rattle.b67_table.specs.declared.InterruptKind.TheVariants.{BrokenChain};
ghost use Rattle.b67_reach.specs.declared.Stop.TheVariants.{Interrupt};
ghost use Rattle.b67_reach.specs.Answers.{looked};
ghost use Rattle.b67_going.specs.Paths.{met, some_words, needed, TestLeads};

use b67_control::Sirw;
use b67_display::mark_at;
use b67_linkage::entered_below;
use b67_reach::{Cell, InterruptKind, Registers, Stop};
use b67_store::Core;
use b67_word::{Place, Word};

/// The frames that a new process needs: where its procedure lies, where its task's event lies, and those that its
/// parameters name.
#[derive(Clone, Copy)]
pub struct Needs {
    /// The frame in which the procedure lies.
    pub home: Place,
    /// The cell of the task's event, where there is one.
    pub task: Option<Cell>,
    /// The number of the stack in which the parameters lie.
    pub stack: u16,
    /// The displacement of the first parameter.
    pub first: u32,
    /// How many parameters there are, as few as a frame's cells.
    pub count: u32,
}

// Tests that two places are one.
fn same_place(place: Place, other: Place) -> bool
    ensures { result ≡ same_place place other }
{
    place.stack == other.stack && place.at == other.at
}

// The interrupt of a chain that does not lead where it has to.
pub fn broken() -> Stop
    ensures { result ≡ Interrupt BrokenChain }
{
    Stop::Interrupt(InterruptKind::BrokenChain)
}

/// The frame below a frame that is not the base frame. BrokenChain comes exactly where no mark stands at the frame, or the
/// chain below it does not lead to an entered mark.
pub fn frame_below<C: Core>(core: &C, frame: Place) -> Result<Place, Stop>
    ensures { result ≡ looked (look_seen (C.Core.stacks core.now) (frame_below frame)) }
{
    let mark = match mark_at(core, frame) {
        Ok(mark) => mark,
        Err(_) => return Err(broken()),
    };
    if mark.df == 0 {
        return Err(broken());
    }
    if frame.at < mark.df {
        return Err(broken());
    }
    match entered_below(core, frame.stack, frame.at - mark.df) {
        Ok(at) => Ok(Place {
            stack: frame.stack,
            at,
        }),
        Err(_) => Err(broken()),
    }
}

// Tests that a word is a SIRW that names a frame.
fn word_names(word: Word, frame: Place) -> bool
    ensures { result ≡ is_among (sirw_frame (as_sirw word) []) frame }
{
    match Sirw::unpack(word) {
        Some(sirw) => {
            let named = Place {
                stack: sirw.stack,
                at: sirw.displacement,
            };
            same_place(frame, named)
        }
        None => false,
    }
}

// Tests that a parameter names a frame.
fn parameter_names<C: Core>(core: &C, needs: &Needs, frame: Place) -> bool
    requires { needs.now.first + needs.now.count ≤ stack_limit }
    ensures { result ≡ is_among (named_frames (some_words (C.Core.stacks core.now) needs.now.stack needs.now.first needs.now.count)) frame }
{
    let mut index = 0;
    'parameters: while index < needs.count {
        let at = Place {
            stack: needs.stack,
            at: (needs.first + index) as u16,
        };
        let Some(word) = core.read(at) else {
            return false;
        };
        if word_names(word, frame) {
            return true;
        }
        index += 1;
    }
    false
}

// Tests that the task's event lies in a frame.
fn task_is_in(task: Option<Cell>, frame: Place) -> bool
    ensures { result ≡ is_among (frames_with task []) frame }
{
    match task {
        Some(cell) => same_place(frame, cell.frame),
        None => false,
    }
}

// Tests that a new process needs a frame.
fn is_needed<C: Core>(core: &C, needs: &Needs, frame: Place) -> bool
    requires { needs.now.first + needs.now.count ≤ stack_limit }
    ensures { result ≡ is_among (needed (C.Core.stacks core.now) needs.now) frame }
{
    same_place(frame, needs.home)
        || task_is_in(needs.task, frame)
        || parameter_names(core, needs, frame)
}

// The first frame that a new process needs down a stack from a frame, None where there is none down to the base frame.
fn met<C: Core>(core: &C, needs: &Needs, from: Place) -> Result<Option<Place>, Stop>
    requires { needs.now.first + needs.now.count ≤ stack_limit }
    ensures { result ≡ looked (look_seen (C.Core.stacks core.now) (met (from.at + 1) (needed (C.Core.stacks core.now) needs.now) from)) }
{
    let mut frame = from;
    let mut steps = u32::from(from.at) + 1;
    'down: while steps > 0 {
        if is_needed(core, needs, frame) {
            return Ok(Some(frame));
        }
        if frame.at == 0 {
            return Ok(None);
        }
        frame = match frame_below(core, frame) {
            Ok(lower) => lower,
            Err(stop) => return Err(stop),
        };
        steps -= 1;
    }
    Err(broken())
}

// The critical place of the process of a number.
fn critical_of(regs: &[Registers], process: u16) -> Option<Place>
    ensures { result ≡ critical_of regs.now process }
{
    if process == 0 {
        return None;
    }
    match regs.get(usize::from(process) - 1) {
        Some(regs) => regs.critical,
        None => None,
    }
}

/// The first frame that a new process needs on the path of its starter: from a frame down its stack, on from the critical
/// place of that stack's process, and so on, over at most so many stacks. None comes where there is none. BrokenChain comes
/// exactly where the way down a stack does.
pub fn on_path<C: Core>(
    core: &C,
    regs: &[Registers],
    needs: &Needs,
    stacks: u16,
    from: Place,
) -> Result<Option<Place>, Stop>
    requires { needs.now.first + needs.now.count ≤ stack_limit }
    ensures { TestLeads (on_path stacks (needed (C.Core.stacks core.now) needs.now) from) (C.Core.stacks core.now) regs.now result }
{
    let mut frame = from;
    let mut left = stacks;
    'stacks: while left > 0 {
        let found = match met(core, needs, frame) {
            Ok(found) => found,
            Err(stop) => return Err(stop),
        };
        if let Some(place) = found {
            return Ok(Some(place));
        }
        frame = match critical_of(regs, frame.stack) {
            Some(lower) => lower,
            None => return Ok(None),
        };
        left -= 1;
    }
    Ok(None)
}
