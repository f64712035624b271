//! Where the event of an intrinsic lies.

ghost use Rattle.std.specs.Prelude.{◌≡◌, ◌+◌, ◌<◌, ◌≤◌, ◌&&◌, nat_le, OnOk, IfOk, IsTrue, true, is_some, Some, All, length, take, slice_get};
ghost use Rattle.b67_store.specs.Store.{word_at};
ghost use Rattle.b67_events.specs.Events.{is_open};
ghost use Rattle.b67_table.specs.Arguments.{event_of};
ghost use Rattle.b67_table.specs.Image.{Image};
ghost use Rattle.b67_table.specs.Limits.{most_events};
ghost use Rattle.b67_table.specs.Program.{asked};
ghost use Rattle.b67_table.specs.References.{cell_place};
ghost use Rattle.b67_reach.specs.Answers.{whole_outcome, outcome_answered, IsReady};
ghost use Rattle.b67_intrinsics.specs.Called.{arguments, IntrinsicLeads, TellsPlace, event_tests, several_tests, these, mark_tests};

use crate::marks::{arguments, chained, only_argument};
use b67_control::{EventWord, Mscw};
use b67_events::Kernel;
use b67_limits::MOST_EVENTS;
use b67_reach::{Cell, Registers, Stop, cell_of, invalid, reached};
use b67_store::Core;
use b67_word::{Place, Word};

// Where a cell lies in which a word is.
fn cell_place<C: Core>(core: &C, cell: Cell) -> Place
    requires { is_some (word_at (C.Core.stacks core.now) (cell_place cell)) ≡ true }
    ensures value { result ≡ cell_place cell }
    ensures fits { cell.frame.at + cell.index < 65536 }
{
    // no stack is so long that the cell could lie higher
    let _ = core.length(cell.frame.stack);
    Place {
        stack: cell.frame.stack,
        at: cell.frame.at + cell.index,
    }
}

/// The cell in which the event lies that a reference reaches. InvalidOperand comes exactly where it reaches no event word,
/// or no event is open there.
pub fn event_of<C: Core>(
    core: &C,
    kernel: &Kernel,
    regs: &Registers,
    word: Word,
) -> Result<Cell, Stop>
    ensures told { (img : Image) → img.stacks ≡ C.Core.stacks core.now → img.events ≡ kernel.now.events → whole_outcome (asked img (event_of regs.now word)) ≡ outcome_answered result }
    ensures there { IfOk result (λ cell. IsTrue (is_open (cell_place cell) kernel.now.events)) }
    ensures fits { IfOk result (λ cell. cell.frame.at + cell.index < 65536) }
{
    let found = reached(core, cell_of(regs, word))?;
    if EventWord::unpack(found.word).is_none() {
        return Err(invalid());
    }
    let cell = found.cell;
    let place = cell_place(core, cell);
    if !kernel.is_open(place) {
        return Err(invalid());
    }
    Ok(cell)
}

/// The place of the event that the only argument's reference reaches, where the mark at F is chained. An error comes
/// exactly where it is no such argument, no event is open there, or the chain is broken, in this order.
pub fn find_event<C: Core>(
    core: &C,
    kernel: &Kernel,
    regs: &Registers,
    mark: &Mscw,
) -> Result<Place, Stop>
    requires ready { IsReady (C.Core.stacks core.now) regs.now }
    requires above { regs.now.f + 2 ≤ regs.now.s }
    ensures leads { (img : Image) → img.stacks ≡ C.Core.stacks core.now → img.events ≡ kernel.now.events → IntrinsicLeads img (event_tests regs.now mark.now (arguments img.stacks regs.now)) result }
    ensures there { IfOk result (λ place. IsTrue (is_open place kernel.now.events)) }
    ensures within { OnOk result (mark.now.df ≤ regs.now.f) }
{
    let word = only_argument(core, regs)?;
    let cell = event_of(core, kernel, regs, word)?;
    chained(core, regs, mark)?;
    Ok(Place {
        stack: cell.frame.stack,
        at: cell.frame.at + cell.index,
    })
}

/// The place of the mark at F, where an event is made. InvalidOperand comes exactly where there are arguments; then
/// BrokenChain exactly where the mark is not chained.
pub fn find_mark<C: Core>(core: &C, regs: &Registers, mark: &Mscw) -> Result<Place, Stop>
    requires ready { IsReady (C.Core.stacks core.now) regs.now }
    requires above { regs.now.f + 2 ≤ regs.now.s }
    ensures leads { (img : Image) → img.stacks ≡ C.Core.stacks core.now → IntrinsicLeads img (mark_tests regs.now mark.now (arguments img.stacks regs.now)) result }
    ensures within { OnOk result (mark.now.df ≤ regs.now.f) }
{
    if arguments(core, regs) != 0 {
        return Err(invalid());
    }
    chained(core, regs, mark)?;
    Ok(Place {
        stack: regs.stack,
        at: regs.f,
    })
}

// Tests that there are as many arguments as events for which a process can wait at once.
fn is_several(count: u32) -> bool
    ensures { result ≡ (nat_le 1 count && nat_le count most_events) }
{
    1 <= count && count <= u32::from(MOST_EVENTS)
}

// An argument, by its number from 0.
fn argument<C: Core>(core: &C, regs: &Registers, n: u32) -> Word
    requires ready { IsReady (C.Core.stacks core.now) regs.now }
    requires within { regs.now.f + 2 + n < regs.now.s }
    ensures { slice_get (arguments (C.Core.stacks core.now) regs.now) n ≡ Some result }
{
    let place = Place {
        stack: regs.stack,
        at: (u32::from(regs.f) + 2 + n) as u16,
    };
    core.read(place).unwrap()
}

// The place of the event that an argument's reference reaches, by the argument's number from 0.
fn event_at<C: Core>(core: &C, kernel: &Kernel, regs: &Registers, n: u32) -> Result<Place, Stop>
    requires ready { IsReady (C.Core.stacks core.now) regs.now }
    requires within { regs.now.f + 2 + n < regs.now.s }
    ensures told { (img : Image) → img.stacks ≡ C.Core.stacks core.now → img.events ≡ kernel.now.events → TellsPlace img regs.now (slice_get (arguments (C.Core.stacks core.now) regs.now) n) result }
    ensures there { IfOk result (λ place. IsTrue (is_open place kernel.now.events)) }
{
    let word = argument(core, regs, n);
    let cell = event_of(core, kernel, regs, word)?;
    Ok(Place {
        stack: cell.frame.stack,
        at: cell.frame.at + cell.index,
    })
}

/// The places of the events that the arguments' references reach, put into `places`, and how many they are, where the mark
/// at F is chained. An error comes exactly where there are none or too many, where one reaches no open event, or the chain
/// is broken, in this order.
pub fn find_events<C: Core>(
    core: &C,
    kernel: &Kernel,
    regs: &Registers,
    mark: &Mscw,
    places: &mut [Place],
) -> Result<usize, Stop>
    requires ready { IsReady (C.Core.stacks core.now) regs.now }
    requires above { regs.now.f + 2 ≤ regs.now.s }
    requires room { length places.old ≡ most_events }
    ensures leads { (img : Image) → img.stacks ≡ C.Core.stacks core.now → img.events ≡ kernel.now.events → IntrinsicLeads img (several_tests regs.now mark.now (arguments img.stacks regs.now)) (these result places.new) }
    ensures few { IfOk result (λ n. (1 ≤ n) × (n ≤ most_events)) }
    ensures there { IfOk result (λ n. All (λ place. IsTrue (is_open place kernel.now.events)) (take n places.new)) }
    ensures room { length places.new ≡ most_events }
    ensures within { OnOk result (mark.now.df ≤ regs.now.f) }
{
    let count = arguments(core, regs);
    if !is_several(count) {
        return Err(invalid());
    }
    'finding: for n in 0..count {
        let place = event_at(core, kernel, regs, n)?;
        places[n as usize] = place;
    }
    chained(core, regs, mark)?;
    Ok(count as usize)
}
