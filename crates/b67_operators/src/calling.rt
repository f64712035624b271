//! ENTR: what it enters, and the entry.

ghost use Rattle.std.specs.Prelude.{◌≡◌, ◌<◌, ◌≤◌, ◌+◌, ◌-◌, ◌^◌, ℕ, Ok, Err, Some, None, IfOk, IfSome, OnOk, IsSome, nat_le};
ghost use Rattle.b67_control.specs.Control.{Fits_pcw, Fits_mscw, as_pcw};
ghost use Rattle.b67_control.specs.Display.{levels};
ghost use Rattle.b67_table.specs.Private.{floor};
ghost use Rattle.b67_table.specs.Look.{look_seen};
ghost use Rattle.b67_table.specs.References.{cell_of};
ghost use Rattle.b67_table.specs.Rows.{level_below, marked};
ghost use Rattle.b67_table.specs.Linkage.{entry};
ghost use Rattle.b67_table.specs.Limits.{end_of_code, most_cells};
ghost use Rattle.b67_table.specs.Program.{answer};
ghost use Rattle.b67_linkage.specs.Held.{IsLinked};
ghost use Rattle.b67_reach.specs.Images.{own_of_image};
ghost use Rattle.b67_reach.specs.Answers.{looked, ProgramPerforms};
ghost use Rattle.b67_operators.specs.Entries.{procedure_called as called, called_by, entry_opening, EntersWhatItCalls};

use crate::entering::{entering_after, stop_by};
use b67_control::{Mscw, Pcw};
use b67_linkage::{control_word, go_in, marked};
use b67_reach::{InterruptKind, Registers, Stop, cell_of, frame_at, invalid, reached};
use b67_segment::MOST_SEGMENT_SYLLABLES;
use b67_store::Core;
use b67_table::Entry;
use b67_word::{Place, Word};

/// What ENTR calls.
#[derive(Clone, Copy)]
pub struct Called {
    /// The mark at F.
    pub mark: Mscw,
    /// The procedure, or the intrinsic.
    pub pcw: Pcw,
    /// The frame in which the PCW lies; where it lies above the mark itself, the frame of the level below its own.
    pub home: Option<Place>,
}

// The frame of the level below a level.
fn level_below(regs: &Registers, level: u8) -> Option<Place>
    requires { level ≤ levels }
    ensures { result ≡ level_below regs.now level }
{
    if level >= 1 {
        frame_at(regs, level - 1)
    } else {
        None
    }
}

// The PCW that a word above the mark is, or reaches, and the frame in which it lies.
fn called_by<C: Core>(core: &C, regs: &Registers, mark: Mscw, word: Word) -> Result<Called, Stop>
    ensures value { result ≡ looked (look_seen (C.Core.stacks core.now) (called_by regs.now mark word (cell_of regs.now word))) }
    ensures procedure { IfOk result (λ c. Fits_pcw c.pcw) }
    ensures mark { IfOk result (λ c. c.mark ≡ mark) }
{
    match cell_of(regs, word) {
        Some(cell) => {
            let found = reached(core, Some(cell))?;
            match Pcw::unpack(found.word) {
                Some(pcw) => Ok(Called {
                    mark,
                    pcw,
                    home: Some(found.cell.frame),
                }),
                None => Err(invalid()),
            }
        }
        None => match Pcw::unpack(word) {
            Some(pcw) => Ok(Called {
                mark,
                pcw,
                home: level_below(regs, pcw.level),
            }),
            None => Err(invalid()),
        },
    }
}

/// What ENTR calls: the mark at F lies in the private part and is not entered, and the word above it is a PCW or a
/// reference that reaches one.
pub fn find_called<C: Core>(core: &C, regs: &Registers) -> Result<Called, Stop>
    requires { IsLinked (C.Core.stacks core.now) (C.Core.rows core.now) regs.now }
    ensures value { result ≡ looked (look_seen (C.Core.stacks core.now) (called regs.now)) }
    ensures procedure { IfOk result (λ c. Fits_pcw c.pcw) }
    ensures mark { IfOk result (λ c. Fits_mscw c.mark) }
    ensures above { OnOk result (regs.now.f + 2 ≤ regs.now.s) }
{
    let mark = match marked(core, regs) {
        Ok(mark) => mark,
        Err(fault) => return Err(stop_by(fault)),
    };
    let above = Place {
        stack: regs.stack,
        at: regs.f + 1,
    };
    match core.read(above) {
        Some(word) => called_by(core, regs, mark, word),
        None => Err(invalid()),
    }
}

// The frame at F is opened.
fn open_frame<C: Core>(
    core: &mut C,
    regs: &mut Registers,
    next: u16,
    df: u16,
    pcw: &Pcw,
    entry: &Entry,
)
    requires linked { IsLinked (C.Core.stacks core.old) (C.Core.rows core.old) regs.old }
    requires above { regs.old.f + 2 ≤ regs.old.s }
    requires cells { regs.old.s - (regs.old.f + 2) ≤ most_cells }
    requires next { next < end_of_code }
    requires procedure { Fits_pcw pcw.now }
    requires home { entry.now.home.stack < 2 ^ 10 }
    ensures { ProgramPerforms (answer (entry_opening regs.old next df pcw.now entry.now)) (own_of_image (C.Core.stacks core.old) (C.Core.rows core.old) regs.old) (own_of_image (C.Core.stacks core.new) (C.Core.rows core.new) regs.new) (Ok result) }
{
    let mscw = Mscw {
        entered: true,
        stack: entry.home.stack,
        displacement: entry.home.at,
        df,
    };
    let at = Place {
        stack: regs.stack,
        at: regs.f,
    };
    let above = Place {
        stack: regs.stack,
        at: regs.f + 1,
    };
    regs.place = next;
    let control = control_word(regs, pcw.level);
    core.write(at, mscw.pack()).unwrap();
    core.write(above, control).unwrap();
    let cells = (regs.s - (u32::from(regs.f) + 2)) as u16;
    go_in(regs, regs.s, regs.f, pcw, entry, cells);
}

// Entry at the mark at F of a procedure that lies in the frame home.
fn enter_in<C: Core>(
    core: &mut C,
    regs: &mut Registers,
    next: u16,
    df: u16,
    pcw: &Pcw,
    home: Place,
) -> Result<(), Stop>
    requires linked { IsLinked (C.Core.stacks core.old) (C.Core.rows core.old) regs.old }
    requires above { regs.old.f + 2 ≤ regs.old.s }
    requires procedure { Fits_pcw pcw.now }
    ensures { ProgramPerforms (entry regs.old next df pcw.now (Some home)) (own_of_image (C.Core.stacks core.old) (C.Core.rows core.old) regs.old) (own_of_image (C.Core.stacks core.new) (C.Core.rows core.new) regs.new) result }
{
    let fits = regs.s - (u32::from(regs.f) + 2) <= 511;
    let mark = regs.f;
    let entry = entering_after(core, regs, next, fits, mark, pcw, home)?;
    open_frame(core, regs, next, df, pcw, &entry);
    Ok(())
}

/// ENTR on a PCW that is no intrinsic's: the mark becomes entered and linked to home, and the words above it are the cells
/// of the frame.
pub fn entry<C: Core>(
    core: &mut C,
    regs: &mut Registers,
    next: u16,
    called: &Called,
) -> Result<(), Stop>
    requires linked { IsLinked (C.Core.stacks core.old) (C.Core.rows core.old) regs.old }
    requires above { regs.old.f + 2 ≤ regs.old.s }
    requires procedure { Fits_pcw called.now.pcw }
    ensures { ProgramPerforms (entry regs.old next called.now.mark.df called.now.pcw called.now.home) (own_of_image (C.Core.stacks core.old) (C.Core.rows core.old) regs.old) (own_of_image (C.Core.stacks core.new) (C.Core.rows core.new) regs.new) result }
{
    match called.home {
        Some(home) => enter_in(core, regs, next, called.mark.df, &called.pcw, home),
        None if usize::from(next) >= MOST_SEGMENT_SYLLABLES => {
            Err(Stop::Interrupt(InterruptKind::BadCode))
        }
        None => Err(invalid()),
    }
}

/// Law: ENTR first looks at what it calls, as [`find_called`] does, and then does what that is: an intrinsic, or an entry.
pub fn enter_does_what_it_calls()
    ensures { EntersWhatItCalls }
{}
