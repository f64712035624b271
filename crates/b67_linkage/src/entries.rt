// Marks, and entries of procedures.
ghost use Rattle.std.specs.Prelude.{◌≡◌, ◌+◌, ◌<◌, ◌&&◌, nat_le, nat_lt, ◌≤◌, ◌^◌, IfOk, OnOk, OnErr, Some, IsSome};
ghost use Rattle.b67_control.specs.Control.{Fits_mscw, Fits_pcw, as_rcw};
ghost use Rattle.b67_table.specs.Limits.{end_of_code};
ghost use Rattle.b67_table.specs.Limits.{segment_numbers, most_cells};
ghost use Rattle.b67_table.specs.Chains.{place};
ghost use Rattle.b67_table.specs.Linkage.{entering, entered, entered_mark, control_word, is_home};
ghost use Rattle.b67_store.specs.Store.{word_at, with_word};
ghost use Rattle.b67_control.specs.Display.{levels};
ghost use Rattle.b67_table.specs.Look.{look_seen, read_as};
ghost use Rattle.b67_table.specs.Rows.{marked};
ghost use Rattle.b67_linkage.specs.Held.{held, IsLinked, Does, LookFinds};
ghost use Rattle.b67_linkage.specs.Entering.{marking, enters, cells_above};

use crate::LinkFault;
use crate::words::{frame_of, push_word, save_word};
use b67_control::{Display, Mscw, Pcw, Rcw, Registers};
use b67_display::{control_above, linked, mark_in};
use b67_store::Core;
use b67_table::Entry;
use b67_word::{Place, Word};

/// Pushes a mark, and F names it. InvalidOperand comes exactly where F is not below S, else StackLimit exactly where the
/// stack has 65,536 words.
pub fn mark<C: Core>(core: &mut C, regs: &mut Registers) -> Result<(), LinkFault>
    requires { IsLinked (C.Core.stacks core.old) (C.Core.rows core.old) regs.old }
    ensures answer { Does (marking (held (C.Core.stacks core.old) (C.Core.rows core.old) regs.old)) result (held (C.Core.stacks core.new) (C.Core.rows core.new) regs.new) }
    ensures unchanged { OnErr result (held (C.Core.stacks core.new) (C.Core.rows core.new) regs.new ≡ held (C.Core.stacks core.old) (C.Core.rows core.old) regs.old) }
{
    if u32::from(regs.f) >= regs.s {
        return Err(LinkFault::InvalidOperand);
    }
    let Ok(place) = u16::try_from(regs.s) else {
        return Err(LinkFault::StackLimit);
    };
    let mark = Mscw {
        entered: false,
        stack: 0,
        displacement: 0,
        df: place - regs.f,
    };
    push_word(core, regs.stack, mark.pack());
    regs.f = place;
    regs.s += 1;
    Ok(())
}

// Whether a mark at F lies at the floor or above, and has a word above it.
fn lies_above(f: u16, floor: u32, s: u32) -> bool
    ensures { result ≡ (nat_le floor f && nat_lt (f + 1) s) }
{
    let f = u32::from(f);
    floor <= f && f + 1 < s
}

/// The mark at F, where it lies in the private part, is not entered and has a word above it.
pub fn marked<C: Core>(core: &C, regs: &Registers) -> Result<Mscw, LinkFault>
    requires { IsLinked (C.Core.stacks core.now) (C.Core.rows core.now) regs.now }
    ensures value { LookFinds (look_seen (C.Core.stacks core.now) (marked regs.now)) result }
    ensures fits { IfOk result Fits_mscw }
    ensures above { OnOk result (regs.now.f + 2 ≤ regs.now.s) }
{
    let floor = u32::from(frame_of(regs)) + 2 + u32::from(regs.cells);
    if !lies_above(regs.f, floor, regs.s) {
        return Err(LinkFault::InvalidOperand);
    }
    let at = Place {
        stack: regs.stack,
        at: regs.f,
    };
    match mark_in(core, at) {
        Some(mark) if !mark.entered => Ok(mark),
        _ => Err(LinkFault::InvalidOperand),
    }
}

// Whether the word above home is the control word of a frame one level below this one.
pub fn is_home<C: Core>(core: &C, home: Place, level: u8) -> bool
    ensures { result ≡ is_home (read_as as_rcw (word_at (C.Core.stacks core.now) (place home.stack (home.at + 1)))) level }
{
    match control_above(core, home) {
        Some(control) => control.own_level >= 2 && control.own_level + 1 == level,
        None => false,
    }
}

/// What an entry of a procedure at a mark finds, where its frame fits or not, and the procedure lies in the frame home.
/// The pointer can be held by a control word.
pub fn entering<C: Core>(
    core: &C,
    regs: &Registers,
    fits: bool,
    mark: u16,
    pcw: &Pcw,
    home: Place,
) -> Result<Entry, LinkFault>
    requires place { regs.now.place < end_of_code }
    requires procedure { Fits_pcw pcw.now }
    ensures value { LookFinds (look_seen (C.Core.stacks core.now) (entering regs.now regs.now.place fits mark pcw.now (Some home))) result }
    ensures home { IfOk result (λ e. e.home ≡ home) }
{
    if !fits || !is_home(core, home, pcw.level) {
        return Err(LinkFault::InvalidOperand);
    }
    let top = Place {
        stack: regs.stack,
        at: mark,
    };
    match linked(core, top, home, pcw.level) {
        Ok(display) => Ok(Entry { home, display }),
        Err(_) => Err(LinkFault::BrokenChain),
    }
}

/// The control word of a frame of a level that is entered now: the caller goes on at the pointer, at its level and with its
/// cells. A control word can hold all of them.
pub fn control_word(regs: &Registers, level: u8) -> Word
    requires place { regs.now.place < end_of_code }
    requires segment { regs.now.segment < segment_numbers }
    requires caller { regs.now.ll < levels }
    requires cells { regs.now.cells ≤ most_cells }
    requires level { level < levels }
    ensures { result ≡ control_word regs.now regs.now.place level }
{
    let control = Rcw {
        segment: regs.segment,
        psr: (regs.place % 6) as u8,
        pir: regs.place / 6,
        caller_level: regs.ll,
        caller_cells: regs.cells,
        own_level: level,
    };
    control.pack()
}

/// The registers become those of a frame of so many cells that was entered at a mark.
pub fn go_in(regs: &mut Registers, s: u32, mark: u16, pcw: &Pcw, entry: &Entry, cells: u16)
    requires { Fits_pcw pcw.now }
    ensures { regs.new ≡ entered regs.old s mark pcw.now entry.now cells }
{
    regs.s = s;
    regs.f = mark;
    regs.ll = pcw.level;
    regs.display = entry.display;
    regs.cells = cells;
    regs.segment = pcw.segment;
    regs.place = 6 * pcw.pir + u16::from(pcw.psr);
}

// The mark at a place is entered, and linked to its home.
fn save_mark<C: Core>(core: &mut C, at: Place, home: Place, df: u16)
    requires there { IsSome (word_at (C.Core.stacks core.old) at) }
    requires home { home.stack < 2 ^ 10 }
    ensures stacks { C.Core.stacks core.new ≡ with_word (C.Core.stacks core.old) at (entered_mark home df) }
    ensures rows { C.Core.rows core.new ≡ C.Core.rows core.old }
{
    let mark = Mscw {
        entered: true,
        stack: home.stack,
        displacement: home.at,
        df,
    };
    save_word(core, at, mark.pack());
}

// How many cells a frame at F has.
fn cells_above(regs: &Registers) -> u32
    requires { regs.now.f + 2 ≤ regs.now.s }
    ensures { result ≡ cells_above regs.now }
{
    regs.s - 2 - u32::from(regs.f)
}

/// Enters a procedure that lies in the frame home, at the mark at F: the mark is linked to home, the control word above
/// it says where the caller goes on, and the words above are the cells of the frame. The pointer can be held by a control
/// word. InvalidOperand comes exactly where [`marked`] has it, or the cells are more than 511, or home is no frame of a
/// level from 2 on, one below the procedure's; else BrokenChain exactly where a static link from home on is broken.
pub fn enter<C: Core>(
    core: &mut C,
    regs: &mut Registers,
    pcw: &Pcw,
    home: Place,
) -> Result<(), LinkFault>
    requires linked { IsLinked (C.Core.stacks core.old) (C.Core.rows core.old) regs.old }
    requires place { regs.old.place < end_of_code }
    requires procedure { Fits_pcw pcw.now }
    ensures answer { Does (enters (held (C.Core.stacks core.old) (C.Core.rows core.old) regs.old) pcw.now home) result (held (C.Core.stacks core.new) (C.Core.rows core.new) regs.new) }
    ensures unchanged { OnErr result (held (C.Core.stacks core.new) (C.Core.rows core.new) regs.new ≡ held (C.Core.stacks core.old) (C.Core.rows core.old) regs.old) }
{
    let mark = match marked(core, regs) {
        Ok(mark) => mark,
        Err(fault) => return Err(fault),
    };
    let cells = cells_above(regs);
    let entry = match entering(core, regs, cells <= 511, regs.f, pcw, home) {
        Ok(entry) => entry,
        Err(fault) => return Err(fault),
    };
    let at = Place {
        stack: regs.stack,
        at: regs.f,
    };
    let above = Place {
        stack: regs.stack,
        at: regs.f + 1,
    };
    save_mark(core, at, home, mark.df);
    save_word(core, above, control_word(regs, pcw.level));
    go_in(regs, regs.s, regs.f, pcw, &entry, cells as u16);
    Ok(())
}
