//! The display of a frame: for each level the frame that its addresses see, found along static links.
//!
//! A mark names by its static link the frame in which its procedure was declared, as on the B6700 (Organick 1973).
//! Which links are broken is this project's profile: the operator table has it.
#![tactic(auto)]

ghost use Rattle.std.specs.Prelude.{◌≡◌, ◌+◌, ◌≤◌, IfOk, IfSome};
ghost use Rattle.b67_control.specs.Control.{Fits_mscw, Fits_rcw, as_mscw, as_rcw};
ghost use Rattle.b67_store.specs.Store.{word_at};
ghost use Rattle.b67_table.specs.Look.{read_as, look_seen};
ghost use Rattle.b67_table.specs.Chains.{place, mark_at, control_at, linked_frame, linked, rebuilt};
ghost use Rattle.b67_display.specs.Found.{chain_shown};

mod showing;

use b67_control::{Display, Mscw, Rcw};
use b67_store::Core;
use b67_word::Place;
pub use showing::{links_as, show};

/// A chain of marks or of static links does not lead where it has to.
#[derive(Clone, Copy)]
pub struct BrokenChain;

/// What the mark at a place holds. None comes exactly where no mark stands there.
pub fn mark_in<C: Core>(core: &C, at: Place) -> Option<Mscw>
    ensures value { result ≡ read_as as_mscw (word_at (C.Core.stacks core.now) at) }
    ensures fits { IfSome result Fits_mscw }
{
    match core.read(at) {
        Some(word) => Mscw::unpack(word),
        None => None,
    }
}

/// What the control word above the mark at a place holds. None comes exactly where no control word stands there.
pub fn control_above<C: Core>(core: &C, at: Place) -> Option<Rcw>
    ensures value { result ≡ read_as as_rcw (word_at (C.Core.stacks core.now) (place at.stack (at.at + 1))) }
    ensures fits { IfSome result Fits_rcw }
{
    if at.at == u16::MAX {
        // no stack is so long that a word stands above
        let _ = core.length(at.stack);
        return None;
    }
    let above = Place {
        stack: at.stack,
        at: at.at + 1,
    };
    match core.read(above) {
        Some(word) => Rcw::unpack(word),
        None => None,
    }
}

/// The mark that stands at a place. An error comes exactly where none stands there.
pub fn mark_at<C: Core>(core: &C, at: Place) -> Result<Mscw, BrokenChain>
    ensures value { chain_shown result ≡ look_seen (C.Core.stacks core.now) (mark_at at) }
    ensures fits { IfOk result Fits_mscw }
{
    mark_in(core, at).ok_or(BrokenChain)
}

/// The control word above the mark at a place. An error comes exactly where none stands there.
pub fn control_at<C: Core>(core: &C, at: Place) -> Result<Rcw, BrokenChain>
    ensures value { chain_shown result ≡ look_seen (C.Core.stacks core.now) (control_at at) }
    ensures fits { IfOk result Fits_rcw }
{
    control_above(core, at).ok_or(BrokenChain)
}

// The mark of the frame of this level that a link names.
fn linked_frame<C: Core>(core: &C, link: Place, level: u8) -> Result<Mscw, BrokenChain>
    ensures { chain_shown result ≡ look_seen (C.Core.stacks core.now) (linked_frame link level) }
{
    let mark = mark_at(core, link)?;
    let control = control_at(core, link)?;
    if mark.entered && control.own_level == level {
        Ok(mark)
    } else {
        Err(BrokenChain)
    }
}

/// The display of a frame of this level at a place, whose static link is given. An error comes exactly where the level
/// is below 2, or along the links no entered mark with a control word of the next lower level stands, or the last one
/// does not lead to stack 0.
pub fn linked<C: Core>(core: &C, top: Place, link: Place, level: u8) -> Result<Display, BrokenChain>
    requires { level ≤ 31 }
    ensures { chain_shown result ≡ look_seen (C.Core.stacks core.now) (linked top link level) }
{
    if level < 2 {
        return Err(BrokenChain);
    }
    let mut link = link;
    let mut display = Display::new();
    display.set(level, Some(top));
    let mut below = level - 1;
    'linking: while below > 1 {
        let mark = match linked_frame(core, link, below) {
            Ok(mark) => mark,
            Err(_) => return Err(BrokenChain),
        };
        display.set(below, Some(link));
        link = Place {
            stack: mark.stack,
            at: mark.displacement,
        };
        below -= 1;
    }
    if link.stack != 0 {
        return Err(BrokenChain);
    }
    display.set(0, Some(Place { stack: 0, at: 0 }));
    Ok(display)
}

/// The display of the frame of this level whose mark stands at a place, the same whatever display is in use. An error
/// comes exactly where no mark stands there, or where [`linked`] has one from its static link on.
pub fn rebuild<C: Core>(core: &C, top: Place, level: u8) -> Result<Display, BrokenChain>
    requires { level ≤ 31 }
    ensures { chain_shown result ≡ look_seen (C.Core.stacks core.now) (rebuilt top level) }
{
    let mark = mark_at(core, top)?;
    let link = Place {
        stack: mark.stack,
        at: mark.displacement,
    };
    linked(core, top, link, level)
}
