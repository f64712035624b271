//! Code that runs one level further in: its control words, and its entry.

ghost use Rattle.std.specs.Prelude.{◌≡◌, ℕ, ◌+◌, ◌*◌, ◌<◌, ◌≤◌, ◌^◌, ◌∷◌, [], length, IsSome, OnOk};
ghost use Rattle.std.specs.List.{All};
ghost use Rattle.b67_control.specs.Control.{Fits_pcw};
ghost use Rattle.b67_ops.specs.declared.TheConstants.{MOST_LEVEL};
ghost use Rattle.b67_segment.specs.declared.TheConstants.{MOST_SEGMENT_SYLLABLES};
ghost use Rattle.b67_segment.specs.Operators.{size};
ghost use Rattle.b67_segment.specs.Building.{level_set};
ghost use Rattle.b67_templates.specs.Fragments.{ControlsAt, EntryAt, code_at, procedure_controls, routine_at};
ghost use Rattle.b67_templates.specs.Emitting.{Emitted};

use crate::appending::{append_operator, append_plain};
use b67_control::Pcw;
use b67_ops::{Operator, PlainKind};
use b67_segment::Builder;
use std::alloc::AllocError;

/// The control word of the code that begins at a place of a segment and runs at a level.
fn code_at(segment: u16, place: u16, level: u8) -> Pcw
    requires segment { segment < 2 ^ 10 }
    requires place { place < MOST_SEGMENT_SYLLABLES }
    requires level { level ≤ MOST_LEVEL }
    ensures code { result ≡ code_at segment place level }
    ensures fits { Fits_pcw result }
{
    Pcw {
        intrinsic: false,
        names: false,
        segment,
        psr: (place % 6) as u8,
        pir: place / 6,
        level,
        number: 0,
    }
}

/// Appends a mark, the control word of the code that begins at a place of a segment and runs at this level, which is one further in,
/// and the entry of it.
pub fn append_entry(
    out: &mut Builder,
    segment: u16,
    place: u16,
    level: u8,
) -> Result<(), AllocError>
    requires set { IsSome out.old.level }
    requires inner { level ≡ level_set out.old + 1 }
    requires most { level ≤ MOST_LEVEL }
    requires segment { segment < 2 ^ 10 }
    requires place { place < MOST_SEGMENT_SYLLABLES }
    requires room { size out.old.operators + 14 ≤ MOST_SEGMENT_SYLLABLES }
    ensures code { OnOk result (Emitted out.old out.new
        (λ qs. EntryAt qs (level_set out.old) segment place (size out.old.operators) (size out.new.operators))) }
    ensures level { OnOk result (out.new.level ≡ out.old.level) }
    ensures size { OnOk result (size out.new.operators ≤ size out.old.operators + 14) }
{
    let control = code_at(segment, place, level).pack();
    append_plain(out, PlainKind::Mkst)?;
    append_operator(out, &Operator::Mpcw(control.bits()))?;
    append_plain(out, PlainKind::Entr)
}

/// Appends the control word of the code of a procedure: it begins at the start of its segment, and runs at this level, which is one
/// further in.
pub fn append_control(out: &mut Builder, segment: u16, level: u8) -> Result<(), AllocError>
    requires set { IsSome out.old.level }
    requires inner { level ≡ level_set out.old + 1 }
    requires most { level ≤ MOST_LEVEL }
    requires segment { segment < 2 ^ 10 }
    requires room { size out.old.operators + 12 ≤ MOST_SEGMENT_SYLLABLES }
    ensures code { OnOk result (Emitted out.old out.new
        (λ qs. ControlsAt qs (level_set out.old) (procedure_controls (level_set out.old) (segment ∷ [])) (size out.old.operators) (size out.new.operators))) }
    ensures level { OnOk result (out.new.level ≡ out.old.level) }
    ensures size { OnOk result (size out.new.operators ≤ size out.old.operators + 12) }
{
    let control = code_at(segment, 0, level).pack();
    append_operator(out, &Operator::Mpcw(control.bits()))
}

/// Appends the control words of procedures, one after another.
pub fn append_controls(out: &mut Builder, segments: &[u16], level: u8) -> Result<(), AllocError>
    requires set { IsSome out.old.level }
    requires inner { level ≡ level_set out.old + 1 }
    requires most { level ≤ MOST_LEVEL }
    requires segments { All (λ (segment : ℕ). segment < 2 ^ 10) segments.now }
    requires room { size out.old.operators + 12 * length segments.now ≤ MOST_SEGMENT_SYLLABLES }
    ensures code { OnOk result (Emitted out.old out.new
        (λ qs. ControlsAt qs (level_set out.old) (procedure_controls (level_set out.old) segments.now) (size out.old.operators) (size out.new.operators))) }
    ensures level { OnOk result (out.new.level ≡ out.old.level) }
    ensures size { OnOk result (size out.new.operators ≤ size out.old.operators + 12 * length segments.now) }
{
    'segments: for segment in segments {
        append_control(out, *segment, level)?;
    }
    Ok(())
}

/// Appends the control word of the code of an actual, which begins at a place of a segment and runs at this level, which is one further
/// in than its block's. Where the actual is subscripted its code gives a place, too.
pub fn append_routine(
    out: &mut Builder,
    segment: u16,
    place: u16,
    level: u8,
    names: bool,
) -> Result<(), AllocError>
    requires set { IsSome out.old.level }
    requires inner { level ≡ level_set out.old + 1 }
    requires most { level ≤ MOST_LEVEL }
    requires segment { segment < 2 ^ 10 }
    requires place { place < MOST_SEGMENT_SYLLABLES }
    requires room { size out.old.operators + 12 ≤ MOST_SEGMENT_SYLLABLES }
    ensures code { OnOk result (Emitted out.old out.new
        (λ qs. ControlsAt qs (level_set out.old) (routine_at names segment place (level_set out.old + 1) ∷ []) (size out.old.operators) (size out.new.operators))) }
    ensures level { OnOk result (out.new.level ≡ out.old.level) }
    ensures size { OnOk result (size out.new.operators ≤ size out.old.operators + 12) }
{
    let control = Pcw {
        names,
        ..code_at(segment, place, level)
    };
    append_operator(out, &Operator::Mpcw(control.pack().bits()))
}
