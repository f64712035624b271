//! The move of a subscript by a lower bound.
//!
//! What is subtracted is the product of the bound with a comparison: without it the difference of a subscript that is far away might be
//! no whole number.

ghost use Rattle.std.specs.Prelude.{◌≡◌, ◌+◌, ◌≤◌, neg_ℤ, IsSome, OnOk};
ghost use Rattle.b67_segment.specs.declared.TheConstants.{MOST_SEGMENT_SYLLABLES};
ghost use Rattle.b67_segment.specs.Operators.{size};
ghost use Rattle.b67_segment.specs.Building.{level_set};
ghost use Rattle.b67_templates.specs.Fragments as fragments;
ghost use Rattle.b67_templates.specs.Fragments.{IsWholeNumber, TimesAt, MovedBy, MovedAt};
ghost use Rattle.b67_templates.specs.Emitting.{Emitted};

use crate::appending::{append_all, append_number, append_operator, append_plain};
use algol_tree::Whole;
use b67_ops::{Operator, PlainKind};
use b67_segment::Builder;
use std::alloc::AllocError;

/// The most elements that a row has.
const MOST_ELEMENTS: i64 = b67_limits::MOST_ELEMENTS as i64;

/// Multiplies the comparison on top, 1 or 0, by this number.
fn append_times(out: &mut Builder, factor: Whole) -> Result<(), AllocError>
    requires set { IsSome out.old.level }
    requires room { size out.old.operators + 13 ≤ MOST_SEGMENT_SYLLABLES }
    ensures code { OnOk result (Emitted out.old out.new
        (λ qs. TimesAt qs (level_set out.old) factor (size out.old.operators) (size out.new.operators))) }
    ensures level { OnOk result (out.new.level ≡ out.old.level) }
    ensures size { OnOk result (size out.new.operators ≤ size out.old.operators + 13) }
{
    if factor.number() == 1 {
        Ok(())
    } else {
        append_number(out, factor)?;
        append_plain(out, PlainKind::Mult)
    }
}

/// By a bound above 0: what is below 0 stays.
fn append_above(out: &mut Builder, low: i64) -> Result<(), AllocError>
    requires set { IsSome out.old.level }
    requires whole { IsWholeNumber low }
    requires room { size out.old.operators + 17 ≤ MOST_SEGMENT_SYLLABLES }
    ensures code { OnOk result (Emitted out.old out.new
        (λ qs. MovedBy qs (level_set out.old) fragments.above low (size out.old.operators) (size out.new.operators))) }
    ensures level { OnOk result (out.new.level ≡ out.old.level) }
    ensures size { OnOk result (size out.new.operators ≤ size out.old.operators + 17) }
{
    append_all(out, &[PlainKind::Dupl, PlainKind::Zero, PlainKind::Greq])?;
    append_times(out, Whole::fitting(low))?;
    append_plain(out, PlainKind::Subt)
}

/// By a bound that lies as near below 0 as a row is long: what is greater than the square of 65,535 stays.
fn append_near(out: &mut Builder, low: i64) -> Result<(), AllocError>
    requires set { IsSome out.old.level }
    requires whole { IsWholeNumber low }
    requires room { size out.old.operators + 21 ≤ MOST_SEGMENT_SYLLABLES }
    ensures code { OnOk result (Emitted out.old out.new
        (λ qs. MovedBy qs (level_set out.old) fragments.near low (size out.old.operators) (size out.new.operators))) }
    ensures level { OnOk result (out.new.level ≡ out.old.level) }
    ensures size { OnOk result (size out.new.operators ≤ size out.old.operators + 21) }
{
    append_plain(out, PlainKind::Dupl)?;
    append_operator(out, &Operator::Lt16(65_535))?;
    append_all(out, &[PlainKind::Dupl, PlainKind::Mult, PlainKind::Lseq])?;
    append_times(out, Whole::fitting(-low))?;
    append_plain(out, PlainKind::Add)
}

/// By a bound further below: what is not below 0 becomes 0 before.
fn append_far(out: &mut Builder, low: i64) -> Result<(), AllocError>
    requires set { IsSome out.old.level }
    requires whole { IsWholeNumber low }
    requires room { size out.old.operators + 17 ≤ MOST_SEGMENT_SYLLABLES }
    ensures code { OnOk result (Emitted out.old out.new
        (λ qs. MovedBy qs (level_set out.old) fragments.far low (size out.old.operators) (size out.new.operators))) }
    ensures level { OnOk result (out.new.level ≡ out.old.level) }
    ensures size { OnOk result (size out.new.operators ≤ size out.old.operators + 17) }
{
    append_all(
        out,
        &[
            PlainKind::Dupl,
            PlainKind::Zero,
            PlainKind::Less,
            PlainKind::Mult,
        ],
    )?;
    append_number(out, Whole::fitting(-low))?;
    append_plain(out, PlainKind::Add)
}

/// Moves the subscript on top by this lower bound to an index from 0.
pub fn append_moved(out: &mut Builder, low: i64) -> Result<(), AllocError>
    requires set { IsSome out.old.level }
    requires whole { IsWholeNumber low }
    requires room { size out.old.operators + 21 ≤ MOST_SEGMENT_SYLLABLES }
    ensures code { OnOk result (Emitted out.old out.new
        (λ qs. MovedAt qs (level_set out.old) low (size out.old.operators) (size out.new.operators))) }
    ensures level { OnOk result (out.new.level ≡ out.old.level) }
    ensures size { OnOk result (size out.new.operators ≤ size out.old.operators + 21) }
{
    if low > 0 {
        append_above(out, low)
    } else if low == 0 {
        Ok(())
    } else if low > -MOST_ELEMENTS {
        append_near(out, low)
    } else {
        append_far(out, low)
    }
}
