//! Calls that append operators at the level that was set last.

ghost use Rattle.std.specs.Prelude.{◌≡◌, ◌+◌, ◌*◌, ◌≤◌, ◌∷◌, [], length, IsSome, IfOk, OnOk};
ghost use Rattle.b67_ops.specs.Spelling.{spelling, Fits, CoupleIsSeen};
ghost use Rattle.b67_ops.specs.declared.Operator.TheVariants as ops;
ghost use Rattle.b67_segment.specs.declared.TheConstants.{MOST_SEGMENT_SYLLABLES};
ghost use Rattle.b67_segment.specs.Operators.{size};
ghost use Rattle.b67_segment.specs.Building.{level_set, appended};
ghost use Rattle.b67_templates.specs.Fragments.{Has, AllAt, NumberAt, BranchAt, TurnAt};
ghost use Rattle.b67_templates.specs.Emitting.{Emitted, EmittedWithExits};
ghost use Rattle.b67_emitter.specs.Literals.{literal};

use crate::numbers::literal;
use algol_tree::Whole;
use b67_ops::{BranchKind, Couple, Operator, PlainKind};
use b67_segment::Builder;
use std::alloc::AllocError;

/// Appends an operator that fits the level.
#[tactic(auto, using(crate::proofs::Appends::appending))]
pub fn append_operator(out: &mut Builder, op: &Operator) -> Result<(), AllocError>
    requires set { IsSome out.old.level }
    requires fits { Fits (level_set out.old) op.now }
    requires room { size out.old.operators + length (spelling (size out.old.operators) (level_set out.old) op.now) ≤ MOST_SEGMENT_SYLLABLES }
    ensures code { OnOk result (Emitted out.old out.new (λ qs. Has qs (level_set out.old) (size out.old.operators) op.now (size out.new.operators))) }
    ensures level { OnOk result (out.new.level ≡ out.old.level) }
    ensures size { OnOk result (size out.new.operators
        ≡ size out.old.operators + length (spelling (size out.old.operators) (level_set out.old) op.now)) }
{
    out.append(op)?;
    Ok(())
}

/// Appends an operator without an operand.
pub fn append_plain(out: &mut Builder, kind: PlainKind) -> Result<(), AllocError>
    requires set { IsSome out.old.level }
    requires room { size out.old.operators + 1 ≤ MOST_SEGMENT_SYLLABLES }
    ensures code { OnOk result (Emitted out.old out.new
        (λ qs. Has qs (level_set out.old) (size out.old.operators) (ops.Plain kind) (size out.new.operators))) }
    ensures level { OnOk result (out.new.level ≡ out.old.level) }
    ensures size { OnOk result (size out.new.operators ≡ size out.old.operators + 1) }
{
    append_operator(out, &Operator::Plain(kind))
}

/// Appends operators without operands.
pub fn append_all(out: &mut Builder, kinds: &[PlainKind]) -> Result<(), AllocError>
    requires set { IsSome out.old.level }
    requires room { size out.old.operators + length kinds.now ≤ MOST_SEGMENT_SYLLABLES }
    ensures code { OnOk result (Emitted out.old out.new
        (λ qs. AllAt qs (level_set out.old) kinds.now (size out.old.operators) (size out.new.operators))) }
    ensures level { OnOk result (out.new.level ≡ out.old.level) }
    ensures size { OnOk result (size out.new.operators ≡ size out.old.operators + length kinds.now) }
{
    'kinds: for kind in kinds {
        append_plain(out, *kind)?;
    }
    Ok(())
}

/// Appends the shortest operator that pushes this number.
pub fn append_number(out: &mut Builder, value: Whole) -> Result<(), AllocError>
    requires set { IsSome out.old.level }
    requires room { size out.old.operators + 12 ≤ MOST_SEGMENT_SYLLABLES }
    ensures code { OnOk result (Emitted out.old out.new
        (λ qs. NumberAt qs (level_set out.old) value (size out.old.operators) (size out.new.operators))) }
    ensures shortest { OnOk result (Emitted out.old out.new
        (λ qs. Has qs (level_set out.old) (size out.old.operators) (literal value) (size out.new.operators))) }
    ensures level { OnOk result (out.new.level ≡ out.old.level) }
    ensures size { OnOk result (size out.new.operators ≤ size out.old.operators + 12) }
{
    append_operator(out, &literal(value))
}

/// Appends the operator that pushes the value of the cell at a couple.
pub fn append_reading(out: &mut Builder, couple: Couple) -> Result<(), AllocError>
    requires set { IsSome out.old.level }
    requires seen { CoupleIsSeen (level_set out.old) couple }
    requires room { size out.old.operators + 2 ≤ MOST_SEGMENT_SYLLABLES }
    ensures code { OnOk result (Emitted out.old out.new
        (λ qs. Has qs (level_set out.old) (size out.old.operators) (ops.Valc couple) (size out.new.operators))) }
    ensures level { OnOk result (out.new.level ≡ out.old.level) }
    ensures size { OnOk result (size out.new.operators ≡ size out.old.operators + 2) }
{
    append_operator(out, &Operator::Valc(couple))
}

/// Appends the operator that pushes a reference to the cell at a couple.
pub fn append_reference(out: &mut Builder, couple: Couple) -> Result<(), AllocError>
    requires set { IsSome out.old.level }
    requires seen { CoupleIsSeen (level_set out.old) couple }
    requires room { size out.old.operators + 2 ≤ MOST_SEGMENT_SYLLABLES }
    ensures code { OnOk result (Emitted out.old out.new
        (λ qs. Has qs (level_set out.old) (size out.old.operators) (ops.Namc couple) (size out.new.operators))) }
    ensures level { OnOk result (out.new.level ≡ out.old.level) }
    ensures size { OnOk result (size out.new.operators ≡ size out.old.operators + 2) }
{
    append_operator(out, &Operator::Namc(couple))
}

/// Appends the branch back to a place where a loop begins.
pub fn append_turn(out: &mut Builder, target: u16) -> Result<(), AllocError>
    requires set { IsSome out.old.level }
    requires back { target ≤ size out.old.operators }
    requires room { size out.old.operators + 3 ≤ MOST_SEGMENT_SYLLABLES }
    ensures code { OnOk result (Emitted out.old out.new
        (λ qs. TurnAt qs (level_set out.old) (size out.old.operators) target (size out.new.operators))) }
    ensures level { OnOk result (out.new.level ≡ out.old.level) }
    ensures size { OnOk result (size out.new.operators ≡ size out.old.operators + 3) }
{
    append_operator(out, &Operator::Branch(BranchKind::Brun, target))
}

/// Appends a branch whose target is still to be aimed, and gives its place.
pub fn append_branch(out: &mut Builder, kind: BranchKind) -> Result<u16, AllocError>
    requires set { IsSome out.old.level }
    requires room { size out.old.operators + 3 ≤ MOST_SEGMENT_SYLLABLES }
    ensures place { IfOk result (λ place. place ≡ size out.old.operators) }
    ensures code { OnOk result (EmittedWithExits out.old out.new [] (size out.old.operators ∷ [])
        (λ qs target. BranchAt qs (level_set out.old) kind (size out.old.operators) target (size out.new.operators))) }
    ensures level { OnOk result (out.new.level ≡ out.old.level) }
    ensures size { OnOk result (size out.new.operators ≡ size out.old.operators + 3) }
{
    let place = out.place();
    append_operator(out, &Operator::Branch(kind, 0))?;
    Ok(place)
}

/// Appends a branch whose target is still to be aimed, and lists its place.
pub fn append_exit(
    out: &mut Builder,
    kind: BranchKind,
    exits: &mut Vec<u16>,
) -> Result<(), AllocError>
    requires set { IsSome out.old.level }
    requires room { size out.old.operators + 3 ≤ MOST_SEGMENT_SYLLABLES }
    ensures code { OnOk result (EmittedWithExits out.old out.new exits.old.items exits.new.items
        (λ qs target. BranchAt qs (level_set out.old) kind (size out.old.operators) target (size out.new.operators))) }
    ensures level { OnOk result (out.new.level ≡ out.old.level) }
    ensures size { OnOk result (size out.new.operators ≡ size out.old.operators + 3) }
{
    exits.push(append_branch(out, kind)?)?;
    Ok(())
}
