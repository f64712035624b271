//! The cells of a block.

ghost use Rattle.std.specs.Prelude.{◌≡◌, ℕ, ◌+◌, ◌*◌, ◌<◌, ◌≤◌, ◌^◌, length, replicate, IfOk, IsSome, OnOk};
ghost use Rattle.std.specs.List.{All};
ghost use Rattle.algol_tree.specs.declared.TheConstants.{MOST_BLOCK_CELLS, MOST_PROCEDURES};
ghost use Rattle.algol_tree.specs.Image as plain;
ghost use Rattle.b67_ops.specs.declared.TheConstants.{MOST_LEVEL};
ghost use Rattle.b67_ops.specs.declared.PlainKind.TheVariants as kinds;
ghost use Rattle.b67_segment.specs.declared.TheConstants.{MOST_SEGMENT_SYLLABLES};
ghost use Rattle.b67_segment.specs.Operators.{size};
ghost use Rattle.b67_segment.specs.Building.{level_set};
ghost use Rattle.b67_templates.specs.Cells as frames;
ghost use Rattle.b67_templates.specs.Fragments.{AllAt, ControlsAt, procedure_controls};
ghost use Rattle.b67_templates.specs.Emitting.{Emitted};
ghost use Rattle.b67_emit_stmt.specs.Actuals.{images};
ghost use Rattle.b67_emit_stmt.specs.Bodies.{EmitsCells, procedure_numbers_of};
ghost use Rattle.b67_emit_stmt.specs.Drafts.{HasFew, DraftIsAt, draft_noted};
ghost use Rattle.b67_emit_stmt.specs.Fits.{AreNumbered, procedure_number_in};
ghost use Rattle.b67_emit_stmt.specs.Lengths.{cells_syllables};
ghost use Rattle.b67_emit_stmt.specs.Places.{Place};

use crate::draft::{Draft, StmtEmitter};
use algol_places::Places;
use algol_tree::{Decl, Expr, Spot};
use b67_emitter::{ExprEmitter, append_controls, append_plain};
use b67_ops::PlainKind;
use b67_segment::Builder;
use std::alloc::{AllocError, Global};

/// How many simple variables are declared.
pub fn variables_of(decls: &[Decl]) -> usize
    requires { length (frames.variables (plain.decls decls.now)) ≤ MOST_BLOCK_CELLS }
    ensures { result ≡ length (frames.variables (plain.decls decls.now)) }
{
    let mut many = 0;
    'decls: for d in decls {
        if let Decl::Simple(_, ns) = d {
            many += ns.items().len();
        }
    }
    many
}

/// So many zeros.
fn append_zeros(many: usize, out: &mut Builder) -> Result<(), AllocError>
    requires set { IsSome out.old.level }
    requires room { size out.old.operators + many ≤ MOST_SEGMENT_SYLLABLES }
    ensures code { OnOk result (Emitted out.old out.new (λ qs. AllAt qs (level_set out.old) (replicate many kinds.Zero) (size out.old.operators) (size out.new.operators))) }
    ensures level { OnOk result (out.new.level ≡ out.old.level) }
    ensures size { OnOk result (size out.new.operators ≡ size out.old.operators + many) }
{
    'zeros: for _ in 0..many {
        append_plain(out, PlainKind::Zero)?;
    }
    Ok(())
}

/// The control words of procedures, where there are any, one level further in than this.
fn append_words(segments: &[u16], level: u8, out: &mut Builder) -> Result<(), AllocError>
    requires set { IsSome out.old.level }
    requires level { level ≡ level_set out.old }
    requires inner { 1 ≤ length segments.now → level + 1 ≤ MOST_LEVEL }
    requires segments { All (λ (segment : ℕ). segment < 2 ^ 10) segments.now }
    requires room { size out.old.operators + 12 * length segments.now ≤ MOST_SEGMENT_SYLLABLES }
    ensures code { OnOk result (Emitted out.old out.new (λ qs. ControlsAt qs (level_set out.old) (procedure_controls (level_set out.old) segments.now) (size out.old.operators) (size out.new.operators))) }
    ensures level { OnOk result (out.new.level ≡ out.old.level) }
    ensures size { OnOk result (size out.new.operators ≤ size out.old.operators + 12 * length segments.now) }
{
    if segments.is_empty() {
        Ok(())
    } else {
        append_controls(out, segments, level + 1)
    }
}

/// The number of the procedure whose name stands there: its place among them, from 1; 0 where there is none.
#[tactic(auto, using(crate::proofs::Numbered::number_within))]
fn number_of(procedures: &Places, spot: Spot) -> u16
    requires { length procedures.now ≤ MOST_PROCEDURES }
    ensures { result ≡ procedure_number_in procedures.now spot }
{
    match procedures.number_of(spot) {
        None => 0,
        Some(number) => number as u16 + 1,
    }
}

impl<'a, E: ExprEmitter> StmtEmitter<'a, E> {
    /// The numbers of the procedures that are declared.
    fn numbers(&self, alloc: Global, ds: &[Decl]) -> Result<Vec<u16>, AllocError>
        requires { length self.now.known.now.procedures.now ≤ MOST_PROCEDURES }
        ensures { IfOk result (λ numbers. numbers.items ≡ procedure_numbers_of self.now.known.now (frames.procedures (plain.decls ds.now))) }
    {
        let mut numbers = Vec::new(alloc);
        'decls: for d in ds {
            if let Decl::Procedure(heading, _) = d {
                numbers.push(number_of(self.known.procedures, heading.name.spot))?;
            }
        }
        Ok(numbers)
    }

    /// The control words of the procedures that are declared, and how many they are.
    fn procedure_words(
        &self,
        alloc: Global,
        ds: &[Decl],
        out: &mut Builder,
    ) -> Result<usize, AllocError>
        requires set { IsSome out.old.level }
        requires level { self.now.level ≡ level_set out.old }
        requires many { length self.now.known.now.procedures.now ≤ MOST_PROCEDURES }
        requires numbered { (sc : Place) × AreNumbered sc.scopes self.now.known.now self.now.level (frames.procedures (plain.decls ds.now)) }
        requires room { size out.old.operators + 12 * length (frames.procedures (plain.decls ds.now)) ≤ MOST_SEGMENT_SYLLABLES }
        ensures code { IfOk result (λ many. (sc : Place) → AreNumbered sc.scopes self.now.known.now self.now.level (frames.procedures (plain.decls ds.now)) →
            Emitted out.old out.new (λ qs. ControlsAt qs self.now.level (procedure_controls self.now.level (frames.control_segments sc.scopes (plain.decls ds.now))) (size out.old.operators) (size out.new.operators))) }
        ensures many { IfOk result (λ many. many ≡ length (frames.procedures (plain.decls ds.now))) }
        ensures level { IfOk result (λ many. out.new.level ≡ out.old.level) }
        ensures size { IfOk result (λ many. size out.new.operators ≤ size out.old.operators + 12 * length (frames.procedures (plain.decls ds.now))) }
    {
        let numbers = self.numbers(alloc, ds)?;
        append_words(&numbers, self.level, out)?;
        Ok(numbers.len())
    }

    /// A cell of 0 for each of so many, one for each procedure that is declared, and one for each of these actuals, whose code begins at
    /// these places.
    pub(crate) fn cells(
        &self,
        many: usize,
        ds: &[Decl],
        actuals: &[&Expr],
        places: &[u16],
        to: &mut Draft,
    ) -> Result<(), AllocError>
        requires level { DraftIsAt self.now.level to.old }
        requires few { HasFew to.old }
        requires many { length self.now.known.now.procedures.now ≤ MOST_PROCEDURES }
        requires segment { self.now.known.now.segment < 2 ^ 10 }
        requires most { many + length (frames.procedures (plain.decls ds.now)) + length actuals.now ≤ MOST_BLOCK_CELLS }
        requires inner { 1 ≤ length actuals.now → self.now.level + 1 ≤ MOST_LEVEL }
        requires placed { length places.now ≡ length actuals.now }
        requires places { All (λ (at : ℕ). at < MOST_SEGMENT_SYLLABLES) places.now }
        requires numbered { (sc : Place) × AreNumbered sc.scopes self.now.known.now self.now.level (frames.procedures (plain.decls ds.now)) }
        requires room { size to.old.out.operators + cells_syllables self.now.known.now many (plain.decls ds.now) (images actuals.now) ≤ MOST_SEGMENT_SYLLABLES }
        ensures code { OnOk result (EmitsCells self.now.known.now self.now.level to.old to.new many (plain.decls ds.now) (images actuals.now) places.now) }
        ensures notes { OnOk result (draft_noted to.new ≡ draft_noted to.old) }
    {
        append_zeros(many, &mut to.out)?;
        let procedures = self.procedure_words(*to.exits.allocator(), ds, &mut to.out)?;
        self.routine_words(actuals, places, &mut to.out)?;
        if many + procedures + actuals.len() > 0 {
            append_plain(&mut to.out, PlainKind::Push)?;
        }
        Ok(())
    }
}
