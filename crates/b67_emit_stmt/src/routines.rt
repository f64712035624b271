//! The code of a block's actuals, and the control words of it.

ghost use Rattle.std.specs.Prelude.{◌≡◌, ℕ, ◌+◌, ◌*◌, ◌<◌, ◌≤◌, ◌^◌, List, length, IsSome, IfOk, OnOk};
ghost use Rattle.std.specs.List.{All};
ghost use Rattle.algol_tree.specs.Image.{expr, variable};
ghost use Rattle.algol_tree.specs.Plain as tree;
ghost use Rattle.b67_ops.specs.declared.TheConstants.{MOST_LEVEL};
ghost use Rattle.b67_segment.specs.declared.TheConstants.{MOST_SEGMENT_SYLLABLES};
ghost use Rattle.b67_segment.specs.Operators.{size};
ghost use Rattle.b67_segment.specs.Building.{level_set};
ghost use Rattle.b67_templates.specs.Cells.{Actual, has_place};
ghost use Rattle.b67_emitter.specs.Values.{AreNear};
ghost use Rattle.b67_emit_stmt.specs.Actuals.{images};
ghost use Rattle.b67_emit_stmt.specs.Bodies.{AreActuals, CodesEmitted, EmitsRoutines, WordsEmitted};
ghost use Rattle.b67_emit_stmt.specs.Drafts.{DraftIsAt, IsReady, draft_noted};
ghost use Rattle.b67_emit_stmt.specs.Lengths.{routines_syllables};
ghost use Rattle.b67_emit_stmt.specs.Places.{Place};

use crate::draft::{Draft, StmtEmitter};
use algol_tree::{Expr, Variable};
use b67_emitter::{ExprEmitter, append_routine};
use b67_segment::Builder;
use std::alloc::{AllocError, Global};

/// Tests that an actual has a place: it is subscripted.
fn has_place(e: &Expr) -> bool
    ensures { result ≡ has_place (expr e.now) }
{
    match e {
        Expr::Variable(v) => is_subscripted(v),
        _ => false,
    }
}

fn is_subscripted(v: &Variable) -> bool
    ensures { result ≡ has_place (tree.variable (variable v.now)) }
{
    !v.subs.items().is_empty()
}

impl<'a, E: ExprEmitter> StmtEmitter<'a, E> {
    /// The code of actuals of a block whose level is below the one that is set, one after another; and where each begins.
    fn codes(
        &self,
        alloc: Global,
        actuals: &[&Expr],
        out: &mut Builder,
    ) -> Result<Vec<u16>, AllocError>
        requires set { IsSome out.old.level }
        requires near { AreNear self.now.known.now.names.now }
        requires room { size out.old.operators + routines_syllables self.now.known.now (images actuals.now) ≤ MOST_SEGMENT_SYLLABLES }
        requires inner { self.now.level ≤ level_set out.old }
        requires fits { (sc : Place) × (own : List Actual) × AreActuals sc self.now.known.now self.now.level (images actuals.now) own }
        ensures code { IfOk result (λ places. CodesEmitted self.now.known.now self.now.level out.old out.new (images actuals.now) places.items) }
        ensures places { IfOk result (λ places. All (λ (at : ℕ). at < MOST_SEGMENT_SYLLABLES) places.items) }
        ensures many { IfOk result (λ places. length places.items ≡ length actuals.now) }
        ensures level { IfOk result (λ places. out.new.level ≡ out.old.level) }
        ensures size { IfOk result (λ places. size out.new.operators ≤ size out.old.operators + routines_syllables self.now.known.now (images actuals.now)) }
    {
        let mut places = Vec::new(alloc);
        'actuals: for actual in actuals {
            places.push(out.place())?;
            self.exprs.routine(actual, self.known.names, out)?;
        }
        Ok(places)
    }

    /// The code of actuals of the block at this level, one after another, one level further in; and where each begins.
    pub fn routines(&self, actuals: &[&Expr], to: &mut Draft) -> Result<Vec<u16>, AllocError>
        requires level { DraftIsAt self.now.level to.old }
        requires ready { IsReady self.now.known.now to.old (routines_syllables self.now.known.now (images actuals.now)) }
        requires fits { (sc : Place) × (own : List Actual) × AreActuals sc self.now.known.now self.now.level (images actuals.now) own }
        ensures code { IfOk result (λ places. EmitsRoutines self.now.known.now self.now.level to.old to.new (images actuals.now) places.items) }
        ensures places { IfOk result (λ places. All (λ (at : ℕ). at < MOST_SEGMENT_SYLLABLES) places.items) }
        ensures many { IfOk result (λ places. length places.items ≡ length actuals.now) }
        ensures exits { IfOk result (λ places. to.new.exits.items ≡ to.old.exits.items) }
        ensures notes { IfOk result (λ places. draft_noted to.new ≡ draft_noted to.old) }
    {
        let alloc = *to.exits.allocator();
        if actuals.is_empty() {
            return Ok(Vec::new(alloc));
        }
        to.out.level(self.level + 1)?;
        let places = self.codes(alloc, actuals, &mut to.out)?;
        to.out.level(self.level)?;
        Ok(places)
    }

    /// The control words of actuals whose code begins at these places.
    pub(crate) fn routine_words(
        &self,
        actuals: &[&Expr],
        places: &[u16],
        out: &mut Builder,
    ) -> Result<(), AllocError>
        requires set { IsSome out.old.level }
        requires level { self.now.level ≡ level_set out.old }
        requires inner { 1 ≤ length actuals.now → self.now.level + 1 ≤ MOST_LEVEL }
        requires segment { self.now.known.now.segment < 2 ^ 10 }
        requires many { length places.now ≡ length actuals.now }
        requires places { All (λ (at : ℕ). at < MOST_SEGMENT_SYLLABLES) places.now }
        requires room { size out.old.operators + 12 * length actuals.now ≤ MOST_SEGMENT_SYLLABLES }
        ensures code { OnOk result (WordsEmitted self.now.known.now self.now.level out.old out.new (images actuals.now) places.now) }
        ensures level { OnOk result (out.new.level ≡ out.old.level) }
        ensures size { OnOk result (size out.new.operators ≤ size out.old.operators + 12 * length actuals.now) }
    {
        'words: for number in 0..actuals.len() {
            append_routine(
                out,
                self.known.segment,
                places[number],
                self.level + 1,
                has_place(actuals[number]),
            )?;
        }
        Ok(())
    }
}
