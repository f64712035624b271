//! Copies of what an expression has still to do.

ghost use Rattle.std.specs.Prelude.{◌≡◌, IfOk};

use crate::part::{Frame, Given, Head, Place};
use algol_cells::{Stack, copy_cell, copy_list};
use algol_tree::List;
use std::alloc::{AllocError, Global};

// ---- places and actuals

/// A copy of a place.
pub fn copy_place<'p>(alloc: Global, place: &Place<'p>) -> Result<Place<'p>, AllocError>
    ensures { IfOk result (λ copy. copy ≡ place.now) }
{
    match place {
        Place::Own(n) => Ok(Place::Own(*n)),
        Place::There(r) => Ok(Place::There(*r)),
        Place::ElementOf(r, ks) => Ok(Place::ElementOf(*r, copy_list(alloc, ks)?)),
    }
}

fn copy_given<'p>(alloc: Global, given: &Given<'p>) -> Result<Given<'p>, AllocError>
    ensures { IfOk result (λ copy. copy ≡ given.now) }
{
    match given {
        Given::Valued(v) => Ok(Given::Valued(*v)),
        Given::Passed(cell) => Ok(Given::Passed(copy_cell(alloc, cell)?)),
        Given::Refers(n) => Ok(Given::Refers(*n)),
        Given::Names(actual) => Ok(Given::Names(*actual)),
    }
}

/// A copy of actuals.
pub fn copy_givens<'p>(
    alloc: Global,
    givens: &List<Given<'p>>,
) -> Result<List<Given<'p>>, AllocError>
    ensures { IfOk result (λ copies. copies ≡ givens.now) }
{
    let from = givens.items().as_slice();
    let mut copies = Vec::with_capacity(alloc, from.len())?;
    for given in from {
        copies.push(copy_given(alloc, given)?)?;
    }
    Ok(List::of(copies))
}

// ---- expressions

/// A copy of a head.
pub fn copy_head<'p>(alloc: Global, head: &Head<'p>) -> Result<Head<'p>, AllocError>
    ensures { IfOk result (λ copy. copy ≡ head.now) }
{
    match head {
        Head::Read(n) => Ok(Head::Read(*n)),
        Head::Element(n, ks, v) => Ok(Head::Element(*n, copy_list(alloc, ks)?, *v)),
        Head::Index(n, ks, v, e, es) => { Ok(Head::Index(*n, copy_list(alloc, ks)?, *v, *e, *es)) }
        Head::Tests(test, es) => Ok(Head::Tests(*test, *es)),
        Head::Broken(op, v, w, fault) => Ok(Head::Broken(*op, *v, *w, *fault)),
        Head::Enter(n, gs) => Ok(Head::Enter(*n, copy_givens(alloc, gs)?)),
        Head::Pass(n, gs, m, es) => { Ok(Head::Pass(*n, copy_givens(alloc, gs)?, *m, *es)) }
        Head::Inside => Ok(Head::Inside),
    }
}

fn copy_frame<'p>(alloc: Global, frame: &Frame<'p>) -> Result<Frame<'p>, AllocError>
    ensures { IfOk result (λ copy. copy ≡ frame.now) }
{
    match frame {
        Frame::Subscript(n, ks, es) => { Ok(Frame::Subscript(*n, copy_list(alloc, ks)?, *es)) }
        Frame::Argument(n, gs, es) => { Ok(Frame::Argument(*n, copy_givens(alloc, gs)?, *es)) }
        Frame::Left(op, e) => Ok(Frame::Left(*op, *e)),
        Frame::Right(op, v) => Ok(Frame::Right(*op, *v)),
        Frame::Negated => Ok(Frame::Negated),
        Frame::Inverted => Ok(Frame::Inverted),
        Frame::Condition(e, f) => Ok(Frame::Condition(*e, *f)),
    }
}

/// A copy of what is around a head.
pub fn copy_frames<'p>(
    alloc: Global,
    frames: &Stack<Frame<'p>>,
) -> Result<Stack<Frame<'p>>, AllocError>
    ensures { IfOk result (λ copies. copies ≡ frames.now) }
{
    let from = frames.oldest_first();
    let mut copies = Vec::with_capacity(alloc, from.len())?;
    for frame in from {
        copies.push(copy_frame(alloc, frame)?)?;
    }
    Ok(Stack::of(copies))
}
