//! Copies of what a part has still to do, so that it can be put back.

ghost use Rattle.std.specs.Prelude.{◌≡◌, IfOk};

use crate::statement::{Deed, Last, Point, Target, Within};
use algol_cells::copy_list;
use algol_rest_expr::{Head, copy_givens, copy_head, copy_place};
use b67_list::discard;
use std::alloc::{AllocError, Global};

fn copy_within<'p>(alloc: Global, within: &Within<'p>) -> Result<Within<'p>, AllocError>
    ensures { IfOk result (λ copy. copy ≡ within.now) }
{
    match within {
        Within::Evaluating => Ok(Within::Evaluating),
        Within::Storing(to) => Ok(Within::Storing(copy_place(alloc, to)?)),
        Within::Testing(s) => Ok(Within::Testing(*s)),
        Within::Stepping(v, s) => Ok(Within::Stepping(*v, *s)),
        Within::Supplying(role, n, gs, es) => {
            Ok(Within::Supplying(*role, *n, copy_givens(alloc, gs)?, *es))
        }
        Within::Subscripting(sought, n, ks, es) => {
            Ok(Within::Subscripting(*sought, *n, copy_list(alloc, ks)?, *es))
        }
        Within::Writing(phrases, vs, es) => {
            Ok(Within::Writing(*phrases, copy_list(alloc, vs)?, *es))
        }
        Within::Bounding(kind, ns, pairs, vs, further) => Ok(Within::Bounding(
            *kind,
            *ns,
            *pairs,
            copy_list(alloc, vs)?,
            *further,
        )),
    }
}

fn copy_deed<'p>(alloc: Global, deed: &Deed<'p>) -> Result<Deed<'p>, AllocError>
    ensures { IfOk result (λ copy. copy ≡ deed.now) }
{
    match deed {
        Deed::Store(to, v) => Ok(Deed::Store(copy_place(alloc, to)?, *v)),
        Deed::Turn => Ok(Deed::Turn),
        Deed::Start(n, gs, task) => { Ok(Deed::Start(*n, copy_givens(alloc, gs)?, *task)) }
        Deed::Event(act, n) => Ok(Deed::Event(*act, *n)),
        Deed::Line(phrases, vs) => Ok(Deed::Line(*phrases, copy_list(alloc, vs)?)),
        Deed::Arrays(kind, ns, pairs, vs) => {
            Ok(Deed::Arrays(*kind, *ns, *pairs, copy_list(alloc, vs)?))
        }
        Deed::MakeEvent(n) => Ok(Deed::MakeEvent(*n)),
        Deed::Within => Ok(Deed::Within),
        Deed::Dropping => Ok(Deed::Dropping),
    }
}

fn copy_last<'p>(alloc: Global, last: &Last<'p>) -> Result<Last<'p>, AllocError>
    ensures { IfOk result (λ copy. copy ≡ last.now) }
{
    match last {
        Last::Over => Ok(Last::Over),
        Last::Giving(v) => Ok(Last::Giving(*v)),
        Last::GivingPlace(at) => Ok(Last::GivingPlace(copy_place(alloc, at)?)),
        Last::Going(n) => Ok(Last::Going(*n)),
    }
}

fn copy_target<'p>(alloc: Global, target: &Target<'p>) -> Result<Target<'p>, AllocError>
    ensures { IfOk result (λ copy. copy ≡ target.now) }
{
    match target {
        Target::Resolve(n) => Ok(Target::Resolve(*n)),
        Target::Index(n, ks, v, es) => { Ok(Target::Index(*n, copy_list(alloc, ks)?, *v, *es)) }
        Target::Inside => Ok(Target::Inside),
    }
}

/// A copy of a head of an expression, and of what that is evaluated for.
fn copy_in<'p>(alloc: Global, head: &Head<'p>, within: &Within<'p>) -> Result<Point<'p>, AllocError>
    ensures { IfOk result (λ copy. copy ≡ Point.In head.now within.now) }
{
    let head = copy_head(alloc, head)?;
    match copy_within(alloc, within) {
        Ok(within) => Ok(Point::In(head, within)),
        Err(lack) => {
            discard(head);
            Err(lack)
        }
    }
}

/// A copy of where a part stands.
pub fn copy_point<'p>(alloc: Global, point: &Point<'p>) -> Result<Point<'p>, AllocError>
    ensures { IfOk result (λ copy. copy ≡ point.now) }
{
    match point {
        Point::Last(last) => Ok(Point::Last(copy_last(alloc, last)?)),
        Point::Reading(name) => Ok(Point::Reading(*name)),
        Point::Deed(deed) => Ok(Point::Deed(copy_deed(alloc, deed)?)),
        Point::Select(v, ss) => Ok(Point::Select(*v, *ss)),
        Point::EnterBlock(b) => Ok(Point::EnterBlock(*b)),
        Point::Enter(n, gs) => Ok(Point::Enter(*n, copy_givens(alloc, gs)?)),
        Point::Pass(role, n, gs, m, es) => {
            Ok(Point::Pass(*role, *n, copy_givens(alloc, gs)?, *m, *es))
        }
        Point::Seek(sought, target) => { Ok(Point::Seek(*sought, copy_target(alloc, target)?)) }
        Point::In(head, within) => copy_in(alloc, head, within),
    }
}
