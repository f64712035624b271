// The operators of a segment, decoded once, with what they do made ready.
ghost use Rattle.std.specs.Prelude.{◌≡◌, ◌*◌, ◌≤◌, [], All, IfOk, IfSome, length};
ghost use Rattle.b67_ops.specs.declared.TheConstants.{MOST_LEVEL};
ghost use Rattle.b67_ops.specs.Spelling.{FitsAs};
ghost use Rattle.b67_segment.specs.declared.TheConstants.{MOST_SEGMENT_WORDS};
ghost use Rattle.b67_segment.specs.Decoded.{at_place, AreDecoded};
ghost use Rattle.b67_private.specs.Operating.{IsHeldCouple};
ghost use Rattle.b67_private.specs.Prepared.{AreHeld, AreRows, IsFlatRowOf, IsRowOf};

use crate::flat::{FlatRow, flat_of, row_from};
use crate::operators::{Row, row_of};
use b67_ops::Operator;
use b67_segment::{Code, Decoded};
use std::alloc::{AllocError, Global};
use std::marker::Model;

/// The operators of a segment at one level, decoded once, and what each does to a private part.
///
/// Contracts see the operators, as a list by place, with none where no operator stands.
#[derive(Drop)]
pub struct Prepared {
    operators: Decoded,
    // By place, as far as there was memory for them.
    rows: Vec<Option<(FlatRow, u16)>>,
}

impl Model for Prepared {
    ghost use Rattle.std.specs.Prelude.{ℕ, List, Option};
    ghost use Rattle.b67_ops.specs.declared.Operator.{Operator as Seen};
    ghost use Rattle.b67_private.specs.Prepared.{AreRows};

    ghost Value = { List (Option (Seen × ℕ)) };

    ghost view = { λ p. p.operators };

    ghost invariant = { λ p. AreRows p.operators p.rows.items };
}

// At how many places of a segment an operator may stand, none where it is not there.
fn places_of(code: &Code, segment: u16) -> usize
    requires { All (λ segment. length segment.words ≤ MOST_SEGMENT_WORDS) code.now.segments }
    ensures { result ≤ 6 * MOST_SEGMENT_WORDS }
{
    match code.segments.items().get(usize::from(segment)) {
        Some(segment) => 6 * segment.words.items().len(),
        None => 0,
    }
}

// The row of an operator at its place, with the place after it.
#[inline(always)]
fn row_by(found: Option<(Operator, u16)>, place: u16) -> Option<(FlatRow, u16)>
    requires { IfSome found (λ f. FitsAs IsHeldCouple f.0) }
    ensures { IfSome result (λ r. IsFlatRowOf place found r) }
{
    match found {
        Some((op, next)) => Some((flat_of(row_of(&op, place)), next)),
        None => None,
    }
}

// The rows of these operators at so many places, as far as there is memory for them.
fn add_rows(rows: &mut Vec<Option<(FlatRow, u16)>>, operators: &Decoded, count: usize)
    requires held { AreHeld operators.now }
    requires none { rows.old.items ≡ [] }
    requires count { count ≤ 6 * MOST_SEGMENT_WORDS }
    ensures { AreRows operators.now rows.new.items }
{
    'rows: for index in 0..count {
        let place = index as u16;
        if rows.push(row_by(operators.at(place), place)).is_err() {
            return;
        }
    }
}

impl Prepared {
    /// The operators of a segment of a code at this level; none of a segment that is not there.
    pub fn new(alloc: Global, code: &Code, segment: u16, level: u8) -> Result<Prepared, AllocError>
        requires level { level ≤ MOST_LEVEL }
        requires segments { All (λ segment. length segment.words ≤ MOST_SEGMENT_WORDS) code.now.segments }
        ensures { IfOk result (AreDecoded code.now segment level) }
    {
        let operators = Decoded::new(alloc, code, segment, level)?;
        let mut rows = Vec::new(alloc);
        add_rows(&mut rows, &operators, places_of(code, segment));
        Ok(Prepared { operators, rows })
    }

    /// The operator at a place, and the place after it. None comes exactly where none stands there.
    #[inline(always)]
    pub fn at(&self, place: u16) -> Option<(Operator, u16)>
        ensures { result ≡ at_place self.now place }
    {
        self.operators.at(place)
    }

    /// The flat row of the operator at a place, and the place after it, where they are made ready.
    #[inline(always)]
    pub fn flat(&self, place: u16) -> Option<(FlatRow, u16)>
        ensures { IfSome result (λ r. IsFlatRowOf place (at_place self.now place) r) }
    {
        match self.rows.get(usize::from(place)) {
            Some(row) => *row,
            None => None,
        }
    }

    /// The row of the operator at a place, and the place after it, where they are made ready.
    #[inline(always)]
    pub fn row(&self, place: u16) -> Option<(Row, u16)>
        ensures { IfSome result (λ r. IsRowOf place (at_place self.now place) r) }
    {
        match self.flat(place) {
            Some((flat, next)) => Some((row_from(flat), next)),
            None => None,
        }
    }
}
