ghost use Rattle.std.specs.Prelude.{◌≡◌, ℕ, ◌*◌, ◌<◌, ◌≤◌, All, length, IfOk};
ghost use Rattle.b67_ops.specs.declared.TheConstants.{MOST_LEVEL};
ghost use Rattle.b67_segment.specs.declared.TheConstants.{MOST_SEGMENT_WORDS};
ghost use Rattle.b67_segment.specs.Fetching.{IsPast};
ghost use Rattle.b67_segment.specs.Decoded.{found, at_place, AreDecoded};

use crate::code::{Code, Pointer};
use crate::fetching::fetch;
use b67_ops::Operator;
use std::alloc::{AllocError, Global};
use std::marker::Model;

/// The operators of a segment at one level, decoded once: at each place what `fetch` gives there.
///
/// Contracts see them as a list by place, with none where no operator stands.
#[derive(Drop)]
pub struct Decoded {
    places: Vec<Option<(Operator, u16)>>,
}

impl Model for Decoded {
    ghost use Rattle.std.specs.Prelude.{ℕ, List, Option};
    ghost use Rattle.b67_ops.specs.declared.Operator.{Operator as Seen};

    ghost Value = { List (Option (Seen × ℕ)) };

    ghost view = { λ d. d.places.items };
}

/// What `fetch` gives at a place, where an operator stands there.
fn found_at(code: &Code, at: Pointer, level: u8) -> Option<(Operator, u16)>
    requires level { level ≤ MOST_LEVEL }
    requires segments { All (λ segment. length segment.words ≤ MOST_SEGMENT_WORDS) code.now.segments }
    ensures { result ≡ found code.now at.segment level at.place }
{
    match fetch(code, at, level) {
        Ok(found) => Some(found),
        Err(_) => None,
    }
}

/// How many places a segment has, none where it is not there.
fn size_of(code: &Code, segment: u16) -> usize
    requires { All (λ segment. length segment.words ≤ MOST_SEGMENT_WORDS) code.now.segments }
    ensures past { IsPast code.now (record { segment = segment; place = result }) }
    ensures bound { result ≤ 6 * MOST_SEGMENT_WORDS }
{
    match code.segments.items().get(usize::from(segment)) {
        Some(segment) => 6 * segment.words.items().len(),
        None => 0,
    }
}

impl Decoded {
    /// The operators of a segment of a code at this level; none of a segment that is not there.
    #[tactic(auto, using(crate::proofs::DecodedPlaces::begun_more, crate::proofs::DecodedPlaces::begun_whole))]
    pub fn new(alloc: Global, code: &Code, segment: u16, level: u8) -> Result<Decoded, AllocError>
        requires level { level ≤ MOST_LEVEL }
        requires segments { All (λ segment. length segment.words ≤ MOST_SEGMENT_WORDS) code.now.segments }
        ensures { IfOk result (AreDecoded code.now segment level) }
    {
        let count = size_of(code, segment);
        let mut places = Vec::with_capacity(alloc, count)?;
        'decoding: for index in 0..count {
            let place = index as u16;
            places.push(found_at(code, Pointer { segment, place }, level))?;
        }
        Ok(Decoded { places })
    }

    /// The operator at a place, and the place after it. None comes exactly where none stands there.
    #[inline(always)]
    pub fn at(&self, place: u16) -> Option<(Operator, u16)>
        ensures { result ≡ at_place self.now place }
    {
        match self.places.get(usize::from(place)) {
            Some(found) => *found,
            None => None,
        }
    }
}
