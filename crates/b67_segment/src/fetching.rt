ghost use Rattle.std.specs.Prelude.{◌≡◌, ℕ, ◌*◌, ◌<◌, ◌≤◌, ◌↔◌, All, length, take};
ghost use Rattle.b67_ops.specs.declared.TheConstants.{MOST_LEVEL};
ghost use Rattle.b67_ops.specs.declared.Operator.{Operator};
ghost use Rattle.b67_ops.specs.Decoding.{decoded};
ghost use Rattle.b67_segment.specs.declared.TheConstants.{MOST_SEGMENT_WORDS};
ghost use Rattle.b67_segment.specs.Syllables.{syllables};
ghost use Rattle.b67_segment.specs.Fetching.{fetched, StandsIn, IsPast, IsCutShortIn, NamesLevelAboveIn, IsUnknownIn};

use crate::code::{Code, Pointer};
use b67_ops::{BadCode, Operator, decode};

/// The syllables of the first two words, and how many there are.
fn window(words: &[u64]) -> ([u8; 12], usize)
    ensures syllables { take result.1 result.0 ≡ take 12 (syllables words.now) }
    ensures length { result.1 ≤ 12 }
{
    match words {
        [] => ([0; 12], 0),
        [word] => {
            let [_, _, a, b, c, d, e, f] = word.to_be_bytes();
            ([a, b, c, d, e, f, 0, 0, 0, 0, 0, 0], 6)
        }
        [word, next, ..] => {
            let [_, _, a, b, c, d, e, f] = word.to_be_bytes();
            let [_, _, g, h, i, j, k, l] = next.to_be_bytes();
            ([a, b, c, d, e, f, g, h, i, j, k, l], 12)
        }
    }
}

/// The operator at a place of a segment's words. It ends at most with the word after the one that it
/// begins in.
fn fetch_from(words: &[u64], place: u16, level: u8) -> Result<(Operator, u16), BadCode>
    requires level { level ≤ MOST_LEVEL }
    requires words { length words.now ≤ MOST_SEGMENT_WORDS }
    ensures { result ≡ decoded (syllables words.now) place level }
{
    let first = usize::from(place / 6);
    if first >= words.len() {
        return Err(BadCode::CutShort);
    }
    let (window, length) = window(&words[first..]);
    match decode(&window[..length], usize::from(place % 6), level) {
        Ok((operator, next)) => Ok((operator, (6 * first + next) as u16)),
        Err(bad) => Err(bad),
    }
}

/// What `fetch` answers.
fn fetch_at(code: &Code, at: Pointer, level: u8) -> Result<(Operator, u16), BadCode>
    requires level { level ≤ MOST_LEVEL }
    requires segments { All (λ segment. length segment.words ≤ MOST_SEGMENT_WORDS) code.now.segments }
    ensures { result ≡ fetched code.now at level }
{
    match code.segments.items().get(usize::from(at.segment)) {
        Some(segment) => fetch_from(segment.words.items().as_slice(), at.place, level),
        None => Err(BadCode::CutShort),
    }
}

/// The operator at a pointer, where the current level is this one, and the place after it.
///
/// The refusals are those of `decode`, of the segment's syllables at the place. `CutShort` comes also
/// where the segment is not there or the place is past its words.
pub fn fetch(code: &Code, at: Pointer, level: u8) -> Result<(Operator, u16), BadCode>
    requires level { level ≤ MOST_LEVEL }
    requires segments { All (λ segment. length segment.words ≤ MOST_SEGMENT_WORDS) code.now.segments }
    ensures value { result ≡ fetched code.now at level }

    // An operator comes exactly where it stands.
    ensures ok { (op : Operator) (next : ℕ)
        → (result ≡ Ok (op, next)) ↔ StandsIn code.now at level op next }

    // Each refusal comes exactly where it has its cause.
    ensures past { IsPast code.now at → result ≡ Err BadCode.CutShort }
    ensures cut_short { (result ≡ Err BadCode.CutShort) ↔ IsCutShortIn code.now at level }
    ensures bad_level { (result ≡ Err BadCode.BadLevel) ↔ NamesLevelAboveIn code.now at level }
    ensures unknown { (result ≡ Err BadCode.Unknown) ↔ IsUnknownIn code.now at level }
{
    fetch_at(code, at, level)
}
