// The operators of segments, decoded once for each level.
ghost use Rattle.std.specs.Prelude.{◌≡◌, ◌≤◌, All, IfSome, length};
ghost use Rattle.b67_ops.specs.declared.TheConstants.{MOST_LEVEL};
ghost use Rattle.b67_segment.specs.declared.TheConstants.{MOST_SEGMENT_WORDS};
ghost use Rattle.b67_segment.specs.Decoded.{AreDecoded};
ghost use Rattle.b67_machine.specs.Tables.{AreLevels, AreTables};

use b67_private::Prepared;
use b67_segment::Code;

/// The operators of a segment at each level at which it was decoded.
#[derive(Drop)]
pub struct Levels {
    tables: Vec<Option<Prepared>>,
}

/// The operators of a segment at a level, where they were decoded.
#[inline(always)]
pub fn decoded(segments: &Vec<Levels>, segment: u16, level: u8) -> Option<&Prepared>
    ensures { (code : Code) → AreTables code segments.now.items → IfSome result (λ table. AreDecoded code segment level table.now) }
{
    match segments.get(usize::from(segment)) {
        Some(levels) => match levels.tables.get(usize::from(level)) {
            Some(table) => table.as_ref(),
            None => None,
        },
        None => None,
    }
}

// Decodes a segment at a level. Without memory there may be no table of it.
fn decode(levels: &mut Vec<Option<Prepared>>, code: &Code, segment: u16, level: u8)
    requires level { level ≤ MOST_LEVEL }
    requires code { All (λ segment. length segment.words ≤ MOST_SEGMENT_WORDS) code.now.segments }
    requires levels { AreLevels code.now segment levels.old.items }
    ensures { AreLevels code.now segment levels.new.items }
{
    let alloc = *levels.allocator();
    let Ok(table) = Prepared::new(alloc, code, segment, level) else {
        return;
    };
    'levels: while levels.len() <= usize::from(level) {
        if levels.push(None).is_err() {
            return;
        }
    }
    levels[usize::from(level)] = Some(table);
}

// Decodes a segment at a level, as far as there is memory for it.
#[cold]
fn add(segments: &mut Vec<Levels>, code: &Code, segment: u16, level: u8)
    requires level { level ≤ MOST_LEVEL }
    requires code { All (λ segment. length segment.words ≤ MOST_SEGMENT_WORDS) code.now.segments }
    requires tables { AreTables code.now segments.old.items }
    ensures { AreTables code.now segments.new.items }
{
    let alloc = *segments.allocator();
    'segments: while segments.len() <= usize::from(segment) {
        let tables = Vec::new(alloc);
        if segments.push(Levels { tables }).is_err() {
            return;
        }
    }
    decode(
        &mut segments[usize::from(segment)].tables,
        code,
        segment,
        level,
    );
}

/// Sees that a segment is decoded at a level, as far as there is memory for it.
#[inline(always)]
pub fn prepare(segments: &mut Vec<Levels>, code: &Code, segment: u16, level: u8)
    requires level { level ≤ MOST_LEVEL }
    requires code { All (λ segment. length segment.words ≤ MOST_SEGMENT_WORDS) code.now.segments }
    requires tables { AreTables code.now segments.old.items }
    ensures { AreTables code.now segments.new.items }
{
    if decoded(segments, segment, level).is_none() {
        add(segments, code, segment, level);
    }
}
