ghost use Rattle.std.specs.Prelude.{◌≡◌, IfOk};

use b67_list::{Line, List};
use std::alloc::{AllocError, Global};

/// From this place of a segment on, in syllables from 0, operators stand at this level.
#[derive(Clone, Copy)]
pub struct Mark {
    pub place: u16,
    pub level: u8,
}

/// The code of a procedure or of the program: words of six syllables, the first syllable highest, and
/// the marks of its levels. A segment has at most [`MOST_SEGMENT_WORDS`](crate::MOST_SEGMENT_WORDS)
/// words of 48 bits.
#[derive(Drop)]
pub struct Segment {
    pub words: List<u64>,
    pub marks: List<Mark>,
}

/// A part of a line: a text, a whole number in so many columns, or so many blanks.
#[derive(Drop)]
pub enum Phrase {
    Text(Line),
    Number(u32),
    Blanks(u32),
}

/// The form of a line: its parts from left to right.
#[derive(Drop)]
pub struct Format {
    pub phrases: List<Phrase>,
}

/// The code of a program: its segments, and the formats that its lines name, both by number from 0.
#[derive(Drop)]
pub struct Code {
    pub segments: List<Segment>,
    pub formats: List<Format>,
}

/// A place in the code: a segment by its number, and a syllable of it from 0.
#[derive(Clone, Copy)]
pub struct Pointer {
    pub segment: u16,
    pub place: u16,
}

/// A list of its own with the same items.
fn copy_list<T: Copy>(alloc: Global, list: &List<T>) -> Result<List<T>, AllocError>
    ensures { IfOk result (λ copy. copy ≡ list.now) }
{
    Ok(List::of(Vec::from_slice(alloc, list.items().as_slice())?))
}

fn copy_segments(alloc: Global, segments: &[Segment]) -> Result<Vec<Segment>, AllocError>
    ensures { IfOk result (λ copies. copies.items ≡ segments.now) }
{
    let mut copies = Vec::with_capacity(alloc, segments.len())?;
    for segment in segments {
        copies.push(Segment {
            words: copy_list(alloc, &segment.words)?,
            marks: copy_list(alloc, &segment.marks)?,
        })?;
    }
    Ok(copies)
}

fn copy_phrase(alloc: Global, phrase: &Phrase) -> Result<Phrase, AllocError>
    ensures { IfOk result (λ copy. copy ≡ phrase.now) }
{
    match phrase {
        Phrase::Text(line) => Ok(Phrase::Text(Line::of(Vec::from_slice(alloc, line.bytes())?))),
        Phrase::Number(columns) => Ok(Phrase::Number(*columns)),
        Phrase::Blanks(columns) => Ok(Phrase::Blanks(*columns)),
    }
}

fn copy_phrases(alloc: Global, phrases: &[Phrase]) -> Result<Vec<Phrase>, AllocError>
    ensures { IfOk result (λ copies. copies.items ≡ phrases.now) }
{
    let mut copies = Vec::with_capacity(alloc, phrases.len())?;
    for phrase in phrases {
        copies.push(copy_phrase(alloc, phrase)?)?;
    }
    Ok(copies)
}

fn copy_formats(alloc: Global, formats: &[Format]) -> Result<Vec<Format>, AllocError>
    ensures { IfOk result (λ copies. copies.items ≡ formats.now) }
{
    let mut copies = Vec::with_capacity(alloc, formats.len())?;
    for format in formats {
        copies.push(Format {
            phrases: List::of(copy_phrases(alloc, format.phrases.items().as_slice())?),
        })?;
    }
    Ok(copies)
}

impl Code {
    /// A code of its own that is equal to this one.
    pub fn copy(&self) -> Result<Code, AllocError>
        ensures { IfOk result (λ copy. copy ≡ self.now) }
    {
        let alloc = *self.segments.items().allocator();
        Ok(Code {
            segments: List::of(copy_segments(alloc, self.segments.items().as_slice())?),
            formats: List::of(copy_formats(alloc, self.formats.items().as_slice())?),
        })
    }
}
