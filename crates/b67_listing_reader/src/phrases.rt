//! Formats from their lines.

ghost use Rattle.std.specs.Prelude.{◌≡◌, ℕ, ◌+◌, ◌<◌, ◌≤◌, ◌^◌, List, ◌∷◌, ◌++◌, length, drop, codes, ◌⊎◌, ◌↔◌, true, false, IsTrue, MatchOption, IfOk};
ghost use Rattle.std.specs.List.{All};
ghost use Rattle.std.specs.Fmt.{decimal};
ghost use Rattle.b67_text.specs.Texts.{PartStands, HasByte};
ghost use Rattle.b67_segment.specs.declared.code.Phrase.{Phrase};
ghost use Rattle.b67_segment.specs.declared.code.Phrase.TheVariants.{Text};
ghost use Rattle.b67_segment.specs.declared.code.Format.{Format};
ghost use Rattle.b67_listing.specs.Formats.{phrase_text, phrases_text, format_line};
ghost use Rattle.b67_listing.specs.Listings.{IsPhrase};
ghost use Rattle.b67_listing_reader.specs.Reading.{IsFormat, IsNoFormat, IsTextByte, EndsPhrase, ReadsPhrase, ReadsWidth, HasNoWidth, HasWidthBefore, ReadsQuoted, ReadsText, IsEnded};

use b67_list::{Line, List, push_number};
use b67_segment::{Format, Phrase};
use b67_text::{Numbers, read_number, read_word};
use std::alloc::{AllocError, Global};

/// The format whose line, with this number, this is. Where it is that of none, there is no answer.
pub fn read_format(alloc: Global, number: usize, line: &[u8]) -> Result<Option<Format>, AllocError>
    ensures { IfOk result (λ found. MatchOption found (IsNoFormat line.now number)
        (λ format. IsFormat format × (line.now ≡ format_line (number, format)))) }
{
    let mut head = Vec::new(alloc);
    push_number(&mut head, b"FORMAT ", number)?;
    head.extend_from_slice(b" <")?;
    let Ok(at) = read_word(line, 0, head.as_slice()) else {
        return Ok(None);
    };
    match read_phrases(alloc, line, at)? {
        Some(phrases) => Ok(Some(Format {
            phrases: List::of(phrases),
        })),
        None => Ok(None),
    }
}

/// The phrases that stand at a place, with commas between them and a bracket after the last one, with which the text
/// ends. Where there are none such, there is no answer.
fn read_phrases(alloc: Global, text: &[u8], at: usize) -> Result<Option<Vec<Phrase>>, AllocError>
    requires { at ≤ length text.now }
    ensures { IfOk result (λ found. MatchOption found
        ((phrases : List Phrase) → All IsPhrase phrases → drop at text.now ≡ phrases_text phrases ++ codes ">" → ⊥)
        (λ phrases. All IsPhrase phrases.items × (drop at text.now ≡ phrases_text phrases.items ++ codes ">"))) }
{
    let mut phrases = Vec::new(alloc);
    let mut next = at;
    'phrases: while next < text.len() {
        if text[next] == b'>' {
            if next + 1 < text.len() {
                return Ok(None);
            }
            return Ok(Some(phrases));
        }
        let Some(begin) = phrase_place(text, next, phrases.is_empty()) else {
            return Ok(None);
        };
        let Some((phrase, end)) = read_phrase(alloc, text, begin)? else {
            return Ok(None);
        };
        phrases.push(phrase)?;
        next = end;
    }
    Ok(None)
}

/// The place where a phrase begins: the first one at this place, another after the comma that stands there.
fn phrase_place(text: &[u8], at: usize, first: bool) -> Option<usize>
    requires { at < length text.now }
    ensures { MatchOption result ((first ≡ false) × (HasByte 44 text.now at → ⊥)) (λ begin.
        ((first ≡ true) × (begin ≡ at)) ⊎ ((first ≡ false) × HasByte 44 text.now at × (begin ≡ at + 1))) }
{
    if first {
        return Some(at);
    }
    if text[at] == b',' { Some(at + 1) } else { None }
}

/// The phrase that stands at a place before the byte that ends it, and the place of that byte.
fn read_phrase(alloc: Global, text: &[u8], at: usize) -> Result<Option<(Phrase, usize)>, AllocError>
    requires { at ≤ length text.now }
    ensures { IfOk result (λ found. MatchOption found
        ((phrase : Phrase) (next : ℕ) → ReadsPhrase text.now at phrase next → ⊥)
        (λ found. ReadsPhrase text.now at found.0 found.1)) }
{
    match text.get(at) {
        Some(b'"') => read_text(alloc, text, at + 1),
        Some(b'I') => match read_width(text, at + 1) {
            Some((width, next)) => Ok(Some((Phrase::Number(width), next))),
            None => Ok(None),
        },
        Some(b'X') => match read_width(text, at + 1) {
            Some((width, next)) => Ok(Some((Phrase::Blanks(width), next))),
            None => Ok(None),
        },
        _ => Ok(None),
    }
}

/// The text that stands at a place before a quote and what ends a phrase, and the place after the quote.
fn read_text(alloc: Global, text: &[u8], at: usize) -> Result<Option<(Phrase, usize)>, AllocError>
    requires { at ≤ length text.now }
    ensures { IfOk result (λ found. MatchOption found
        ((quoted : List ℕ) (end : ℕ) → ReadsText text.now at quoted end → ⊥)
        (λ found. (quoted : List ℕ) × (end : ℕ) × ReadsText text.now at quoted end × (found.0 ≡ Text quoted) × (found.1 ≡ end + 1))) }
{
    match text_end(text, at) {
        Some(end) => {
            let line = Line::of(Vec::from_slice(alloc, &text[at..end])?);
            Ok(Some((Phrase::Text(line), end + 1)))
        }
        None => Ok(None),
    }
}

/// The place of the quote after the text that stands at a place, where what ends a phrase stands after the quote.
fn text_end(text: &[u8], at: usize) -> Option<usize>
    requires { at ≤ length text.now }
    ensures { MatchOption result ((quoted : List ℕ) (end : ℕ) → ReadsText text.now at quoted end → ⊥)
        (λ end. (quoted : List ℕ) × ReadsText text.now at quoted end) }
{
    let end = quote_place(text, at)?;
    if ends_phrase(text, end + 1) {
        Some(end)
    } else {
        None
    }
}

/// Tests that a byte that ends a phrase stands at a place.
fn ends_phrase(text: &[u8], at: usize) -> bool
    ensures { IsTrue result ↔ IsEnded (drop at text.now) }
{
    matches!(text.get(at), Some(b',' | b'>'))
}

/// The place of the first quote from a place on, where only bytes of texts stand before it.
fn quote_place(text: &[u8], at: usize) -> Option<usize>
    requires { at ≤ length text.now }
    ensures { MatchOption result ((quoted : List ℕ) (end : ℕ) → ReadsQuoted text.now at quoted end → ⊥)
        (λ end. (quoted : List ℕ) × ReadsQuoted text.now at quoted end) }
{
    let mut end = at;
    'text: while end < text.len() {
        let byte = text[end];
        if byte == b'"' {
            return Some(end);
        }
        if !is_text_byte(byte) {
            return None;
        }
        end += 1;
    }
    None
}

/// Tests that a byte can stand in a text between quotes.
fn is_text_byte(byte: u8) -> bool
    ensures { IsTrue result ↔ IsTextByte byte }
{
    byte >= b' ' && byte <= b'~' && byte != b'"'
}

/// The number of 32 bits that stands at a place before the byte that ends a phrase, and the place of that byte.
fn read_width(text: &[u8], at: usize) -> Option<(u32, usize)>
    requires { at ≤ length text.now }
    ensures { MatchOption result ((width next : ℕ) → ReadsWidth text.now at width next → ⊥)
        (λ found. ReadsWidth text.now at found.0 found.1) }
{
    match width_before(text, at, b',') {
        Some(found) => Some(found),
        None => width_before(text, at, b'>'),
    }
}

/// The number of 32 bits that stands at a place before this byte, and the place of the byte.
fn width_before(text: &[u8], at: usize, end: u8) -> Option<(u32, usize)>
    requires place { at ≤ length text.now }
    requires end { EndsPhrase end }
    ensures { MatchOption result (HasNoWidth text.now at end) (λ found. HasWidthBefore text.now at end found.0 found.1) }
{
    let widths = Numbers {
        least: 0,
        most: u64::from(u32::MAX),
        except: None,
    };
    match read_number(text, at, &widths, end) {
        Ok((width, next)) => Some((width as u32, next - 1)),
        Err(_) => None,
    }
}
