//! The phrases of a format, read byte by byte.

ghost use Rattle.std.specs.Prelude.{◌≡◌, [], OnOk, IfOk, ℕ, List};
ghost use Rattle.b67_asm_text.specs.Phrases.{after_phrase, are_in_range, before, closed, columns, due, fit_in, has_no_width, longer, next, phrases_in, quoted, read_phrases, read_from, phrases_seen, phrases_shown, sized, sized_phrase, reader_start};

use crate::bytes::{is_blank, is_digit, is_printable};
use crate::number::TOO_GREAT;
use algol_tree::MOST_LINE_WIDTH;
use b67_list::Line;
use b67_segment::Phrase;
use std::alloc::{AllocError, Global};

/// What a byte of a format stands in.
#[derive(Clone, Copy)]
pub enum Stand {
    /// Before the first bracket.
    Before,
    /// Where a phrase has to begin.
    Due,
    /// In a text, after its first quote.
    Quoted,
    /// In the width of blanks or of a number, after so much of it.
    Sized { blanks: bool, width: Option<u32> },
    /// After a phrase.
    After,
    /// After the last bracket.
    Closed,
    /// In what is no format.
    Wrong,
}

/// Where a format begins.
fn before(byte: u8) -> Stand
    ensures { result ≡ before byte }
{
    if is_blank(byte) {
        return Stand::Before;
    }
    if byte == b'<' {
        Stand::Due
    } else {
        Stand::Wrong
    }
}

/// Where a phrase begins.
fn due(byte: u8) -> Stand
    ensures { result ≡ due byte }
{
    if is_blank(byte) {
        return Stand::Due;
    }
    match byte {
        b'"' => Stand::Quoted,
        b'I' => Stand::Sized {
            blanks: false,
            width: None,
        },
        b'X' => Stand::Sized {
            blanks: true,
            width: None,
        },
        _ => Stand::Wrong,
    }
}

/// Where a phrase has ended.
fn after(byte: u8) -> Stand
    ensures { result ≡ after_phrase byte }
{
    if is_blank(byte) {
        return Stand::After;
    }
    match byte {
        b',' => Stand::Due,
        b'>' => Stand::Closed,
        _ => Stand::Wrong,
    }
}

/// Where a format has ended.
fn closed(byte: u8) -> Stand
    ensures { result ≡ closed byte }
{
    if is_blank(byte) {
        Stand::Closed
    } else {
        Stand::Wrong
    }
}

/// The width after one more digit, where it has no leading zero.
fn longer(blanks: bool, width: Option<u32>, digit: u8) -> Stand
    ensures { result ≡ longer blanks width digit }
{
    let digit = u64::from(digit.saturating_sub(b'0'));
    match width {
        None => Stand::Sized {
            blanks,
            width: Some(digit as u32),
        },
        Some(0) => Stand::Wrong,
        Some(width) => Stand::Sized {
            blanks,
            width: Some(u64::from(TOO_GREAT).min(10 * u64::from(width) + digit) as u32),
        },
    }
}

/// The phrase of a width.
fn sized_phrase(blanks: bool, width: u32) -> Phrase
    ensures { result ≡ sized_phrase blanks width }
{
    if blanks {
        Phrase::Blanks(width)
    } else {
        Phrase::Number(width)
    }
}

/// The phrases that were read, the text that is being read, and what the next byte stands in.
#[derive(Drop)]
struct Reader {
    stand: Stand,
    text: Vec<u8>,
    phrases: Vec<Phrase>,
}

impl Reader {
    /// One more byte of a text.
    fn quoted(&mut self, alloc: Global, byte: u8) -> Result<(), AllocError>
        ensures { OnOk result (phrases_seen self.new ≡ quoted (phrases_seen self.old) byte) }
    {
        if byte == b'"' {
            let text = Vec::from_slice(alloc, self.text.as_slice())?;
            self.phrases.push(Phrase::Text(Line::of(text)))?;
            self.stand = Stand::After;
            return Ok(());
        }
        if is_printable(byte) {
            self.text.push(byte)?;
        } else {
            self.stand = Stand::Wrong;
        }
        Ok(())
    }

    /// One more byte of a width, or the one after it.
    fn sized(&mut self, blanks: bool, width: Option<u32>, byte: u8) -> Result<(), AllocError>
        ensures { OnOk result (phrases_seen self.new ≡ sized (phrases_seen self.old) blanks width byte) }
    {
        if is_digit(byte) {
            self.stand = longer(blanks, width, byte);
            return Ok(());
        }
        let Some(width) = width else {
            self.stand = Stand::Wrong;
            return Ok(());
        };
        self.phrases.push(sized_phrase(blanks, width))?;
        self.stand = after(byte);
        Ok(())
    }

    /// One more byte.
    fn next(&mut self, alloc: Global, byte: u8) -> Result<(), AllocError>
        ensures { OnOk result (phrases_seen self.new ≡ next (phrases_seen self.old) byte) }
    {
        match self.stand {
            Stand::Before => self.stand = before(byte),
            Stand::Due => {
                self.text.clear();
                self.stand = due(byte);
            }
            Stand::Quoted => return self.quoted(alloc, byte),
            Stand::Sized { blanks, width } => return self.sized(blanks, width, byte),
            Stand::After => self.stand = after(byte),
            Stand::Closed => self.stand = closed(byte),
            Stand::Wrong => {}
        }
        Ok(())
    }
}

/// The phrases of a format, which stand between brackets with commas between them.
fn read_phrases(alloc: Global, text: &[u8]) -> Result<Option<Vec<Phrase>>, AllocError>
    ensures { IfOk result (λ found. phrases_shown found ≡ read_phrases text.now) }
{
    let mut reader = Reader {
        stand: Stand::Before,
        text: Vec::new(alloc),
        phrases: Vec::new(alloc),
    };
    'bytes: for byte in text {
        reader.next(alloc, *byte)?;
    }
    let Reader {
        stand,
        text: _,
        phrases,
    } = reader;
    match stand {
        Stand::Closed => Ok(Some(phrases)),
        _ => Ok(None),
    }
}

/// How many bytes the word FORMAT has.
const FORMAT_BYTES: usize = 6;

/// The phrases of a format, after the word FORMAT.
#[tactic(auto, using(std::proofs::lemmas::List::take_min, std::proofs::lemmas::List::drop_min), unfolding(crate::specs::Phrases::phrases_in))]
pub(crate) fn phrases_in(alloc: Global, text: &[u8]) -> Result<Option<Vec<Phrase>>, AllocError>
    ensures { IfOk result (λ found. phrases_shown found ≡ phrases_in text.now) }
{
    let (word, rest) = text.split_at(FORMAT_BYTES.min(text.len()));
    if word != b"FORMAT".as_slice() {
        return Ok(None);
    }
    read_phrases(alloc, rest)
}

/// How many columns a phrase takes.
fn columns(phrase: &Phrase) -> usize
    ensures { result ≡ columns phrase.now }
{
    match phrase {
        Phrase::Text(text) => text.bytes().len(),
        Phrase::Number(width) | Phrase::Blanks(width) => *width as usize,
    }
}

/// Tests that a phrase has a width, which is 0.
fn has_no_width(phrase: &Phrase) -> bool
    ensures { result ≡ has_no_width phrase.now }
{
    match phrase {
        Phrase::Text(_) => false,
        Phrase::Number(width) | Phrase::Blanks(width) => *width == 0,
    }
}

/// Tests that phrases have widths above 0, and fit a line.
pub(crate) fn are_in_range(phrases: &[Phrase]) -> bool
    ensures { result ≡ are_in_range phrases.now }
{
    let mut left = usize::from(MOST_LINE_WIDTH);
    'phrases: for phrase in phrases {
        let width = columns(phrase);
        if has_no_width(phrase) || width > left {
            return false;
        }
        left -= width;
    }
    true
}
