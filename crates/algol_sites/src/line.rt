//! The phrases of a format, and the line that they make.

ghost use Rattle.std.specs.Prelude.{◌≡◌, ◌-◌, ◌^◌, ◌<◌, min, if◌then◌else◌, Some, None};
ghost use Rattle.algol_tree.specs.Accepted.{noted_all};
ghost use Rattle.algol_tree.specs.Spelling.{is_digit};
ghost use Rattle.algol_tree.specs.Phrases as rules;
ghost use Rattle.algol_tree.specs.declared.tree.PhraseText.TheVariants as texts;
ghost use Rattle.algol_sites.specs.Lining.{columns_seen, is_none_seen, items_seen, items_in, lettered, noted_line, line_number_in, phrase_seen};

use algol_rules::Faults;
use algol_tree::{Code, MOST_LINE_WIDTH, PhraseText, Spot};

/// A phrase of a format, with its columns, at most the greatest number.
#[derive(Clone, Copy)]
enum Phrase {
    Text(usize),
    Blanks(usize),
    Item(usize),
    NoPhrase,
}

fn digit_of(byte: u8) -> Option<usize>
    ensures { result ≡ (if is_digit byte then Some (byte - 48) else None) }
{
    if b'0' <= byte && byte <= b'9' {
        Some((byte - b'0') as usize)
    } else {
        None
    }
}

/// The number of decimal digits, at most the greatest number; none where one is no digit, or there are none.
fn number_of(digits: &[u8]) -> Option<usize>
    ensures { result ≡ line_number_in digits.now }
{
    let mut number: usize = 0;
    'digits: for byte in digits {
        match digit_of(*byte) {
            None => return None,
            Some(digit) => number = number.saturating_mul(10).saturating_add(digit),
        }
    }
    if digits.is_empty() {
        None
    } else {
        Some(number)
    }
}

/// Iw and Xw, where w is at least 1.
fn letter_phrase(letter: u8, width: usize) -> Phrase
    ensures { result ≡ lettered letter width }
{
    match (letter, width) {
        (_, 0) => Phrase::NoPhrase,
        (b'I', width) => Phrase::Item(width),
        (b'X', width) => Phrase::Blanks(width),
        _ => Phrase::NoPhrase,
    }
}

#[tactic(auto, using(crate::proofs::Lines::lines))]
fn word_phrase(word: &[u8]) -> Phrase
    ensures { result ≡ phrase_seen (rules.phrase_of (texts.Word word.now)) }
{
    match word.split_first() {
        None => Phrase::NoPhrase,
        Some((letter, digits)) => match number_of(digits) {
            None => Phrase::NoPhrase,
            Some(width) => letter_phrase(*letter, width),
        },
    }
}

fn phrase_of(text: &PhraseText) -> Phrase
    ensures { result ≡ phrase_seen (rules.phrase_of text.now) }
{
    match text {
        PhraseText::Text(text) => Phrase::Text(text.bytes().len()),
        PhraseText::Word(word) => word_phrase(word.bytes()),
    }
}

impl Phrase {
    fn columns(self) -> usize
        ensures { result ≡ columns_seen self }
    {
        match self {
            Phrase::Text(width) => width,
            Phrase::Blanks(width) => width,
            Phrase::Item(width) => width,
            Phrase::NoPhrase => 0,
        }
    }

    /// How many items it prints.
    fn items(self) -> usize
        ensures { result ≡ items_seen self }
    {
        match self {
            Phrase::Item(_) => 1,
            _ => 0,
        }
    }

    fn is_none(self) -> bool
        ensures { result ≡ is_none_seen self }
    {
        matches!(self, Phrase::NoPhrase)
    }
}

/// Notes where a phrase is none, or the items are not as many as the phrases that print one; and where the line is too wide.
pub fn check_line(spot: Spot, phrases: &[PhraseText], items: usize, faults: &mut Faults)
    ensures { faults.new.first ≡ noted_line faults.old.first phrases.now items spot }
{
    let mut is_bad = false;
    let mut count: usize = 0;
    let mut columns: usize = 0;
    'phrases: for text in phrases {
        let phrase = phrase_of(text);
        is_bad |= phrase.is_none();
        count = count.saturating_add(phrase.items());
        columns = columns.saturating_add(phrase.columns());
    }
    if is_bad || count != items {
        faults.note(spot, Code::WriteList);
    }
    if columns > MOST_LINE_WIDTH as usize {
        faults.note(spot, Code::LineTooWide);
    }
}
