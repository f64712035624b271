//! Head lines of segments.

ghost use Rattle.std.specs.Prelude.{◌≡◌, ℕ, MatchOption, IfOk};
ghost use Rattle.std.specs.Fmt.{decimal};
ghost use Rattle.b67_listing.specs.Listings.{segment_line};
ghost use Rattle.b67_listing_reader.specs.Reading.{IsWordCount, IsNoHead};

use b67_list::push_number;
use b67_segment::MOST_SEGMENT_WORDS;
use b67_text::{Numbers, read_number, read_word};
use std::alloc::{AllocError, Global};

/// How many words the segment with this number has, by its head line. Where the line is no head line of it, there is no
/// answer.
pub fn read_head(alloc: Global, number: usize, line: &[u8]) -> Result<Option<usize>, AllocError>
    ensures { IfOk result (λ found. MatchOption found (IsNoHead line.now number)
        (λ words. IsWordCount words × (line.now ≡ segment_line number words))) }
{
    let mut head = Vec::new(alloc);
    push_number(&mut head, b"SEGMENT ", number)?;
    head.push(b' ')?;
    match read_word(line, 0, head.as_slice()) {
        Ok(at) => read_word_count(alloc, &line[at..]),
        Err(_) => Ok(None),
    }
}

/// The number of words that these digits are. Where they are that of none, there is no answer.
fn read_word_count(alloc: Global, digits: &[u8]) -> Result<Option<usize>, AllocError>
    ensures { IfOk result (λ found. MatchOption found ((words : ℕ) → IsWordCount words → digits.now ≡ decimal words → ⊥)
        (λ words. IsWordCount words × (digits.now ≡ decimal words))) }
{
    let counts = Numbers {
        least: 1,
        most: MOST_SEGMENT_WORDS as u64,
        except: None,
    };
    let mut ended = Vec::from_slice(alloc, digits)?;
    ended.push(b'\n')?;
    let Ok((count, next)) = read_number(ended.as_slice(), 0, &counts, b'\n') else {
        return Ok(None);
    };
    if next < ended.len() {
        return Ok(None);
    }
    Ok(Some(count as usize))
}
