//! The parts of an input: a source, a record that is exactly a mark, and the text after it.
//!
//! A record ends with an LF, or with a CR and an LF, and the last one may end with the input. A mark holds neither.
#![tactic(auto)]

ghost use Rattle.std.specs.Prelude.{◌≡◌, ◌≢◌, ℕ, List, slice_index, option_copied, EachIndex, MatchOption, Option};
ghost use Rattle.b67_parts.specs.Parts.{RecordBegins, Ends, IsFirstLineFeed, Parts};
ghost use Rattle.b67_parts.specs.declared.TheConstants.{MOST_INPUT_BYTES};

/// The most bytes of an input that has two parts.
pub const MOST_INPUT_BYTES: usize = 16_777_216;

/// Law: an input has one division at a mark. What stands before the mark and after it are determined.
pub fn inputs_have_one_division()
    ensures { (mark bytes source other : List ℕ) (text later : Option (List ℕ)) → Parts mark bytes source text → Parts mark bytes other later → (source ≡ other) × (text ≡ later) }
{}

/// What stands before the first record that is exactly the mark, and what stands after it; the whole, where no record
/// is the mark. Takes no memory.
pub fn divided<'a>(mark: &[u8], bytes: &'a [u8]) -> (&'a [u8], Option<&'a [u8]>)
    ensures { Parts mark.now bytes.now result.0.now (option_copied result.1) }
{
    let mut from = 0;
    'records: loop {
        let rest = &bytes[from..];
        if let Some(text) = behind(mark, rest) {
            return (&bytes[..from], Some(text));
        }
        let Some(place) = first_line_feed(rest) else {
            return (bytes, None);
        };
        from += place + 1;
    }
}

/// What stands after the first record, if that is exactly the mark.
fn behind<'a>(mark: &[u8], bytes: &'a [u8]) -> Option<&'a [u8]>
    ensures { MatchOption result ((text : List ℕ) → RecordBegins mark.now bytes.now text → ⊥) (λ text. RecordBegins mark.now bytes.now text.now) }
{
    match bytes.strip_prefix(mark) {
        Some(rest) => behind_end(rest),
        None => None,
    }
}

/// What stands after the end of a record, if the bytes begin with it or are none.
fn behind_end(bytes: &[u8]) -> Option<&[u8]>
    ensures { MatchOption result ((text : List ℕ) → Ends bytes.now text → ⊥) (λ text. Ends bytes.now text.now) }
{
    match bytes {
        [] => Some(bytes),
        [b'\n', text @ ..] => Some(text),
        [b'\r', b'\n', text @ ..] => Some(text),
        _ => None,
    }
}

/// The place of the first LF.
fn first_line_feed(bytes: &[u8]) -> Option<usize>
    ensures { MatchOption result (EachIndex bytes.now (λ k. slice_index bytes.now k ≢ 10)) (λ place. IsFirstLineFeed bytes.now place) }
{
    bytes.iter().position(|byte| *byte == b'\n')
}

/// Law: the number of this crate. An input that has two parts has at most 16 megabytes, by this project's profile.
pub fn numbers_are_told()
    ensures { MOST_INPUT_BYTES ≡ 16777216 }
{}
