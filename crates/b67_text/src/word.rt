ghost use Rattle.std.specs.Prelude.{◌≡◌, ◌≤◌, ◌↔◌, IsTrue, length, IfOk, IfErr};
ghost use Rattle.b67_text.specs.Texts.{StopsAt, PartStands, HasByte};

use crate::BadText;

/// Reads these bytes at a place, and answers the place after them.
pub fn read_word(bytes: &[u8], at: usize, word: &[u8]) -> Result<usize, BadText>
    requires { at ≤ length bytes.now }
    ensures read { IfOk result (λ next. PartStands word.now bytes.now at next) }
    ensures refused { IfErr result (λ bad. StopsAt (λ text. text ≡ word.now) bytes.now at bad.byte) }
{
    let mut next = at;
    'word: for wanted in word {
        if !stands_at(bytes, next, *wanted) {
            return Err(BadText { byte: next });
        }
        next += 1;
    }
    Ok(next)
}

/// Tests that this byte stands at a place.
pub fn stands_at(bytes: &[u8], at: usize, byte: u8) -> bool
    ensures { IsTrue result ↔ HasByte byte bytes.now at }
{
    match bytes.get(at) {
        Some(here) => *here == byte,
        None => false,
    }
}
