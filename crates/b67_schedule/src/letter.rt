//! The letters of actions, from their bytes.

ghost use Rattle.std.specs.Prelude.{◌≡◌, IfSome, IfNone};
ghost use Rattle.b67_deeds.specs.declared.Letter.{Letter as TheLetter};
ghost use Rattle.b67_deeds.specs.Letters.{byte_of};

use b67_deeds::Letter;

/// The letter of a byte, where it is one's.
#[inline(always)]
pub fn letter_of(byte: u8) -> Option<Letter>
    ensures found { IfSome result (λ letter. byte_of letter ≡ byte) }
    ensures none { IfNone result ((letter : TheLetter) → byte_of letter ≡ byte → ⊥) }
{
    match byte {
        b'R' => Some(Letter::Read),
        b'I' => Some(Letter::Index),
        b'Q' => Some(Letter::ElementRead),
        b'P' => Some(Letter::Resolve),
        b'S' => Some(Letter::Store),
        b'T' => Some(Letter::ElementStore),
        b'A' => Some(Letter::Pass),
        b'E' => Some(Letter::Enter),
        b'L' => Some(Letter::Leave),
        b'M' => Some(Letter::MakeArrays),
        b'V' => Some(Letter::MakeEvent),
        b'C' => Some(Letter::Select),
        b'U' => Some(Letter::Turn),
        b'G' => Some(Letter::GoTo),
        b'W' => Some(Letter::Line),
        b'B' => Some(Letter::Start),
        b'X' => Some(Letter::End),
        b'F' => Some(Letter::Fault),
        b'w' => Some(Letter::Wait),
        b'c' => Some(Letter::Cause),
        b'r' => Some(Letter::Reset),
        b'h' => Some(Letter::Happened),
        b'p' => Some(Letter::Procure),
        b'l' => Some(Letter::Liberate),
        b'a' => Some(Letter::WaitAny),
        b'k' => Some(Letter::Woke),
        b'd' => Some(Letter::CauseAndReset),
        b'v' => Some(Letter::Available),
        b'f' => Some(Letter::Fix),
        _ => None,
    }
}
