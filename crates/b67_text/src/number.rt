ghost use Rattle.std.specs.Prelude.{◌≡◌, ℕ, ◌+◌, ◌≤◌, ◌<◌, [], ◌∷◌, ◌++◌, ◌↔◌, length, Some, None, IsTrue, MatchOption, IfOk, IfErr};
ghost use Rattle.std.specs.Fmt.{decimal};
ghost use Rattle.b67_text.specs.Texts.{StopsAt, PartStands};
ghost use Rattle.b67_text.specs.Numerals.{IsDigit, NumberIsIn, IsField, IsSmallNumber, spelled, BeginsOne, CanBegin, HasLonger, lengthened, AreDigits};

use crate::BadText;
use crate::word::stands_at;

/// The numbers from `least` to `most`, without `except`.
#[derive(Clone, Copy)]
pub struct Numbers {
    pub least: u64,
    pub most: u64,
    pub except: Option<u64>,
}

impl Numbers {
    /// Tests that the number is one of these.
    pub fn contains(&self, number: u64) -> bool
        ensures { IsTrue result ↔ NumberIsIn self.now number }
    {
        self.least <= number && number <= self.most && self.except != Some(number)
    }

    /// Tests that one of these begins with the digits of this number.
    fn can_begin(&self, number: u64) -> bool
        ensures { IsTrue result ↔ CanBegin self.now number }
    {
        self.contains(number) || number > 0 && self.has_longer(number)
    }

    /// Tests that this number with one more digit, 0 or 1, is one of these.
    fn has_longer(&self, number: u64) -> bool
        ensures { IsTrue result ↔ HasLonger self.now number }
    {
        number <= u64::MAX / 10 && (self.contains(10 * number) || self.contains(10 * number + 1))
    }

    /// The number whose digits are those of `before` and then this byte, where one of these begins with them.
    fn with_digit(&self, before: Option<u64>, byte: u8) -> Option<u64>
        requires least { self.now.least ≤ 1 }
        requires before { IsSmallNumber before }
        ensures { MatchOption result (BeginsOne self.now (spelled before ++ byte ∷ []) → ⊥)
            (λ number. IsSmallNumber (Some number) × (decimal number ≡ spelled before ++ byte ∷ []) × BeginsOne self.now (decimal number)) }
    {
        if !byte.is_ascii_digit() {
            return None;
        }
        match lengthened(before, u64::from(byte - b'0')) {
            Some(number) if self.can_begin(number) => Some(number),
            _ => None,
        }
    }
}

/// The number of these digits and one more after them, where the first of several is not 0 and it has 64 bits at most.
fn lengthened(before: Option<u64>, digit: u64) -> Option<u64>
    requires { digit < 10 }
    ensures { result ≡ lengthened before digit }
{
    match before {
        None => Some(digit),
        Some(0) => None,
        Some(front) if front <= (u64::MAX - digit) / 10 => Some(10 * front + digit),
        Some(_) => None,
    }
}

/// Reads a number of these and the byte that ends it at a place, and answers the number and the place after the byte.
pub fn read_number(
    bytes: &[u8],
    at: usize,
    numbers: &Numbers,
    end: u8,
) -> Result<(u64, usize), BadText>
    requires place { at ≤ length bytes.now }
    requires least { numbers.now.least ≤ 1 }
    requires some { (n : ℕ) × NumberIsIn numbers.now n }
    requires end { IsDigit end → ⊥ }
    ensures read { IfOk result (λ found. NumberIsIn numbers.now found.0 × PartStands (decimal found.0 ++ end ∷ []) bytes.now at found.1) }
    ensures refused { IfErr result (λ bad. StopsAt (IsField numbers.now end) bytes.now at bad.byte) }
{
    let (digits, next) = read_digits(bytes, at, numbers);
    match digits {
        Some(number) if numbers.contains(number) && stands_at(bytes, next, end) => {
            Ok((number, next + 1))
        }
        _ => Err(BadText { byte: next }),
    }
}

/// The number of the digits at a place that begin one of these, as many as do, and the place after them.
fn read_digits(bytes: &[u8], at: usize, numbers: &Numbers) -> (Option<u64>, usize)
    requires place { at ≤ length bytes.now }
    requires least { numbers.now.least ≤ 1 }
    requires some { (n : ℕ) × NumberIsIn numbers.now n }
    ensures { AreDigits numbers.now bytes.now at result.0 result.1 }
{
    let mut number = None;
    let mut next = at;
    'digits: while next < bytes.len() {
        match numbers.with_digit(number, bytes[next]) {
            Some(longer) => {
                number = Some(longer);
                next += 1;
            }
            None => return (number, next),
        }
    }
    (number, next)
}
