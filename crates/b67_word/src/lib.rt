//! The machine's word: 48 bits and a tag of 3 bits that says what they are.
//!
//! The tag and the format of an operand are the B6700's: a mantissa with its sign, and an exponent with its
//! sign. That only operands without an exponent are numbers, and that a truth value is bit 0, is this
//! project's profile.
#![tactic(auto)]

ghost use Rattle.std.specs.Prelude.{◌≡◌, ℕ, ◌+◌, ◌-◌, ◌*◌, ◌/◌, ◌%◌, ◌^◌, ◌<◌, ◌≤◌, ℤ, unsigned_abs, SomeIff, IfSome};
ghost use Rattle.b67_word.specs.Word.{word, field, set_field, most_mantissa, operand, as_whole, truth, as_truth, IsWord};
ghost use Rattle.b67_word.specs.Laws.{OperandsAreReadBack, OneFieldIsSet};

use std::marker::Model;

/// A place in a stack: the number of the stack, and the displacement of a word in it.
#[derive(Clone, Copy, PartialEq, Eq, PartialOrd, Ord)]
pub struct Place {
    /// The number of the stack.
    pub stack: u16,
    /// The displacement from the bottom of the stack, which is at 0.
    pub at: u16,
}

/// A word of the machine. Its 48 bits are numbered from 47 down to 0.
#[derive(Clone, Copy, PartialEq, Eq)]
pub struct Word {
    raw: u64,
}

impl Model for Word {
    ghost use Rattle.std.specs.Prelude.{ℕ, ◌*◌, ◌+◌, ◌/◌, ◌%◌, ◌^◌, ◌<◌};
    ghost use Rattle.b67_word.specs.Word.{Word as Seen};

    ghost Value = { Seen };

    ghost view = { λ w. record { tag = w.raw / 2 ^ 48; bits = w.raw % 2 ^ 48 } };

    ghost invariant = { λ w. w.raw < 2 ^ 51 };

    ghost inverse = { λ d. record { raw = d.tag * 2 ^ 48 + d.bits } };
}

// The lowest bits of a number, `count` of them.
fn low_bits(value: u64, count: u32) -> u64
    requires { count < 64 }
    ensures value { result ≡ value % 2 ^ count }
    ensures bound { result < 2 ^ count }
{
    value & ((1u64 << count) - 1)
}

// The bits of `high`, then `low` in `count` bits.
fn joined(high: u64, count: u32, low: u64) -> u64
    requires low { low < 2 ^ count }
    requires fits { high * 2 ^ count + low < 2 ^ 51 }
    requires count { count < 51 }
    ensures { result ≡ high * 2 ^ count + low }
{
    (high << count) | low
}

// The bits with a value in the `n` bits from bit `s` downwards.
fn replaced(bits: u64, s: u32, n: u32, value: u64) -> u64
    requires place { s ≤ 47 }
    requires width { n ≤ s + 1 }
    requires value { value < 2 ^ n }
    requires bits { bits < 2 ^ 48 }
    ensures value { result ≡ set_field s n value bits }
    ensures bound { result < 2 ^ 48 }
{
    let low = s + 1 - n;
    let high = joined(bits >> (s + 1), n, value);
    joined(high, low, low_bits(bits, low))
}

/// The word with this tag and these bits. None comes exactly where the tag is above 7 or the bits are not
/// below 2^48.
pub fn make_word(tag: u8, bits: u64) -> Option<Word>
    ensures { SomeIff result ((tag < 8) × (bits < 2 ^ 48)) (word tag bits) }
{
    if tag < 8 && bits < 1 << 48 {
        Some(Word {
            raw: joined(u64::from(tag), 48, bits),
        })
    } else {
        None
    }
}

/// The operand that holds a whole number: tag 0, the sign in bit 46 and the magnitude in bits 38 to 0.
#[tactic(auto, unfolding(crate::specs::Word::operand))]
pub fn operand(value: i64) -> Word
    requires { unsigned_abs value ≤ most_mantissa }
    ensures { result ≡ operand value }
{
    let sign = if value < 0 { 1 } else { 0 };
    Word {
        raw: joined(sign, 46, value.unsigned_abs()),
    }
}

/// The word that holds a truth value: tag 0, and 1 or 0.
#[tactic(auto, unfolding(crate::specs::Word::truth))]
pub fn truth(value: bool) -> Word
    ensures { result ≡ truth value }
{
    Word {
        raw: u64::from(value),
    }
}

impl Word {
    /// The tag, which says what the word is: from 0 to 7.
    pub fn tag(&self) -> u8
        ensures value { result ≡ self.now.tag }
        ensures word { IsWord self.now }
    {
        (self.raw >> 48) as u8
    }

    /// The 48 bits without the tag.
    pub fn bits(&self) -> u64
        ensures value { result ≡ self.now.bits }
        ensures word { IsWord self.now }
    {
        low_bits(self.raw, 48)
    }

    /// The whole number that the word is read as. None comes exactly where the tag is not 0 or one of bit
    /// 47, bit 45 and bits 44 to 39 is not 0. Minus zero reads as 0.
    #[tactic(auto, unfolding(crate::specs::Word::as_whole, crate::specs::Word::is_whole))]
    pub fn as_whole(&self) -> Option<i64>
        ensures value { result ≡ as_whole self.now }
        ensures fits { IfSome result (λ z. unsigned_abs z ≤ most_mantissa) }
    {
        if self.tag() != 0 {
            return None;
        }
        if self.field(47, 1) != 0 {
            return None;
        }
        if self.field(45, 1) != 0 {
            return None;
        }
        if self.field(44, 6) != 0 {
            return None;
        }
        let magnitude = self.field(38, 39) as i64;
        Some(if self.field(46, 1) == 0 {
            magnitude
        } else {
            -magnitude
        })
    }

    /// The truth value that the word is read as, its bit 0. None comes exactly where the tag is not 0.
    #[tactic(auto, unfolding(crate::specs::Word::as_truth))]
    pub fn as_truth(&self) -> Option<bool>
        ensures { result ≡ as_truth self.now }
    {
        if self.tag() == 0 {
            Some(self.field(0, 1) == 1)
        } else {
            None
        }
    }

    /// The `n` bits from bit `s` downwards, as a number.
    #[tactic(auto, unfolding(crate::specs::Word::field))]
    pub fn field(&self, s: u32, n: u32) -> u64
        requires place { s ≤ 47 }
        requires some { 1 ≤ n }
        requires width { n ≤ s + 1 }
        ensures value { result ≡ field s n self.now.bits }
        ensures bound { result < 2 ^ n }
        ensures word { IsWord self.now }
    {
        low_bits(self.bits() >> (s + 1 - n), n)
    }

    /// The word with `value` in the `n` bits from bit `s` downwards, and its other bits and its tag as they are.
    pub fn with_field(&self, s: u32, n: u32, value: u64) -> Word
        requires place { s ≤ 47 }
        requires some { 1 ≤ n }
        requires width { n ≤ s + 1 }
        requires value { value < 2 ^ n }
        ensures { result ≡ word self.now.tag (set_field s n value self.now.bits) }
    {
        let bits = replaced(self.bits(), s, n, value);
        Word {
            raw: joined(u64::from(self.tag()), 48, bits),
        }
    }
}

/// Law: a whole number is read back from its operand, and what is read is a whole number; a truth value is
/// read back from its word. It says too which words are read as whole numbers.
pub fn operands_are_read_back()
    ensures { OperandsAreReadBack }
{}

/// Law: to set a field leaves all other bits as they are.
pub fn one_field_is_set()
    ensures { OneFieldIsSet }
{}
