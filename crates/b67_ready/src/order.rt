//! The three rules of the command line.

ghost use Rattle.std.specs.Prelude.{◌≡◌, ◌<◌};
ghost use Rattle.b67_ready.specs.Orders.{spread};
ghost use Rattle.b67_ready.specs.declared.order.TheConstants.{FACTOR};

use crate::Rule;

/// A rule of the command line.
#[derive(Clone, Copy, Drop)]
pub enum Order {
    /// First in, first out: who has waited longest.
    Fifo,
    /// Last in, first out: who has waited shortest.
    Lifo,
    /// Anyone, as this number spreads the takes.
    Seed(u32),
}

impl Rule for Order {
    ghost use Rattle.b67_ready.specs.Orders.{order_place_of};
    ghost use Rattle.b67_ready.specs.Within.{place_within};

    ghost pick = { order_place_of };

    ghost within = { place_within };

    fn pick(&self, length: u32, takes: u64) -> u32 {
        match self {
            Order::Fifo => 0,
            Order::Lifo => length - 1,
            Order::Seed(seed) => spread(*seed, length, takes),
        }
    }
}

/// The factor of Knuth's linear congruential generator for words of 64 bits (MMIX), whose high bits are well spread.
const FACTOR: u64 = 6_364_136_223_846_793_005;

/// The place that a number spreads to: the upper 31 bits of a product of 64 bits, by the length.
fn spread(seed: u32, length: u32, takes: u64) -> u32
    requires { 0 < length }
    ensures value { result ≡ spread seed length takes }
    ensures below { result < length }
{
    let spread = (u64::from(seed) + 1)
        .wrapping_mul(takes.wrapping_add(1))
        .wrapping_mul(FACTOR);
    ((spread >> 33) % u64::from(length)) as u32
}

/// Law: the number of this crate, which the rule that spreads the takes is defined with, as Knuth's MMIX has it.
pub fn numbers_are_told()
    ensures { FACTOR ≡ 6364136223846793005 }
{}
