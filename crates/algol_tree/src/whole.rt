ghost use Rattle.std.specs.Prelude.{◌≡◌, ◌≤◌, nat_le, unsigned_abs, if◌then◌else◌, pos, Some, None};
ghost use Rattle.b67_num.specs.Whole.{most};

use b67_num::MOST;
use std::marker::Model;

/// A whole number of the machine, which contracts see as a number: its magnitude is at most [`MOST`](b67_num::MOST).
#[derive(Clone, Copy, PartialEq, Eq)]
pub struct Whole {
    number: i64,
}

impl Model for Whole {
    ghost use Rattle.std.specs.Prelude.{ℤ, ◌≤◌, unsigned_abs};
    ghost use Rattle.b67_num.specs.Whole.{most};

    ghost Value = { ℤ };

    ghost view = { λ w. w.number };

    ghost invariant = { λ w. unsigned_abs w.number ≤ most };

    ghost inverse = { λ z. record { number = z } };
}

impl Whole {
    /// The whole number 0.
    pub fn zero() -> Whole
        ensures { result ≡ pos 0 }
    {
        Whole { number: 0 }
    }

    /// The whole number with this value, none where its magnitude is too great.
    pub fn of(number: i64) -> Option<Whole>
        ensures { result ≡ if nat_le (unsigned_abs number) most then Some number else None }
    {
        if -MOST <= number && number <= MOST {
            Some(Whole { number })
        } else {
            None
        }
    }

    /// A number that is small enough.
    pub fn fitting(number: i64) -> Whole
        requires { unsigned_abs number ≤ most }
        ensures { result ≡ number }
    {
        Whole { number }
    }

    /// The number.
    pub fn number(self) -> i64
        ensures value { result ≡ self }
        ensures fits { unsigned_abs result ≤ most }
    {
        self.number
    }
}
