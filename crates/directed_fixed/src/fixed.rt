ghost use Rattle.std.specs.Prelude.{◌≡◌, ◌^◌, ◌↔◌, ℕ, ℤ, pos, neg_ℤ, ◌+ℤ◌, ◌-ℤ◌, ◌*ℤ◌, ◌≤ℤ◌, IsSome, IfSome};
ghost use Rattle.std.specs.Int.{int_max, int_min};
ghost use Rattle.directed_fixed.specs.Bounds.{IsWithinUnits};

use crate::word::WORD_OFFSET;
use std::marker::Model;

/// The units of one point.
pub const ONE: i64 = 1 << 32;

/// A value, in units of 2 ^ -32 of a point, at most 2 ^ 56 of them on either side of 0.
#[derive(Clone, Copy)]
pub struct Fixed {
    units: i64,
}

impl Model for Fixed {
    ghost Value = { ℤ };

    ghost view = { λ a. a.units };

    ghost invariant = { λ a. IsWithinUnits (pos (2 ^ 56)) a.units };

    ghost inverse = { λ z. record { units = z } };
}

impl Fixed {
    /// `None` exactly where there are more than 2 ^ 56 units.
    pub fn new(units: i64) -> Option<Fixed>
        ensures within { IsSome result ↔ IsWithinUnits (pos (2 ^ 56)) units }
        ensures value { IfSome result (λ value. value ≡ units) }
    {
        if units < -(1 << 56) || units > 1 << 56 {
            return None;
        }
        Some(Fixed { units })
    }

    /// So many whole points, or points lost where the number is negative.
    pub fn whole(points: i8) -> Fixed
        ensures { result ≡ (pos (2 ^ 32) *ℤ points) }
    {
        Fixed {
            units: (1 << 32) * i64::from(points),
        }
    }

    /// How many units.
    pub fn units(self) -> i64
        ensures value { result ≡ self }
        ensures within { IsWithinUnits (pos (2 ^ 56)) self }
    {
        self.units
    }

    /// The same number of units on the other side of 0.
    pub fn neg(self) -> Fixed
        ensures { result ≡ neg_ℤ self }
    {
        Fixed { units: -self.units }
    }

    /// The sum.
    pub fn add(self, other: Fixed) -> Fixed
        requires { IsWithinUnits (pos (2 ^ 56)) (self +ℤ other) }
        ensures { result ≡ self +ℤ other }
    {
        Fixed {
            units: self.units + other.units,
        }
    }

    /// The value so many times.
    pub fn times(self, times: u32) -> Fixed
        requires { IsWithinUnits (pos (2 ^ 56)) (pos times *ℤ self) }
        ensures { result ≡ (pos times *ℤ self) }
    {
        Fixed {
            units: i64::from(times) * self.units,
        }
    }

    /// The value that a word stands for.
    #[inline]
    pub fn of_word(word: u64) -> Fixed
        requires { IsWithinUnits (pos (2 ^ 56)) (pos word -ℤ pos (2 ^ 36)) }
        ensures { result ≡ (pos word -ℤ pos (2 ^ 36)) }
    {
        Fixed {
            units: word as i64 - WORD_OFFSET,
        }
    }

    /// The greater of the two.
    pub fn max(self, other: Fixed) -> Fixed
        ensures { result ≡ int_max self other }
    {
        if self.units < other.units {
            other
        } else {
            self
        }
    }

    /// The smaller of the two.
    pub fn min(self, other: Fixed) -> Fixed
        ensures { result ≡ int_min self other }
    {
        if self.units < other.units {
            self
        } else {
            other
        }
    }
}
