ghost use Rattle.std.specs.Prelude.{◌≡◌, ◌≢◌, ◌^◌, ◌↔◌, ℤ, pos, IsFalse, IsTrue, None, Some};
ghost use Rattle.directed_fixed.specs.Bounds.{IsWithinUnits};
ghost use Rattle.column_sums.specs.Cascade.{or_max, or_value};
ghost use Rattle.column_sums.specs.Worths.{AreSmallWorths};

use directed_fixed::Fixed;
use std::marker::Model;

/// A value of at most 2 ^ 36 units on either side of 0, or none.
#[derive(Clone, Copy)]
pub(crate) struct Best {
    value: Fixed,
}

impl Model for Best {
    ghost use Rattle.std.specs.Prelude.{ℤ, Option};
    ghost use Rattle.column_sums.specs.Bests.{best_of, units_of, IsSmall};

    ghost Value = { Option ℤ };

    ghost view = { λ a. best_of a.value };

    ghost invariant = { λ a. IsSmall (best_of a.value) };

    ghost inverse = { λ z. record { value = units_of z } };
}

impl Best {
    /// No value.
    #[inline]
    pub(crate) fn missing() -> Best
        ensures { result ≡ None }
    {
        Best {
            value: Fixed::new(-(1 << 56)).unwrap(),
        }
    }

    /// A value.
    #[inline]
    pub(crate) fn of(value: Fixed) -> Best
        requires { IsWithinUnits (pos (2 ^ 36)) value }
        ensures { result ≡ Some value }
    {
        Best { value }
    }

    /// The greater of the two, or the one that there is.
    #[inline]
    pub(crate) fn max(self, other: Best) -> Best
        ensures { result ≡ or_max self other }
    {
        Best {
            value: self.value.max(other.value),
        }
    }

    /// Whether there is no value.
    #[inline]
    pub(crate) fn is_missing(self) -> bool
        ensures { IsTrue result ↔ (self ≡ None) }
    {
        self.value.units() == -(1 << 56)
    }

    /// This value, or the other where this one is missing.
    #[inline]
    pub(crate) fn or(self, other: Fixed) -> Fixed
        requires { IsWithinUnits (pos (2 ^ 36)) other }
        ensures value { result ≡ or_value self other }
        ensures within { IsWithinUnits (pos (2 ^ 36)) result }
    {
        if self.value.units() == -(1 << 56) {
            other
        } else {
            self.value
        }
    }
}

/// What something is worth by lower words, and by upper ones.
#[derive(Clone, Copy)]
pub struct Worths {
    pub lower: Fixed,
    pub upper: Fixed,
}

/// What is best by lower words, and by upper ones.
#[derive(Clone, Copy)]
pub(crate) struct Bests {
    pub(crate) lower: Best,
    pub(crate) upper: Best,
}

impl Bests {
    /// No value at either end.
    #[inline]
    pub(crate) fn missing() -> Bests
        ensures lower { result.lower ≡ None }
        ensures upper { result.upper ≡ None }
    {
        Bests {
            lower: Best::missing(),
            upper: Best::missing(),
        }
    }

    /// A value at each end.
    #[inline]
    pub(crate) fn of(worths: Worths) -> Bests
        requires { AreSmallWorths worths }
        ensures lower { result.lower ≡ Some worths.lower }
        ensures upper { result.upper ≡ Some worths.upper }
    {
        Bests {
            lower: Best::of(worths.lower),
            upper: Best::of(worths.upper),
        }
    }

    /// At each end the greater of the two, or the one that there is.
    #[inline]
    pub(crate) fn max(self, other: Bests) -> Bests
        ensures lower { result.lower ≡ or_max self.lower other.lower }
        ensures upper { result.upper ≡ or_max self.upper other.upper }
    {
        Bests {
            lower: self.lower.max(other.lower),
            upper: self.upper.max(other.upper),
        }
    }

    /// At each end this value, or the other where this one is missing.
    #[inline]
    pub(crate) fn or(self, other: Worths) -> Worths
        requires { AreSmallWorths other }
        ensures lower { result.lower ≡ or_value self.lower other.lower }
        ensures upper { result.upper ≡ or_value self.upper other.upper }
        ensures small { AreSmallWorths result }
    {
        Worths {
            lower: self.lower.or(other.lower),
            upper: self.upper.or(other.upper),
        }
    }
}
