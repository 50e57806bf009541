ghost use Rattle.std.specs.Prelude.{◌≡◌, ◌^◌, ℕ, ℤ, pos, neg_ℤ, ◌≤ℤ◌};

use crate::fixed::Fixed;
use std::marker::Model;

/// One of the two ends of a pair.
#[derive(Clone, Copy)]
pub enum End {
    Lower,
    Upper,
}

/// A lower and an upper bound of a value, the lower at most the upper.
#[derive(Clone, Copy)]
pub struct Pair {
    lower: Fixed,
    upper: Fixed,
}

impl Model for Pair {
    ghost use Rattle.std.specs.Prelude.{◌≤ℤ◌};
    ghost use Rattle.directed_fixed.specs.Bounds.{Bounds};

    ghost Value = { Bounds };

    ghost view = { λ a. record { lower = a.lower; upper = a.upper } };

    ghost invariant = { λ a. a.lower ≤ℤ a.upper };

    ghost inverse = { λ b. record { lower = b.lower; upper = b.upper } };
}

impl Default for Pair {
    ghost use Rattle.directed_fixed.specs.Bounds.{at_zero};

    ghost is_default = { λ pair. pair ≡ at_zero };

    /// Both ends 0.
    fn default() -> Self {
        Pair::exactly(Fixed::whole(0))
    }
}

impl Pair {
    ghost use Rattle.directed_fixed.specs.Bounds.{Bounds, negated};

    /// The pair of these two ends.
    pub fn new(lower: Fixed, upper: Fixed) -> Pair
        requires { lower ≤ℤ upper }
        ensures { result ≡ record { lower = lower; upper = upper } }
    {
        Pair { lower, upper }
    }

    /// The pair whose two ends are this value.
    pub fn exactly(value: Fixed) -> Pair
        ensures { result ≡ record { lower = value; upper = value } }
    {
        Pair {
            lower: value,
            upper: value,
        }
    }

    /// The lower bound.
    pub fn lower(self) -> Fixed
        ensures lower { result ≡ self.lower }
        ensures in_order { self.lower ≤ℤ self.upper }
    {
        self.lower
    }

    /// The upper bound.
    pub fn upper(self) -> Fixed
        ensures upper { result ≡ self.upper }
        ensures in_order { self.lower ≤ℤ self.upper }
    {
        self.upper
    }

    /// The pair of the other side, for which the value counts the other way: the ends negated and exchanged.
    pub fn neg(self) -> Pair
        ensures { result ≡ negated self }
    {
        Pair {
            lower: self.upper.neg(),
            upper: self.lower.neg(),
        }
    }
}
