ghost use Rattle.std.specs.Prelude.{◌≡◌, ◌^◌, ◌↔◌, ℕ, ℤ, pos, ◌+ℤ◌, ◌-ℤ◌, ◌≤ℤ◌, IsSome, IfSome};
ghost use Rattle.directed_fixed.specs.Bounds.{IsWithinUnits};

use crate::fixed::Fixed;

/// What a word is above the number of units that it stands for.
pub const WORD_OFFSET: i64 = 1 << 36;

/// The word that stands for a value of at most 2 ^ 36 units on either side of 0.
pub fn to_word(value: Fixed) -> u64
    requires { IsWithinUnits (pos (2 ^ 36)) value }
    ensures { pos result ≡ value +ℤ pos (2 ^ 36) }
{
    (value.units() + WORD_OFFSET) as u64
}

/// The value that a word stands for. `None` exactly where it lies outside the bound, which is from 0 to 2 ^ 36 units.
/// `Fixed::of_word` is for words that are known to stand for a value.
pub fn from_word(word: u64, bound: Fixed) -> Option<Fixed>
    requires from { pos 0 ≤ℤ bound }
    requires to { bound ≤ℤ pos (2 ^ 36) }
    ensures within { IsSome result ↔ IsWithinUnits bound (pos word -ℤ pos (2 ^ 36)) }
    ensures value { IfSome result (λ value. value ≡ pos word -ℤ pos (2 ^ 36)) }
{
    if word > 1 << 37 {
        return None;
    }
    let units = word as i64 - WORD_OFFSET;
    if units < -bound.units() || units > bound.units() {
        return None;
    }
    Fixed::new(units)
}
